//! Reads the statements of a whole text.
ghost use Rattle.std.specs.Prelude.{◌≡◌, ◌<◌, ◌+◌, ◌^◌};
ghost use Rattle.text_scan.specs.Left.{is_end};
ghost use Rattle.grammar.specs.Answers.{read_all};
ghost use Rattle.liberty_statements.specs.Answer as spec;
ghost use Rattle.liberty_statements.specs.Does.{beginning, nothing};
ghost use Rattle.file_rules.specs.Told.{Agrees, Tells};

use crate::halt::{Halt, Refusal};
use crate::machine::{Machine, Phase};
use crate::statements::Statements;
use file_rules::{at_token, too_many};
use liberty_tokens::content;
use std::alloc::Global;
use text_scan::{Cursor, FileRefusal, Kind, Limits, Style, Token};

fn double_name(alloc: Global, source: &[u8], token: Token) -> FileRefusal
    ensures { Tells result (spec.double source.now token) }
{
    match content(alloc, source, token) {
        Ok(name) => FileRefusal::DoubleName {
            name,
            line: token.span.line,
        },
        Err(_) => FileRefusal::NoMemory,
    }
}

// What is told where the reader halts at this token.
fn halted(alloc: Global, source: &[u8], limits: &Limits, halt: Halt, token: Token) -> FileRefusal
    ensures { Tells result (spec.halted source.now limits.now halt token) }
{
    match halt {
        Halt::NoMemory => FileRefusal::NoMemory,
        Halt::Syntax => at_token(token),
        Halt::Refused(Refusal::TooMany(kind)) => too_many(limits, kind),
        Halt::Refused(Refusal::BadName(name)) => at_token(name),
        Halt::Refused(Refusal::DoubleName(name)) => double_name(alloc, source, name),
    }
}

impl Machine {
    fn new(alloc: Global, nesting: u32) -> Machine
        ensures { result ≡ beginning nesting }
    {
        Machine {
            phase: Phase::Title,
            depth: 0,
            room: nesting,
            statements: Statements::new(alloc),
        }
    }

    fn into_statements(self) -> Statements
        ensures { result ≡ self.statements }
    {
        let Machine {
            phase: _,
            depth: _,
            room: _,
            statements,
        } = self;
        statements
    }
}

fn is_end(token: Token) -> bool
    ensures { result ≡ is_end token.kind }
{
    matches!(token.kind, Kind::End)
}

/// The statements of a library's text.
pub fn read_statements(
    alloc: Global,
    source: &[u8],
    limits: &Limits,
) -> Result<Statements, FileRefusal>
    requires { limits.now.nesting + 1 < 2 ^ 32 }
    ensures { Agrees result (spec.told source.now limits.now spec.same (read_all (spec.library_file source.now limits.now) nothing (spec.file_tokens source.now))) }
{
    let mut machine = Machine::new(alloc, limits.nesting);
    let mut cursor = Cursor::new(source, Style::Liberty);
    let mut token = cursor.next_token();
    'tokens: while !is_end(token) {
        if let Err(halt) = machine.take(alloc, source, limits, token) {
            return Err(halted(alloc, source, limits, halt, token));
        }
        token = cursor.next_token();
    }
    if let Err(halt) = machine.take(alloc, source, limits, token) {
        return Err(halted(alloc, source, limits, halt, token));
    }
    Ok(machine.into_statements())
}
