//! Reads a whole file.
ghost use Rattle.std.specs.Prelude.{◌≡◌};
ghost use Rattle.grammar.specs.Reading.{read};
ghost use Rattle.lef_reader.specs.File as spec;
ghost use Rattle.lef_reader.specs.MacroActions.{no_macro};
ghost use Rattle.lef_reader.specs.MacroGrammar.{macro_body};
ghost use Rattle.lef_reader.specs.Promise.{IsRead};
ghost use Rattle.lef_reader.specs.Steps.{rest};
ghost use Rattle.lef_reader.specs.Turning.{Leads, Turns, Told};

use crate::halt::{Halt, Refusal};
use crate::lef_text::LefText;
use crate::macro_text::MacroText;
use crate::refused::told_refusal;
use crate::tokens::Tokens;
use crate::until::Opened;
use file_rules::at_token;
use std::alloc::Global;
use text_scan::{FileRefusal, Limits, Token};

fn told_halt(alloc: Global, source: &[u8], limits: &Limits, halt: Halt, token: Token) -> FileRefusal
    ensures { Told source.now limits.now halt token result }
{
    match halt {
        Halt::NoMemory => FileRefusal::NoMemory,
        Halt::Syntax => at_token(token),
        Halt::Refused(refusal) => told_refusal(alloc, source, limits, refusal, token),
    }
}

impl LefText {
    // Reads the macro of this name.
    fn read_macro(
        &mut self,
        alloc: Global,
        source: &[u8],
        limits: &Limits,
        name: Token,
        tokens: &mut Tokens<'_>,
    ) -> Result<(), FileRefusal>
        ensures { Leads result (spec.after_macro source.now limits.now name self.old (read (macro_body source.now limits.now name) no_macro (rest tokens.old))) self.new (rest tokens.new) }
    {
        let mut text = MacroText::new(alloc);
        match text.body(alloc, source, limits, name, tokens) {
            Ok(()) => {
                self.add_whole(alloc, source, name, text)?;
                Ok(())
            }
            Err(Halt::Syntax) => self.refuse_at(alloc, source, name, tokens),
            Err(Halt::Refused(Refusal::OtherEnd)) => {
                self.refuse_at_end(alloc, source, name, tokens)
            }
            Err(halt) => Err(told_halt(alloc, source, limits, halt, tokens.ahead)),
        }
    }

    // Reads one thing outside macros, or a macro. Whether the file goes on is told.
    fn turn(
        &mut self,
        alloc: Global,
        source: &[u8],
        limits: &Limits,
        tokens: &mut Tokens<'_>,
    ) -> Result<bool, FileRefusal>
        ensures { Turns source.now limits.now self.old (rest tokens.old) result self.new (rest tokens.new) }
    {
        match tokens.outside(source, limits, self) {
            Err(halt) => Err(told_halt(alloc, source, limits, halt, tokens.ahead)),
            Ok(Opened::End) => Ok(false),
            Ok(Opened::Nothing) => Ok(true),
            Ok(Opened::Section(closing)) => match tokens.go_behind(source, closing, false) {
                Err(refusal) => Err(refusal),
                Ok(()) => Ok(true),
            },
            Ok(Opened::Macro(name)) => match self.read_macro(alloc, source, limits, name, tokens) {
                Err(refusal) => Err(refusal),
                Ok(()) => Ok(true),
            },
        }
    }
}

/// The macros of a text.
pub fn read_file(alloc: Global, source: &[u8], limits: &Limits) -> Result<LefText, FileRefusal>
    ensures { IsRead source.now limits.now result }
{
    let mut lef = LefText::new(alloc);
    let mut tokens = Tokens::new(source);
    'turns: loop {
        match lef.turn(alloc, source, limits, &mut tokens) {
            Err(refusal) => return Err(refusal),
            Ok(false) => return Ok(lef),
            Ok(true) => {}
        }
    }
}
