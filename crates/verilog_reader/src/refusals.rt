//! How a refusal of the file is told.
ghost use Rattle.std.specs.Prelude.{◌≡◌, ◌∷◌, []};
ghost use Rattle.verilog_reader.specs.Refusals as spec;
ghost use Rattle.file_rules.specs.Told.{Tells};

use file_rules::{at_token, too_many};
use std::alloc::Global;
use text_scan::{FileRefusal, LimitKind, Limits, Text, Token};
use verilog_directives::{Left, Role};
use verilog_looks::{Refusal, content};

/// What is told of an item that may not stand where it stands.
pub fn item_refusal(limits: &Limits, item: &Left) -> FileRefusal
    ensures { result ≡ spec.item_refusal limits.now item.now }
{
    match item.role {
        Role::Plain | Role::Macro | Role::Misplaced => at_token(item.token),
        Role::TooDeep => too_many(limits, LimitKind::Nesting),
        Role::LongName => too_many(limits, LimitKind::Name),
    }
}

fn double_name(alloc: Global, source: &[u8], token: Token) -> FileRefusal
    ensures { Tells result (spec.double_name source.now token) }
{
    match Text::from_bytes(alloc, content(source, token)) {
        Ok(name) => FileRefusal::DoubleName {
            name,
            line: token.span.line,
        },
        Err(_) => FileRefusal::NoMemory,
    }
}

/// What is told of what an action refuses at an item.
pub fn told_refusal(
    alloc: Global,
    source: &[u8],
    limits: &Limits,
    refusal: Refusal,
    item: &Left,
) -> FileRefusal
    ensures { Tells result (spec.told_refusal source.now limits.now refusal (item.now ∷ [])) }
{
    match refusal {
        Refusal::TooMany(kind) => too_many(limits, kind),
        Refusal::BadName(token) => at_token(token),
        Refusal::DoubleName(token) => double_name(alloc, source, token),
        Refusal::Here => item_refusal(limits, item),
        Refusal::NoDirection(_) => item_refusal(limits, item),
    }
}
