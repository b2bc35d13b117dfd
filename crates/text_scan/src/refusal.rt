//! Why a file is refused.
ghost use Rattle.std.specs.Prelude.{◌≡◌, Some};
ghost use Rattle.text_scan.specs.declared.refusal.FileRefusal.TheVariants as refusals;
ghost use Rattle.text_scan.specs.Refusals.{printed, refusal_words};

use crate::limits::LimitKind;
use crate::memory::NoMemory;
use crate::text::Text;
use std::error::Error;
use std::fmt;

/// The first thing in a file for which it is refused. It prints as a refusal line says it, without the file.
#[derive(Debug, Drop)]
pub enum FileRefusal {
    NoMemory,
    /// Nothing that the file's grammar allows goes on with the token at this line and column.
    Syntax { line: u32, column: u32 },
    /// There are more of a kind than this number.
    TooMany { kind: LimitKind, number: u32 },
    /// A name stands a second time, on this line.
    DoubleName { name: Text, line: u32 },
}

impl fmt::Display for FileRefusal {
    ghost output = { λ refusal. Some (refusal_words printed refusal) };

    fn fmt<W: fmt::Write>(&self, f: &mut fmt::Formatter<W>) -> fmt::Result {
        match self {
            FileRefusal::NoMemory => f.write_str("no memory"),
            FileRefusal::Syntax { line, column } => {
                write!(f, "syntax line {line} column {column}")
            }
            FileRefusal::TooMany { kind, number } => write!(f, "too many {kind} {number}"),
            FileRefusal::DoubleName { name, line } => write!(f, "double name {name} line {line}"),
        }
    }
}

impl Error for FileRefusal {}

impl From<NoMemory> for FileRefusal {
    ghost from_gives = { λ _ refusal. refusal ≡ refusals.NoMemory };

    fn from(_: NoMemory) -> Self {
        FileRefusal::NoMemory
    }
}
