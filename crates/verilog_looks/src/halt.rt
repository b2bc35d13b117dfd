//! Why reading stops.
use text_scan::{LimitKind, NoMemory, Text, Token};

/// What an action refuses: the file, or the part in which it stands.
#[derive(Debug, Drop)]
pub enum Refusal {
    /// The file: there are too many.
    TooMany(LimitKind),
    /// The file: the would-be name of a part.
    BadName(Token),
    /// The file: the second use of a name.
    DoubleName(Token),
    /// The part, at this item.
    Here,
    /// The module, at this item: the port of this name has no direction.
    NoDirection(Text),
}

#[derive(Debug, Drop)]
pub enum Halt {
    NoMemory,
    /// The item that was taken goes on with nothing that the grammar allows.
    Syntax,
    Refused(Refusal),
}

impl From<NoMemory> for Halt {
    ghost use Rattle.std.specs.Prelude.{◌≡◌};
    ghost use Rattle.verilog_looks.specs.declared.halt.Halt.TheVariants as halts;

    ghost from_gives = { λ _ halt. halt ≡ halts.NoMemory };

    fn from(_: NoMemory) -> Self {
        Halt::NoMemory
    }
}
