//! Why reading stops.
use text_scan::{LimitKind, NoMemory, Token};

/// What an action refuses.
#[derive(Clone, Copy, Debug)]
pub enum Refusal {
    TooMany(LimitKind),
    /// The would-be name of the library or of a cell.
    BadName(Token),
    /// The second use of a name.
    DoubleName(Token),
}

#[derive(Clone, Copy, Debug)]
pub enum Halt {
    NoMemory,
    /// The token that was taken goes on with nothing that the grammar allows.
    Syntax,
    Refused(Refusal),
}

impl From<NoMemory> for Halt {
    ghost use Rattle.std.specs.Prelude.{◌≡◌};
    ghost use Rattle.liberty_statements.specs.declared.halt.Halt.TheVariants as halts;

    ghost from_gives = { λ _ halt. halt ≡ halts.NoMemory };

    fn from(_: NoMemory) -> Self {
        Halt::NoMemory
    }
}
