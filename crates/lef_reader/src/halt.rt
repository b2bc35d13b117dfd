//! Why reading stops.
use text_scan::NoMemory;

/// What an action refuses: the file, or the macro in which the token stands.
#[derive(Clone, Copy, Debug)]
pub enum Refusal {
    /// The file: there may be no macro more.
    TooManyMacros,
    /// The file: the name is too long.
    LongName,
    /// The file: the second use of a name.
    DoubleName,
    /// The macro: the word behind `END` isn't the name that `END` stands for.
    OtherEnd,
}

/// A reader that halts stands before the token at which it halts.
#[derive(Clone, Copy, Debug)]
pub enum Halt {
    NoMemory,
    /// The grammar can't go on with the token.
    Syntax,
    Refused(Refusal),
}

impl From<NoMemory> for Halt {
    ghost use Rattle.std.specs.Prelude.{◌≡◌};
    ghost use Rattle.lef_reader.specs.declared.halt.Halt.TheVariants as halts;

    ghost from_gives = { λ _ halt. halt ≡ halts.NoMemory };

    fn from(_: NoMemory) -> Self {
        Halt::NoMemory
    }
}
