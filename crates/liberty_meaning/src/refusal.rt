//! Why a cell has no behaviour.
ghost use Rattle.std.specs.Prelude.{◌≡◌};

use text_scan::{NoMemory, Text};

/// The first thing in a cell that has no meaning.
#[derive(Debug, Drop)]
pub enum MeaningRefusal {
    NoMemory,
    /// A name that no input pin, internal pin or state variable has, a column that is no input pin, or an
    /// `internal_node` that is no node.
    UnknownName(Text),
    /// The text of a pin or an attribute is no function: the number of bytes before the token that cannot follow.
    BadFunction { owner: Text, place: u32 },
    /// The row of a `statetable`, counted from 1.
    BadStateRow(u32),
    /// An `ff` without `next_state` or `clocked_on`, or a `latch` with just one of `enable` and `data_in`.
    Construct { word: Text, line: u32 },
}

impl From<NoMemory> for MeaningRefusal {
    ghost use Rattle.liberty_meaning.specs.declared.refusal.MeaningRefusal.TheVariants as refusal;

    ghost from_gives = { λ _ e. e ≡ refusal.NoMemory };

    fn from(_: NoMemory) -> Self {
        MeaningRefusal::NoMemory
    }
}
