ghost use Rattle.std.specs.Prelude.{◌≡◌};
ghost use Rattle.udp_table.specs.Symbols.{covers, covers_change, differ, next_value, covers_all};

use tern_core::Tern;

/// What a row asks of an input's level or of the state (IEEE 1364-2005, 8.1.6).
#[derive(Clone, Copy, Debug, PartialEq, Eq)]
pub enum LevelSymbol {
    /// `0`, `1` or `x`.
    Only(Tern),
    /// `b`: 0 or 1.
    Binary,
    /// `?`: 0, 1 or x.
    Any,
}

/// What an edge row asks of the change of its input.
#[derive(Clone, Copy, Debug, PartialEq, Eq)]
pub enum EdgeSymbol {
    /// `(vw)`: from what `v` covers to another value, which `w` covers.
    Between(LevelSymbol, LevelSymbol),
    /// `r`: from 0 to 1.
    Rising,
    /// `f`: from 1 to 0.
    Falling,
    /// `p`: from 0 to 1 or x, or from x to 1.
    PotentialRising,
    /// `n`: from 1 to 0 or x, or from x to 0.
    PotentialFalling,
    /// `*`: any change.
    AnyChange,
}

/// What a row gives.
#[derive(Clone, Copy, Debug, PartialEq, Eq)]
pub enum NextState {
    /// `0`, `1` or `x`.
    Becomes(Tern),
    /// `-`: the state stays as it is.
    Stays,
}

impl LevelSymbol {
    pub fn covers(self, value: Tern) -> bool
        ensures { result ≡ covers self value }
    {
        match (self, value) {
            (LevelSymbol::Any, _)
            | (LevelSymbol::Binary, Tern::Zero | Tern::One)
            | (LevelSymbol::Only(Tern::Zero), Tern::Zero)
            | (LevelSymbol::Only(Tern::One), Tern::One)
            | (LevelSymbol::Only(Tern::Unknown), Tern::Unknown) => true,
            _ => false,
        }
    }
}

impl EdgeSymbol {
    /// Whether the symbol covers the change. From a value to itself there is none.
    pub fn covers(self, old: Tern, new: Tern) -> bool
        ensures { result ≡ covers_change self old new }
    {
        match self {
            EdgeSymbol::Between(from, to) => differ(old, new) && from.covers(old) && to.covers(new),
            EdgeSymbol::Rising => matches!((old, new), (Tern::Zero, Tern::One)),
            EdgeSymbol::Falling => matches!((old, new), (Tern::One, Tern::Zero)),
            EdgeSymbol::PotentialRising => matches!(
                (old, new),
                (Tern::Zero, Tern::One | Tern::Unknown) | (Tern::Unknown, Tern::One)
            ),
            EdgeSymbol::PotentialFalling => matches!(
                (old, new),
                (Tern::One, Tern::Zero | Tern::Unknown) | (Tern::Unknown, Tern::Zero)
            ),
            EdgeSymbol::AnyChange => differ(old, new),
        }
    }
}

impl NextState {
    /// The value that the row gives in this state.
    pub fn value(self, state: Tern) -> Tern
        ensures { result ≡ next_value self state }
    {
        match self {
            NextState::Becomes(value) => value,
            NextState::Stays => state,
        }
    }
}

pub(crate) fn differ(old: Tern, new: Tern) -> bool
    ensures { result ≡ differ old new }
{
    match (old, new) {
        (Tern::Zero, Tern::Zero) | (Tern::One, Tern::One) | (Tern::Unknown, Tern::Unknown) => false,
        _ => true,
    }
}

/// Whether each symbol covers the value in its place, in lists of one length.
#[tactic(auto, using(crate::proofs::Covers::loops))]
pub fn cover(symbols: &[LevelSymbol], values: &[Tern]) -> bool
    ensures { result ≡ covers_all symbols.now values.now }
{
    if symbols.len() != values.len() {
        return false;
    }
    for (place, symbol) in symbols.iter().enumerate() {
        if !symbol.covers(values[place]) {
            return false;
        }
    }
    true
}
