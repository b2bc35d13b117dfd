ghost use Rattle.std.specs.Prelude.{◌≡◌};

use tern_core::Tern;

/// A set of states.
#[derive(Clone, Copy, Debug, PartialEq, Eq)]
pub(crate) struct States {
    zero: bool,
    one: bool,
    unknown: bool,
}

impl States {
    ghost use Rattle.udp_table.specs.Subsets.{has, none, only, union, common_state};

    pub(crate) fn none() -> States
        ensures { result ≡ none }
    {
        States {
            zero: false,
            one: false,
            unknown: false,
        }
    }

    pub(crate) fn only(state: Tern) -> States
        ensures { result ≡ only state }
    {
        match state {
            Tern::Zero => States {
                zero: true,
                ..States::none()
            },
            Tern::One => States {
                one: true,
                ..States::none()
            },
            Tern::Unknown => States {
                unknown: true,
                ..States::none()
            },
        }
    }

    pub(crate) fn has(self, state: Tern) -> bool
        ensures { result ≡ has self state }
    {
        match state {
            Tern::Zero => self.zero,
            Tern::One => self.one,
            Tern::Unknown => self.unknown,
        }
    }

    pub(crate) fn union(self, other: States) -> States
        ensures { result ≡ union self other }
    {
        States {
            zero: self.zero || other.zero,
            one: self.one || other.one,
            unknown: self.unknown || other.unknown,
        }
    }

    /// The one state of the set, or X where it has several.
    pub(crate) fn common(self) -> Tern
        ensures { result ≡ common_state self }
    {
        match (self.zero, self.one, self.unknown) {
            (true, false, false) => Tern::Zero,
            (false, true, false) => Tern::One,
            _ => Tern::Unknown,
        }
    }
}
