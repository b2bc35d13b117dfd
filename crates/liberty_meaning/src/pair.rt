//! The two state variables of a flip-flop or a latch.
ghost use Rattle.std.specs.Prelude.{◌≡◌};
ghost use Rattle.tern_core.specs.Values.{not_of};
ghost use Rattle.liberty_meaning.specs.Pairs as spec;

use liberty_source::Both;
use tern_core::{Tern, common, not};

/// Both state variables.
#[derive(Clone, Copy)]
pub(crate) struct Pair {
    pub(crate) first: Tern,
    pub(crate) second: Tern,
}

fn taken_in(value: Tern) -> Pair
    ensures { result ≡ spec.taken_in value }
{
    Pair {
        first: value,
        second: not(value),
    }
}

fn common_pair(one: Pair, other: Pair) -> Pair
    ensures { result ≡ spec.common_pair one other }
{
    Pair {
        first: common(one.first, other.first),
        second: common(one.second, other.second),
    }
}

/// After a clock that was `before` and is `after`.
pub(crate) fn clocked_pair(before: Tern, after: Tern, next: Tern, old: Pair) -> Pair
    ensures { result ≡ spec.clocked_pair before after next old }
{
    match (before, after) {
        (Tern::Zero, Tern::One) => taken_in(next),
        (Tern::Zero, Tern::Unknown) | (Tern::Unknown, Tern::One) => {
            common_pair(taken_in(next), old)
        }
        _ => old,
    }
}

pub(crate) fn latched_pair(enable: Tern, value: Tern, old: Pair) -> Pair
    ensures { result ≡ spec.latched_pair enable value old }
{
    match enable {
        Tern::One => taken_in(value),
        Tern::Zero => old,
        Tern::Unknown => common_pair(taken_in(value), old),
    }
}

fn both_value(both: Both, old: Tern) -> Tern
    ensures { result ≡ spec.both_value both old }
{
    match both {
        Both::Low => Tern::Zero,
        Both::High => Tern::One,
        Both::Keep => old,
        Both::Unknown => Tern::Unknown,
    }
}

/// The value of a control that is inactive, active, or one of both.
fn chosen(control: Tern, inactive: Tern, active: Tern) -> Tern
    ensures { result ≡ spec.chosen control inactive active }
{
    match control {
        Tern::Zero => inactive,
        Tern::One => active,
        Tern::Unknown => common(inactive, active),
    }
}

/// A variable under the controls: without them it is `neither`, cleared it is `cleared`, preset its inverse.
#[tactic(auto, using(crate::proofs::Controls::chosen_twice))]
fn controlled(clear: Tern, preset: Tern, neither: Tern, cleared: Tern, both: Tern) -> Tern
    ensures { result ≡ spec.controlled clear preset (record { neither = neither; cleared = cleared; preset = not_of cleared; both = both }) }
{
    chosen(
        clear,
        chosen(preset, neither, not(cleared)),
        chosen(preset, cleared, both),
    )
}

pub(crate) fn controlled_pair(
    clear: Tern,
    preset: Tern,
    both: [Both; 2],
    old: Pair,
    pair: Pair,
) -> Pair
    ensures { result ≡ spec.controlled_pair clear preset (spec.both_at both 0) (spec.both_at both 1) old pair }
{
    Pair {
        first: controlled(
            clear,
            preset,
            pair.first,
            Tern::Zero,
            both_value(both[0], old.first),
        ),
        second: controlled(
            clear,
            preset,
            pair.second,
            Tern::One,
            both_value(both[1], old.second),
        ),
    }
}
