ghost use Rattle.std.specs.Prelude.{◌≡◌, ◌≤◌, ◌<◌, ◌^◌, ◌*◌, ◌/◌, ◌%◌, ◌==◌, ℕ, All, length, take};
ghost use Rattle.udp_table.specs.Orders.{changed_inputs, change_of};
ghost use Rattle.udp_table.specs.Reached.{times, AreEndsBelow};
ghost use Rattle.udp_table.specs.Subsets.{none, members, levels_after, next_from, next_states, gathered};

use crate::answer::answer;
use crate::row::Row;
use crate::states::States;
use crate::symbol::differ;
use tern_core::Tern;

/// The most inputs that can change.
const WIDTH: usize = 10;

/// The number of subsets of so many inputs.
const SUBSETS: usize = 1024;

/// Room for `Udp::change`. It takes no memory, and what it holds between two calls is of no matter.
#[derive(Debug, Drop)]
pub struct OrderRoom {
    /// The inputs that change, least first.
    changed: [usize; WIDTH],
    /// For each subset of them the states in which its orders end. The lowest bit of a subset's
    /// number tells of the first of the inputs.
    places: [States; SUBSETS],
}

impl OrderRoom {
    pub fn new() -> OrderRoom {
        OrderRoom {
            changed: [0; WIDTH],
            places: [States::none(); SUBSETS],
        }
    }

    /// The common value of the states in which the orders of the inputs that differ end.
    pub(crate) fn common_end(
        &mut self,
        rows: &[Row],
        old: &[Tern],
        new: &[Tern],
        state: Tern,
    ) -> Tern
        requires same { length old.now ≡ length new.now }
        requires few { length old.now ≤ 10 }
        ensures { result ≡ change_of rows.now old.now new.now state }
    {
        let count = changed(old, new, &mut self.changed);
        let inputs = &self.changed[..count];
        fill(rows, inputs, old, new, state, &mut self.places);
        self.places[(1 << count) - 1].common()
    }
}

/// The inputs that differ, least first, and their number.
fn changed(old: &[Tern], new: &[Tern], changed: &mut [usize; WIDTH]) -> usize
    requires same { length old.now ≡ length new.now }
    requires few { length old.now ≤ 10 }
    ensures room { length changed.new ≡ 10 }
    ensures number { result ≤ 10 }
    ensures inputs { take result changed.new ≡ changed_inputs old.now new.now }
{
    let mut count = 0;
    for input in 0..old.len() {
        if differ(old[input], new[input]) {
            changed[count] = input;
            count += 1;
        }
    }
    count
}

/// Whether the input at this place of the changed ones is in the subset.
fn holds(subset: usize, place: usize) -> bool
    requires { place < 64 }
    ensures { result ≡ (subset / 2 ^ place % 2 == 1) }
{
    (subset >> place) % 2 == 1
}

/// The levels where the inputs of the subset have their new values.
fn levels(subset: usize, changed: &[usize], old: &[Tern], new: &[Tern]) -> [Tern; WIDTH]
    requires few { length old.now ≤ 10 }
    requires same { length old.now ≡ length new.now }
    requires small { length changed.now ≤ 10 }
    requires inputs { All (λ input. input < length old.now) changed.now }
    ensures { take (length old.now) result ≡ levels_after (members changed.now subset) new.now old.now }
{
    let mut levels = [Tern::Unknown; WIDTH];
    levels[..old.len()].copy_from_slice(old);
    for (place, input) in changed.iter().enumerate() {
        if holds(subset, place) {
            levels[*input] = new[*input];
        }
    }
    levels
}

/// What this state changes to, if it is in the set.
fn next_from(
    rows: &[Row],
    input: usize,
    old: Tern,
    levels: &[Tern],
    states: States,
    state: Tern,
) -> States
    requires { input < length levels.now }
    ensures { result ≡ next_from rows.now input old levels.now states state }
{
    if states.has(state) {
        States::only(answer(rows, input, old, levels, state))
    } else {
        States::none()
    }
}

/// What the states of the set change to.
fn next_states(rows: &[Row], input: usize, old: Tern, levels: &[Tern], states: States) -> States
    requires { input < length levels.now }
    ensures { result ≡ next_states rows.now input old levels.now states }
{
    let zero = next_from(rows, input, old, levels, states, Tern::Zero);
    let one = next_from(rows, input, old, levels, states, Tern::One);
    let unknown = next_from(rows, input, old, levels, states, Tern::Unknown);
    zero.union(one.union(unknown))
}

/// The states that the orders of a subset end in: one of its inputs changes last, after the others,
/// whose states stand at the place of the subset without it.
fn reached(
    rows: &[Row],
    subset: usize,
    changed: &[usize],
    old: &[Tern],
    levels: &[Tern],
    places: &[States],
) -> States
    requires small { length changed.now ≤ 10 }
    requires inputs { All (λ input. input < length old.now) changed.now }
    requires same { length levels.now ≡ length old.now }
    requires room { subset < length places.now }
    ensures { result ≡ gathered rows.now old.now levels.now places.now subset changed.now subset 1 none }
{
    let mut reached = States::none();
    for (place, input) in changed.iter().enumerate() {
        if holds(subset, place) {
            let before = places[subset - (1 << place)];
            reached = reached.union(next_states(rows, *input, old[*input], levels, before));
        }
    }
    reached
}

/// For each subset of the inputs that change, the states in which its orders end.
fn fill(
    rows: &[Row],
    changed: &[usize],
    old: &[Tern],
    new: &[Tern],
    state: Tern,
    places: &mut [States; SUBSETS],
)
    requires same { length old.now ≡ length new.now }
    requires few { length old.now ≤ 10 }
    requires small { length changed.now ≤ 10 }
    requires inputs { All (λ input. input < length old.now) changed.now }
    requires once { (input : ℕ) → times input changed.now ≤ 1 }
    ensures room { length places.new ≡ 1024 }
    ensures ends { AreEndsBelow rows.now old.now new.now state changed.now places.new (2 ^ length changed.now) }
{
    places[0] = States::only(state);
    for subset in 1..1 << changed.len() {
        let levels = levels(subset, changed, old, new);
        let levels = &levels[..old.len()];
        places[subset] = reached(rows, subset, changed, old, levels, places);
    }
}
