//! A compiled function: steps over a stack of values.
ghost use Rattle.std.specs.Prelude.{◌≡◌, [], ◌<◌, ◌≤◌, ◌+◌, true, length, ◌∷◌};
ghost use Rattle.liberty_function.specs.Compiling as spec;
ghost use Rattle.liberty_function.specs.Sources as sources;

use tern_core::{Tern, and, not, or, xor};

/// Where a value comes from: a constant, the place of an input pin, or the place of a state variable.
#[derive(Clone, Copy)]
pub enum Source {
    Zero,
    One,
    Unknown,
    Input(usize),
    State(usize),
}

#[derive(Clone, Copy)]
pub(crate) enum Step {
    Push(Source),
    Invert,
    Join(Join),
}

/// An operation on the two last values.
#[derive(Clone, Copy)]
pub(crate) enum Join {
    Exclusive,
    Both,
    Either,
}

/// The value at a place, unknown past the end.
pub fn value_at(values: &[Tern], k: usize) -> Tern
    ensures { result ≡ sources.value_at values.now k }
{
    match values.get(k) {
        Some(value) => *value,
        None => Tern::Unknown,
    }
}

/// The value of a source at these pins and this state.
pub fn source_value(pins: &[Tern], state: &[Tern], source: Source) -> Tern
    ensures { result ≡ sources.source_value pins.now state.now source }
{
    match source {
        Source::Zero => Tern::Zero,
        Source::One => Tern::One,
        Source::Unknown => Tern::Unknown,
        Source::Input(k) => value_at(pins, k),
        Source::State(k) => value_at(state, k),
    }
}

#[derive(Drop)]
/// The values that a program's steps leave, the last one at `held - 1`.
struct Stack {
    values: [Tern; 196],
    held: usize,
}

impl Stack {
    fn push(&mut self, value: Tern)
        requires { self.old.held < 196 }
        ensures held { self.new.held ≡ self.old.held + 1 }
        ensures values { spec.held_values self.new ≡ value ∷ spec.held_values self.old }
    {
        self.values[self.held] = value;
        self.held += 1;
    }

    fn join(&mut self, op: Join)
        requires some { 2 ≤ self.old.held }
        requires most { self.old.held ≤ 196 }
        ensures held { self.new.held + 1 ≡ self.old.held }
        ensures values { spec.held_values self.new ≡ spec.joined_values (spec.join_of op) (spec.held_values self.old) }
    {
        let right = self.pop();
        let left = self.pop();
        self.push(match op {
            Join::Exclusive => xor(left, right),
            Join::Both => and(left, right),
            Join::Either => or(left, right),
        });
    }

    fn invert(&mut self)
        requires some { 1 ≤ self.old.held }
        requires most { self.old.held ≤ 196 }
        ensures held { self.new.held ≡ self.old.held }
        ensures values { spec.held_values self.new ≡ spec.inverted_value (spec.held_values self.old) }
    {
        let value = self.pop();
        self.push(not(value));
    }

    fn pop(&mut self) -> Tern
        requires some { 0 < self.old.held }
        requires most { self.old.held ≤ 196 }
        ensures held { self.new.held + 1 ≡ self.old.held }
        ensures values { spec.held_values self.old ≡ result ∷ spec.held_values self.new }
    {
        self.held -= 1;
        self.values[self.held]
    }

    fn take(&mut self, pins: &[Tern], state: &[Tern], step: Step)
        requires { spec.StepFits step self.old.held }
        ensures held { self.new.held ≡ spec.held_after step self.old.held }
        ensures values { spec.held_values self.new ≡ spec.after_step (sources.source_value pins.now state.now) step (spec.held_values self.old) }
    {
        match step {
            Step::Push(source) => self.push(source_value(pins, state, source)),
            Step::Invert => self.invert(),
            Step::Join(op) => self.join(op),
        }
    }

    fn last(&self) -> Tern
        requires { self.now.held ≡ 1 }
        ensures { result ≡ spec.last_value (spec.held_values self.now) }
    {
        self.values[0]
    }
}

pub(crate) fn run(pins: &[Tern], state: &[Tern], steps: &[Step]) -> Tern
    requires { spec.fits steps.now 0 ≡ true }
    ensures { result ≡ spec.last_value (spec.after_steps (sources.source_value pins.now state.now) steps.now []) }
{
    let mut stack = Stack {
        values: [Tern::Unknown; 196],
        held: 0,
    };
    for step in steps {
        stack.take(pins, state, *step);
    }
    stack.last()
}
