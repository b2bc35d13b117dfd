//! Flip-flops and latches: four functions and what clear and preset do together.
ghost use Rattle.std.specs.Prelude.{◌≡◌, codes, Some, None};
ghost use Rattle.liberty_meaning.specs.PairMeaning as spec;

use crate::outputs::optional_program;
use crate::pair::{Pair, clocked_pair, controlled_pair, latched_pair};
use crate::refusal::MeaningRefusal;
use liberty_function::{Program, Scope, value_at};
use liberty_source::{Both, FfText, LatchText};
use std::alloc::Global;
use tern_core::Tern;
use text_scan::{NoMemory, Text};

#[derive(Clone, Copy)]
pub(crate) enum Kind {
    Clocked,
    Latched,
}

/// The programs of a flip-flop or a latch.
#[derive(Drop)]
pub(crate) struct PairPrograms {
    pub(crate) kind: Kind,
    /// `clocked_on` or `enable`.
    pub(crate) control: Program,
    /// `next_state` or `data_in`.
    pub(crate) value: Program,
    pub(crate) clear: Program,
    pub(crate) preset: Program,
    pub(crate) both: [Both; 2],
}

impl PairPrograms {
    fn uncontrolled(&self, old: &[Tern], new: &[Tern], state: &[Tern], pair: Pair) -> Pair
        ensures { result ≡ spec.uncontrolled_by self.now old.now new.now state.now pair }
    {
        match self.kind {
            Kind::Clocked => clocked_pair(
                self.control.value(old, state),
                self.control.value(new, state),
                self.value.value(old, state),
                pair,
            ),
            Kind::Latched => latched_pair(
                self.control.value(new, state),
                self.value.value(new, state),
                pair,
            ),
        }
    }

    /// The state after a change of the pins.
    pub(crate) fn next(&self, old: &[Tern], new: &[Tern], state: &[Tern]) -> Pair
        ensures { result ≡ spec.next_pair self.now old.now new.now state.now }
    {
        let pair = Pair {
            first: value_at(state, 0),
            second: value_at(state, 1),
        };
        controlled_pair(
            self.clear.value(new, state),
            self.preset.value(new, state),
            self.both,
            pair,
            self.uncontrolled(old, new, state, pair),
        )
    }
}

fn construct(alloc: Global, word: &[u8], line: u32) -> Result<PairPrograms, MeaningRefusal>
    ensures { spec.IsConstruct word.now line result }
{
    Err(MeaningRefusal::Construct {
        word: Text::from_bytes(alloc, word)?,
        line,
    })
}

fn ff_programs_of(alloc: Global, scope: &Scope, ff: &FfText) -> Result<PairPrograms, MeaningRefusal>
    ensures { spec.IsFfTextsAnswer scope.now ff.now result }
{
    let value = optional_program(alloc, scope, b"next_state", &ff.next_state)?;
    let control = optional_program(alloc, scope, b"clocked_on", &ff.clocked_on)?;
    let clear = optional_program(alloc, scope, b"clear", &ff.clear)?;
    let preset = optional_program(alloc, scope, b"preset", &ff.preset)?;
    Ok(PairPrograms {
        kind: Kind::Clocked,
        control,
        value,
        clear,
        preset,
        both: ff.both,
    })
}

pub(crate) fn ff_programs(
    alloc: Global,
    scope: &Scope,
    ff: &FfText,
) -> Result<PairPrograms, MeaningRefusal>
    ensures { spec.IsFfAnswer scope.now ff.now result }
{
    match (&ff.next_state, &ff.clocked_on) {
        (Some(_), Some(_)) => ff_programs_of(alloc, scope, ff),
        _ => construct(alloc, b"ff", ff.line),
    }
}

fn latch_programs_of(
    alloc: Global,
    scope: &Scope,
    latch: &LatchText,
) -> Result<PairPrograms, MeaningRefusal>
    ensures { spec.IsLatchTextsAnswer scope.now latch.now result }
{
    let control = optional_program(alloc, scope, b"enable", &latch.enable)?;
    let value = optional_program(alloc, scope, b"data_in", &latch.data_in)?;
    let clear = optional_program(alloc, scope, b"clear", &latch.clear)?;
    let preset = optional_program(alloc, scope, b"preset", &latch.preset)?;
    Ok(PairPrograms {
        kind: Kind::Latched,
        control,
        value,
        clear,
        preset,
        both: latch.both,
    })
}

pub(crate) fn latch_programs(
    alloc: Global,
    scope: &Scope,
    latch: &LatchText,
) -> Result<PairPrograms, MeaningRefusal>
    ensures { spec.IsLatchAnswer scope.now latch.now result }
{
    match (&latch.enable, &latch.data_in) {
        (Some(_), None) | (None, Some(_)) => construct(alloc, b"latch", latch.line),
        _ => latch_programs_of(alloc, scope, latch),
    }
}
