//! A function that has been compiled.
ghost use Rattle.std.specs.Prelude.{◌≡◌, true};
ghost use Rattle.liberty_function.specs.Compiling.{fits};

use crate::program::{Source, Step, run};
use std::alloc::Global;
use tern_core::Tern;
use text_scan::{Items, NoMemory};

/// A compiled function of pins and state variables, which are given by their places. It takes no memory.
#[derive(Drop)]
pub struct Program {
    // never want a value that isn't there, nor hold more than 196
    pub(crate) steps: Items<Step>,
    ghost ready: { fits steps 0 ≡ true },
}

impl Program {
    ghost use Rattle.std.specs.Prelude.{List, IfOk};
    ghost use Rattle.tern_core.specs.declared.tern.Tern.{Tern};
    ghost use Rattle.liberty_function.specs.Sources.{source_value};
    ghost use Rattle.liberty_function.specs.Texts.{program_value};

    /// The function that has the value of one source.
    #[tactic(auto, unfolding(crate::specs::Compiling::fits))]
    pub fn of_source(alloc: Global, source: Source) -> Result<Program, NoMemory>
        ensures { IfOk result (λ p. (pins state : List Tern) → program_value p pins state ≡ source_value pins state source) }
    {
        let mut steps = Items::new(alloc);
        steps.push(Step::Push(source))?;
        Ok(Program { steps })
    }

    /// The value at these pins and this state. A place past the end of a list is unknown.
    #[tactic(auto, unfolding(crate::specs::Texts::program_value))]
    pub fn value(&self, pins: &[Tern], state: &[Tern]) -> Tern
        ensures { result ≡ program_value self.now pins.now state.now }
    {
        run(pins, state, self.steps.as_slice())
    }
}
