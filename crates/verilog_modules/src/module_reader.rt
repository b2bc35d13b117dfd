//! Reads a module after its name, an item at a time.
ghost use Rattle.std.specs.Prelude.{◌≡◌};
ghost use Rattle.verilog_modules.specs.ModuleMoves as spec;
ghost use Rattle.verilog_modules.specs.ModuleBounds.{IsBounded};
ghost use Rattle.verilog_looks.specs.Does.{Leads};

use crate::module_moves::module_move;
use crate::module_phase::{ModuleMove, ModulePhase};
use crate::module_text::ModuleText;
use std::alloc::Global;
use text_scan::Limits;
use verilog_directives::Left;
use verilog_looks::{Halt, look_of};

/// What was read last of a module, and what is kept of it.
#[derive(Drop)]
pub struct ModuleReader {
    pub phase: ModulePhase,
    pub text: ModuleText,
}

impl ModuleReader {
    /// Stands after a module's name.
    pub fn new(alloc: Global) -> ModuleReader
        ensures { result ≡ spec.begun }
    {
        ModuleReader {
            phase: ModulePhase::Header,
            text: ModuleText::new(alloc),
        }
    }

    /// Takes the next item of the source.
    #[tactic(auto, unfolding(crate::specs::ModuleMoves::taken))]
    pub fn take(
        &mut self,
        alloc: Global,
        source: &[u8],
        limits: &Limits,
        item: &Left,
    ) -> Result<(), Halt>
        requires { IsBounded self.old.phase }
        ensures { Leads result self.new (spec.taken source.now limits.now item.now self.old) }
    {
        match module_move(self.phase, item.token.span.line, look_of(source, item)) {
            ModuleMove::Stop => Err(Halt::Syntax),
            ModuleMove::Go(action, phase) => {
                self.text.perform(alloc, source, limits, action, item)?;
                self.phase = phase;
                Ok(())
            }
        }
    }

    /// Whether the module has ended.
    pub fn is_done(&self) -> bool
        ensures { result ≡ spec.is_done self.now.phase }
    {
        matches!(self.phase, ModulePhase::Done)
    }
}
