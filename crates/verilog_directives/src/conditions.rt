ghost use Rattle.std.specs.Prelude.{◌≡◌};
ghost use Rattle.verilog_directives.specs.Conditions as spec;

use crate::condition::Condition;
use std::alloc::Global;
use std::marker::Model;
use text_scan::NoMemory;

/// The open conditions, the innermost first.
#[derive(Drop)]
pub(crate) struct Conditions {
    // the innermost last
    open: Vec<Condition>,
}

impl Model for Conditions {
    ghost use Rattle.std.specs.Prelude.{List, reverse};
    ghost use Rattle.verilog_directives.specs.declared.condition.Condition.{Condition};

    ghost Value = { List Condition };

    ghost view = { λ a. reverse a.open.items };
}

impl Conditions {
    ghost use Rattle.std.specs.Prelude.{◌≡◌, ◌<◌, ◌∷◌, [], length, drop, slice_get, OnOk, OnErr};
    ghost use Rattle.verilog_directives.specs.Conditions as spec;

    pub(crate) fn new(alloc: Global) -> Conditions
        ensures { result ≡ [] }
    {
        Conditions {
            open: Vec::new(alloc),
        }
    }

    pub(crate) fn len(&self) -> usize
        ensures { result ≡ length self.now }
    {
        self.open.len()
    }

    /// Whether text is read: whether each open condition is in a branch that is taken.
    #[tactic(auto, using(crate::proofs::Reversed::read_reversed))]
    pub(crate) fn is_read(&self) -> bool
        ensures { result ≡ spec.is_read self.now }
    {
        are_taken(&self.open)
    }

    /// Whether the text around the innermost condition is read.
    #[tactic(auto, using(crate::proofs::Reversed::read_outside))]
    pub(crate) fn is_read_outside(&self) -> bool
        ensures { result ≡ spec.is_read (drop 1 self.now) }
    {
        let outer = self.open.len().saturating_sub(1);
        are_taken(&self.open[..outer])
    }

    #[tactic(auto, using(crate::proofs::Reversed::first_reversed))]
    pub(crate) fn innermost(&self) -> Option<Condition>
        ensures { result ≡ slice_get self.now 0 }
    {
        self.open.last().copied()
    }

    /// Opens a condition. Where memory is refused the conditions are as before.
    #[tactic(auto, using(crate::proofs::Reversed::reversed_more))]
    pub(crate) fn open(&mut self, condition: Condition) -> Result<(), NoMemory>
        ensures ok { OnOk result (self.new ≡ condition ∷ self.old) }
        ensures err { OnErr result (self.new ≡ self.old) }
    {
        self.open.push(condition)?;
        Ok(())
    }

    /// Puts another one in the innermost condition's place.
    #[tactic(auto, using(crate::proofs::Reversed::reversed_changed))]
    pub(crate) fn change(&mut self, condition: Condition)
        requires { 0 < length self.old }
        ensures { self.new ≡ condition ∷ drop 1 self.old }
    {
        let innermost = self.open.len() - 1;
        self.open[innermost] = condition;
    }

    /// Closes the innermost condition, if there is one.
    #[tactic(auto, using(crate::proofs::Reversed::reversed_fewer))]
    pub(crate) fn close(&mut self)
        ensures { self.new ≡ drop 1 self.old }
    {
        let _ = self.open.pop();
    }
}

#[tactic(auto, unfolding(crate::specs::Conditions::is_read))]
fn are_taken(conditions: &[Condition]) -> bool
    ensures { result ≡ spec.is_read conditions.now }
{
    conditions
        .iter()
        .all(|condition| condition.branch.is_taken())
}
