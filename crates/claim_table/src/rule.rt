//! What the table of a batch keeps between any two steps of its seats, and the kinds of steps.
ghost use Rattle.std.specs.Prelude.{◌≡◌, [], ◌∷◌};
ghost use Rattle.claim_table.specs.Counts.{beyond};
ghost use Rattle.claim_table.specs.Rule.{Keeps, view_of, after_claim, both_parts};

use atomic_table::{Join, Play, TableRule};
use std::collections::LinkedList;

/// What a seat knows: the numbers that it claimed, in order, and its budget. No value of it is made.
pub struct ClaimView {
    pub numbers: LinkedList<u64>,
    pub budget: u64,
}

/// What a table is told when it is made.
#[derive(Drop)]
pub struct BatchSize {
    pub cells: u64,
    pub workers: u64,
}

/// The rule of claims, `Keeps`, which holds between any two steps of any seats.
pub struct ClaimRule;

impl TableRule<u8, ClaimView, BatchSize> for ClaimRule {
    ghost holds = { Keeps };

    ghost first = { λ batch. view_of [] batch.workers };
}

// A claim: the number that was found joins the list, and is greater than each number of it.
pub(crate) struct ClaimStep;

impl Play<u8, ClaimView> for ClaimStep {
    ghost then = { λ _ me found after. (after ≡ (after_claim me.0 found, me.1)) × (beyond found me.0.numbers ≡ 0) };
}

// One seat takes what both have.
pub(crate) struct JoinStep;

impl Join<ClaimView> for JoinStep {
    ghost both = { both_parts };

    ghost spent = { view_of [] 0 };
}
