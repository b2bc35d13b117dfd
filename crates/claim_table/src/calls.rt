//! The calls of a table.
ghost use Rattle.std.specs.Prelude.{◌≡◌, ℕ, ◌<◌, ◌≤◌, ◌+◌, ◌-◌, [], ◌∷◌, ◌++◌, IfOk, IsOk, MatchOption};
ghost use Rattle.claim_table.specs.Counts.{times, beyond};
ghost use Rattle.claim_table.specs.Seats.{claimed, budget_of, cells_of, workers_of, IsSeatOf};
ghost use Rattle.claim_table.specs.Rule.{kept_part, new_part};

use crate::rule::{BatchSize, ClaimStep, ClaimView, JoinStep};
use crate::table::{ClaimSeat, ClaimTable};
use atomic_table::{Split, Table};
use std::alloc::Global;
use std::marker::Brand;
use text_scan::NoMemory;

// Stands for every way to split: `split` says which one it means.
impl Split<ClaimView> for Brand {
    ghost left = { λ v. v };

    ghost right = { λ v. v };
}

impl ClaimTable {
    /// The table of a batch of at most 64 cells for 1 to 16 workers, with its first seat. The seat has claimed nothing, and its
    /// budget is that of all workers.
    pub fn new(
        alloc: Global,
        cells: usize,
        workers: usize,
    ) -> Result<(ClaimTable, ClaimSeat), NoMemory>
        requires { (cells ≤ 64) × (0 < workers) × (workers ≤ 16) }
        ensures table { IfOk result (λ made. (cells_of made.0 ≡ cells) × (workers_of made.0 ≡ workers)) }
        ensures seat { IfOk result (λ made. IsSeatOf made.0 made.1 × (claimed made.1 ≡ []) × (budget_of made.1 ≡ workers)) }
    {
        let batch = BatchSize {
            cells: cells as u64,
            workers: workers as u64,
        };
        let (table, seat) = Table::of_words(alloc, &[0], &batch)?;
        Ok((ClaimTable { table, cells }, ClaimSeat { seat }))
    }

    /// A new seat, which takes a part of this one's budget. What is left must be enough for the numbers beyond the cells that the
    /// seat has claimed, and isn't 0 where it has claimed any.
    ///
    /// It takes no memory as the table is made now, so it always succeeds.
    pub fn split(&self, seat: &mut ClaimSeat, budget: usize) -> Result<ClaimSeat, NoMemory>
        requires own { IsSeatOf self.now seat.old }
        requires room { beyond (cells_of self.now) (claimed seat.old) + budget ≤ budget_of seat.old }
        requires rest { budget_of seat.old ≤ budget → claimed seat.old ≡ [] }
        ensures new { IfOk result (λ new. IsSeatOf self.now new × (claimed new ≡ []) × (budget_of new ≡ budget)) }
        ensures old { IsSeatOf self.now seat.new × (claimed seat.new ≡ claimed seat.old) × (budget_of seat.new ≡ budget_of seat.old - budget) }
        ensures succeeds { IsOk result }
    {
        Ok(self.split_by::<Brand>(seat, budget))
    }

    fn split_by<M: Split<ClaimView>>(&self, seat: &mut ClaimSeat, budget: usize) -> ClaimSeat
        requires own { IsSeatOf self.now seat.old }
        requires room { beyond (cells_of self.now) (claimed seat.old) + budget ≤ budget_of seat.old }
        requires rest { budget_of seat.old ≤ budget → claimed seat.old ≡ [] }
        requires parts { (M.left ≡ kept_part budget) × (M.right ≡ (λ _. new_part budget)) }
        ensures new { IsSeatOf self.now result × (claimed result ≡ []) × (budget_of result ≡ budget) }
        ensures old { IsSeatOf self.now seat.new × (claimed seat.new ≡ claimed seat.old) × (budget_of seat.new ≡ budget_of seat.old - budget) }
    {
        let new = self.table.shared.split_seat::<M>(&mut seat.seat);
        ClaimSeat { seat: new }
    }

    /// Claims the next number: the word's, which joins the seat's list and is greater than each number there. It is answered where
    /// it is below the number of cells, and none exactly where it isn't. A seat may claim while it has claimed fewer numbers
    /// beyond the cells than its budget.
    pub fn claim(&self, seat: &mut ClaimSeat) -> Option<usize>
        requires own { IsSeatOf self.now seat.old }
        requires room { beyond (cells_of self.now) (claimed seat.old) < budget_of seat.old }
        ensures own { IsSeatOf self.now seat.new × (budget_of seat.new ≡ budget_of seat.old) }
        ensures claim { (n : ℕ) × (claimed seat.new ≡ claimed seat.old ++ n ∷ []) × (beyond n (claimed seat.old) ≡ 0) × MatchOption result (cells_of self.now ≤ n) (λ m. (m ≡ n) × (n < cells_of self.now)) }
    {
        let found = self
            .table
            .shared
            .fetch_add::<ClaimStep>(&mut seat.seat, 0, 1);
        if found < self.cells as u64 {
            Some(found as usize)
        } else {
            None
        }
    }

    /// The seat gets the lists and the budgets of both.
    pub fn join(&self, seat: &mut ClaimSeat, other: ClaimSeat)
        requires { IsSeatOf self.now seat.old × IsSeatOf self.now other }
        ensures { IsSeatOf self.now seat.new × (claimed seat.new ≡ claimed seat.old ++ claimed other) × (budget_of seat.new ≡ budget_of seat.old + budget_of other) }
    {
        let ClaimSeat { seat: theirs } = other;
        self.table
            .shared
            .join_seat::<JoinStep>(&mut seat.seat, theirs);
    }

    /// Ends the batch, for a seat that has the whole budget and found no cell left: it has claimed each cell once.
    pub fn close(self, seat: ClaimSeat)
        requires own { IsSeatOf self seat }
        requires whole { budget_of seat ≡ workers_of self }
        requires all { 0 < beyond (cells_of self) (claimed seat) }
        ensures { (x : ℕ) → x < cells_of self → times x (claimed seat) ≡ 1 }
    {
        let ClaimTable { table, cells: _ } = self;
        let ClaimSeat { seat } = seat;
        table.close_with(seat).free();
    }
}
