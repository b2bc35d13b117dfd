ghost use Rattle.std.specs.Prelude.{◌≡◌, ◌≤◌, []};

use crate::rule::{BatchSize, ClaimRule, ClaimView};
use atomic_table::{Seat, Table};
use std::alloc::Global;

/// The cells of a batch, up to 64, of which each is claimed once.
#[derive(Drop)]
pub struct ClaimTable {
    pub(crate) table: Table<u8, ClaimView, BatchSize, ClaimRule, Global>,
    pub(crate) cells: usize,
    ghost one_word: { (table.shared.table_id.words ≡ 1) × (table.shared.table_id.slots ≡ 0) },
    ghost batch: { (table.shared.key.cells ≡ cells) × (cells ≤ 64) × (table.shared.key.workers ≤ 16) },
}

/// What one worker claims with.
#[derive(Drop)]
pub struct ClaimSeat {
    pub(crate) seat: Seat<u8, ClaimView>,
    ghost no_slot: { seat.me.1 ≡ [] },
}
