// A journal in memory: its key, how many blocks it has, and where the next one goes.
ghost use Rattle.std.specs.Prelude.{◌≡◌, ◌≤◌};

use std::marker::Model;

/// A journal on a disk, at the shut gate behind its last block.
#[derive(Drop)]
pub struct Journal {
    pub(crate) digest: [u8; 32],
    pub(crate) count: u32,
    pub(crate) place: u64,
}

impl Model for Journal {
    ghost use Rattle.std.specs.Prelude.{◌≤◌, ◌+◌, ◌*◌};
    ghost use Rattle.report_journal.specs.Journal.{JournalState};

    ghost Value = { JournalState };

    ghost view = { λ j. record { key = j.digest; count = j.count; place = j.place } };

    // Also over a disk that tells nothing of what it holds.
    ghost invariant = { λ j. (j.count ≤ 4096) × (j.place ≤ 41 + 1048581 * j.count) };
}

impl Journal {
    /// How many blocks it has, at most 4,096.
    pub fn count(&self) -> u32
        ensures count { result ≡ self.now.count }
        ensures most { result ≤ 4096 }
    {
        self.count
    }
}
