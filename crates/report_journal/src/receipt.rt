// A block that is on the disk.
ghost use Rattle.std.specs.Prelude.{◌≡◌};

use std::marker::Model;

/// A block that every image of the disk has, with its index from 0. Only `append` and `kept` of a
/// journal make one.
#[derive(Drop)]
pub struct Receipt {
    pub(crate) index: u32,
    // the block from `start` on
    pub(crate) bytes: Vec<u8>,
    pub(crate) start: usize,
}

impl Model for Receipt {
    ghost use Rattle.std.specs.Prelude.{◌≤◌, length, drop};
    ghost use Rattle.report_journal.specs.Journal.{ReceiptState};

    ghost Value = { ReceiptState };

    ghost view = { λ r. record { index = r.index; block = drop r.start r.bytes.items } };

    ghost invariant = { λ r. r.start ≤ length r.bytes.items };
}

impl Receipt {
    /// The block's index in its journal.
    pub fn index(&self) -> u32
        ensures { result ≡ self.now.index }
    {
        self.index
    }

    /// The block.
    pub fn block(&self) -> &[u8]
        ensures { result.now ≡ self.now.block }
    {
        &self.bytes[self.start..]
    }
}
