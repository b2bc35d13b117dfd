ghost use Rattle.std.specs.Prelude.{◌≡◌, [], IfOk, length};
ghost use Rattle.waiver_source.specs.Places as spec;

use crate::entry::Entry;
use crate::finding::first_in;
use crate::indexing::entries_of;
use crate::waiver::Waiver;
use std::alloc::Global;
use std::marker::Model;
use text_scan::{Items, NoMemory};
use verdict_text::Code;

/// Waivers in the order of their file, found by their words for cells and pins and by their codes.
///
/// An index takes the words of each waiver once more.
#[derive(Drop)]
pub struct Waivers {
    rows: Items<Waiver>,
    index: Vec<Entry>,
}

impl Model for Waivers {
    ghost use Rattle.std.specs.Prelude.{List};
    ghost use Rattle.waiver_source.specs.declared.waiver.Waiver.{Waiver as WaiverData};
    ghost use Rattle.waiver_source.specs.Index.{IsIndexOf};

    ghost Value = { List WaiverData };

    ghost view = { λ w. w.rows };

    ghost invariant = { λ w. IsIndexOf w.rows w.index.items };
}

impl Waivers {
    /// No waivers; takes no memory.
    pub fn none(alloc: Global) -> Waivers
        ensures { result ≡ [] }
    {
        Waivers {
            rows: Items::new(alloc),
            index: Vec::new(alloc),
        }
    }

    /// These waivers, in time n log n of their number.
    pub fn of(alloc: Global, rows: Items<Waiver>) -> Result<Waivers, NoMemory>
        ensures { IfOk result (λ waivers. waivers ≡ rows) }
    {
        let index = entries_of(alloc, rows.as_slice())?;
        Ok(Waivers { rows, index })
    }

    /// The waivers in order.
    pub fn as_slice(&self) -> &[Waiver]
        ensures { result.now ≡ self.now }
    {
        self.rows.as_slice()
    }

    /// How many waivers there are.
    pub fn len(&self) -> usize
        ensures { result ≡ length self.now }
    {
        self.rows.len()
    }

    /// The place, from 0, of the first waiver with this word for cells, this code and this word for pins whose last day
    /// isn't before the day, found in logarithmic time.
    pub fn first_place(&self, cell: &[u8], code: Code, pin: &[u8], day: i32) -> Option<usize>
        ensures { result ≡ spec.first_place self.now cell.now code pin.now day }
    {
        first_in(self.index.as_slice(), cell, code, pin, day)
    }
}
