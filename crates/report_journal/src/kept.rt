// Reading a kept block back.
ghost use Rattle.std.specs.Prelude.{◌≡◌, ◌≤◌, ◌<◌, ◌+◌, ◌*◌, ◌^◌, List, ℕ, [], length, take, drop, get_or, IfOk, IsErr, IsErrOf, IsTrue, is_some};
ghost use Rattle.desk_ports.specs.Disk.{Known, Untouched};
ghost use Rattle.desk_ports.specs.DiskSpent.{Costs};
ghost use Rattle.desk_ports.specs.Faults.{Rose, HasCause};
ghost use Rattle.report_journal.specs.Image.{plain_head, records, StandsFor};
ghost use Rattle.report_journal.specs.Disks.{Keeps, IsLeft};
ghost use Rattle.report_journal.specs.Steps.{IsRecord};
ghost use Rattle.report_journal.specs.declared.kept.KeptRefusal.TheVariants.{Failed, NoMemory};

use crate::gate::MAX_BLOCK;
use crate::journal::Journal;
use crate::receipt::Receipt;
use desk_ports::{Disk, DiskFailed};
use std::alloc::{AllocError, Global};

/// Why a kept block isn't read.
#[derive(Clone, Copy, Debug, PartialEq, Eq)]
pub enum KeptRefusal {
    /// Memory was refused.
    NoMemory,
    /// The disk failed.
    Failed,
}

impl From<DiskFailed> for KeptRefusal {
    ghost from_gives = { λ _ e. e ≡ Failed };

    fn from(_: DiskFailed) -> Self {
        KeptRefusal::Failed
    }
}

impl From<AllocError> for KeptRefusal {
    ghost from_gives = { λ _ e. e ≡ NoMemory };

    fn from(_: AllocError) -> Self {
        KeptRefusal::NoMemory
    }
}

// The size of the block whose record stands whole at a place.
fn block_size<D: Disk>(disk: &mut D, place: u64) -> Result<u32, DiskFailed>
    requires { place ≤ 4294987818 }
    ensures size { Known (D.reads disk.old) (λ bytes. (size : ℕ) → IsRecord (drop place bytes) size
        → IfOk result (λ s. s ≡ size)) }
    ensures small { IfOk result (λ s. s ≤ 1048576) }
    ensures untouched { Untouched D.reads D.image D.moment D.image_since disk.old disk.new }
    ensures cause { HasCause (D.faults disk.old) (D.faults disk.new) result }
    ensures costs { Known (D.reads disk.old) (λ _. Costs D.fails D.asked D.most disk.old disk.new
        1 0 0 (IsErr result)) }
{
    let mut room = [0; 4];
    disk.read_at(place + 1, &mut room)?;
    // A disk that tells nothing may say any size.
    Ok(u32::from_be_bytes(room).min(MAX_BLOCK))
}

// The place of a record's gate.
fn record_place<D: Disk>(disk: &mut D, index: u32) -> Result<u64, DiskFailed>
    requires few { index < 4096 }
    ensures place { Known (D.reads disk.old) (λ bytes. (key : List ℕ) (blocks : List (List ℕ)) → StandsFor key bytes blocks
        → index < length blocks → IfOk result (λ place. place ≡ 41 + length (records plain_head (take index blocks)))) }
    ensures near { IfOk result (λ place. place ≤ 41 + 1048581 * index) }
    ensures untouched { Untouched D.reads D.image D.moment D.image_since disk.old disk.new }
    ensures cause { HasCause (D.faults disk.old) (D.faults disk.new) result }
    ensures costs { Known (D.reads disk.old) (λ _. Costs D.fails D.asked D.most disk.old disk.new
        index 0 0 (IsErr result)) }
{
    let mut place = 41;
    for _i in 0..index {
        place += 5 + block_size(disk, place)? as u64;
    }
    Ok(place)
}

impl Journal {
    /// The block with an index, which every image of the disk has.
    pub fn kept<D: Disk>(
        &self,
        alloc: Global,
        disk: &mut D,
        index: u32,
    ) -> Result<Receipt, KeptRefusal>
        requires index { index < self.now.count }

        // The disk is as `open`, `kept` or the last `append` left it.
        requires left { IsLeft D.reads D.image disk.old self.now }

        ensures block { (blocks : List (List ℕ)) → Keeps D.reads D.image disk.old self.now blocks
            → IfOk result (λ r. r.block ≡ get_or blocks index []) }
        ensures index { IfOk result (λ r. r.index ≡ index) }

        // Also over a disk that tells nothing.
        ensures small { IfOk result (λ r. length r.block ≤ 1048576) }

        // The disk is left as it was.
        ensures untouched { Untouched D.reads D.image D.moment D.image_since disk.old disk.new }
        ensures left { IsLeft D.reads D.image disk.new self.now }
        ensures stays { (blocks : List (List ℕ)) → Keeps D.reads D.image disk.old self.now blocks
            → Keeps D.reads D.image disk.new self.now blocks }

        // It fails only where the disk did, and hides no fault.
        ensures later { D.faults disk.old ≤ D.faults disk.new }
        ensures failed { IsErrOf result KeptRefusal.Failed → Rose (D.faults disk.old) (D.faults disk.new) }
        ensures kept { (IsErrOf result KeptRefusal.Failed → ⊥) → D.faults disk.new ≡ D.faults disk.old }

        // What it asks for, and that with so much room it doesn't fail.
        ensures costs { IsTrue (is_some (D.reads disk.old)) → Costs D.fails D.asked D.most disk.old disk.new
            (index + 2) 0 0 (IsErrOf result KeptRefusal.Failed) }
    {
        prove!(index < self.count);
        let place = record_place(disk, index)?;
        let size = block_size(disk, place)?;
        let mut bytes = vec![in alloc; 0; size as usize]?;
        let count = disk.read_at(place + 5, &mut bytes)?;
        bytes.truncate(count);
        Ok(Receipt {
            index,
            bytes,
            start: 0,
        })
    }
}
