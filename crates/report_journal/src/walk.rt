// The walk over the records of a journal.
ghost use Rattle.std.specs.Prelude.{◌≡◌, ◌≤◌, ◌+◌, ℕ, length, IfOk, IfErr};
ghost use Rattle.desk_ports.specs.Disk.{Known, Untouched};
ghost use Rattle.desk_ports.specs.DiskSpent.{Costs};
ghost use Rattle.report_journal.specs.Disks.{AtMostRecords};
ghost use Rattle.report_journal.specs.Steps.{EndsAt, IsStuck, IsWithin};
ghost use Rattle.report_journal.specs.Cause.{HasOpenCause, IsFailed};

use crate::gate::{AtGate, at_gate};
use crate::opening::OpenError;
use desk_ports::Disk;

const MAX_BLOCKS: u32 = 4_096;

/// Where the records of a journal end.
#[derive(Clone, Copy, Debug, PartialEq, Eq)]
pub(crate) struct End {
    /// How many there are.
    pub count: u32,
    /// The place of the gate behind them.
    pub place: u64,
}

/// Walks over the records behind the first 41 bytes of a disk of this size.
pub(crate) fn walk<D: Disk>(disk: &mut D, size: u64) -> Result<End, OpenError>
    requires size { Known (D.reads disk.old) (λ bytes. size ≡ length bytes) }
    requires some { Known (D.reads disk.old) (λ bytes. 41 ≤ length bytes) }
    requires limit { size ≤ 4294987818 }
    ensures ends { Known (D.reads disk.old) (λ bytes. IfOk result (EndsAt bytes)) }
    ensures stuck { Known (D.reads disk.old) (λ bytes. IfErr result (IsStuck bytes)) }
    ensures within { IfOk result IsWithin }
    ensures untouched { Untouched D.reads D.image D.moment D.image_since disk.old disk.new }
    ensures cause { HasOpenCause (D.faults disk.old) (D.faults disk.new) result }
    ensures costs { Known (D.reads disk.old) (λ bytes. (records : ℕ) → AtMostRecords records bytes
        → Costs D.fails D.asked D.most disk.old disk.new (records + 1) 0 0 (IsFailed result)) }
{
    let mut place = 41;
    for count in 0..MAX_BLOCKS + 1 {
        match at_gate(disk, place, size)? {
            AtGate::Broken => return Err(OpenError::BrokenRecord { index: count }),
            AtGate::Shut => return Ok(End { count, place }),
            AtGate::Record(block) => {
                if count == MAX_BLOCKS {
                    return Err(OpenError::BrokenRecord { index: count });
                }
                place += 5 + block as u64;
            }
        }
    }
    unreachable!()
}
