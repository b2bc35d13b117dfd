// What stands at the place of a gate.
ghost use Rattle.std.specs.Prelude.{◌≡◌, ◌≤◌, ◌<◌, ◌+◌, List, ℕ, length, take, drop, min, IfOk, IsErr};
ghost use Rattle.desk_ports.specs.Disk.{Known, Untouched};
ghost use Rattle.desk_ports.specs.DiskSpent.{Costs};
ghost use Rattle.desk_ports.specs.Faults.{HasCause};
ghost use Rattle.report_journal.specs.Steps.{IsAtGate, IsSmall};

use desk_ports::{Disk, DiskFailed};

pub(crate) const MAX_BLOCK: u32 = 1_048_576;

/// What stands at the place of a gate.
#[derive(Clone, Copy, Debug, PartialEq, Eq)]
pub(crate) enum AtGate {
    /// A gate that isn't open.
    Shut,
    /// No gate, or an open one without a whole record.
    Broken,
    /// A whole record, with a block of so many bytes.
    Record(u32),
}

/// Looks at a place of a disk of this size.
pub(crate) fn at_gate<D: Disk>(disk: &mut D, place: u64, size: u64) -> Result<AtGate, DiskFailed>
    requires size { Known (D.reads disk.old) (λ bytes. size ≡ length bytes) }
    requires limit { size ≤ 4294987818 }
    ensures there { Known (D.reads disk.old) (λ bytes. IfOk result (IsAtGate (drop place bytes))) }
    ensures small { IfOk result IsSmall }
    ensures untouched { Untouched D.reads D.image D.moment D.image_since disk.old disk.new }
    ensures cause { HasCause (D.faults disk.old) (D.faults disk.new) result }
    ensures costs { Known (D.reads disk.old) (λ _. Costs D.fails D.asked D.most disk.old disk.new
        1 0 0 (IsErr result)) }
{
    if place >= size {
        return Ok(AtGate::Broken);
    }
    let mut room = [0; 5];
    let count = disk.read_at(place, &mut room)?;
    Ok(gate_in(&room, count, size - place))
}

// What the first bytes of a rest of this size say.
fn gate_in(room: &[u8; 5], count: usize, left: u64) -> AtGate
    requires count { count ≤ 5 }
    ensures there { (rest : List ℕ) → left ≡ length rest → 0 < left → count ≡ min 5 (length rest)
        → take count room.now ≡ take count rest → IsAtGate rest result }
    ensures small { IsSmall result }
{
    if count == 0 {
        return AtGate::Broken;
    }
    if room[0] != 1 {
        return AtGate::Shut;
    }
    if count < 5 {
        return AtGate::Broken;
    }
    let size = u32::from_be_bytes([room[1], room[2], room[3], room[4]]);
    if size == 0 || size > MAX_BLOCK || left < 5 + size as u64 {
        return AtGate::Broken;
    }
    AtGate::Record(size)
}
