// One write that is on the disk when the call ends.
ghost use Rattle.std.specs.Prelude.{◌≡◌, ◌≤◌, ◌+◌, List, ℕ, length, OnOk, IsErr, is_some};
ghost use Rattle.desk_ports.specs.Disk.{Known, overwritten, Torn, Adds};
ghost use Rattle.desk_ports.specs.DiskSpent.{Costs};
ghost use Rattle.desk_ports.specs.Faults.{HasCause};
ghost use Rattle.report_journal.specs.Disks.{Holds};

use desk_ports::{Disk, DiskFailed};

/// Writes a piece and syncs.
pub(crate) fn write_synced<D: Disk>(
    disk: &mut D,
    place: u64,
    piece: &[u8],
) -> Result<(), DiskFailed>
    requires { Known (D.reads disk.old) (λ bytes. place ≤ length bytes) }

    ensures durable { Known (D.reads disk.old) (λ bytes. OnOk result
        (Holds D.reads D.image disk.new (overwritten bytes place piece.now))) }

    // An image of any moment of the call comes from one of its start.
    ensures any_moment { Adds D.moment D.image_since disk.old disk.new
        (λ c. (before : List ℕ) × D.image disk.old before × Torn place (length piece.now) before c) }

    ensures tells { is_some (D.reads disk.new) ≡ is_some (D.reads disk.old) }
    ensures cause { HasCause (D.faults disk.old) (D.faults disk.new) result }
    ensures costs { Known (D.reads disk.old) (λ _. Costs D.fails D.asked D.most disk.old disk.new
        2 (length piece.now) (place + length piece.now) (IsErr result)) }
{
    disk.write_at(place, piece)?;
    disk.sync()?;
    Ok(())
}
