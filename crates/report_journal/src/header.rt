// Making the header of a new journal, in three steps, each on the disk before the next.
ghost use Rattle.std.specs.Prelude.{◌≡◌, ◌≤◌, ◌+◌, ◌⊎◌, ◌++◌, [], ◌∷◌, List, ℕ, length, OnOk, IsErr, is_some};
ghost use Rattle.desk_ports.specs.Disk.{Known, Only, Adds};
ghost use Rattle.desk_ports.specs.DiskSpent.{Costs};
ghost use Rattle.desk_ports.specs.Faults.{HasCause};
ghost use Rattle.report_journal.specs.Image.{magic, header, NoJournalYet, StandsFor};
ghost use Rattle.report_journal.specs.Disks.{Holds};
ghost use Rattle.report_journal.specs.Steps.{IsShutHeader, BeginsWith};

use crate::step::write_synced;
use desk_ports::{Disk, DiskFailed};

const MAGIC: [u8; 8] = *b"QUALJRN1";

// Shuts the gate of the header.
fn shut_header<D: Disk>(disk: &mut D, size: u64, first: u8) -> Result<(), DiskFailed>
    requires new { Known (D.reads disk.old) (λ bytes. NoJournalYet bytes × (size ≡ length bytes) × BeginsWith bytes first) }
    requires only { Known (D.reads disk.old) (λ bytes. Only bytes (D.image disk.old)) }

    ensures shut { Known (D.reads disk.old) (λ bytes. OnOk result
        ((now : List ℕ) × Holds D.reads D.image disk.new now × IsShutHeader now)) }
    ensures any_moment { Known (D.reads disk.old) (λ bytes.
        Adds D.moment D.image_since disk.old disk.new NoJournalYet) }

    ensures tells { is_some (D.reads disk.new) ≡ is_some (D.reads disk.old) }
    ensures cause { HasCause (D.faults disk.old) (D.faults disk.new) result }
    ensures costs { Known (D.reads disk.old) (λ _. Costs D.fails D.asked D.most disk.old disk.new
        2 1 1 (IsErr result)) }
{
    if size == 0 || first == 1 {
        write_synced(disk, 0, &[0])?;
    }
    Ok(())
}

// The magic, the digest and a shut gate.
fn header_body(digest: &[u8; 32]) -> [u8; 41]
    ensures { result ≡ magic ++ (digest.now ++ 0 ∷ []) }
{
    let mut body = [0; 41];
    body[..8].copy_from_slice(&MAGIC);
    body[8..40].copy_from_slice(digest);
    body
}

/// Makes the header of a journal without blocks, on a disk that has no journal yet.
pub(crate) fn make_header<D: Disk>(
    disk: &mut D,
    size: u64,
    first: u8,
    digest: &[u8; 32],
) -> Result<(), DiskFailed>
    requires new { Known (D.reads disk.old) (λ bytes. NoJournalYet bytes × (size ≡ length bytes) × BeginsWith bytes first) }
    requires only { Known (D.reads disk.old) (λ bytes. Only bytes (D.image disk.old)) }

    ensures made { Known (D.reads disk.old) (λ bytes. OnOk result
        (Holds D.reads D.image disk.new (header digest.now ++ 0 ∷ []))) }
    ensures empty { StandsFor digest.now (header digest.now ++ 0 ∷ []) [] }

    // Until the last step no journal stands there, and then one without blocks.
    ensures any_moment { Known (D.reads disk.old) (λ bytes. Adds D.moment D.image_since disk.old disk.new
        (λ c. NoJournalYet c ⊎ StandsFor digest.now c [])) }

    ensures tells { is_some (D.reads disk.new) ≡ is_some (D.reads disk.old) }
    ensures cause { HasCause (D.faults disk.old) (D.faults disk.new) result }
    ensures costs { Known (D.reads disk.old) (λ _. Costs D.fails D.asked D.most disk.old disk.new
        6 43 42 (IsErr result)) }
{
    shut_header(disk, size, first)?;
    write_synced(disk, 1, &header_body(digest))?;
    write_synced(disk, 0, &[1])?;
    Ok(())
}
