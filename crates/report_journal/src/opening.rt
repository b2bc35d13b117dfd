// Opening a journal: its header, and the records behind it.
ghost use Rattle.std.specs.Prelude.{◌≡◌, ◌≤◌, ◌⊎◌, ◌+◌, [], List, ℕ, length, take, IfOk, IfErr, OnOk, OnErr, IsErr, IsErrOf, IsTrue, ◌↔◌};
ghost use Rattle.desk_ports.specs.Disk.{Known, Adds, Untouched};
ghost use Rattle.desk_ports.specs.DiskSpent.{Costs};
ghost use Rattle.desk_ports.specs.Faults.{HasCause};
ghost use Rattle.report_journal.specs.Image.{header, NoJournalYet, StandsFor, StandsForAny};
ghost use Rattle.report_journal.specs.Disks.{Holds, Keeps, IsLeft, AtMostRecords};
ghost use Rattle.report_journal.specs.Open.{Refuses};
ghost use Rattle.report_journal.specs.Steps.{IsNew, IsJudged};
ghost use Rattle.report_journal.specs.Cause.{HasOpenCause, IsFailed};
ghost use Rattle.report_journal.specs.declared.opening.OpenError.TheVariants.{Failed};

use crate::header::make_header;
use crate::journal::Journal;
use crate::walk::{End, walk};
use desk_ports::{Disk, DiskFailed};

const MAX_SIZE: u64 = 4_294_987_818;

const START: [u8; 9] = *b"\x01QUALJRN1";

/// Why a journal isn't opened.
#[derive(Clone, Copy, Debug, PartialEq, Eq)]
pub enum OpenError {
    /// The disk failed.
    Failed,
    /// The journal is that of another digest, which it has.
    OtherInputs { kept: [u8; 32] },
    /// The disk holds something else, which begins with these bytes.
    NotJournal { first: [u8; 8] },
    /// The disk has more than 4,294,987,818 bytes.
    TooLong { size: u64 },
    /// The gate of the record with this index, counted from 0, is open and no whole record stands
    /// behind it, or it is record 4,096; or there is no such gate.
    BrokenRecord { index: u32 },
}

impl From<DiskFailed> for OpenError {
    ghost from_gives = { λ _ e. e ≡ Failed };

    fn from(_: DiskFailed) -> Self {
        OpenError::Failed
    }
}

// Brings what the disk reads onto it, and answers its size.
fn settle<D: Disk>(disk: &mut D) -> Result<u64, DiskFailed>
    ensures settled { Known (D.reads disk.old) (λ bytes. OnOk result (Holds D.reads D.image disk.new bytes)) }
    ensures size { Known (D.reads disk.old) (λ bytes. IfOk result (λ size. size ≡ length bytes)) }
    ensures bytes { D.reads disk.new ≡ D.reads disk.old }
    ensures images { (c : List ℕ) → D.image disk.new c → D.image disk.old c }
    ensures any_moment { Adds D.moment D.image_since disk.old disk.new (D.image disk.old) }
    ensures cause { HasCause (D.faults disk.old) (D.faults disk.new) result }
    ensures costs { Known (D.reads disk.old) (λ _. Costs D.fails D.asked D.most disk.old disk.new
        2 0 0 (IsErr result)) }
{
    disk.sync()?;
    disk.size()
}

// Whether a header has to be made.
fn is_new(size: u64, first: u8) -> bool
    ensures { IsTrue result ↔ IsNew size first }
{
    size < 42 || size == 42 && first != 1
}

// Whether the header is that of a journal for this digest.
fn judge(front: &[u8; 42], digest: &[u8; 32]) -> Result<(), OpenError>
    ensures ok { OnOk result (take 41 front.now ≡ header digest.now) }
    ensures err { IfErr result (IsJudged digest.now front.now) }
{
    if front[..9] != START[..] {
        let mut first = [0; 8];
        first.copy_from_slice(&front[..8]);
        return Err(OpenError::NotJournal { first });
    }
    if front[9..41] != digest[..] {
        let mut kept = [0; 32];
        kept.copy_from_slice(&front[9..41]);
        return Err(OpenError::OtherInputs { kept });
    }
    Ok(())
}

/// Opens the journal of a disk for the digest of a report's header, or makes one without blocks
/// where there is none yet. A file of at most 41 bytes, or of 42 of which the first isn't 1, counts
/// as none, whatever it holds.
pub fn open<D: Disk>(disk: &mut D, digest: [u8; 32]) -> Result<Journal, OpenError>
    // The blocks are those that the disk stood for, and every image has them.
    ensures opened { Known (D.reads disk.old) (λ bytes. IfOk result (λ journal. (blocks : List (List ℕ))
        × StandsForAny digest bytes blocks × Keeps D.reads D.image disk.new journal blocks)) }
    ensures key { IfOk result (λ journal. journal.key ≡ digest) }
    ensures left { IfOk result (IsLeft D.reads D.image disk.new) }

    // A refusal comes where the bytes meet it, and then the disk reads as before.
    ensures refused { Known (D.reads disk.old) (λ bytes. IfErr result (λ e. (e ≡ Failed)
        ⊎ (Refuses digest bytes e × (D.reads disk.new ≡ D.reads disk.old)))) }

    // It does come there, unless the disk failed.
    ensures refuses { Known (D.reads disk.old) (λ bytes. (e : OpenError) → Refuses digest bytes e
        → IsErrOf result e ⊎ IsFailed result) }

    // An image of any moment is one of the start, or what making a header leaves where the disk had
    // no journal yet.
    ensures any_moment { Known (D.reads disk.old) (λ bytes. Adds D.moment D.image_since disk.old disk.new
        (λ c. D.image disk.old c ⊎ (NoJournalYet bytes × (NoJournalYet c ⊎ StandsFor digest c [])))) }

    // It fails only where the disk did, and hides no fault.
    ensures cause { HasOpenCause (D.faults disk.old) (D.faults disk.new) result }

    // What it asks for, and that with so much room it doesn't fail.
    ensures costs { Known (D.reads disk.old) (λ bytes. (records : ℕ) → AtMostRecords records bytes
        → Costs D.fails D.asked D.most disk.old disk.new (records + 10) 43 42 (IsFailed result)) }
{
    let size = settle(disk)?;
    if size > MAX_SIZE {
        return Err(OpenError::TooLong { size });
    }
    let mut front = [0; 42];
    disk.read_at(0, &mut front)?;
    if is_new(size, front[0]) {
        make_header(disk, size, front[0], &digest)?;
        return Ok(Journal {
            digest,
            count: 0,
            place: 41,
        });
    }
    if let Err(refusal) = judge(&front, &digest) {
        return Err(refusal);
    }
    match walk(disk, size) {
        Ok(End { count, place }) => Ok(Journal {
            digest,
            count,
            place,
        }),
        Err(refusal) => Err(refusal),
    }
}
