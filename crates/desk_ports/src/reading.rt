// A whole file, read from a shelf.
ghost use Rattle.std.specs.Prelude.{◌≡◌, ◌≤◌, ◌<◌, Some, IsTrue, IsOk, IsSome, is_some, length, IfOk, IsErrOf, IsSomeAnd, IsNone};
ghost use Rattle.desk_ports.specs.Asked.{AsksOnce};
ghost use Rattle.desk_ports.specs.Faults.{Rose, NoneFails};
ghost use Rattle.desk_ports.specs.declared.reading.ReadRefusal.TheVariants.{Failed, NoMemory};

use crate::{Shelf, ShelfFailed};
use std::alloc::{AllocError, Global};

/// Why a file was not read.
#[derive(Clone, Copy, Debug, PartialEq, Eq)]
pub enum ReadRefusal {
    /// Memory was refused.
    NoMemory,
    /// The shelf failed.
    Failed,
    /// The file has more bytes than were allowed.
    TooLong,
}

impl From<ShelfFailed> for ReadRefusal {
    ghost from_gives = { λ _ e. e ≡ Failed };

    fn from(_: ShelfFailed) -> Self {
        ReadRefusal::Failed
    }
}

impl From<AllocError> for ReadRefusal {
    ghost from_gives = { λ _ e. e ≡ NoMemory };

    fn from(_: AllocError) -> Self {
        ReadRefusal::NoMemory
    }
}

// The most bytes that are taken at once.
const ROOM: usize = 4096;

/// The whole of the named file, which may have at most `max` bytes.
///
/// It starts one file, this one, and takes at most one byte more than `max` allows.
pub fn read_file<S: Shelf>(
    alloc: Global,
    shelf: &mut S,
    name: &str,
    max: u64,
) -> Result<Vec<u8>, ReadRefusal>
    // The bytes are those of the whole file, and no more than were allowed.
    ensures whole { IsTrue S.tells
        → IfOk result (λ bytes. S.file shelf.old name.now ≡ Some bytes.items) }
    ensures fits { IfOk result (λ bytes. length bytes.items ≤ max) }

    // A missing file is a failure of the shelf.
    ensures missing { IsTrue S.tells → IsNone (S.file shelf.old name.now)
        → IsErrOf result ReadRefusal.Failed }

    // A file is too long exactly where it has more bytes, unless the shelf or memory failed before.
    ensures too_long { IsTrue S.tells → IsErrOf result ReadRefusal.TooLong
        → IsSomeAnd (S.file shelf.old name.now) (λ bytes. max < length bytes) }
    ensures refused { IsTrue S.tells
        → IsSomeAnd (S.file shelf.old name.now) (λ bytes. max < length bytes) → IsOk result → ⊥ }

    // It fails only where the shelf did, and hides no fault.
    ensures later { S.faults shelf.old ≤ S.faults shelf.new }
    ensures failed { IsErrOf result ReadRefusal.Failed
        → Rose (S.faults shelf.old) (S.faults shelf.new) }
    ensures kept { (IsErrOf result ReadRefusal.Failed → ⊥)
        → S.faults shelf.new ≡ S.faults shelf.old }
    ensures succeeds { IsTrue S.tells → NoneFails (S.fails shelf.old)
        → IsSome (S.file shelf.old name.now) → IsErrOf result ReadRefusal.Failed → ⊥ }

    // What it asks for.
    ensures asked { IsTrue S.tells
        → AsksOnce (is_some (S.file shelf.old name.now)) (S.expects shelf.old name.now) max
        (S.asked shelf.old) (S.asked shelf.new) }

    // What stays.
    ensures files { S.file shelf.new ≡ S.file shelf.old }
    ensures fails { S.fails shelf.new ≡ S.fails shelf.old }
    ensures expects { S.expects shelf.new ≡ S.expects shelf.old }
{
    shelf.start(name)?;
    let mut bytes = Vec::new(alloc);
    let mut room = [0u8; ROOM];
    while bytes.len() as u64 <= max {
        // One byte more than is allowed shows that the file is too long.
        let left = max - bytes.len() as u64;
        let want = left.min(ROOM as u64 - 1) as usize + 1;
        let count = shelf.take(&mut room[..want])?;
        if count == 0 {
            return Ok(bytes);
        }
        bytes.extend_from_slice(&room[..count])?;
    }
    Err(ReadRefusal::TooLong)
}
