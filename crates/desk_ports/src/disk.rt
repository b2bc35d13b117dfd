// A disk: what a read gives, and the images that a stop may leave.
ghost use Rattle.std.specs.Prelude.{◌≡◌, ◌≤◌, ◌+◌, ◌-◌, List, ℕ, Bool, Option, Some, length, take, drop, min, IfOk, OnOk, OnErr, is_some, is_ok};
ghost use Rattle.desk_ports.specs.declared.disk_asked.DiskAsked.{DiskAsked};
ghost use Rattle.desk_ports.specs.Disk.{Known, overwritten, Torn, Follows, Leads, Only, Adds, Untouched};
ghost use Rattle.desk_ports.specs.DiskAsked.{one_call_more, one_write_more, answers_call, answers_write};
ghost use Rattle.desk_ports.specs.Faults.{HasCause};

/// A call of a disk failed.
#[derive(Clone, Copy, Debug, PartialEq, Eq)]
pub struct DiskFailed;

/// A disk, whose content is a list of bytes.
///
/// What a stop at a moment may leave is an image. Between two syncs each range that was written, and
/// what stands past the old end, may hold any bytes in an image; bytes outside stay, and the size is
/// between the least and the greatest since the last sync. A write that fails counts as a write.
///
/// A form either tells what it reads and what was asked of it, or tells nothing of either. Its count
/// of faults is known of every form.
pub trait Disk {
    /// The bytes that a read gives; None where this form doesn't tell them, which no call changes.
    ghost reads: { Self → Option (List ℕ) };

    /// What a stop at this moment may leave.
    ghost image: { Self → List ℕ → Type 0 };

    /// The moment, a number that doesn't fall.
    ghost moment: { Self → ℕ };

    /// What was an image at some moment from that one on.
    ghost image_since: { Self → ℕ → List ℕ → Type 0 };

    /// How often the disk has failed.
    ghost faults: { Self → ℕ };

    /// Whether the call with this number, counted from 0, is told to fail.
    ghost fails: { Self → ℕ → Bool };

    /// What was asked.
    ghost asked: { Self → DiskAsked };

    /// The most that may be asked: the calls that the disk can record, the bytes that can be written
    /// in all, and the end that it can have.
    ghost most: { Self → DiskAsked };

    /// The size as it reads.
    fn size(&mut self) -> Result<u64, DiskFailed>
        ensures cause { HasCause (faults self.old) (faults self.new) result }
        ensures size { Known (reads self.old) (λ bytes. IfOk result (λ size. size ≡ length bytes)) }
        ensures untouched { Untouched reads image moment image_since self.old self.new }
        ensures answers { Known (reads self.old) (λ _.
            is_ok result ≡ answers_call (fails self.old) (most self.old) (asked self.old)) }
        ensures asked { Known (reads self.old) (λ _. asked self.new ≡ one_call_more (asked self.old)) }
        ensures limits { (fails self.new ≡ fails self.old) × (most self.new ≡ most self.old) };

    /// The bytes from a place on, as many as there are and as fit. They move to the front of the
    /// room, whose rest is free, and their number is the answer.
    fn read_at(&mut self, place: u64, room: &mut [u8]) -> Result<usize, DiskFailed>
        ensures cause { HasCause (faults self.old) (faults self.new) result }
        ensures count { IfOk result (λ count. count ≤ length room.new) }
        ensures many { Known (reads self.old) (λ bytes.
            IfOk result (λ count. count ≡ min (length room.new) (length bytes - place))) }
        ensures bytes { Known (reads self.old) (λ bytes.
            IfOk result (λ count. take count room.new ≡ take count (drop place bytes))) }
        ensures untouched { Untouched reads image moment image_since self.old self.new }
        ensures answers { Known (reads self.old) (λ _.
            is_ok result ≡ answers_call (fails self.old) (most self.old) (asked self.old)) }
        ensures asked { Known (reads self.old) (λ _. asked self.new ≡ one_call_more (asked self.old)) }
        ensures limits { (fails self.new ≡ fails self.old) × (most self.new ≡ most self.old) };

    /// Writes over what is there, and past the end. Until a sync nothing of the range is sure, also
    /// after a failure.
    fn write_at(&mut self, place: u64, piece: &[u8]) -> Result<(), DiskFailed>
        requires { Known (reads self.old) (λ bytes. place ≤ length bytes) }
        ensures cause { HasCause (faults self.old) (faults self.new) result }
        ensures written { Known (reads self.old) (λ bytes.
            OnOk result (reads self.new ≡ Some (overwritten bytes place piece.now))) }
        ensures failed { Known (reads self.old) (λ bytes. OnErr result
            ((torn : List ℕ) × (reads self.new ≡ Some torn) × Torn place (length piece.now) bytes torn)) }
        ensures tells { is_some (reads self.new) ≡ is_some (reads self.old) }

        // Each image is torn, and a torn image is one.
        ensures images { Follows (Torn place (length piece.now)) (image self.old) (image self.new) }
        ensures any_bytes { OnOk result
            (Leads (Torn place (length piece.now)) (image self.old) (image self.new)) }
        ensures time { Adds moment image_since self.old self.new (image self.new) }

        ensures answers { Known (reads self.old) (λ _. is_ok result
            ≡ answers_write (fails self.old) (most self.old) place (length piece.now) (asked self.old)) }
        ensures asked { Known (reads self.old) (λ _. asked self.new
            ≡ one_write_more place (length piece.now) (is_ok result) (asked self.old)) }
        ensures limits { (fails self.new ≡ fails self.old) × (most self.new ≡ most self.old) };

    /// Brings what a read gives onto the disk: after Ok it is the only image. A sync that fails adds
    /// no image.
    fn sync(&mut self) -> Result<(), DiskFailed>
        ensures cause { HasCause (faults self.old) (faults self.new) result }
        ensures durable { Known (reads self.old) (λ bytes. OnOk result (Only bytes (image self.new))) }
        ensures bytes { reads self.new ≡ reads self.old }
        ensures images { (c : List ℕ) → image self.new c → image self.old c }
        ensures time { Adds moment image_since self.old self.new (image self.new) }
        ensures answers { Known (reads self.old) (λ _.
            is_ok result ≡ answers_call (fails self.old) (most self.old) (asked self.old)) }
        ensures asked { Known (reads self.old) (λ _. asked self.new ≡ one_call_more (asked self.old)) }
        ensures limits { (fails self.new ≡ fails self.old) × (most self.new ≡ most self.old) };

    /// This moment is one of those since an earlier one.
    ghost counts_now: { (disk : Self) (t : ℕ) (c : List ℕ) → t ≤ moment disk → image disk c → image_since disk t c };

    /// Since this moment there is no other.
    ghost only_now: { (disk : Self) (c : List ℕ) → image_since disk (moment disk) c → image disk c };

    /// What the disk reads is one of its images.
    ghost reads_image: { (disk : Self) (bytes : List ℕ) → reads disk ≡ Some bytes → image disk bytes };
}
