// Adding a block: it stands whole on the disk before its gate is opened.
ghost use Rattle.std.specs.Prelude.{◌≡◌, ◌≤◌, ◌<◌, ◌+◌, ◌++◌, [], ◌∷◌, List, ℕ, length, IfOk, IsErr, IsTrue, is_some};
ghost use Rattle.desk_ports.specs.Disk.{Adds};
ghost use Rattle.desk_ports.specs.DiskSpent.{Costs};
ghost use Rattle.desk_ports.specs.Faults.{HasCause};
ghost use Rattle.report_journal.specs.Disks.{Keeps, IsLeft, IsBeforeOrAfter};

use crate::block_frame::Frame;
use crate::journal::Journal;
use crate::receipt::Receipt;
use crate::step::write_synced;
use desk_ports::{Disk, DiskFailed};

impl Journal {
    /// Adds a block. After a failure the journal is gone, and the disk is opened again.
    pub fn append<D: Disk>(
        mut self,
        disk: &mut D,
        frame: Frame,
    ) -> Result<(Journal, Receipt), DiskFailed>
        requires room { self.count < 4096 }

        // The disk is as `open`, `kept` or the last `append` left it.
        requires left { IsLeft D.reads D.image disk.old self }

        // Every image has the new block behind the others.
        ensures appended { (blocks : List (List ℕ)) → Keeps D.reads D.image disk.old self blocks
            → IfOk result (λ r. Keeps D.reads D.image disk.new r.0 (blocks ++ frame ∷ [])) }
        ensures left { IfOk result (λ r. IsLeft D.reads D.image disk.new r.0) }

        // An image of any moment stands for the blocks before it, or for these and the new one.
        ensures any_moment { (blocks : List (List ℕ)) → Keeps D.reads D.image disk.old self blocks
            → Adds D.moment D.image_since disk.old disk.new (IsBeforeOrAfter self.key blocks frame) }

        ensures receipt { IfOk result (λ r. r.1 ≡ record { index = self.count; block = frame }) }
        ensures next { IfOk result (λ r. (r.0.key ≡ self.key) × (r.0.count ≡ self.count + 1)
            × (r.0.place ≡ self.place + (5 + length frame))) }

        // It fails only where the disk did.
        ensures cause { HasCause (D.faults disk.old) (D.faults disk.new) result }

        // It makes four calls, and writes no byte past the shut gate behind the new block.
        ensures costs { IsTrue (is_some (D.reads disk.old)) → Costs D.fails D.asked D.most disk.old disk.new
            4 (6 + length frame) (self.place + (6 + length frame)) (IsErr result) }
    {
        write_synced(disk, self.place + 1, &frame.bytes)?;
        write_synced(disk, self.place, &[1])?;
        let Frame { mut bytes } = frame;
        self.place += bytes.len() as u64;
        let _ = bytes.pop();
        let receipt = Receipt {
            index: self.count,
            bytes,
            start: 4,
        };
        self.count += 1;
        Ok((self, receipt))
    }
}
