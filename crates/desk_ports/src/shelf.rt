// Files by name, read from the front.
ghost use Rattle.std.specs.Prelude.{◌≡◌, ◌≤◌, ◌<◌, List, ℕ, Bool, false, Option, Some, IsTrue, IsOk, IsErr, IsSome, is_ok, is_some, length, IfOk, OnOk};
ghost use Rattle.desk_ports.specs.declared.asked.Asked.{Asked};
ghost use Rattle.desk_ports.specs.Asked.{after_start, after_take};
ghost use Rattle.desk_ports.specs.Faults.{HasCause};
ghost use Rattle.desk_ports.specs.Shelf.{TakesFrom};

/// A file could not be started, or its bytes could not be taken.
#[derive(Clone, Copy, Debug, PartialEq, Eq)]
pub struct ShelfFailed;

/// A shelf of files. `start` turns to a file by its name, `take` moves its bytes piece by piece.
///
/// A form either tells what it holds and what was asked of it, or tells nothing of either. Its
/// count of faults, whether a file is started, and how many bytes came are known of every form.
pub trait Shelf {
    /// Whether this form tells its bytes and what was asked.
    ghost tells: { Bool };

    /// The bytes of each file, by its name.
    ghost file: { Self → List ℕ → Option (List ℕ) };

    /// The bytes left of the started file.
    ghost left: { Self → List ℕ };

    /// Whether a file is started.
    ghost started: { Self → Bool };

    /// How often the shelf has failed.
    ghost faults: { Self → ℕ };

    /// Whether the call with this number, counted from 0, is told to fail.
    ghost fails: { Self → ℕ → Bool };

    /// The names that are expected. Starts of all others are counted apart, so a call that leaves
    /// that count as it is, whatever names are expected, starts no other name.
    ghost expects: { Self → List ℕ → Bool };

    /// What was asked.
    ghost asked: { Self → Asked };

    /// Starts the named file, whether or not another one is started. A missing file is a failure,
    /// and after a failure no file is started.
    fn start(&mut self, name: &str) -> Result<(), ShelfFailed>
        ensures cause { HasCause (faults self.old) (faults self.new) result }
        ensures started { started self.new ≡ is_ok result }

        // What it does, where the form tells.
        ensures bytes { IsTrue tells → OnOk result (file self.old name.now ≡ Some (left self.new)) }
        ensures told { IsTrue tells → IsTrue (fails self.old (asked self.old).calls) → IsErr result }
        ensures succeeds { IsTrue tells → fails self.old (asked self.old).calls ≡ false
            → IsSome (file self.old name.now) → IsOk result }
        ensures asked { IsTrue tells → asked self.new ≡ after_start
            (is_some (file self.old name.now)) (expects self.old name.now) (asked self.old) }

        // What stays.
        ensures files { file self.new ≡ file self.old }
        ensures fails { fails self.new ≡ fails self.old }
        ensures expects { expects self.new ≡ expects self.old };

    /// Moves the first bytes left to the front of the room and answers how many: 0 where none is
    /// left. A failing call moves none.
    fn take(&mut self, room: &mut [u8]) -> Result<usize, ShelfFailed>
        requires started { IsTrue (started self.old) }
        requires room { 0 < length room.old }
        ensures cause { HasCause (faults self.old) (faults self.new) result }
        ensures count { IfOk result (λ count. count ≤ length room.new) }

        // What it does, where the form tells.
        ensures bytes { IsTrue tells → TakesFrom (left self.old) (left self.new) room.new result }
        ensures told { IsTrue tells → IsTrue (fails self.old (asked self.old).calls) → IsErr result }
        ensures succeeds { IsTrue tells → fails self.old (asked self.old).calls ≡ false
            → IsOk result }
        ensures asked { IsTrue tells → asked self.new ≡ after_take result (asked self.old) }

        // What stays.
        ensures started { started self.new ≡ started self.old }
        ensures files { file self.new ≡ file self.old }
        ensures fails { fails self.new ≡ fails self.old }
        ensures expects { expects self.new ≡ expects self.old };
}
