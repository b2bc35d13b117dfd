// Bytes that are put at the end.
ghost use Rattle.std.specs.Prelude.{◌≡◌, ◌≤◌, ◌<◌, ◌+◌, ◌++◌, List, ℕ, Bool, false, IsTrue, IsOk, IsErr, length, OnOk, OnErr};
ghost use Rattle.desk_ports.specs.Faults.{HasCause, one_more};
ghost use Rattle.desk_ports.specs.Sink.{AppendsPart};

/// Bytes could not be written.
#[derive(Clone, Copy, Debug, PartialEq, Eq)]
pub struct SinkFailed;

/// A sink, to which bytes are written in order.
pub trait Sink {
    /// Whether this form tells what was written.
    ghost tells: { Bool };

    /// The bytes written so far.
    ghost written: { Self → List ℕ };

    /// How many more bytes there is room for.
    ghost room: { Self → ℕ };

    /// How often the sink has failed.
    ghost faults: { Self → ℕ };

    /// Whether the call with this number, counted from 0, is told to fail.
    ghost fails: { Self → ℕ → Bool };

    /// The number of calls so far.
    ghost calls: { Self → ℕ };

    /// Appends the piece. A failing call appends a first part of it, or nothing.
    fn put(&mut self, piece: &[u8]) -> Result<(), SinkFailed>
        ensures cause { HasCause (faults self.old) (faults self.new) result }

        // What it does, where the form tells.
        ensures ok { IsTrue tells → OnOk result (written self.new ≡ written self.old ++ piece.now) }
        ensures err { IsTrue tells
            → OnErr result (AppendsPart (written self.old) (written self.new) piece.now) }
        ensures room { IsTrue tells
            → room self.new + length (written self.new) ≡ room self.old + length (written self.old) }
        ensures told { IsTrue tells → IsTrue (fails self.old (calls self.old)) → IsErr result }
        ensures full { IsTrue tells → room self.old < length piece.now → IsErr result }
        ensures succeeds { IsTrue tells → fails self.old (calls self.old) ≡ false
            → length piece.now ≤ room self.old → IsOk result }
        ensures calls { IsTrue tells → calls self.new ≡ one_more (calls self.old) }

        // What stays.
        ensures fails { fails self.new ≡ fails self.old };
}
