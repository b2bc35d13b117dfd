// What was asked of a disk.
ghost use Rattle.std.specs.Prelude.{◌≡◌, ◌≤◌, ◌+◌, ◌-◌, ◌^◌, ◌<◌};
ghost use Rattle.desk_ports.specs.DiskAsked.{no_call, one_call_more, one_write_more};

use crate::faults::raised;

/// What was asked of a disk since it was made, or the most that may be asked of it.
#[derive(Clone, Copy, Debug, PartialEq, Eq)]
pub struct DiskAsked {
    /// Calls of every kind. The number stops at 18,446,744,073,709,551,615.
    pub calls: u64,
    /// Bytes of the writes that succeeded, each counted as often as it was written.
    pub written: u64,
    /// The greatest end of a range that a write named, whether or not it succeeded.
    pub end: u64,
}

impl DiskAsked {
    pub(crate) fn nothing() -> DiskAsked
        ensures { result ≡ no_call }
    {
        DiskAsked {
            calls: 0,
            written: 0,
            end: 0,
        }
    }

    // After a call that writes nothing.
    pub(crate) fn and_call(self) -> DiskAsked
        ensures { result ≡ one_call_more self }
    {
        DiskAsked {
            calls: raised(self.calls),
            written: self.written,
            end: self.end,
        }
    }

    // After a write, which succeeded or failed.
    pub(crate) fn and_write(self, place: u64, size: u64, done: bool) -> DiskAsked
        requires written { self.written + size ≤ 2 ^ 64 - 1 }
        requires end { place + size ≤ 2 ^ 64 - 1 }
        ensures { result ≡ one_write_more place size done self }
    {
        DiskAsked {
            calls: raised(self.calls),
            written: if done {
                self.written + size
            } else {
                self.written
            },
            end: self.end.max(place + size),
        }
    }
}
