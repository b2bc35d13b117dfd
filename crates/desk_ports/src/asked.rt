// What was asked of a shelf.
ghost use Rattle.std.specs.Prelude.{◌≡◌};
ghost use Rattle.desk_ports.specs.Asked.{nothing_asked, after_call, after_start, after_bytes};

use crate::faults::raised;

/// What was asked of a shelf since it was made. Each number stops at 18,446,744,073,709,551,615.
#[derive(Clone, Copy, Debug, PartialEq, Eq)]
pub struct Asked {
    /// Calls of `start` and of `take`.
    pub calls: u64,
    /// Calls of `start`.
    pub starts: u64,
    /// Calls of `start` that named a file which isn't there.
    pub missing: u64,
    /// Calls of `start` whose name the shelf doesn't expect.
    pub unexpected: u64,
    /// Bytes taken since the last call of `start`.
    pub since: u64,
    /// The greatest number of bytes taken after one call of `start`.
    pub most: u64,
}

impl Asked {
    pub(crate) fn nothing() -> Asked
        ensures { result ≡ nothing_asked }
    {
        Asked {
            calls: 0,
            starts: 0,
            missing: 0,
            unexpected: 0,
            since: 0,
            most: 0,
        }
    }

    // After a failing call of `take`.
    pub(crate) fn and_call(self) -> Asked
        ensures { result ≡ after_call self }
    {
        Asked {
            calls: raised(self.calls),
            starts: self.starts,
            missing: self.missing,
            unexpected: self.unexpected,
            since: self.since,
            most: self.most,
        }
    }

    // After a call of `start`, whose name may be there and may be expected.
    pub(crate) fn and_start(self, there: bool, expected: bool) -> Asked
        ensures { result ≡ after_start there expected self }
    {
        Asked {
            calls: raised(self.calls),
            starts: raised(self.starts),
            missing: if there {
                self.missing
            } else {
                raised(self.missing)
            },
            unexpected: if expected {
                self.unexpected
            } else {
                raised(self.unexpected)
            },
            since: 0,
            most: self.most,
        }
    }

    // After a call of `take` that gave so many bytes.
    pub(crate) fn and_bytes(self, count: usize) -> Asked
        ensures { result ≡ after_bytes count self }
    {
        let since = self.since.saturating_add(count as u64);
        Asked {
            calls: raised(self.calls),
            starts: self.starts,
            missing: self.missing,
            unexpected: self.unexpected,
            since,
            most: self.most.max(since),
        }
    }
}
