// What every device shares: the count of its faults, and want of memory.
ghost use Rattle.std.specs.Prelude.{◌≡◌, ◌≤◌};
ghost use Rattle.desk_ports.specs.Faults.{one_more};

use std::alloc::AllocError;

/// Memory was refused.
#[derive(Clone, Copy, Debug, PartialEq, Eq)]
pub struct NoMemory;

impl From<AllocError> for NoMemory {
    fn from(_: AllocError) -> Self {
        NoMemory
    }
}

// A count raised by one, which stays at its last value.
pub(crate) fn raised(count: u64) -> u64
    ensures raised { result ≡ one_more count }
    ensures later { count ≤ result }
{
    count.saturating_add(1)
}
