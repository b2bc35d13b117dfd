// What a memory disk keeps of a call that changed it.

/// A call that changed a disk. The pieces of the writes stand one behind another beside the log.
#[derive(Clone, Copy, Debug, PartialEq, Eq, Drop)]
pub(crate) enum Entry {
    // the place, and how many bytes
    Write(u64, usize),
    Sync,
}
