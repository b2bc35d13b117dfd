// Making the frame of a block.
ghost use Rattle.std.specs.Prelude.{◌≡◌, ◌≤◌, ◌<◌, length, IfOk};

use crate::block_frame::Frame;
use desk_ports::NoMemory;
use std::alloc::Global;

/// The frame of a block of 1 to 1,048,576 bytes.
pub fn frame(alloc: Global, block: &[u8]) -> Result<Frame, NoMemory>
    requires some { 0 < length block.now }
    requires small { length block.now ≤ 1048576 }
    ensures { IfOk result (λ frame. frame ≡ block.now) }
{
    let mut bytes = Vec::with_capacity(alloc, block.len() + 5)?;
    bytes.extend_from_slice(&(block.len() as u32).to_be_bytes())?;
    bytes.extend_from_slice(block)?;
    bytes.extend_from_slice(&[0])?;
    Ok(Frame { bytes })
}
