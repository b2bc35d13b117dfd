//! Parts of a text.
ghost use Rattle.std.specs.Prelude.{◌≡◌, slice_range};

/// The bytes from one place to before another, as far as they are there.
pub fn slice(source: &[u8], from: usize, to: usize) -> &[u8]
    ensures { result.now ≡ slice_range source.now from to }
{
    if source.len() <= from {
        return &[];
    }
    let tail = &source[from..];
    let len = to.saturating_sub(from);
    if tail.len() <= len {
        return tail;
    }
    &tail[..len]
}
