ghost use Rattle.std.specs.Prelude.{◌≡◌, [], map, replicate, IfOk};

use std::alloc::Global;
use text_scan::NoMemory;

/// So many empty rows.
pub(crate) fn empty_rows<T: Drop>(alloc: Global, count: usize) -> Result<Vec<Vec<T>>, NoMemory>
    ensures { IfOk result (λ rows. map (λ v. v.items) rows.items ≡ replicate count []) }
{
    let mut rows = Vec::new(alloc);
    for row in 0..count {
        rows.push(Vec::new(alloc))?;
    }
    Ok(rows)
}
