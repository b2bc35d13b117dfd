//! Names that are taken once.
ghost use Rattle.std.specs.Prelude.{◌≡◌, ◌++◌, ◌∷◌, [], OnOk};
ghost use Rattle.module_net.specs.Naming as spec;

use name_index::Names;
use std::alloc::Global;
use text_scan::NoMemory;

/// Adds the name, unless it is there.
pub fn add(alloc: Global, names: &mut Names, name: &[u8]) -> Result<(), NoMemory>
    ensures { OnOk result (names.new ≡ names.old ++ spec.firsts names.old (name.now ∷ [])) }
{
    if !names.contains(name) {
        names.push(alloc, name)?;
    }
    Ok(())
}

/// The place of a name that is among these.
pub fn place_in(names: &Names, name: &[u8]) -> usize
    ensures { result ≡ spec.place_in names.now name.now }
{
    names.place_of(name).unwrap_or(0)
}
