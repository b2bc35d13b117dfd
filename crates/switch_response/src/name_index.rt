//! Places of names.

ghost use Rattle.std.specs.Prelude.{◌≡◌, ℕ, List, None, IfOk};

use std::alloc::Global;
use std::collections::BTreeMap;
use text_scan::NoMemory;

/// Gives each name one place.
#[derive(Drop)]
pub struct NameIndex {
    places: BTreeMap<Vec<u8>, usize>,
}

impl NameIndex {
    ghost use Rattle.switch_response.specs.NameIndex.{found, Adds};

    pub fn new(alloc: Global) -> NameIndex
        ensures { (q : List ℕ) → found result q ≡ None }
    {
        NameIndex {
            places: BTreeMap::new(alloc),
        }
    }

    pub fn get(&self, name: &[u8]) -> Option<usize>
        ensures { result ≡ found self.now name.now }
    {
        self.places.get(name).copied()
    }

    /// Gives the name this place, unless it has one. Says whether it had none.
    pub fn add(&mut self, alloc: Global, name: &[u8], place: usize) -> Result<bool, NoMemory>
        ensures { IfOk result (Adds self.old self.new name.now place) }
    {
        if self.places.get(name).is_some() {
            return Ok(false);
        }
        let _ = self.places.insert(name.to_vec(alloc)?, place)?;
        Ok(true)
    }
}
