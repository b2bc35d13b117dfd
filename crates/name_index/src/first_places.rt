//! The index of a list of names.
ghost use Rattle.std.specs.Prelude.{◌≡◌, ℕ, List, [], ◌∷◌, ◌++◌, length, IfOk, OnOk, OnErr};
ghost use Rattle.name_index.specs.Held.{found, IsIndexOf};

use std::alloc::Global;
use std::collections::BTreeMap;
use text_scan::{NoMemory, Text};

/// The first place of each name.
#[derive(Drop)]
pub(crate) struct FirstPlaces {
    places: BTreeMap<Vec<u8>, usize>,
}

impl FirstPlaces {
    /// The index of these names.
    pub(crate) fn of(alloc: Global, names: &[Text]) -> Result<FirstPlaces, NoMemory>
        ensures { IfOk result (λ index. IsIndexOf names.now index) }
    {
        let mut index = FirstPlaces {
            places: BTreeMap::new(alloc),
        };
        for (place, name) in names.iter().enumerate() {
            index.add(alloc, name.as_bytes(), place)?;
        }
        Ok(index)
    }

    pub(crate) fn place_of(&self, name: &[u8]) -> Option<usize>
        ensures { result ≡ found self.now name.now }
    {
        self.places.get(name).copied()
    }

    /// Gives the name this place, unless it has one. After a refusal each name has the place that it had.
    pub(crate) fn add(&mut self, alloc: Global, name: &[u8], place: usize) -> Result<(), NoMemory>
        ensures ok { OnOk result ((names : List (List ℕ)) → IsIndexOf names self.old → place ≡ length names → IsIndexOf (names ++ name.now ∷ []) self.new) }
        ensures err { OnErr result ((q : List ℕ) → found self.new q ≡ found self.old q) }
    {
        if self.places.get(name).is_some() {
            return Ok(());
        }
        let _ = self.places.insert(name.to_vec(alloc)?, place)?;
        Ok(())
    }
}
