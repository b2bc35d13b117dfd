ghost use Rattle.std.specs.Prelude.{◌≡◌, [], ◌∷◌, ◌++◌, length, OnOk, OnErr};
ghost use Rattle.name_index.specs.Places.{is_known, place_of as spec_place_of};

use crate::first_places::FirstPlaces;
use std::alloc::Global;
use std::marker::Model;
use text_scan::{NoMemory, Text};

// The most names without an index. To look through so few costs less than a map.
const MOST_UNINDEXED: usize = 16;

/// Names in the order in which they came, each found at its first place.
///
/// Takes the memory of all names. Past 16 names an index takes that of the distinct names once
/// more, and then a name is found in logarithmic time.
#[derive(Drop)]
pub struct Names {
    names: Vec<Text>,
    index: Option<FirstPlaces>,
}

impl Model for Names {
    ghost use Rattle.std.specs.Prelude.{List, ℕ};

    ghost Value = { List (List ℕ) };

    ghost use Rattle.name_index.specs.Held.{IsHeldBy};

    ghost view = { λ n. n.names.items };

    ghost invariant = { λ n. IsHeldBy n.names.items n.index };
}

impl Names {
    pub fn new(alloc: Global) -> Names
        ensures { result ≡ [] }
    {
        Names {
            names: Vec::new(alloc),
            index: None,
        }
    }

    pub fn len(&self) -> usize
        ensures { result ≡ length self.now }
    {
        self.names.len()
    }

    /// The names in order.
    pub fn as_slice(&self) -> &[Text]
        ensures { result.now ≡ self.now }
    {
        self.names.as_slice()
    }

    /// The first place of the name, counted from 0.
    pub fn place_of(&self, name: &[u8]) -> Option<usize>
        ensures { result ≡ spec_place_of self.now name.now }
    {
        match &self.index {
            Some(index) => index.place_of(name),
            None => place_among(self.names.as_slice(), name),
        }
    }

    pub fn contains(&self, name: &[u8]) -> bool
        ensures { result ≡ is_known name.now self.now }
    {
        self.place_of(name).is_some()
    }

    /// Puts the name behind the others. After a refusal the names are as they were.
    pub fn push(&mut self, alloc: Global, name: &[u8]) -> Result<(), NoMemory>
        ensures ok { OnOk result (self.new ≡ self.old ++ name.now ∷ []) }
        ensures err { OnErr result (self.new ≡ self.old) }
    {
        let text = Text::from_bytes(alloc, name)?;
        self.names.try_reserve(1)?;
        let place = self.names.len();
        if let Some(index) = &mut self.index {
            index.add(alloc, name, place)?;
        } else if place == MOST_UNINDEXED {
            let mut index = FirstPlaces::of(alloc, self.names.as_slice())?;
            index.add(alloc, name, place)?;
            self.index = Some(index);
        }
        self.names.push_reserved(text);
        Ok(())
    }
}

fn place_among(names: &[Text], name: &[u8]) -> Option<usize>
    ensures { result ≡ spec_place_of names.now name.now }
{
    names.iter().position(|known| known.as_bytes() == name)
}
