//! The names that a function may have.
ghost use Rattle.std.specs.Prelude.{◌≡◌, ◌++◌, ◌∷◌, [], OnOk, OnErr};
ghost use Rattle.liberty_function.specs.Sources as spec;

use crate::program::Source;
use name_index::Names;
use std::alloc::Global;
use std::marker::Model;
use text_scan::NoMemory;

/// Names and where their values come from. Of a name that stands twice the first counts.
#[derive(Drop)]
pub struct Scope {
    names: Names,
    sources: Vec<Source>,
}

impl Model for Scope {
    ghost use Rattle.std.specs.Prelude.{◌≡◌, List, length};
    ghost use Rattle.liberty_function.specs.Sources.{Named, named_of};

    ghost Value = { List Named };

    ghost view = { λ s. named_of s.names s.sources.items };

    ghost invariant = { λ s. length s.names ≡ length s.sources.items };
}

impl Scope {
    /// No names; takes no memory.
    #[tactic(auto, unfolding(crate::specs::Sources::named_of))]
    pub fn new(alloc: Global) -> Scope
        ensures { result ≡ [] }
    {
        Scope {
            names: Names::new(alloc),
            sources: Vec::new(alloc),
        }
    }

    /// Puts the name behind the others. After a refusal the names are as they were.
    pub fn push(&mut self, alloc: Global, name: &[u8], source: Source) -> Result<(), NoMemory>
        ensures ok { OnOk result (self.new ≡ self.old ++ (record { name = name.now; source = source }) ∷ []) }
        ensures err { OnErr result (self.new ≡ self.old) }
    {
        self.sources.try_reserve(1)?;
        self.names.push(alloc, name)?;
        self.sources.push_reserved(source);
        Ok(())
    }

    /// Where the value of the name comes from, where it is there.
    pub fn find(&self, name: &[u8]) -> Option<Source>
        ensures { result ≡ spec.source_among self.now name.now }
    {
        let place = self.names.place_of(name)?;
        Some(self.sources[place])
    }

    /// Unknown where no place has the name.
    pub(crate) fn source_of(&self, name: &[u8]) -> Source
        ensures { result ≡ spec.sources_of self.now name.now }
    {
        self.find(name).unwrap_or(Source::Unknown)
    }
}
