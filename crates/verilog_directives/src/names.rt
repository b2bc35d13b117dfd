use std::alloc::Global;
use std::collections::BTreeSet;
use std::marker::Model;
use text_scan::NoMemory;

/// The names that are defined.
#[derive(Drop)]
pub(crate) struct DefinedNames {
    names: BTreeSet<Vec<u8>>,
}

impl Model for DefinedNames {
    ghost use Rattle.std.specs.Ordering.{nat_cmp};
    ghost use Rattle.std.specs.Cmp.Lexicographic.{slice_cmp};
    ghost use Rattle.std.specs.FinSet as set;
    ghost use Rattle.std.specs.Coded.{coded_ℕ, coded_list};

    ghost Value = { set.FinSet (slice_cmp nat_cmp) };

    ghost coded = { set.code (coded_list coded_ℕ) };

    ghost use Rattle.verilog_directives.specs.NameSet.{names_of};

    ghost view = { λ a. names_of a.names };
}

impl DefinedNames {
    ghost use Rattle.std.specs.Prelude.{◌≡◌, OnOk, OnErr};
    ghost use Rattle.std.specs.FinSet as set;

    pub(crate) fn new(alloc: Global) -> DefinedNames
        ensures { result ≡ set.empty }
    {
        DefinedNames {
            names: BTreeSet::new(alloc),
        }
    }

    pub(crate) fn contains(&self, name: &[u8]) -> bool
        ensures { result ≡ set.contains self.now name.now }
    {
        self.names.contains(name)
    }

    /// Adds the name. Where memory is refused the names are as before.
    pub(crate) fn insert(&mut self, alloc: Global, name: &[u8]) -> Result<(), NoMemory>
        ensures ok { OnOk result (self.new ≡ set.insert self.old name.now) }
        ensures err { OnErr result (self.new ≡ self.old) }
    {
        let key = name.to_vec(alloc)?;
        self.names.insert(key)?;
        Ok(())
    }

    pub(crate) fn remove(&mut self, name: &[u8])
        ensures { self.new ≡ set.remove self.old name.now }
    {
        self.names.remove(name);
    }
}
