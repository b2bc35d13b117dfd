//! Pins by name.
ghost use Rattle.std.specs.Prelude.{◌≡◌, ℕ, List, None, IfOk};

use crate::table::{Pin, Role};
use std::alloc::Global;
use std::collections::BTreeMap;
use text_scan::{Direction, NoMemory, PinKind, Text};

/// What a table says of each name at its first place.
#[derive(Drop)]
pub(crate) struct PinIndex {
    pub(crate) roles: BTreeMap<Vec<u8>, Role>,
}

impl PinIndex {
    ghost use Rattle.pin_tables.specs.Index.{found, Adds};

    pub(crate) fn new(alloc: Global) -> PinIndex
        ensures { (q : List ℕ) → found result q ≡ None }
    {
        PinIndex {
            roles: BTreeMap::new(alloc),
        }
    }

    pub(crate) fn get(&self, name: &[u8]) -> Option<Role>
        ensures { result ≡ found self.now name.now }
    {
        self.roles.get(name).copied()
    }

    /// Adds the pin, unless its name is there. Says whether it was added.
    pub(crate) fn add(&mut self, alloc: Global, pin: &Pin) -> Result<bool, NoMemory>
        ensures { IfOk result (Adds self.old self.new pin.now) }
    {
        self.insert(alloc, &pin.name, pin.direction, pin.kind)
    }

    /// Adds a pin of these parts.
    pub(crate) fn insert(
        &mut self,
        alloc: Global,
        name: &Text,
        direction: Direction,
        kind: PinKind,
    ) -> Result<bool, NoMemory>
        ensures { IfOk result (Adds self.old self.new (record { name = name.now; direction = direction; kind = kind })) }
    {
        if self.roles.get(name.as_bytes()).is_some() {
            return Ok(false);
        }
        let role = Role { direction, kind };
        let _ = self.roles.insert(name.as_bytes().to_vec(alloc)?, role)?;
        Ok(true)
    }
}
