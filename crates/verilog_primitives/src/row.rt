use std::alloc::Global;
use std::marker::Model;
use std::mem;
use text_scan::{NoMemory, Text};

/// The symbols of a row so far.
#[derive(Drop)]
pub struct Row {
    bytes: Vec<u8>,
}

impl Model for Row {
    ghost use Rattle.std.specs.Prelude.{List, ℕ};

    ghost Value = { List ℕ };

    ghost view = { λ r. r.bytes.items };
}

impl Row {
    ghost use Rattle.std.specs.Prelude.{◌≡◌, [], ◌++◌, OnOk};

    pub fn new(alloc: Global) -> Row
        ensures { result ≡ [] }
    {
        Row {
            bytes: Vec::new(alloc),
        }
    }

    pub fn append(&mut self, symbols: &[u8]) -> Result<(), NoMemory>
        ensures { OnOk result (self.new ≡ self.old ++ symbols.now) }
    {
        self.bytes.extend_from_slice(symbols)?;
        Ok(())
    }

    /// The row, which begins anew.
    pub fn end(&mut self, alloc: Global) -> Text
        ensures text { result ≡ self.old }
        ensures anew { self.new ≡ [] }
    {
        Text::from_vec(mem::replace(&mut self.bytes, Vec::new(alloc)))
    }
}
