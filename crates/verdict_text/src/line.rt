//! Lines that are put together word by word.
ghost use Rattle.std.specs.Prelude.{◌≡◌, [], ◌∷◌, ◌++◌, decimal, OnOk, OnErr, IsTrue, ◌↔◌};
ghost use Rattle.verdict_text.specs.Lines.{after_blank};

use std::alloc::Global;
use std::marker::Model;
use text_scan::{NoMemory, Text};

/// The bytes of lines so far.
#[derive(Drop)]
pub(crate) struct Lines {
    alloc: Global,
    bytes: Vec<u8>,
}

impl Model for Lines {
    ghost use Rattle.std.specs.Prelude.{List, ℕ};

    ghost Value = { List ℕ };

    ghost view = { λ lines. lines.bytes.items };
}

impl Lines {
    pub(crate) fn new(alloc: Global) -> Lines
        ensures { result ≡ [] }
    {
        Lines {
            alloc,
            bytes: Vec::new(alloc),
        }
    }

    /// Begins a line.
    pub(crate) fn begin(&mut self, first: &str) -> Result<(), NoMemory>
        ensures { OnOk result (self.new ≡ self.old ++ first.now) }
    {
        self.bytes.extend_from_slice(first.as_bytes())?;
        Ok(())
    }

    /// Adds a word, a blank before it.
    pub(crate) fn word(&mut self, word: &str) -> Result<(), NoMemory>
        ensures { OnOk result (self.new ≡ self.old ++ after_blank word.now) }
    {
        self.bytes.push(b' ')?;
        self.bytes.extend_from_slice(word.as_bytes())?;
        Ok(())
    }

    /// Adds a name, a blank before it.
    pub(crate) fn name(&mut self, name: &Text) -> Result<(), NoMemory>
        ensures { OnOk result (self.new ≡ self.old ++ after_blank name.now) }
    {
        self.bytes.push(b' ')?;
        self.bytes.extend_from_slice(name.as_bytes())?;
        Ok(())
    }

    /// Adds a number, a blank before it.
    pub(crate) fn number(&mut self, number: u32) -> Result<(), NoMemory>
        ensures { OnOk result (self.new ≡ self.old ++ after_blank (decimal number)) }
    {
        let alloc = self.alloc;
        self.word(format!(in alloc; "{number}")?.as_str())
    }

    /// Goes on with the last word.
    pub(crate) fn append(&mut self, bytes: &[u8]) -> Result<(), NoMemory>
        ensures { OnOk result (self.new ≡ self.old ++ bytes.now) }
    {
        self.bytes.extend_from_slice(bytes)?;
        Ok(())
    }

    /// Ends a line.
    pub(crate) fn end(&mut self) -> Result<(), NoMemory>
        ensures { OnOk result (self.new ≡ self.old ++ 10 ∷ []) }
    {
        self.bytes.push(b'\n')?;
        Ok(())
    }

    /// Whether these are the bytes of the text.
    pub(crate) fn is(&self, text: &[u8]) -> bool
        ensures { IsTrue result ↔ (self.now ≡ text.now) }
    {
        self.bytes.as_slice() == text
    }

    /// Appends the lines to a text. Where memory is refused the text is as before.
    pub(crate) fn append_to(self, text: &mut Vec<u8>) -> Result<(), NoMemory>
        ensures ok { OnOk result (text.new.items ≡ text.old.items ++ self) }
        ensures err { OnErr result (text.new.items ≡ text.old.items) }
    {
        text.extend_from_slice(&self.bytes)?;
        Ok(())
    }
}
