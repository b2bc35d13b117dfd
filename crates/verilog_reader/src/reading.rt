//! Reads a whole text.
ghost use Rattle.std.specs.Prelude.{◌≡◌};
ghost use Rattle.verilog_directives.specs.Directives.{source, left};
ghost use Rattle.verilog_reader.specs.Promise.{IsRead};
ghost use Rattle.verilog_reader.specs.Skimming as skimming;

use crate::file_phase::FilePhase;
use crate::file_reader::FileReader;
use crate::file_text::FileText;
use std::alloc::Global;
use text_scan::{FileRefusal, Limits};
use verilog_directives::Directives;
use verilog_modules::ModulePhase;

impl FileReader {
    fn into_text(self) -> FileText
        ensures { result ≡ self.text }
    {
        let FileReader {
            phase: _,
            text,
            module_reader: _,
            udp_reader: _,
        } = self;
        text
    }
}

impl FileReader {
    // Whether all that stands before a word that begins with `end` is passed over.
    fn passes_over(&self) -> bool
        ensures { result ≡ skimming.passes_over self.now.phase self.now.module_reader.phase }
    {
        match self.phase {
            FilePhase::Rest => true,
            FilePhase::Module => matches!(self.module_reader.phase, ModulePhase::Specify),
            _ => false,
        }
    }

    // Passes over many items at once, where that can be.
    fn skim(&self, directives: &mut Directives)
        ensures source { source directives.new ≡ source directives.old }
        ensures skimmed { skimming.IsSkimmed (source directives.old) self.now (left directives.old) (left directives.new) }
    {
        if self.passes_over() {
            directives.skim();
        }
    }
}

/// The parts of a text.
pub fn read_file(alloc: Global, source: &[u8], limits: &Limits) -> Result<FileText, FileRefusal>
    ensures { IsRead source.now limits.now result }
{
    let mut reader = FileReader::new(alloc);
    let mut directives = Directives::new(alloc, source, limits);
    'items: while !reader.is_done() {
        reader.skim(&mut directives);
        let item = match directives.next(alloc) {
            Ok(item) => item,
            Err(_) => return Err(FileRefusal::NoMemory),
        };
        if let Err(refusal) = reader.take(alloc, source, limits, &item) {
            return Err(refusal);
        }
    }
    Ok(reader.into_text())
}
