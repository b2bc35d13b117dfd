//! The public call.
ghost use Rattle.std.specs.Prelude.{◌≡◌};
ghost use Rattle.verilog_reader.specs.File.{FileAnswer, IsSource};
ghost use Rattle.verilog_reader.specs.Promise.{IsAnswered, IsWithin, source_of, told};
ghost use Rattle.file_rules.specs.Told.{Agrees};

use crate::file_text::FileText;
use crate::reading::read_file;
use std::alloc::Global;
use text_scan::{FileRefusal, Limits};
use verilog_source::Source;

// The parts that were read.
fn source_of(file: FileText) -> Source
    ensures { result ≡ source_of file }
{
    let FileText {
        names: _,
        modules,
        primitives,
        opened: _,
        name: _,
    } = file;
    Source {
        modules,
        primitives,
    }
}

/// Reads a Verilog source text within these limits, none of which may be above the standard one.
///
/// The answer is the one that the grammar gives the text: its modules and primitives, each whole or refused, where the
/// text is a list of them, else the first thing for which the file is refused. Only want of memory is not told by the
/// definition.
pub fn read_source(alloc: Global, text: &[u8], limits: &Limits) -> Result<Source, FileRefusal>
    requires { IsWithin limits.now }
    // There is an answer to the text, and this is it.
    ensures answered { IsAnswered text.now limits.now result }
    // No other answer is there: whatever the grammar gives the text is told.
    ensures only { (o : FileAnswer) → IsSource text.now limits.now o → Agrees result (told o) }
{
    match read_file(alloc, text, limits) {
        Err(refusal) => Err(refusal),
        Ok(file) => Ok(source_of(file)),
    }
}
