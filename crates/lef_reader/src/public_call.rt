//! The public call.
ghost use Rattle.std.specs.Prelude.{◌≡◌, IfOk};
ghost use Rattle.lef_reader.specs.File.{FileAnswer, IsLefText};
ghost use Rattle.lef_reader.specs.Promise.{IsAnswered, lef_of, told};
ghost use Rattle.file_rules.specs.Told.{Agrees};
ghost use Rattle.lef_source.specs.Lef.{IsLef};

use crate::file::read_file;
use crate::lef_text::LefText;
use lef_source::Lef;
use std::alloc::Global;
use text_scan::{FileRefusal, Limits};

// The macros that were read.
fn lef_of(file: LefText) -> Lef
    ensures { result ≡ lef_of file }
{
    let LefText { names: _, macros } = file;
    Lef { macros }
}

/// Reads the text of a LEF file within these limits.
///
/// The answer is the one that the grammar gives the text: its macros, each whole or refused with a word and its line,
/// where the text is a list of macros, sections and statements up to an end, else the first thing for which the file is
/// refused. Only want of memory is not told by the definition.
pub fn read_lef(alloc: Global, text: &[u8], limits: &Limits) -> Result<Lef, FileRefusal>
    // There is an answer to the text, and this is it.
    ensures answered { IsAnswered text.now limits.now result }
    // No other answer is there: whatever the grammar gives the text is told.
    ensures only { (o : FileAnswer) → IsLefText text.now limits.now o → Agrees result (told o) }
    // What is kept has names, pins with directions and words that can be shown, and no macro and no pin twice.
    ensures kept { IfOk result (λ lef. IsLef limits.now lef) }
{
    match read_file(alloc, text, limits) {
        Err(refusal) => Err(refusal),
        Ok(file) => Ok(lef_of(file)),
    }
}
