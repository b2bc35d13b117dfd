//! The public call.
ghost use Rattle.std.specs.Prelude.{◌≡◌, ◌≤◌, IfOk};
ghost use Rattle.grammar.specs.Answers.{IsAnswer};
ghost use Rattle.liberty_statements.specs.Answer.{library_file, file_tokens, told};
ghost use Rattle.file_rules.specs.Told.{Agrees};
ghost use Rattle.liberty_reader.specs.Cells.{library as library_of};
ghost use Rattle.liberty_statements.specs.Does.{nothing};
ghost use Rattle.liberty_source.specs.Library.{IsLibrary};
ghost use Rattle.liberty_reader.specs.Promise.{IsAnswered, IsWithin};
ghost use Rattle.liberty_statements.specs.ToCome.{Answer};

use crate::making::library;
use liberty_source::Library;
use liberty_statements::read_statements;
use std::alloc::Global;
use text_scan::{FileRefusal, Limits};

/// Reads the text of a Liberty library within these limits, none of which may be above the standard one.
///
/// The answer is the one that the grammar gives the text: the library where the text is one, else the first thing
/// for which it is refused. Only want of memory is not told by the definition.
pub fn read_library(alloc: Global, text: &[u8], limits: &Limits) -> Result<Library, FileRefusal>
    requires { IsWithin limits.now }
    // There is an answer to the text, and this is it.
    ensures answered { IsAnswered text.now limits.now result }
    // No other answer is there: whatever the grammar gives the text is told.
    ensures only { (o : Answer) → IsAnswer (library_file text.now limits.now) nothing (file_tokens text.now) o → Agrees result (told text.now limits.now (library_of text.now) o) }
    // What is kept has names, directed pins and words that can be shown, and nothing twice.
    ensures kept { IfOk result (λ library. IsLibrary limits.now library) }
{
    match read_statements(alloc, text, limits) {
        Err(refusal) => Err(refusal),
        Ok(statements) => match library(alloc, text, &statements) {
            Err(_) => Err(FileRefusal::NoMemory),
            Ok(made) => Ok(made),
        },
    }
}
