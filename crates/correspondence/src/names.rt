//! Words that must be names, and words that are too much.
ghost use Rattle.std.specs.Prelude.{◌≡◌};
ghost use Rattle.file_rules.specs.Told.{Agrees};
ghost use Rattle.correspondence.specs.Left.{lines_left, placed, words_left};
ghost use Rattle.correspondence.specs.Steps.{Unless};
ghost use Rattle.correspondence.specs.Words as spec;

use crate::lines::Lines;
use crate::table::NamesLine;
use crate::word::{Next, Word};
use file_rules::{at_token, is_name, is_too_long, too_many};
use std::alloc::Global;
use text_scan::{FileRefusal, Items, LimitKind, Limits, Text};

/// Whether the word is a name; its length is judged first.
#[tactic(auto, unfolding(crate::specs::Words::name_refusal))]
pub(crate) fn check_name(limits: &Limits, word: Word<'_>) -> Result<(), FileRefusal>
    ensures { Unless result (spec.name_refusal limits.now (placed word.entry)) }
{
    if is_too_long(limits, word.bytes) {
        return Err(too_many(limits, LimitKind::Name));
    }
    if is_name(word.bytes) {
        Ok(())
    } else {
        Err(at_token(word.token))
    }
}

/// No word is left of the line.
pub(crate) fn check_end(lines: &mut Lines<'_>) -> Result<(), FileRefusal>
    ensures end { Unless result (spec.more_refusal (words_left lines.old)) }
    ensures lines { lines_left lines.new ≡ lines_left lines.old }
{
    match lines.next_word() {
        Next::Word(word) => Err(at_token(word.token)),
        Next::LineEnd(_) => Ok(()),
    }
}

/// The names that are left of the line with this number.
pub(crate) fn read_names(
    alloc: Global,
    limits: &Limits,
    line: u32,
    lines: &mut Lines<'_>,
) -> Result<NamesLine, FileRefusal>
    ensures names { Agrees result (spec.names_of limits.now line (words_left lines.old)) }
    ensures lines { lines_left lines.new ≡ lines_left lines.old }
{
    let mut names = Items::new(alloc);
    'words: while let Next::Word(word) = lines.next_word() {
        if let Err(refusal) = check_name(limits, word) {
            return Err(refusal);
        }
        names.push(Text::from_bytes(alloc, word.bytes)?)?;
    }
    Ok(NamesLine { names, line })
}
