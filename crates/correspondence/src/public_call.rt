//! The public call.
ghost use Rattle.std.specs.Prelude.{◌≡◌, [], IfOk};
ghost use Rattle.grammar.specs.Answers.{IsAnswer, read_all};
ghost use Rattle.file_rules.specs.Told.{Agrees};
ghost use Rattle.correspondence.specs.Grammar.{Answer, IsAnswered, at_first, tables, told};
ghost use Rattle.correspondence.specs.Lines.{lines_of};
ghost use Rattle.correspondence.specs.Parts.{nothing};
ghost use Rattle.table_source.specs.Tables.{IsTables};

use crate::kinds::LineKind;
use crate::lines::Lines;
use crate::parts::{Parts, Reader};
use cdl_cards::end_of;
use std::alloc::Global;
use table_source::Tables;
use text_scan::{FileRefusal, Limits};

// Syntax at the place after the last byte.
fn at_end(text: &[u8]) -> FileRefusal
    ensures { result ≡ at_first text.now [] }
{
    let end = end_of(text);
    FileRefusal::Syntax {
        line: end.line,
        column: end.column,
    }
}

fn read_lines(alloc: Global, text: &[u8], limits: &Limits) -> Result<Tables, FileRefusal>
    ensures { Agrees result (told text.now (read_all (tables limits.now) nothing (lines_of text.now))) }
{
    let mut lines = Lines::new(text);
    let mut reader = Reader::new(alloc);
    'lines: while let Some(first) = lines.next_line() {
        if let Err(refusal) = reader.take(alloc, limits, first, &mut lines) {
            return Err(refusal);
        }
    }
    let Reader { last, parts } = reader;
    match last {
        LineKind::End => {
            let Parts {
                names: _,
                tables,
                current: _,
            } = parts;
            Ok(Tables { tables })
        }
        _ => Err(at_end(text)),
    }
}

/// Reads the text of correspondence tables within these limits.
///
/// The answer is the one that the grammar gives the text: its tables, where its lines are a list of them, else the first
/// thing for which the file is refused. Only want of memory is not told by the definition.
pub fn read_tables(alloc: Global, text: &[u8], limits: &Limits) -> Result<Tables, FileRefusal>
    // There is an answer to the text, and this is it.
    ensures answered { IsAnswered text.now limits.now result }
    // No other answer is there: whatever the grammar gives the text is told.
    ensures only { (o : Answer) → IsAnswer (tables limits.now) nothing (lines_of text.now) o → Agrees result (told text.now o) }
    // Tables that are read have names, each cell once, and lines in their order.
    ensures kept { IfOk result (λ tables. IsTables limits.now tables) }
{
    read_lines(alloc, text, limits)
}
