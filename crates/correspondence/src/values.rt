//! The values of rows.
ghost use Rattle.std.specs.Prelude.{◌≡◌, IfOk};
ghost use Rattle.file_rules.specs.Told.{Agrees};
ghost use Rattle.correspondence.specs.Left.{end_left, lines_left, words_left};
ghost use Rattle.correspondence.specs.Steps.{Took};
ghost use Rattle.correspondence.specs.Words as spec;

use crate::lines::Lines;
use crate::names::check_end;
use crate::word::Next;
use file_rules::at_token;
use std::alloc::Global;
use table_source::Row;
use tern_core::Tern;
use text_scan::{FileRefusal, Items, NoMemory};

fn is_value(byte: u8) -> bool
    ensures { result ≡ spec.is_value byte }
{
    byte == b'0' || byte == b'1' || byte == b'X'
}

fn value_of(byte: u8) -> Tern
    ensures { result ≡ spec.value_of byte }
{
    if byte == b'0' {
        Tern::Zero
    } else if byte == b'1' {
        Tern::One
    } else {
        Tern::Unknown
    }
}

fn are_values(bytes: &[u8]) -> bool
    ensures { result ≡ spec.are_values bytes.now }
{
    bytes.iter().all(|byte| is_value(*byte))
}

fn value_list(alloc: Global, bytes: &[u8]) -> Result<Vec<Tern>, NoMemory>
    ensures { IfOk result (λ values. values.items ≡ spec.made_values bytes.now) }
{
    let mut values = Vec::with_capacity(alloc, bytes.len())?;
    for byte in bytes {
        values.push(value_of(*byte))?;
    }
    Ok(values)
}

// The values that a word tells.
#[tactic(auto, unfolding(crate::specs::Words::values_of))]
fn values_of(alloc: Global, bytes: &[u8]) -> Result<Option<Items<Tern>>, NoMemory>
    ensures { IfOk result (λ values. values ≡ spec.values_of bytes.now) }
{
    if bytes == b"-".as_slice() {
        Ok(Some(Items::new(alloc)))
    } else if are_values(bytes) {
        Ok(Some(Items::from_vec(value_list(alloc, bytes)?)))
    } else {
        Ok(None)
    }
}

// The values of the line's next word.
fn read_values(alloc: Global, lines: &mut Lines<'_>) -> Result<Items<Tern>, FileRefusal>
    ensures values { Took result (words_left lines.new) (spec.next_values (words_left lines.old) (end_left lines.old)) }
    ensures end { end_left lines.new ≡ end_left lines.old }
    ensures lines { lines_left lines.new ≡ lines_left lines.old }
{
    match lines.next_word() {
        Next::LineEnd(token) => Err(at_token(token)),
        Next::Word(word) => match values_of(alloc, word.bytes) {
            Err(_) => Err(FileRefusal::NoMemory),
            Ok(None) => Err(at_token(word.token)),
            Ok(Some(values)) => Ok(values),
        },
    }
}

// The values of the line's next two words.
fn read_two(alloc: Global, lines: &mut Lines<'_>) -> Result<(Items<Tern>, Items<Tern>), FileRefusal>
    ensures values { Took result (words_left lines.new) (spec.two_values (words_left lines.old) (end_left lines.old)) }
    ensures end { end_left lines.new ≡ end_left lines.old }
    ensures lines { lines_left lines.new ≡ lines_left lines.old }
{
    match read_values(alloc, lines) {
        Err(refusal) => Err(refusal),
        Ok(first) => match read_values(alloc, lines) {
            Err(refusal) => Err(refusal),
            Ok(second) => Ok((first, second)),
        },
    }
}

/// The row that is left of the line with this number.
pub(crate) fn read_row(alloc: Global, line: u32, lines: &mut Lines<'_>) -> Result<Row, FileRefusal>
    ensures row { Agrees result (spec.row_of line (words_left lines.old) (end_left lines.old)) }
    ensures lines { lines_left lines.new ≡ lines_left lines.old }
{
    let (pins, liberty) = match read_two(alloc, lines) {
        Err(refusal) => return Err(refusal),
        Ok(words) => words,
    };
    let (udps, nodes) = match read_two(alloc, lines) {
        Err(refusal) => return Err(refusal),
        Ok(words) => words,
    };
    match check_end(lines) {
        Err(refusal) => Err(refusal),
        Ok(()) => Ok(Row {
            line,
            pins,
            liberty,
            udps,
            nodes,
        }),
    }
}
