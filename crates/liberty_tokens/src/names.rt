//! The bytes of tokens, and the columns of rows.
ghost use Rattle.std.specs.Prelude.{◌≡◌, ◌<◌, ◌++◌, [], length, drop, IfOk, OnOk, slice_range, false};
ghost use Rattle.liberty_tokens.specs.Looks as looks;
ghost use Rattle.liberty_tokens.specs.Names as spec;

use file_rules::slice;
use std::alloc::Global;
use text_scan::{Items, Kind, NoMemory, Text, Token};

#[tactic(auto, unfolding(crate::specs::Looks::text))]
pub fn text(source: &[u8], token: Token) -> &[u8]
    ensures { result.now ≡ looks.text source.now token }
{
    slice(source, token.span.start, token.span.end)
}

/// The bytes from the first token to the last as they stand.
pub fn between(source: &[u8], first: Token, last: Token) -> &[u8]
    ensures { result.now ≡ slice_range source.now first.span.start last.span.end }
{
    slice(source, first.span.start, last.span.end)
}

#[tactic(auto, unfolding(crate::specs::Names::inside))]
fn inside(source: &[u8], token: Token) -> &[u8]
    ensures { result.now ≡ spec.inside source.now token }
{
    if source.len() <= token.span.start {
        return &[];
    }
    slice(
        source,
        token.span.start + 1,
        token.span.end.saturating_sub(1),
    )
}

#[tactic(auto, unfolding(crate::specs::Names::shown_byte))]
fn shown_byte(byte: u8) -> u8
    ensures { result ≡ spec.shown_byte byte }
{
    if byte == b'\n' { b' ' } else { byte }
}

#[tactic(auto, unfolding(text_scan::specs::Bytes::begins_with, text_scan::specs::Bytes::begins_with_pair))]
fn joins_lines(bytes: &[u8]) -> bool
    ensures { result ≡ spec.joins_lines bytes.now }
{
    match bytes {
        [a, b, ..] => *a == b'\\' && *b == b'\n',
        _ => false,
    }
}

// The first byte of these; whether the one after it belongs to a joined line.
#[tactic(auto, using(crate::proofs::Contents::joined_on, crate::proofs::Contents::joins_on, crate::proofs::Contents::shows_on, crate::proofs::Contents::more_shown))]
fn show_byte(joined: bool, bytes: &[u8], shown: &mut Vec<u8>) -> Result<bool, NoMemory>
    requires { 0 < length bytes.now }
    ensures { IfOk result (λ next. shown.new.items ++ spec.unjoined next (drop 1 bytes.now) ≡ shown.old.items ++ spec.unjoined joined bytes.now) }
{
    if joined {
        return Ok(false);
    }
    if joins_lines(bytes) {
        return Ok(true);
    }
    shown.push(shown_byte(bytes[0]))?;
    Ok(false)
}

#[tactic(auto, using(crate::proofs::Contents::none_on, crate::proofs::Contents::drop_one))]
fn unjoined(alloc: Global, bytes: &[u8]) -> Result<Text, NoMemory>
    ensures { IfOk result (λ t. t ≡ spec.unjoined false bytes.now) }
{
    let mut shown = Vec::new(alloc);
    let mut joined = false;
    for at in 0..bytes.len() {
        joined = show_byte(joined, &bytes[at..], &mut shown)?;
    }
    Ok(Text::from_vec(shown))
}

#[tactic(auto, unfolding(crate::specs::Names::content))]
pub fn content(alloc: Global, source: &[u8], token: Token) -> Result<Text, NoMemory>
    ensures { IfOk result (λ t. t ≡ spec.content source.now token) }
{
    match token.kind {
        Kind::Str => unjoined(alloc, inside(source, token)),
        _ => Text::from_bytes(alloc, text(source, token)),
    }
}

#[tactic(auto, unfolding(crate::specs::Names::is_break))]
fn is_break(byte: u8) -> bool
    ensures { result ≡ spec.is_break byte }
{
    byte == b' ' || byte == b'\t'
}

// A column that has ended, where it has a byte.
fn end_column(column: Vec<u8>, columns: &mut Items<Text>) -> Result<(), NoMemory>
    ensures { OnOk result (columns.new ≡ columns.old ++ spec.ended_column column.items []) }
{
    if 0 < column.len() {
        columns.push(Text::from_vec(column))?;
    }
    Ok(())
}

// A byte of a row, in this column, after these columns; the column that is read then.
#[tactic(auto, using(crate::proofs::RowColumns::broken, crate::proofs::RowColumns::longer, crate::proofs::RowColumns::joined))]
fn add_byte(
    alloc: Global,
    bytes: &[u8],
    mut column: Vec<u8>,
    columns: &mut Items<Text>,
) -> Result<Vec<u8>, NoMemory>
    requires { 0 < length bytes.now }
    ensures { IfOk result (λ next. columns.new ++ spec.columns_from next.items (drop 1 bytes.now) ≡ columns.old ++ spec.columns_from column.items bytes.now) }
{
    if is_break(bytes[0]) {
        end_column(column, columns)?;
        return Ok(Vec::new(alloc));
    }
    column.push(bytes[0])?;
    Ok(column)
}

/// The columns of a row of a state table, which stand between blanks and tabs.
#[tactic(auto, unfolding(crate::specs::Names::columns), using(crate::proofs::RowColumns::no_more, crate::proofs::Contents::drop_one))]
pub fn columns(alloc: Global, bytes: &[u8]) -> Result<Items<Text>, NoMemory>
    ensures { IfOk result (λ found. found ≡ spec.columns bytes.now) }
{
    let mut found = Items::new(alloc);
    let mut column = Vec::new(alloc);
    for at in 0..bytes.len() {
        column = add_byte(alloc, &bytes[at..], column, &mut found)?;
    }
    end_column(column, &mut found)?;
    Ok(found)
}
