ghost use Rattle.std.specs.Prelude.{◌≡◌, ◌<◌, ◌≤◌, ◌^◌, length, IfOk, IfErr, MatchOption};
ghost use Rattle.std.specs.Str.{str_to_ascii_lowercase};
ghost use Rattle.udp_table.specs.Letters.{IsRow};
ghost use Rattle.udp_table.specs.Building.{number_at, AreRowsOf, IsRefused};
ghost use Rattle.udp_table.specs.Reading.{value_at, level_at, next_at, edge_at, levels_in, after_levels, Finds, between_in, edge_in, ending_in, edge_row_in, row_in};

use crate::refusal::UdpRefusal;
use crate::row::{EdgeRow, LevelRow, Row};
use crate::symbol::{EdgeSymbol, LevelSymbol, NextState};
use std::alloc::Global;
use tern_core::Tern;
use text_scan::{Items, NoMemory};
use verilog_source::UdpText;

fn value(letter: u8) -> Option<Tern>
    ensures { result ≡ value_at letter }
{
    match letter {
        b'0' => Some(Tern::Zero),
        b'1' => Some(Tern::One),
        b'x' => Some(Tern::Unknown),
        _ => None,
    }
}

fn level_symbol(letter: u8) -> Option<LevelSymbol>
    ensures { result ≡ level_at letter }
{
    match letter {
        b'0' => Some(LevelSymbol::Only(Tern::Zero)),
        b'1' => Some(LevelSymbol::Only(Tern::One)),
        b'x' => Some(LevelSymbol::Only(Tern::Unknown)),
        b'b' => Some(LevelSymbol::Binary),
        b'?' => Some(LevelSymbol::Any),
        _ => None,
    }
}

fn next_state(letter: u8) -> Option<NextState>
    ensures { result ≡ next_at letter }
{
    match letter {
        b'0' => Some(NextState::Becomes(Tern::Zero)),
        b'1' => Some(NextState::Becomes(Tern::One)),
        b'x' => Some(NextState::Becomes(Tern::Unknown)),
        b'-' => Some(NextState::Stays),
        _ => None,
    }
}

fn edge_symbol(letter: u8) -> Option<EdgeSymbol>
    ensures { result ≡ edge_at letter }
{
    match letter {
        b'r' => Some(EdgeSymbol::Rising),
        b'f' => Some(EdgeSymbol::Falling),
        b'p' => Some(EdgeSymbol::PotentialRising),
        b'n' => Some(EdgeSymbol::PotentialFalling),
        b'*' => Some(EdgeSymbol::AnyChange),
        _ => None,
    }
}

/// The levels at the front, and what stands behind them.
fn levels(alloc: Global, letters: &[u8]) -> Result<(Items<LevelSymbol>, &[u8]), NoMemory>
    ensures { IfOk result (λ r. (r.0 ≡ levels_in letters.now) × (r.1.now ≡ after_levels letters.now)) }
{
    let mut levels = Items::new(alloc);
    for (place, letter) in letters.iter().enumerate() {
        match level_symbol(*letter) {
            Some(symbol) => levels.push(symbol)?,
            None => return Ok((levels, &letters[place..])),
        }
    }
    Ok((levels, &[]))
}

/// The two levels of an edge behind its `(`, and what stands behind its `)`.
fn between(letters: &[u8]) -> Option<(EdgeSymbol, &[u8])>
    ensures { Finds result (between_in letters.now) }
{
    match letters {
        [from, to, b')', rest @ ..] => {
            let edge = EdgeSymbol::Between(level_symbol(*from)?, level_symbol(*to)?);
            Some((edge, rest))
        }
        _ => None,
    }
}

/// An edge, and what stands behind it.
fn edge(letters: &[u8]) -> Option<(EdgeSymbol, &[u8])>
    ensures { Finds result (edge_in letters.now) }
{
    match letters {
        [b'(', rest @ ..] => between(rest),
        [letter, rest @ ..] => Some((edge_symbol(*letter)?, rest)),
        [] => None,
    }
}

/// What stands behind the inputs, up to the end.
fn ending(sequential: bool, letters: &[u8]) -> Option<(LevelSymbol, NextState)>
    ensures { result ≡ ending_in sequential letters.now }
{
    match (sequential, letters) {
        (false, [b':', next]) => Some((LevelSymbol::Any, NextState::Becomes(value(*next)?))),
        (true, [b':', state, b':', next]) => Some((level_symbol(*state)?, next_state(*next)?)),
        _ => None,
    }
}

/// The row of an edge that stands behind these levels.
fn edge_row(
    alloc: Global,
    inputs: usize,
    before: Items<LevelSymbol>,
    letters: &[u8],
) -> Result<Option<Row>, NoMemory>
    requires { length before < 2 ^ 62 }
    ensures { IfOk result (λ r. r ≡ edge_row_in inputs before letters.now) }
{
    let Some((edge, rest)) = edge(letters) else {
        return Ok(None);
    };
    let (after, rest) = levels(alloc, rest)?;
    let Some((state, next)) = ending(true, rest) else {
        return Ok(None);
    };
    if before.len() + 1 + after.len() != inputs {
        return Ok(None);
    }
    Ok(Some(Row::Edge(EdgeRow {
        before,
        edge,
        after,
        state,
        next,
    })))
}

/// The row that the letters are, all in lower case.
fn row(
    alloc: Global,
    sequential: bool,
    inputs: usize,
    letters: &[u8],
) -> Result<Option<Row>, NoMemory>
    ensures { IfOk result (λ r. r ≡ row_in sequential inputs letters.now) }
{
    let (levels, rest) = levels(alloc, letters)?;
    match ending(sequential, rest) {
        Some((state, next)) if levels.len() == inputs => {
            Ok(Some(Row::Level(LevelRow {
                levels,
                state,
                next,
            })))
        }
        None if sequential => edge_row(alloc, inputs, levels, rest),
        _ => Ok(None),
    }
}

fn lowercase(alloc: Global, bytes: &[u8]) -> Result<Vec<u8>, NoMemory>
    ensures { IfOk result (λ letters. letters.items ≡ str_to_ascii_lowercase bytes.now) }
{
    Ok(
        bytes
            .iter()
            .map(|byte| byte.to_ascii_lowercase())
            .collect(alloc)?,
    )
}

/// The row that the bytes are, whichever case their letters have, or none.
fn row_of(
    alloc: Global,
    sequential: bool,
    inputs: usize,
    bytes: &[u8],
) -> Result<Option<Row>, NoMemory>
    ensures { IfOk result (λ found. MatchOption found
        ((row : Row) → IsRow sequential inputs bytes.now row → ⊥)
        (IsRow sequential inputs bytes.now)) }
{
    let letters = lowercase(alloc, bytes)?;
    row(alloc, sequential, inputs, &letters)
}

/// How a report counts the row at this place.
pub(crate) fn row_number(place: usize) -> u32
    ensures { result ≡ number_at place }
{
    u32::try_from(place).map_or(u32::MAX, |place| place.saturating_add(1))
}

/// The rows of a primitive's text, or the first that is none.
pub(crate) fn rows(alloc: Global, text: &UdpText) -> Result<Items<Row>, UdpRefusal>
    requires { text.now.inputs ≤ 10 }
    ensures ok { IfOk result (AreRowsOf text.now) }
    ensures err { IfErr result (IsRefused text.now) }
{
    let mut rows = Items::new(alloc);
    for (place, bytes) in text.rows.as_slice().iter().enumerate() {
        match row_of(
            alloc,
            text.sequential,
            text.inputs as usize,
            bytes.as_bytes(),
        )? {
            Some(row) => rows.push(row)?,
            None => return Err(UdpRefusal::BadRow(row_number(place))),
        }
    }
    Ok(rows)
}
