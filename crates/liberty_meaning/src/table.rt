//! State tables: the rows of a table's text, and what they do.
ghost use Rattle.std.specs.Prelude.{◌≡◌, ℕ, ◌<◌, ◌≤◌, ◌+◌, ◌^◌, ◌++◌, ◌∷◌, [], length, IfOk, IsTrue, MatchOption, slice_index_or, Some, None, false};
ghost use Rattle.liberty_meaning.specs.Table as spec;
ghost use Rattle.std.specs.List.{list_any};
ghost use Rattle.std.specs.Option.{option_copied};
ghost use Rattle.liberty_meaning.specs.Symbols.{is_slash};

use crate::symbols::{Role, Symbol, is_slash as slash_in, matches_symbol, symbol_of};
use liberty_function::{Source, source_value};
use std::alloc::Global;
use tern_core::Tern;
use text_scan::{Items, NoMemory, Text};

/// A row: what its inputs and nodes match, and the next value of each node.
#[derive(Drop)]
pub(crate) struct Row {
    pub(crate) inputs: Items<Symbol>,
    pub(crate) nodes: Items<Symbol>,
    pub(crate) next: Items<Symbol>,
}

/// The rows of a table, and where its input columns take their values from.
#[derive(Drop)]
pub(crate) struct Table {
    pub(crate) columns: Items<Source>,
    pub(crate) rows: Items<Row>,
}

/// The symbols of the words; nothing where a word is none.
fn symbols_of(
    alloc: Global,
    role: Role,
    second: bool,
    words: &[Text],
) -> Result<Option<Items<Symbol>>, NoMemory>
    ensures { IfOk result (λ symbols. symbols ≡ spec.symbols_of role second words.now) }
{
    let mut symbols = Items::new(alloc);
    for word in words {
        match symbol_of(role, second, word.as_bytes()) {
            Some(symbol) => symbols.push(symbol)?,
            None => return Ok(None),
        }
    }
    Ok(Some(symbols))
}

fn is_colon(words: &[Text], k: usize) -> bool
    ensures { result ≡ spec.is_colon_at words.now k }
{
    match words.get(k) {
        Some(word) => word.as_bytes() == b":".as_slice(),
        None => false,
    }
}

fn inputs_match(columns: &[Source], symbols: &[Symbol], old: &[Tern], new: &[Tern]) -> bool
    ensures { result ≡ spec.inputs_match columns.now symbols.now old.now new.now }
{
    symbols.iter().zip(columns).all(|(s, c)| matches_symbol(
        *s,
        source_value(old, &[], *c),
        source_value(new, &[], *c),
    ))
}

fn nodes_match(symbols: &[Symbol], state: &[Tern]) -> bool
    ensures { result ≡ spec.nodes_match symbols.now state.now }
{
    symbols
        .iter()
        .zip(state)
        .all(|(s, v)| matches_symbol(*s, *v, *v))
}

fn matches_row(row: &Row, columns: &[Source], old: &[Tern], new: &[Tern], state: &[Tern]) -> bool
    ensures { result ≡ spec.matches_row columns.now old.now new.now state.now row.now }
{
    inputs_match(columns, row.inputs.as_slice(), old, new)
        && nodes_match(row.nodes.as_slice(), state)
}

/// The row of the words, with the first or the second letter of each slash word; nothing where they are no row.
fn row_of(
    alloc: Global,
    second: bool,
    inputs: usize,
    nodes: usize,
    words: &[Text],
) -> Result<Option<Row>, NoMemory>
    ensures { IfOk result (λ row. row ≡ spec.row_of second inputs nodes words.now) }
{
    if !is_colon(words, inputs) {
        return Ok(None);
    }
    let rest = &words[inputs + 1..];
    if !is_colon(rest, nodes) {
        return Ok(None);
    }
    let last = &rest[nodes + 1..];
    if last.len() != nodes {
        return Ok(None);
    }
    let inputs = symbols_of(alloc, Role::Input, second, &words[..inputs])?;
    let nodes = symbols_of(alloc, Role::Node, second, &rest[..nodes])?;
    let next = symbols_of(alloc, Role::Next, second, last)?;
    match (inputs, nodes, next) {
        (Some(inputs), Some(nodes), Some(next)) => Ok(Some(Row {
            inputs,
            nodes,
            next,
        })),
        _ => Ok(None),
    }
}

fn has_slash(words: &[Text]) -> bool
    ensures { result ≡ list_any is_slash words.now }
{
    words.iter().any(|word| slash_in(word.as_bytes()))
}

/// Appends the one or two rows of the words; false where they are no row.
pub(crate) fn push_rows(
    alloc: Global,
    rows: &mut Items<Row>,
    inputs: usize,
    nodes: usize,
    words: &[Text],
) -> Result<bool, NoMemory>
    ensures { IfOk result (λ good. spec.PushesRows (spec.made inputs nodes words.now) rows.old rows.new good) }
{
    match row_of(alloc, false, inputs, nodes, words)? {
        Some(row) => rows.push(row)?,
        None => return Ok(false),
    }
    if has_slash(words) {
        match row_of(alloc, true, inputs, nodes, words)? {
            Some(row) => rows.push(row)?,
            None => return Ok(false),
        }
    }
    Ok(true)
}

impl Table {
    /// The first row that matches.
    pub(crate) fn first_matching(&self, old: &[Tern], new: &[Tern], state: &[Tern]) -> Option<&Row>
        ensures { option_copied result ≡ spec.first_matching_row self.now old.now new.now state.now }
    {
        for row in self.rows.as_slice() {
            if matches_row(row, self.columns.as_slice(), old, new, state) {
                return Some(row);
            }
        }
        None
    }
}
