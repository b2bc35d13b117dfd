//! Cells as they are told: whole, or refused with a word and a line.
ghost use Rattle.std.specs.Prelude.{◌≡◌, ◌++◌, map, IfOk, OnOk};
ghost use Rattle.liberty_source.specs.declared.StateGroup.TheVariants as states;
ghost use Rattle.liberty_reader.specs.Cells as spec;
ghost use Rattle.liberty_tokens.specs.Names as names;

use crate::cell::{Construct, Slots, direction_of, first_refused, is_power, is_string, last_of};
use file_rules::{shown_string, shown_word};
use liberty_source::{
    Both, CellPart, FfText, LatchText, LibertyCell, LibertyPin, Library, RowsText, StateGroup,
};
use liberty_statements::{Attribute, CellText, Group, Statements, value_text};
use liberty_tokens::{GroupKind, columns, content, text};
use std::alloc::Global;
use text_scan::{Direction, Items, NoMemory, PinKind, Text, Token};

fn shown_value(
    alloc: Global,
    source: &[u8],
    attribute: Option<Attribute>,
) -> Result<Option<Text>, NoMemory>
    ensures { IfOk result (λ t. t ≡ spec.shown_value source.now attribute) }
{
    match attribute {
        None => Ok(None),
        Some(attribute) => {
            let value = value_text(alloc, source, attribute.value)?;
            Ok(Some(value))
        }
    }
}

#[tactic(auto, unfolding(crate::specs::Cells::word_of))]
fn word_of(alloc: Global, source: &[u8], token: Token) -> Result<Text, NoMemory>
    ensures { IfOk result (λ t. t ≡ spec.word_of source.now token) }
{
    if is_string(token.kind) {
        let string = content(alloc, source, token)?;
        return Text::from_bytes(alloc, shown_string(string.as_bytes()));
    }
    Text::from_bytes(alloc, shown_word(text(source, token)))
}

fn kind_of(value: &[u8]) -> PinKind
    ensures { result ≡ spec.kind_of value.now }
{
    if is_power(value) {
        PinKind::Power
    } else {
        PinKind::Ground
    }
}

fn supply_kind(
    alloc: Global,
    source: &[u8],
    attribute: Option<Attribute>,
) -> Result<PinKind, NoMemory>
    ensures { IfOk result (λ kind. kind ≡ spec.supply_kind source.now attribute) }
{
    match attribute {
        None => Ok(PinKind::Ground),
        Some(attribute) => {
            let value = value_text(alloc, source, attribute.value)?;
            Ok(kind_of(value.as_bytes()))
        }
    }
}

fn pin_direction(
    alloc: Global,
    source: &[u8],
    attribute: Option<Attribute>,
) -> Result<Direction, NoMemory>
    ensures { IfOk result (λ direction. direction ≡ spec.pin_direction source.now attribute) }
{
    match attribute {
        None => Ok(Direction::Absent),
        Some(attribute) => {
            let value = value_text(alloc, source, attribute.value)?;
            Ok(direction_of(value.as_bytes()))
        }
    }
}

#[tactic(auto, unfolding(crate::specs::Cells::pin))]
fn pin(alloc: Global, source: &[u8], slots: &Slots, token: Token) -> Result<LibertyPin, NoMemory>
    ensures { IfOk result (λ made. made ≡ spec.pin source.now slots.now token) }
{
    let name = content(alloc, source, token)?;
    let direction = pin_direction(alloc, source, slots.direction)?;
    let function = shown_value(alloc, source, slots.function)?;
    let state_function = shown_value(alloc, source, slots.state_function)?;
    let internal_node = shown_value(alloc, source, slots.internal_node)?;
    Ok(LibertyPin {
        name,
        direction,
        kind: PinKind::Signal,
        function,
        state_function,
        internal_node,
    })
}

#[tactic(auto, unfolding(crate::specs::Cells::supply))]
fn supply(alloc: Global, source: &[u8], slots: &Slots, token: Token) -> Result<LibertyPin, NoMemory>
    ensures { IfOk result (λ made. made ≡ spec.supply source.now slots.now token) }
{
    let name = content(alloc, source, token)?;
    let kind = supply_kind(alloc, source, slots.pg_type)?;
    Ok(LibertyPin {
        name,
        direction: Direction::Absent,
        kind,
        function: None,
        state_function: None,
        internal_node: None,
    })
}

fn both_of(value: &[u8]) -> Both
    ensures { result ≡ spec.both_of value.now }
{
    if value == b"L".as_slice() {
        Both::Low
    } else if value == b"H".as_slice() {
        Both::High
    } else if value == b"N".as_slice() {
        Both::Keep
    } else {
        Both::Unknown
    }
}

fn both(alloc: Global, source: &[u8], attribute: Option<Attribute>) -> Result<Both, NoMemory>
    ensures { IfOk result (λ value. value ≡ spec.both source.now attribute) }
{
    match attribute {
        None => Ok(Both::Unknown),
        Some(attribute) => {
            let value = value_text(alloc, source, attribute.value)?;
            Ok(both_of(value.as_bytes()))
        }
    }
}

#[tactic(auto, using(crate::proofs::Made::more_made, crate::proofs::Made::all_made))]
fn add_pins(
    alloc: Global,
    source: &[u8],
    slots: &Slots,
    args: &[Token],
    pins: &mut Items<LibertyPin>,
) -> Result<(), NoMemory>
    ensures { OnOk result (pins.new ≡ pins.old ++ map (spec.pin source.now slots.now) args.now) }
{
    for at in 0..args.len() {
        pins.push(pin(alloc, source, slots, args[at])?)?;
    }
    Ok(())
}

#[tactic(auto, using(crate::proofs::Made::more_made, crate::proofs::Made::all_made))]
fn add_supplies(
    alloc: Global,
    source: &[u8],
    slots: &Slots,
    args: &[Token],
    pins: &mut Items<LibertyPin>,
) -> Result<(), NoMemory>
    ensures { OnOk result (pins.new ≡ pins.old ++ map (spec.supply source.now slots.now) args.now) }
{
    for at in 0..args.len() {
        pins.push(supply(alloc, source, slots, args[at])?)?;
    }
    Ok(())
}

fn add_group_pins(
    alloc: Global,
    source: &[u8],
    group: &Group,
    slots: &Slots,
    pins: &mut Items<LibertyPin>,
) -> Result<(), NoMemory>
    ensures { OnOk result (pins.new ≡ pins.old ++ spec.group_pins source.now group.now.kind group.now.args slots.now) }
{
    match group.kind {
        GroupKind::Pin => add_pins(alloc, source, slots, group.args.as_slice(), pins),
        GroupKind::PgPin => add_supplies(alloc, source, slots, group.args.as_slice(), pins),
        _ => Ok(()),
    }
}

fn add_pins_of(
    alloc: Global,
    source: &[u8],
    group: &Group,
    pins: &mut Items<LibertyPin>,
) -> Result<(), NoMemory>
    ensures { OnOk result (pins.new ≡ pins.old ++ spec.pins_of source.now group.now) }
{
    let slots = last_of(group.attributes.as_slice());
    add_group_pins(alloc, source, group, &slots, pins)
}

#[tactic(auto, using(crate::proofs::Made::next_pins, crate::proofs::Made::no_more_pins, crate::proofs::Made::joined))]
fn pins(alloc: Global, source: &[u8], groups: &[Group]) -> Result<Items<LibertyPin>, NoMemory>
    ensures { IfOk result (λ made. made ≡ spec.pins source.now groups.now) }
{
    let mut pins = Items::new(alloc);
    for at in 0..groups.len() {
        add_pins_of(alloc, source, &groups[at], &mut pins)?;
    }
    Ok(pins)
}

fn two_contents(
    alloc: Global,
    source: &[u8],
    first: Token,
    second: Token,
) -> Result<[Text; 2], NoMemory>
    ensures { IfOk result (λ made. made ≡ spec.two_contents source.now first second) }
{
    let first = content(alloc, source, first)?;
    let second = content(alloc, source, second)?;
    Ok([first, second])
}

fn two_boths(alloc: Global, source: &[u8], slots: &Slots) -> Result<[Both; 2], NoMemory>
    ensures { IfOk result (λ made. made ≡ spec.two_boths source.now slots.now) }
{
    let first = both(alloc, source, slots.first_both)?;
    let second = both(alloc, source, slots.second_both)?;
    Ok([first, second])
}

fn flip_flop(
    alloc: Global,
    source: &[u8],
    word: Token,
    first: Token,
    second: Token,
    slots: &Slots,
) -> Result<FfText, NoMemory>
    ensures { IfOk result (λ made. made ≡ spec.flip_flop source.now word first second slots.now) }
{
    let variables = two_contents(alloc, source, first, second)?;
    let next_state = shown_value(alloc, source, slots.next_state)?;
    let clocked_on = shown_value(alloc, source, slots.clocked_on)?;
    let clear = shown_value(alloc, source, slots.clear)?;
    let preset = shown_value(alloc, source, slots.preset)?;
    let both = two_boths(alloc, source, slots)?;
    Ok(FfText {
        line: word.span.line,
        variables,
        next_state,
        clocked_on,
        clear,
        preset,
        both,
    })
}

fn latch(
    alloc: Global,
    source: &[u8],
    word: Token,
    first: Token,
    second: Token,
    slots: &Slots,
) -> Result<LatchText, NoMemory>
    ensures { IfOk result (λ made. made ≡ spec.latch source.now word first second slots.now) }
{
    let variables = two_contents(alloc, source, first, second)?;
    let enable = shown_value(alloc, source, slots.enable)?;
    let data_in = shown_value(alloc, source, slots.data_in)?;
    let clear = shown_value(alloc, source, slots.clear)?;
    let preset = shown_value(alloc, source, slots.preset)?;
    let both = two_boths(alloc, source, slots)?;
    Ok(LatchText {
        line: word.span.line,
        variables,
        enable,
        data_in,
        clear,
        preset,
        both,
    })
}

fn table_text(alloc: Global, source: &[u8], attribute: Option<Attribute>) -> Result<Text, NoMemory>
    ensures { IfOk result (λ t. t ≡ spec.table_text source.now attribute) }
{
    match attribute {
        None => Text::from_bytes(alloc, b""),
        Some(attribute) => value_text(alloc, source, attribute.value),
    }
}

fn row_columns(alloc: Global, source: &[u8], token: Token) -> Result<Items<Text>, NoMemory>
    ensures { IfOk result (λ made. made ≡ names.columns (names.content source.now token)) }
{
    let row = content(alloc, source, token)?;
    columns(alloc, row.as_bytes())
}

fn rows(
    alloc: Global,
    source: &[u8],
    word: Token,
    first: Token,
    second: Token,
    slots: &Slots,
) -> Result<RowsText, NoMemory>
    ensures { IfOk result (λ made. made ≡ spec.rows source.now word first second slots.now) }
{
    let inputs = row_columns(alloc, source, first)?;
    let nodes = row_columns(alloc, source, second)?;
    let table = table_text(alloc, source, slots.table)?;
    Ok(RowsText {
        line: word.span.line,
        inputs,
        nodes,
        table,
    })
}

// A group of two arguments as the state.
fn state_of_two(
    alloc: Global,
    source: &[u8],
    group: &Group,
    first: Token,
    second: Token,
    before: StateGroup,
) -> Result<StateGroup, NoMemory>
    ensures { IfOk result (λ made. made ≡ spec.state_of_two source.now group.now first second before) }
{
    let slots = last_of(group.attributes.as_slice());
    match group.kind {
        GroupKind::Ff => {
            let made = flip_flop(alloc, source, group.word, first, second, &slots)?;
            Ok(StateGroup::Ff(made))
        }
        GroupKind::Latch => {
            let made = latch(alloc, source, group.word, first, second, &slots)?;
            Ok(StateGroup::Latch(made))
        }
        GroupKind::StateTable => {
            let made = rows(alloc, source, group.word, first, second, &slots)?;
            Ok(StateGroup::Rows(made))
        }
        _ => Ok(before),
    }
}

#[tactic(auto, using(crate::proofs::Made::two_args, crate::proofs::Made::not_two_args))]
fn group_state(
    alloc: Global,
    source: &[u8],
    group: &Group,
    before: StateGroup,
) -> Result<StateGroup, NoMemory>
    ensures { IfOk result (λ made. made ≡ spec.group_state source.now group.now group.now.args before) }
{
    let args = group.args.as_slice();
    if args.len() != 2 {
        return Ok(before);
    }
    state_of_two(alloc, source, group, args[0], args[1], before)
}

#[tactic(auto, using(crate::proofs::Made::next_state, crate::proofs::Made::no_more_states))]
fn state(alloc: Global, source: &[u8], groups: &[Group]) -> Result<StateGroup, NoMemory>
    ensures { IfOk result (λ made. made ≡ spec.state source.now groups.now states.Stateless) }
{
    let mut state = StateGroup::Stateless;
    for at in 0..groups.len() {
        state = group_state(alloc, source, &groups[at], state)?;
    }
    Ok(state)
}

fn whole(alloc: Global, source: &[u8], cell: &CellText) -> Result<LibertyCell, NoMemory>
    ensures { IfOk result (λ made. made ≡ spec.whole source.now cell.now) }
{
    let name = content(alloc, source, cell.name)?;
    let pins = pins(alloc, source, cell.groups.as_slice())?;
    let state = state(alloc, source, cell.groups.as_slice())?;
    Ok(LibertyCell {
        name,
        line: cell.word.span.line,
        pins,
        state,
    })
}

fn refused(
    alloc: Global,
    source: &[u8],
    cell: &CellText,
    construct: Construct,
) -> Result<CellPart, NoMemory>
    ensures { IfOk result (λ made. made ≡ spec.refused source.now cell.now construct) }
{
    let name = content(alloc, source, cell.name)?;
    let shown = word_of(alloc, source, construct.word)?;
    Ok(CellPart::Refused {
        name,
        construct: shown,
        line: construct.word.span.line,
    })
}

#[tactic(auto, unfolding(crate::specs::Cells::cell_part))]
fn cell_part(alloc: Global, source: &[u8], cell: &CellText) -> Result<CellPart, NoMemory>
    ensures { IfOk result (λ made. made ≡ spec.cell_part source.now cell.now) }
{
    match first_refused(alloc, source, cell.groups.as_slice())? {
        None => {
            let cell = whole(alloc, source, cell)?;
            Ok(CellPart::Whole(cell))
        }
        Some(construct) => refused(alloc, source, cell, construct),
    }
}

#[tactic(auto, using(crate::proofs::Made::more_made, crate::proofs::Made::all_made))]
fn cell_parts(alloc: Global, source: &[u8], cells: &[CellText]) -> Result<Items<CellPart>, NoMemory>
    ensures { IfOk result (λ made. made ≡ map (spec.cell_part source.now) cells.now) }
{
    let mut parts = Items::new(alloc);
    for at in 0..cells.len() {
        parts.push(cell_part(alloc, source, &cells[at])?)?;
    }
    Ok(parts)
}

fn library_name(alloc: Global, source: &[u8], name: Option<Token>) -> Result<Text, NoMemory>
    ensures { IfOk result (λ t. t ≡ spec.library_name source.now name) }
{
    match name {
        None => Text::from_bytes(alloc, b""),
        Some(token) => content(alloc, source, token),
    }
}

/// What the statements of a library say.
#[tactic(auto, unfolding(crate::specs::Cells::library))]
pub fn library(alloc: Global, source: &[u8], statements: &Statements) -> Result<Library, NoMemory>
    ensures { IfOk result (λ made. made ≡ spec.library source.now statements.now) }
{
    let name = library_name(alloc, source, statements.name)?;
    let cells = cell_parts(alloc, source, statements.cells.as_slice())?;
    Ok(Library { name, cells })
}
