//! What a cell makes of its statements.
ghost use Rattle.std.specs.Prelude.{◌≡◌, IfOk, false};
ghost use Rattle.std.specs.List.{list_all};
ghost use Rattle.liberty_tokens.specs.Names as names;
ghost use Rattle.liberty_reader.specs.Cells as spec;
ghost use Rattle.file_rules.specs.Names.{is_name};

use file_rules::is_name;
use liberty_statements::{Attribute, Group, value_text};
use liberty_tokens::{AttributeKind, GroupKind, columns, content};
use std::alloc::Global;
use text_scan::{Direction, Kind, NoMemory, Text, Token};

/// The last attribute of each kind.
#[derive(Clone, Copy, Debug)]
pub struct Slots {
    pub direction: Option<Attribute>,
    pub function: Option<Attribute>,
    pub state_function: Option<Attribute>,
    pub internal_node: Option<Attribute>,
    pub input_map: Option<Attribute>,
    pub three_state: Option<Attribute>,
    pub pg_type: Option<Attribute>,
    pub next_state: Option<Attribute>,
    pub clocked_on: Option<Attribute>,
    pub clocked_on_also: Option<Attribute>,
    pub enable: Option<Attribute>,
    pub data_in: Option<Attribute>,
    pub clear: Option<Attribute>,
    pub preset: Option<Attribute>,
    pub first_both: Option<Attribute>,
    pub second_both: Option<Attribute>,
    pub table: Option<Attribute>,
}

/// Something that isn't read: the token at which it stands, and the one that is shown.
#[derive(Clone, Copy, Debug)]
pub struct Construct {
    pub place: Token,
    pub word: Token,
}

impl Slots {
    fn none() -> Slots
        ensures { result ≡ spec.no_slots }
    {
        Slots {
            direction: None,
            function: None,
            state_function: None,
            internal_node: None,
            input_map: None,
            three_state: None,
            pg_type: None,
            next_state: None,
            clocked_on: None,
            clocked_on_also: None,
            enable: None,
            data_in: None,
            clear: None,
            preset: None,
            first_both: None,
            second_both: None,
            table: None,
        }
    }

    fn put(&mut self, attribute: Attribute)
        ensures { self.new ≡ spec.put attribute.kind attribute self.old }
    {
        match attribute.kind {
            AttributeKind::Direction => self.direction = Some(attribute),
            AttributeKind::Function => self.function = Some(attribute),
            AttributeKind::StateFunction => self.state_function = Some(attribute),
            AttributeKind::InternalNode => self.internal_node = Some(attribute),
            AttributeKind::InputMap => self.input_map = Some(attribute),
            AttributeKind::ThreeState => self.three_state = Some(attribute),
            AttributeKind::PgType => self.pg_type = Some(attribute),
            AttributeKind::NextState => self.next_state = Some(attribute),
            AttributeKind::ClockedOn => self.clocked_on = Some(attribute),
            AttributeKind::ClockedOnAlso => self.clocked_on_also = Some(attribute),
            AttributeKind::Enable => self.enable = Some(attribute),
            AttributeKind::DataIn => self.data_in = Some(attribute),
            AttributeKind::Clear => self.clear = Some(attribute),
            AttributeKind::Preset => self.preset = Some(attribute),
            AttributeKind::FirstBoth => self.first_both = Some(attribute),
            AttributeKind::SecondBoth => self.second_both = Some(attribute),
            AttributeKind::Table => self.table = Some(attribute),
            AttributeKind::Other => {}
        }
    }
}

#[tactic(auto, unfolding(crate::specs::Cells::last_of), using(crate::proofs::CellLists::next_slots, crate::proofs::CellLists::no_more_slots))]
pub fn last_of(attributes: &[Attribute]) -> Slots
    ensures { result ≡ spec.last_of attributes.now }
{
    let mut slots = Slots::none();
    for at in 0..attributes.len() {
        slots.put(attributes[at]);
    }
    slots
}

fn at_word(token: Token) -> Construct
    ensures { result ≡ spec.at_word token }
{
    Construct {
        place: token,
        word: token,
    }
}

fn at_value(attribute: Attribute) -> Construct
    ensures { result ≡ spec.at_value attribute }
{
    at_word(attribute.value.first)
}

fn earlier(a: Option<Construct>, b: Option<Construct>) -> Option<Construct>
    ensures { result ≡ spec.earlier a b }
{
    match (a, b) {
        (None, b) => b,
        (Some(a), None) => Some(a),
        (Some(a), Some(b)) => {
            if b.place.span.start < a.place.span.start {
                Some(b)
            } else {
                Some(a)
            }
        }
    }
}

fn refuses_word(attribute: Option<Attribute>) -> Option<Construct>
    ensures { result ≡ spec.refuses_word attribute }
{
    match attribute {
        None => None,
        Some(attribute) => Some(at_word(attribute.word)),
    }
}

pub fn direction_of(value: &[u8]) -> Direction
    ensures { result ≡ spec.direction_of value.now }
{
    if value == b"input".as_slice() {
        Direction::Input
    } else if value == b"output".as_slice() {
        Direction::Output
    } else if value == b"internal".as_slice() {
        Direction::Internal
    } else {
        Direction::Absent
    }
}

fn is_absent(direction: Direction) -> bool
    ensures { result ≡ spec.is_absent direction }
{
    matches!(direction, Direction::Absent)
}

pub fn is_power(value: &[u8]) -> bool
    ensures { result ≡ spec.is_power value.now }
{
    value == b"primary_power".as_slice() || value == b"nwell".as_slice()
}

fn is_ground(value: &[u8]) -> bool
    ensures { result ≡ spec.is_ground value.now }
{
    value == b"primary_ground".as_slice() || value == b"pwell".as_slice()
}

#[tactic(auto, using(crate::proofs::CellLists::good_arg, crate::proofs::CellLists::bad_arg_here, crate::proofs::CellLists::no_bad_arg))]
fn bad_arg(alloc: Global, source: &[u8], args: &[Token]) -> Result<Option<Construct>, NoMemory>
    ensures { IfOk result (λ c. c ≡ spec.bad_arg source.now args.now) }
{
    for at in 0..args.len() {
        let name = content(alloc, source, args[at])?;
        if !is_name(name.as_bytes()) {
            return Ok(Some(at_word(args[at])));
        }
    }
    Ok(None)
}

fn refuses_direction(
    alloc: Global,
    source: &[u8],
    word: Token,
    attribute: Option<Attribute>,
) -> Result<Option<Construct>, NoMemory>
    ensures { IfOk result (λ c. c ≡ spec.refuses_direction source.now word attribute) }
{
    match attribute {
        None => Ok(Some(at_word(word))),
        Some(attribute) => {
            let value = value_text(alloc, source, attribute.value)?;
            if is_absent(direction_of(value.as_bytes())) {
                Ok(Some(at_value(attribute)))
            } else {
                Ok(None)
            }
        }
    }
}

fn refuses_node(
    alloc: Global,
    source: &[u8],
    attribute: Option<Attribute>,
) -> Result<Option<Construct>, NoMemory>
    ensures { IfOk result (λ c. c ≡ spec.refuses_node source.now attribute) }
{
    match attribute {
        None => Ok(None),
        Some(attribute) => {
            let value = value_text(alloc, source, attribute.value)?;
            if is_name(value.as_bytes()) {
                Ok(None)
            } else {
                Ok(Some(at_value(attribute)))
            }
        }
    }
}

fn refuses_supply(
    alloc: Global,
    source: &[u8],
    word: Token,
    attribute: Option<Attribute>,
) -> Result<Option<Construct>, NoMemory>
    ensures { IfOk result (λ c. c ≡ spec.refuses_supply source.now word attribute) }
{
    match attribute {
        None => Ok(Some(at_word(word))),
        Some(attribute) => {
            let value = value_text(alloc, source, attribute.value)?;
            if is_power(value.as_bytes()) || is_ground(value.as_bytes()) {
                Ok(None)
            } else {
                Ok(Some(at_value(attribute)))
            }
        }
    }
}

fn is_both(value: &[u8]) -> bool
    ensures { result ≡ spec.is_both value.now }
{
    value == b"L".as_slice()
        || value == b"H".as_slice()
        || value == b"N".as_slice()
        || value == b"X".as_slice()
}

fn refuses_both(
    alloc: Global,
    source: &[u8],
    attribute: Option<Attribute>,
) -> Result<Option<Construct>, NoMemory>
    ensures { IfOk result (λ c. c ≡ spec.refuses_both source.now attribute) }
{
    match attribute {
        None => Ok(None),
        Some(attribute) => {
            let value = value_text(alloc, source, attribute.value)?;
            if is_both(value.as_bytes()) {
                Ok(None)
            } else {
                Ok(Some(at_word(attribute.word)))
            }
        }
    }
}

#[tactic(auto, using(crate::proofs::CellLists::good_column, crate::proofs::CellLists::bad_column_here, crate::proofs::CellLists::no_bad_column))]
fn bad_column(alloc: Global, source: &[u8], args: &[Token]) -> Result<Option<Construct>, NoMemory>
    ensures { IfOk result (λ c. c ≡ spec.bad_column source.now args.now) }
{
    for at in 0..args.len() {
        if !are_columns(alloc, source, args[at])? {
            return Ok(Some(at_word(args[at])));
        }
    }
    Ok(None)
}

fn are_names(texts: &[Text]) -> bool
    ensures { result ≡ list_all is_name texts.now }
{
    texts.iter().all(|text| is_name(text.as_bytes()))
}

fn are_columns(alloc: Global, source: &[u8], token: Token) -> Result<bool, NoMemory>
    ensures { IfOk result (λ all. all ≡ list_all is_name (names.columns (names.content source.now token))) }
{
    let row = content(alloc, source, token)?;
    let found = columns(alloc, row.as_bytes())?;
    Ok(are_names(found.as_slice()))
}

fn is_name_token(alloc: Global, source: &[u8], token: Token) -> Result<bool, NoMemory>
    ensures { IfOk result (λ is. is ≡ is_name (names.content source.now token)) }
{
    let name = content(alloc, source, token)?;
    Ok(is_name(name.as_bytes()))
}

#[tactic(auto, using(crate::proofs::CellLists::two_variables, crate::proofs::CellLists::not_two_variables))]
fn are_variables(alloc: Global, source: &[u8], args: &[Token]) -> Result<bool, NoMemory>
    ensures { IfOk result (λ are. are ≡ spec.are_variables source.now args.now) }
{
    if args.len() != 2 {
        return Ok(false);
    }
    let first = is_name_token(alloc, source, args[0])?;
    let second = is_name_token(alloc, source, args[1])?;
    Ok(first && second)
}

pub fn is_string(kind: Kind) -> bool
    ensures { result ≡ names.is_string kind }
{
    matches!(kind, Kind::Str)
}

#[tactic(auto, using(crate::proofs::CellLists::two_strings, crate::proofs::CellLists::not_two_strings))]
fn are_strings(args: &[Token]) -> bool
    ensures { result ≡ spec.are_strings args.now }
{
    if args.len() != 2 {
        return false;
    }
    is_string(args[0].kind) && is_string(args[1].kind)
}

fn refuses_state(alloc: Global, source: &[u8], slots: &Slots) -> Result<Option<Construct>, NoMemory>
    ensures { IfOk result (λ c. c ≡ spec.refuses_state source.now slots.now) }
{
    let first = refuses_both(alloc, source, slots.first_both)?;
    let second = refuses_both(alloc, source, slots.second_both)?;
    Ok(earlier(refuses_word(slots.clocked_on_also), earlier(first, second)))
}

fn refuses_pin(
    alloc: Global,
    source: &[u8],
    group: &Group,
    slots: &Slots,
) -> Result<Option<Construct>, NoMemory>
    ensures { IfOk result (λ c. c ≡ spec.refuses_pin source.now group.now.word group.now.args slots.now) }
{
    let arg = bad_arg(alloc, source, group.args.as_slice())?;
    let direction = refuses_direction(alloc, source, group.word, slots.direction)?;
    let node = refuses_node(alloc, source, slots.internal_node)?;
    let words = earlier(
        refuses_word(slots.input_map),
        refuses_word(slots.three_state),
    );
    Ok(earlier(arg, earlier(direction, earlier(node, words))))
}

fn refuses_pg_pin(
    alloc: Global,
    source: &[u8],
    group: &Group,
    slots: &Slots,
) -> Result<Option<Construct>, NoMemory>
    ensures { IfOk result (λ c. c ≡ spec.refuses_pg_pin source.now group.now.word group.now.args slots.now) }
{
    let arg = bad_arg(alloc, source, group.args.as_slice())?;
    let supply = refuses_supply(alloc, source, group.word, slots.pg_type)?;
    Ok(earlier(arg, supply))
}

fn refuses_storage(
    alloc: Global,
    source: &[u8],
    second: bool,
    group: &Group,
    slots: &Slots,
) -> Result<Option<Construct>, NoMemory>
    ensures { IfOk result (λ c. c ≡ spec.refuses_storage source.now second group.now.word group.now.args slots.now) }
{
    if second {
        return Ok(Some(at_word(group.word)));
    }
    if are_variables(alloc, source, group.args.as_slice())? {
        refuses_state(alloc, source, slots)
    } else {
        Ok(Some(at_word(group.word)))
    }
}

fn refuses_rows(
    alloc: Global,
    source: &[u8],
    second: bool,
    group: &Group,
) -> Result<Option<Construct>, NoMemory>
    ensures { IfOk result (λ c. c ≡ spec.refuses_rows source.now second group.now.word group.now.args) }
{
    if second {
        return Ok(Some(at_word(group.word)));
    }
    if are_strings(group.args.as_slice()) {
        bad_column(alloc, source, group.args.as_slice())
    } else {
        Ok(Some(at_word(group.word)))
    }
}

// The first thing in a group that isn't read.
#[tactic(auto, unfolding(crate::specs::Cells::refuses))]
fn refuses(
    alloc: Global,
    source: &[u8],
    second: bool,
    group: &Group,
    slots: &Slots,
) -> Result<Option<Construct>, NoMemory>
    ensures { IfOk result (λ c. c ≡ spec.refuses source.now second group.now.kind group.now.word group.now.args slots.now) }
{
    match group.kind {
        GroupKind::Pin => refuses_pin(alloc, source, group, slots),
        GroupKind::PgPin => refuses_pg_pin(alloc, source, group, slots),
        GroupKind::Ff | GroupKind::Latch => refuses_storage(alloc, source, second, group, slots),
        GroupKind::StateTable => refuses_rows(alloc, source, second, group),
        GroupKind::Unread => Ok(Some(at_word(group.word))),
        GroupKind::Other => Ok(None),
    }
}

fn is_state(kind: GroupKind) -> bool
    ensures { result ≡ spec.is_state kind }
{
    matches!(
        kind,
        GroupKind::Ff | GroupKind::Latch | GroupKind::StateTable
    )
}

fn group_refuses(
    alloc: Global,
    source: &[u8],
    second: bool,
    group: &Group,
) -> Result<Option<Construct>, NoMemory>
    ensures { IfOk result (λ c. c ≡ spec.group_refuses source.now second group.now) }
{
    let slots = last_of(group.attributes.as_slice());
    refuses(alloc, source, second, group, &slots)
}

// The first thing in a cell that isn't read.
#[tactic(auto, using(crate::proofs::CellLists::next_group, crate::proofs::CellLists::refused_here, crate::proofs::CellLists::no_group))]
pub fn first_refused(
    alloc: Global,
    source: &[u8],
    groups: &[Group],
) -> Result<Option<Construct>, NoMemory>
    ensures { IfOk result (λ c. c ≡ spec.first_refused source.now false groups.now) }
{
    let mut second = false;
    for at in 0..groups.len() {
        let group = &groups[at];
        if let Some(construct) = group_refuses(alloc, source, second, group)? {
            return Ok(Some(construct));
        }
        second = second || is_state(group.kind);
    }
    Ok(None)
}
