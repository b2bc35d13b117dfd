//! The groups and attributes of a cell that say something, by their words.
ghost use Rattle.std.specs.Prelude.{◌≡◌};
ghost use Rattle.liberty_tokens.specs.Words as spec;

/// The groups directly in a cell.
#[derive(Clone, Copy, Debug, PartialEq, Eq)]
pub enum GroupKind {
    Pin,
    PgPin,
    Ff,
    Latch,
    StateTable,
    /// `ff_bank`, `latch_bank`, `bus`, `bundle`, for which a cell is refused.
    Unread,
    /// A group that is passed over.
    Other,
}

/// The simple attributes of such a group.
#[derive(Clone, Copy, Debug, PartialEq, Eq)]
pub enum AttributeKind {
    Direction,
    Function,
    StateFunction,
    InternalNode,
    InputMap,
    ThreeState,
    PgType,
    NextState,
    ClockedOn,
    ClockedOnAlso,
    Enable,
    DataIn,
    Clear,
    Preset,
    FirstBoth,
    SecondBoth,
    Table,
    /// An attribute that is passed over.
    Other,
}

#[tactic(auto, unfolding(crate::specs::Words::is_unread))]
fn is_unread(word: &[u8]) -> bool
    ensures { result ≡ spec.is_unread word.now }
{
    word == b"ff_bank".as_slice()
        || word == b"latch_bank".as_slice()
        || word == b"bus".as_slice()
        || word == b"bundle".as_slice()
}

#[tactic(auto, unfolding(crate::specs::Words::group_kind))]
pub fn group_kind(word: &[u8]) -> GroupKind
    ensures { result ≡ spec.group_kind word.now }
{
    if word == b"pin".as_slice() {
        GroupKind::Pin
    } else if word == b"pg_pin".as_slice() {
        GroupKind::PgPin
    } else if word == b"ff".as_slice() {
        GroupKind::Ff
    } else if word == b"latch".as_slice() {
        GroupKind::Latch
    } else if word == b"statetable".as_slice() {
        GroupKind::StateTable
    } else if is_unread(word) {
        GroupKind::Unread
    } else {
        GroupKind::Other
    }
}

#[tactic(auto, unfolding(crate::specs::Words::state_attribute_kind))]
fn state_attribute_kind(word: &[u8]) -> AttributeKind
    ensures { result ≡ spec.state_attribute_kind word.now }
{
    if word == b"next_state".as_slice() {
        AttributeKind::NextState
    } else if word == b"clocked_on".as_slice() {
        AttributeKind::ClockedOn
    } else if word == b"clocked_on_also".as_slice() {
        AttributeKind::ClockedOnAlso
    } else if word == b"enable".as_slice() {
        AttributeKind::Enable
    } else if word == b"data_in".as_slice() {
        AttributeKind::DataIn
    } else if word == b"clear".as_slice() {
        AttributeKind::Clear
    } else if word == b"preset".as_slice() {
        AttributeKind::Preset
    } else if word == b"clear_preset_var1".as_slice() {
        AttributeKind::FirstBoth
    } else if word == b"clear_preset_var2".as_slice() {
        AttributeKind::SecondBoth
    } else if word == b"table".as_slice() {
        AttributeKind::Table
    } else {
        AttributeKind::Other
    }
}

#[tactic(auto, unfolding(crate::specs::Words::attribute_kind))]
pub fn attribute_kind(word: &[u8]) -> AttributeKind
    ensures { result ≡ spec.attribute_kind word.now }
{
    if word == b"direction".as_slice() {
        AttributeKind::Direction
    } else if word == b"function".as_slice() {
        AttributeKind::Function
    } else if word == b"state_function".as_slice() {
        AttributeKind::StateFunction
    } else if word == b"internal_node".as_slice() {
        AttributeKind::InternalNode
    } else if word == b"input_map".as_slice() {
        AttributeKind::InputMap
    } else if word == b"three_state".as_slice() {
        AttributeKind::ThreeState
    } else if word == b"pg_type".as_slice() {
        AttributeKind::PgType
    } else {
        state_attribute_kind(word)
    }
}

#[tactic(auto, unfolding(crate::specs::Words::is_cell))]
pub fn is_cell(word: &[u8]) -> bool
    ensures { result ≡ spec.is_cell word.now }
{
    word == b"cell".as_slice()
}

#[tactic(auto, unfolding(crate::specs::Words::is_library))]
pub fn is_library(word: &[u8]) -> bool
    ensures { result ≡ spec.is_library word.now }
{
    word == b"library".as_slice()
}

#[tactic(auto, unfolding(crate::specs::Words::is_include))]
pub fn is_include(word: &[u8]) -> bool
    ensures { result ≡ spec.is_include word.now }
{
    word == b"include_file".as_slice()
}
