//! What is kept of a library's statements while it is read.
use liberty_tokens::{AttributeKind, GroupKind};
use name_index::Names;
use text_scan::{Items, Token};

/// The value of a simple attribute, which has a token at least.
#[derive(Clone, Copy, Debug)]
pub struct Value {
    pub first: Token,
    pub last: Token,
}

/// A simple attribute that says something.
#[derive(Clone, Copy, Debug)]
pub struct Attribute {
    pub kind: AttributeKind,
    pub word: Token,
    pub value: Value,
}

/// A group directly in a cell that says something, with its arguments and the attributes directly in it.
#[derive(Drop)]
pub struct Group {
    pub kind: GroupKind,
    pub word: Token,
    pub args: Items<Token>,
    pub attributes: Items<Attribute>,
}

/// A cell, with its groups in the order of the file.
#[derive(Drop)]
pub struct CellText {
    pub word: Token,
    pub name: Token,
    pub groups: Items<Group>,
}

/// The innermost open group that isn't passed over.
#[derive(Clone, Copy, Debug)]
pub enum Level {
    Library,
    Cell,
    Group,
}

/// What has been read of a library.
#[derive(Drop)]
pub struct Statements {
    pub name: Option<Token>,
    pub cells: Items<CellText>,
    pub cell_names: Names,
    pub level: Level,
    /// How many groups that are passed over are open in it.
    pub passed: u32,
    /// The statement that is read: its word, its arguments where they count, its value.
    pub word: Token,
    pub args: Items<Token>,
    pub value: Option<Value>,
    /// The open cell.
    pub cell_word: Token,
    pub cell_name: Token,
    pub groups: Items<Group>,
    pub pin_names: Names,
    /// The open group of the cell.
    pub group_kind: GroupKind,
    pub group_word: Token,
    pub group_args: Items<Token>,
    pub attributes: Items<Attribute>,
}
