//! The state of a reader between two tokens, and what a token changes in it.
use crate::statements::Statements;

/// What was read last.
#[derive(Clone, Copy, Debug)]
pub enum Phase {
    /// Nothing.
    Title,
    /// The word `library`.
    TitleWord,
    /// The parenthesis before the library's name.
    TitleOpen,
    /// The library's name.
    TitleName,
    /// The parenthesis after it.
    TitleClosed,
    /// Whole statements of the innermost open group.
    Statement,
    /// The word of a statement.
    Word,
    /// The colon of a simple attribute, or a token of its value.
    Value,
    /// The parenthesis before arguments.
    Open,
    /// An argument.
    Arg,
    /// The comma after an argument.
    Comma,
    /// The parenthesis after the arguments.
    Closed,
    /// The brace that ends the library.
    Library,
    /// A semicolon after it.
    Semicolon,
    /// The whole file.
    File,
}

/// The phase, how many groups are open, how many more may be nested in the innermost one, and what was read.
#[derive(Drop)]
pub struct Machine {
    pub phase: Phase,
    pub depth: u32,
    pub room: u32,
    pub statements: Statements,
}
