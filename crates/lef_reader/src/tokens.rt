//! The tokens of a text before a reader.
use text_scan::{Cursor, Token};

/// Stands before the token ahead.
#[derive(Drop)]
pub struct Tokens<'a> {
    pub cursor: Cursor<'a>,
    pub ahead: Token,
}
