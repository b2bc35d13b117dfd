//! Words of a file of tables.
use text_scan::Token;

/// A word: its bytes, and its token, which tells where it stands.
#[derive(Clone, Copy, Debug, Drop)]
pub(crate) struct Word<'a> {
    pub(crate) bytes: &'a [u8],
    pub(crate) token: Token,
}

/// What comes next in a line.
#[derive(Clone, Copy, Debug, Drop)]
pub(crate) enum Next<'a> {
    Word(Word<'a>),
    /// No word: the line ends at this token.
    LineEnd(Token),
}
