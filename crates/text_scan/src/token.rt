//! Tokens and where they stand.

/// How a text is cut into tokens.
#[derive(Clone, Copy, Debug, PartialEq, Eq)]
pub enum Style {
    /// Words, strings, comments `/* */`, signs, and line ends that no backslash joins.
    Liberty,
    /// Identifiers, numbers, strings, comments `//` and `/* */`, and single signs.
    Verilog,
    /// Words between blanks and line ends, strings, and comments `#`.
    Lef,
    /// Words between blanks, and line ends.
    Words,
}

/// What a token is.
#[derive(Clone, Copy, Debug, PartialEq, Eq)]
pub enum Kind {
    Word,
    /// A string with its two quotes.
    Str,
    /// A single byte.
    Sign,
    /// A string or a comment without an end; it reaches to the text's end.
    Unfinished,
    LineEnd,
    /// The end of the text, which has no bytes.
    End,
}

/// Where a token stands: the line and column of its first byte, both counted from 1 and told as
/// 4,294,967,295 where they are greater, and the indices of its first byte and of the byte after it.
#[derive(Clone, Copy, Debug, PartialEq, Eq)]
pub struct Span {
    pub line: u32,
    pub column: u32,
    pub start: usize,
    pub end: usize,
}

#[derive(Clone, Copy, Debug, PartialEq, Eq)]
pub struct Token {
    pub kind: Kind,
    pub span: Span,
}

/// A place in a text: an index, and its line and column.
// The index stands between the two: a processor is slow to load as one what was just written as two.
#[derive(Clone, Copy, Debug, PartialEq, Eq)]
pub struct Place {
    pub line: u32,
    pub at: usize,
    pub column: u32,
}
