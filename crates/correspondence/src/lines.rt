//! What is left of a file of tables.
ghost use Rattle.std.specs.Prelude.{◌≡◌};
ghost use Rattle.text_scan.specs.Left.{source};

use text_scan::{Cursor, Token};

/// Stands in a line of a text, or before the first one.
#[derive(Drop)]
pub(crate) struct Lines<'a> {
    pub(crate) text: &'a [u8],
    pub(crate) cursor: Cursor<'a>,
    /// The token that was read last: one that ends a line, or a word of the line.
    pub(crate) last: Token,
    ghost same_text: { source cursor ≡ text.now },
}
