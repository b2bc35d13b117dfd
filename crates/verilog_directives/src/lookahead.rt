ghost use Rattle.std.specs.Prelude.{◌≡◌, ◌≤◌, length, drop, true};
ghost use Rattle.text_scan.specs.Left.{source as cursor_source};
ghost use Rattle.verilog_directives.specs.Behind.{StandIn, moved_on};
ghost use Rattle.verilog_directives.specs.Held.{are_inside};

use crate::held::Held;
use text_scan::{Cursor, Place};

/// Stands before the tokens of a text, of which it can look at the next four.
#[derive(Drop)]
pub(crate) struct Lookahead<'s> {
    pub source: &'s [u8],
    /// Where the cursor's text begins in the source.
    pub place: Place,
    pub cursor: Cursor<'s>,
    pub held: Held,
    ghost within: { place.at ≤ length source.now },
    ghost same: { cursor_source cursor ≡ drop place.at source.now },
    ghost stand: { StandIn source.now (moved_on place cursor) },
    ghost inside: { are_inside (length source.now) held ≡ true },
}
