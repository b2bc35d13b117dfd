ghost use Rattle.std.specs.Prelude.{◌≤◌, length};

use crate::token::{Place, Style};

/// Stands before the tokens of a text that it has not yet answered.
#[derive(Drop)]
pub struct Cursor<'a> {
    pub(crate) source: &'a [u8],
    pub(crate) style: Style,
    pub(crate) place: Place,
    ghost within: { place.at ≤ length source.now },
}
