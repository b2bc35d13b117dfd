use crate::line::{Line, Lines};

/// Stands within a card of a text, or before the first one.
#[derive(Clone, Copy, Drop)]
pub struct Cards<'a> {
    pub(crate) line: Line<'a>,
    pub(crate) lines: Lines<'a>,
}
