use crate::conditions::Conditions;
use crate::line::Line;
use crate::lookahead::Lookahead;
use crate::names::DefinedNames;
use crate::region::Region;
use text_scan::Limits;

/// Stands before the tokens that are left of a text when its directives are obeyed, of those that it has not yet
/// answered. It keeps the names that are defined and the open conditions.
#[derive(Drop)]
pub struct Directives<'s> {
    pub(crate) tokens: Lookahead<'s>,
    pub(crate) limits: Limits,
    pub(crate) names: DefinedNames,
    pub(crate) conditions: Conditions,
    pub(crate) line: Line,
    pub(crate) region: Region,
}
