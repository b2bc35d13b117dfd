//! A house's rules in order.
ghost use Rattle.std.specs.Prelude.{◌≤◌, length};

use crate::rule::HouseRule;

/// A house's rules, at most 16, in the order in which they came.
#[derive(Drop)]
pub struct HouseBook {
    pub(crate) rules: Vec<HouseRule>,
    ghost few: { length rules.items ≤ 16 },
}
