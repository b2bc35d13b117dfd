//! What a LEF file says of its macros, as plain data (LEF/DEF 5.8 Language Reference, LEF Syntax: Macro, and Macro Pin
//! Statement). Sizes and ports stand as they are written.
#![tactic(auto)]

use text_scan::{Direction, Items, PinKind, Text};

/// The macros in the order of the file.
#[derive(Debug, Drop)]
pub struct Lef {
    pub macros: Items<MacroPart>,
}

/// A macro, or the word at which it was refused and its line, counted from 1.
#[derive(Debug, Drop)]
pub enum MacroPart {
    Whole(Macro),
    Refused {
        name: Text,
        construct: Text,
        line: u32,
    },
}

#[derive(Debug, Drop)]
pub struct Macro {
    pub name: Text,
    /// What stands between the last `SIZE` and its `;`, from its first token to its last; absent without a token.
    pub size: Option<Text>,
    /// The pins in the order of the file.
    pub pins: Items<MacroPin>,
}

#[derive(Debug, Drop)]
pub struct MacroPin {
    pub name: Text,
    /// What the last `DIRECTION` says, `Input` without one.
    pub direction: Direction,
    /// What the last `USE` says, `Signal` without one.
    pub kind: PinKind,
    /// What stands between each `PORT` and its `END`, from its first token to its last; empty without a token.
    pub ports: Items<Text>,
}
