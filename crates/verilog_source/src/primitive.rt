use text_scan::{Items, Text};

/// A user-defined primitive, or the construct at which it was refused and its line, counted from 1.
#[derive(Debug, Drop)]
pub enum UdpPart {
    Whole(UdpText),
    Refused {
        name: Text,
        construct: Text,
        line: u32,
    },
}

/// A user-defined primitive as its text has it (IEEE 1364-2005, clause 8). Its rows may be none.
#[derive(Debug, Drop)]
pub struct UdpText {
    pub name: Text,
    /// Whether its output is declared `reg`, so that it holds a state.
    pub sequential: bool,
    /// The number of its inputs.
    pub inputs: u32,
    /// The table's rows in the order of the text, each the bytes before its `;` without blanks.
    pub rows: Items<Text>,
}
