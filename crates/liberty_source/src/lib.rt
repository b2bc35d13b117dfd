//! What a Liberty library says of its cells, as plain data (Liberty User Guide, the groups `cell`, `pin`, `pg_pin`,
//! `ff`, `latch` and `statetable`). Texts of functions and tables stand as they are written.
#![tactic(auto)]

use text_scan::{Direction, Items, PinKind, Text};

#[derive(Debug, Drop)]
pub struct Library {
    pub name: Text,
    pub cells: Items<CellPart>,
}

/// A cell, or the first thing in it that isn't read.
#[derive(Debug, Drop)]
pub enum CellPart {
    Whole(LibertyCell),
    Refused {
        name: Text,
        construct: Text,
        line: u32,
    },
}

#[derive(Debug, Drop)]
pub struct LibertyCell {
    pub name: Text,
    pub line: u32,
    /// Pins and supplies in the order of the file.
    pub pins: Items<LibertyPin>,
    pub state: StateGroup,
}

/// A pin, or a supply, whose direction is absent.
#[derive(Debug, Drop)]
pub struct LibertyPin {
    pub name: Text,
    pub direction: Direction,
    pub kind: PinKind,
    pub function: Option<Text>,
    pub state_function: Option<Text>,
    /// The table node that an internal pin shows.
    pub internal_node: Option<Text>,
}

#[derive(Debug, Drop)]
pub enum StateGroup {
    Stateless,
    Ff(FfText),
    Latch(LatchText),
    Rows(RowsText),
}

/// A flip-flop: the group `ff` with its two state variables.
#[derive(Debug, Drop)]
pub struct FfText {
    pub line: u32,
    pub variables: [Text; 2],
    pub next_state: Option<Text>,
    pub clocked_on: Option<Text>,
    pub clear: Option<Text>,
    pub preset: Option<Text>,
    /// What each variable becomes where clear and preset are both active.
    pub both: [Both; 2],
}

/// A latch: the group `latch` with its two state variables.
#[derive(Debug, Drop)]
pub struct LatchText {
    pub line: u32,
    pub variables: [Text; 2],
    pub enable: Option<Text>,
    pub data_in: Option<Text>,
    pub clear: Option<Text>,
    pub preset: Option<Text>,
    /// What each variable becomes where clear and preset are both active.
    pub both: [Both; 2],
}

/// `clear_preset_var1` and `clear_preset_var2`: L, H, N, and X, which is also what their absence says.
#[derive(Clone, Copy, Debug, PartialEq, Eq)]
pub enum Both {
    Low,
    High,
    Keep,
    Unknown,
}

/// The group `statetable`: its columns and the text of its rows.
#[derive(Debug, Drop)]
pub struct RowsText {
    pub line: u32,
    pub inputs: Items<Text>,
    pub nodes: Items<Text>,
    pub table: Text,
}

#[cfg(test)]
mod tests {
    use super::*;
    use std::test::Fail;

    #[test]
    fn a_flip_flop_is_plain_data(rt: HostRuntime) -> Result<(), Fail> {
        let alloc = rt.alloc();
        let group = FfText {
            line: 3,
            variables: [
                Text::from_bytes(alloc, b"IQ")?,
                Text::from_bytes(alloc, b"IQN")?,
            ],
            next_state: Some(Text::from_bytes(alloc, b"D")?),
            clocked_on: Some(Text::from_bytes(alloc, b"CK")?),
            clear: None,
            preset: None,
            both: [Both::Unknown, Both::Unknown],
        };
        assert_eq!(rt; group.variables[1].as_bytes(), b"IQN".as_slice());
        assert_eq!(rt; group.both[0], Both::Unknown);
        Ok(())
    }
}
