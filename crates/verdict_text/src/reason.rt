use crate::finding::{Change, View};
use text_scan::{LimitKind, Text};

/// Why a cell is refused. Lines, rows and places are those that the refusal's line shows: lines and rows count from 1,
/// a place is a number of bytes before.
#[derive(Debug, Drop)]
pub enum Reason {
    /// A construct of a view's file that isn't read, at this line.
    Construct {
        view: View,
        word: Text,
        line: u32,
    },
    /// A name in a Liberty function or table that the cell doesn't have.
    UnknownName(Text),
    /// A function of a pin or an attribute that isn't one, at this place of its text.
    BadFunction {
        owner: Text,
        place: u32,
    },
    /// A row of a `statetable` that isn't one.
    BadStateRow(u32),
    /// A row of a primitive's table that isn't one.
    UdpRow {
        udp: Text,
        row: u32,
    },
    /// Two rows of a primitive's table that conflict.
    UdpRows {
        udp: Text,
        first: u32,
        second: u32,
    },
    /// A net that depends on itself.
    Loop(Text),
    /// A net that is driven twice.
    TwoDrivers(Text),
    /// An instance of a primitive that isn't there.
    UnknownUdp(Text),
    /// An instance with a wrong number of terminals, by its label.
    PortCount(Text),
    /// A transistor of a model that the technology file lacks.
    UnknownModel(Text),
    /// A pin that stands twice in a subcircuit's pin list.
    SupplyShort(Text),
    /// A net that can float and that an element reads.
    FloatRead(Text),
    /// A shape of a pin that isn't one, by its number among the pin's shapes, from 1; `SIZE` and 0 for the macro's size.
    BadShape {
        pin: Text,
        index: u32,
    },
    /// There is more of something than is read.
    Limit {
        kind: LimitKind,
        number: u32,
    },
    /// A cell with states has no table.
    NoTable,
    /// The table has no rows.
    EmptyTable,
    /// The first line at which the table doesn't fit the cell.
    TableShape(u32),
    /// A row in which a state variable or a node doesn't stay.
    RowNotAtRest {
        row: u32,
        place: Text,
    },
    /// No row covers what a change of a pin leads to.
    NotClosed {
        row: u32,
        change: Change,
    },
    /// A change of a pin after which this node doesn't come to rest.
    Moving {
        row: u32,
        change: Change,
        node: Text,
    },
}
