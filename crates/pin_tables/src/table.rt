ghost use Rattle.std.specs.Prelude.{◌≡◌};

use text_scan::{Direction, Items, PinKind, Text};

/// The pins that a view gives a cell, in the view's order. Of a name that stands twice the first place counts.
#[derive(Debug, Drop)]
pub struct PinTable {
    pub cell: Text,
    pub pins: Items<Pin>,
}

#[derive(Debug, Drop)]
pub struct Pin {
    pub name: Text,
    pub direction: Direction,
    pub kind: PinKind,
}

/// What a view says of a pin.
#[derive(Clone, Copy, Debug, PartialEq, Eq)]
pub struct Role {
    pub direction: Direction,
    pub kind: PinKind,
}

impl Pin {
    ghost use Rattle.pin_tables.specs.Tables.{role_of};

    pub fn role(&self) -> Role
        ensures { result ≡ role_of self.now }
    {
        Role {
            direction: self.direction,
            kind: self.kind,
        }
    }
}

/// The four views of a cell; only Liberty's is always there.
#[derive(Debug, Drop)]
pub struct FourViews {
    pub liberty: PinTable,
    pub verilog: Option<PinTable>,
    pub cdl: Option<PinTable>,
    pub lef: Option<PinTable>,
}
