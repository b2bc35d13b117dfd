//! One pin. `pin_rows` has the other cases.
use super::*;
use liberty_source::{LibertyCell, LibertyPin, StateGroup};
use std::alloc::Global;
use std::test::Fail;
use text_scan::{Direction, Items, PinKind, Text};
use verdict_text::{Code, View};
use verilog_source::{Module, Port};

/// A cell with the input A, and the supply of the technology.
fn liberty(alloc: Global) -> Result<PinTable, Fail> {
    let mut pins = Items::new(alloc);
    pins.push(LibertyPin {
        name: Text::from_bytes(alloc, b"A")?,
        direction: Direction::Input,
        kind: PinKind::Signal,
        function: None,
        state_function: None,
        internal_node: None,
    })?;
    let cell = LibertyCell {
        name: Text::from_bytes(alloc, b"INV")?,
        line: 1,
        pins,
        state: StateGroup::Stateless,
    };
    let supply = (Text::from_bytes(alloc, b"VDD")?, PinKind::Power);
    Ok(liberty_pins(alloc, &cell, &[supply])?)
}

/// A module with the output A.
fn verilog(alloc: Global, liberty: &PinTable) -> Result<PinTable, Fail> {
    let mut ports = Items::new(alloc);
    ports.push(Port {
        name: Text::from_bytes(alloc, b"A")?,
        direction: Direction::Output,
    })?;
    let module = Module {
        name: Text::from_bytes(alloc, b"INV")?,
        ports,
        supplies: Items::new(alloc),
        elements: Items::new(alloc),
    };
    Ok(module_pins(alloc, &module, liberty)?)
}

#[test]
fn directions_of_a_pin_differ(rt: HostRuntime) -> Result<(), Fail> {
    let alloc = rt.alloc();
    let liberty = liberty(alloc)?;
    assert_eq!(rt; liberty.pins.len(), 2);
    let verilog = verilog(alloc, &liberty)?;
    assert_eq!(rt; verilog.pins.len(), 1);
    assert_eq!(rt;
        verilog.pins.as_slice()[0].role().direction,
        Direction::Output
    );
    let views = FourViews {
        liberty,
        verilog: Some(verilog),
        cdl: None,
        lef: None,
    };
    let found = pin_findings(alloc, &views)?;
    assert_eq!(rt; found.len(), 3);
    assert_eq!(rt; found[2].code, Code::P3);
    assert_eq!(rt; found[2].view, View::Verilog);
    Ok(())
}
