use super::*;
use std::test::Fail;
use tern_core::Tern;
use text_scan::{Direction, Text};

#[test]
fn a_source_holds_its_parts(rt: HostRuntime) -> Result<(), Fail> {
    let alloc = rt.alloc();
    let mut terminals = Items::new(alloc);
    terminals.push(Terminal::Net(Text::from_bytes(alloc, b"y")?))?;
    terminals.push(Terminal::Constant(Tern::One))?;
    let mut elements = Items::new(alloc);
    elements.push(Element {
        kind: Text::from_bytes(alloc, b"buf")?,
        is_gate: true,
        label: Text::from_bytes(alloc, b"y")?,
        terminals,
    })?;
    let mut ports = Items::new(alloc);
    ports.push(Port {
        name: Text::from_bytes(alloc, b"y")?,
        direction: Direction::Output,
    })?;
    let mut supplies = Items::new(alloc);
    supplies.push((Text::from_bytes(alloc, b"vdd")?, Tern::One))?;
    let module = Module {
        name: Text::from_bytes(alloc, b"TIE")?,
        ports,
        supplies,
        elements,
    };
    let mut modules = Items::new(alloc);
    modules.push(ModulePart::Whole(module))?;
    let mut primitives = Items::new(alloc);
    primitives.push(UdpPart::Refused {
        name: Text::from_bytes(alloc, b"u")?,
        construct: Text::from_bytes(alloc, b"endtable")?,
        line: 4,
    })?;
    let source = Source {
        modules,
        primitives,
    };
    assert_eq!(rt; source.modules.len(), 1);
    assert_eq!(rt; source.primitives.len(), 1);
    Ok(())
}
