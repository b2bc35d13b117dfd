use super::*;
use std::process::Abort;
use std::test::Fail;
use text_scan::{Direction, FileRefusal, Limits};

#[test]
fn an_inverter_is_read(rt: HostRuntime) -> Result<(), Fail> {
    let text = b".SUBCKT INV A Y V\n*.PININFO Y:O\nMP1 Y A V B p w=1\n.ENDS\n";
    let netlist = read_netlist(rt.alloc(), text, &Limits::standard())?;
    assert_eq!(rt; netlist.parts.len(), 1);
    let SubcircuitPart::Whole(subcircuit) = &netlist.parts.as_slice()[0] else {
        return Err("refused")?;
    };
    assert_eq!(rt; subcircuit.pins.len(), 3);
    assert!(rt; subcircuit.pins.as_slice()[1].1 == Direction::Output);
    assert_eq!(rt; subcircuit.transistors.len(), 1);
    let transistor = &subcircuit.transistors.as_slice()[0];
    assert!(rt; transistor.source.as_bytes() == b"V".as_slice());
    assert!(rt; transistor.model.as_bytes() == b"p".as_slice());
    Ok(())
}

#[test]
fn a_technology_is_read(rt: HostRuntime) -> Result<(), Fail> {
    let tech = read_tech(rt.alloc(), b"supply,V,power,-\n", &Limits::standard())?;
    assert_eq!(rt; tech.supplies.len(), 1);
    assert!(rt; tech.supplies.as_slice()[0].name.as_bytes() == b"V".as_slice());
    Ok(())
}

#[test]
fn a_subcircuit_has_an_end(rt: HostRuntime) -> Result<(), Fail> {
    let is_at_end = match read_netlist(rt.alloc(), b".SUBCKT A\nR1\n", &Limits::standard()) {
        Err(FileRefusal::Syntax { line, column }) => (line, column) == (3, 1),
        _ => false,
    };
    assert!(rt; is_at_end);
    Ok(())
}
