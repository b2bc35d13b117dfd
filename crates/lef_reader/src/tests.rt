use super::*;
use std::process::Abort;
use std::test::Fail;
use text_scan::{Direction, FileRefusal, Limits, PinKind};

#[test]
fn a_macro_is_read(rt: HostRuntime) -> Result<(), Fail> {
    let text =
        b"MACRO INV\nSIZE 2 BY 4 ;\nPIN Y\nDIRECTION OUTPUT TRISTATE ;\nUSE power ;\nPORT LAYER M1 ; RECT 0 0 1 1 ; END\nEND Y\nEND INV\nEND LIBRARY";
    let lef = read_lef(rt.alloc(), text, &Limits::standard())?;
    assert_eq!(rt; lef.macros.len(), 1);
    let MacroPart::Whole(inverter) = &lef.macros.as_slice()[0] else {
        return Err("refused")?;
    };
    let Some(size) = &inverter.size else {
        return Err("without a size")?;
    };
    assert!(rt; size.as_bytes() == b"2 BY 4".as_slice());
    assert_eq!(rt; inverter.pins.len(), 1);
    let pin = &inverter.pins.as_slice()[0];
    assert!(rt; pin.direction == Direction::Output);
    assert!(rt; pin.kind == PinKind::Power);
    assert_eq!(rt; pin.ports.len(), 1);
    let port = &pin.ports.as_slice()[0];
    assert!(rt; port.as_bytes() == b"LAYER M1 ; RECT 0 0 1 1 ;".as_slice());
    Ok(())
}

#[test]
fn a_macro_has_an_end(rt: HostRuntime) -> Result<(), Fail> {
    let is_at_end = match read_lef(rt.alloc(), b"MACRO A\nPIN B\n", &Limits::standard()) {
        Err(FileRefusal::Syntax { line, column }) => (line, column) == (3, 1),
        _ => false,
    };
    assert!(rt; is_at_end);
    Ok(())
}
