use super::*;
use pin_tables::{Pin, PinTable};
use std::alloc::Global;
use std::process::Abort;
use std::test::Fail;
use text_scan::{Direction, Items, NoMemory, PinKind, Text};
use verdict_text::{Code, Finding, View};

fn add_pin(
    alloc: Global,
    pins: &mut Items<Pin>,
    name: &[u8],
    kind: PinKind,
) -> Result<(), NoMemory> {
    pins.push(Pin {
        name: Text::from_bytes(alloc, name)?,
        direction: Direction::Input,
        kind,
    })
}

// A cell of two inputs, an output and two supplies.
fn nand(alloc: Global) -> Result<PinTable, NoMemory> {
    let mut pins = Items::new(alloc);
    add_pin(alloc, &mut pins, b"A", PinKind::Signal)?;
    add_pin(alloc, &mut pins, b"B", PinKind::Signal)?;
    add_pin(alloc, &mut pins, b"Y", PinKind::Signal)?;
    add_pin(alloc, &mut pins, b"VDD", PinKind::Power)?;
    add_pin(alloc, &mut pins, b"VSS", PinKind::Ground)?;
    Ok(PinTable {
        cell: Text::from_bytes(alloc, b"ND2")?,
        pins,
    })
}

// A cell of so many signals and a supply.
fn signals(alloc: Global, count: usize) -> Result<PinTable, NoMemory> {
    let mut pins = Items::new(alloc);
    add_pin(alloc, &mut pins, b"VDD", PinKind::Power)?;
    for _ in 0..count {
        add_pin(alloc, &mut pins, b"A", PinKind::Signal)?;
    }
    Ok(PinTable {
        cell: Text::from_bytes(alloc, b"WIDE")?,
        pins,
    })
}

fn is_found(finding: &Finding, code: Code, name: Option<&[u8]>) -> bool {
    let pin = match (&finding.pin, name) {
        (None, None) => true,
        (Some(pin), Some(name)) => pin.as_bytes() == name,
        _ => false,
    };
    pin && finding.code == code
        && finding.view == View::Liberty
        && finding.mismatch.is_none()
        && finding.waiver.is_none()
}

#[test]
fn names_are_held_against_beginning_and_letters(rt: HostRuntime) -> Result<(), Fail> {
    let alloc = rt.alloc();
    let mut book = HouseBook::new(alloc);
    let prefix = HouseRule::new(
        Code::H1,
        Text::from_bytes(alloc, b"LIB_")?,
        Box::new(
            alloc,
            move |table: &PinTable, place: Option<usize>| -> bool {
                begins_otherwise(b"LIB_", table, place)
            },
        )?,
    );
    book.push(prefix)?;
    let letters = HouseRule::new(
        Code::H3,
        Text::from_bytes(alloc, b"ABY")?,
        Box::new(
            alloc,
            move |table: &PinTable, place: Option<usize>| -> bool {
                has_other_byte(b"ABY", table, place)
            },
        )?,
    );
    book.push(letters)?;
    assert_eq!(rt; book.len(), 2);
    assert_eq!(rt; book.code(1), Code::H3);
    assert!(rt; book.setting(0) == b"LIB_".as_slice());
    let found = book.findings(alloc, &nand(alloc)?)?;
    assert_eq!(rt; found.len(), 3);
    assert!(rt; is_found(&found[0], Code::H1, None));
    assert!(rt; is_found(&found[1], Code::H3, Some(b"VDD")));
    assert!(rt; is_found(&found[2], Code::H3, Some(b"VSS")));
    Ok(())
}

#[test]
fn signals_are_counted(rt: HostRuntime) -> Result<(), Fail> {
    let alloc = rt.alloc();
    let mut book = HouseBook::new(alloc);
    assert_eq!(rt; book.findings(alloc, &signals(alloc, 99)?)?.len(), 0);
    let count = HouseRule::new(
        Code::H2,
        Text::from_bytes(alloc, b"32")?,
        Box::new(
            alloc,
            move |table: &PinTable, place: Option<usize>| -> bool {
                has_more_signals(32, table, place)
            },
        )?,
    );
    book.push(count)?;
    assert_eq!(rt; book.findings(alloc, &signals(alloc, 32)?)?.len(), 0);
    let found = book.findings(alloc, &signals(alloc, 33)?)?;
    assert_eq!(rt; found.len(), 1);
    assert!(rt; is_found(&found[0], Code::H2, None));
    Ok(())
}

#[test]
fn a_book_takes_sixteen_rules(rt: HostRuntime) -> Result<(), Fail> {
    let alloc = rt.alloc();
    let mut book = HouseBook::new(alloc);
    for count in 0..17u32 {
        let none = HouseRule::new(
            Code::H2,
            Text::from_bytes(alloc, b"0")?,
            Box::new(
                alloc,
                move |table: &PinTable, place: Option<usize>| -> bool {
                    has_more_signals(0, table, place)
                },
            )?,
        );
        let full = matches!(book.push(none), Err(BookRefusal::Full));
        assert_eq!(rt; full, count == 16);
    }
    assert_eq!(rt; book.len(), 16);
    assert_eq!(rt; book.findings(alloc, &signals(alloc, 1)?)?.len(), 16);
    Ok(())
}
