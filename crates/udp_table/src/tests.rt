use super::*;
use std::alloc::Global;
use std::process::Abort;
use std::test::Fail;
use tern_core::Tern;
use text_scan::{Items, NoMemory, Text};
use verilog_source::UdpText;

const ZERO: Tern = Tern::Zero;

const ONE: Tern = Tern::One;

const X: Tern = Tern::Unknown;

/// A primitive of two inputs.
fn primitive(alloc: Global, sequential: bool, rows: &[&str]) -> Result<UdpText, NoMemory> {
    let mut texts = Items::new(alloc);
    for row in rows {
        texts.push(Text::from_bytes(alloc, row.as_bytes())?)?;
    }
    Ok(UdpText {
        name: Text::from_bytes(alloc, b"u")?,
        sequential,
        inputs: 2,
        rows: texts,
    })
}

/// What a latch's state 0 becomes where its gate falls after the data, and its state 1 where both fall at once.
fn fall(rt: &impl Abort, udp: &Udp) -> (Tern, Tern) {
    assert!(rt; udp.sequential());
    assert_eq!(rt; udp.inputs(), 2);
    let mut room = OrderRoom::new();
    (
        udp.step(1, ONE, ZERO, &[ZERO, ZERO], ZERO),
        udp.change(&[ONE, ONE], &[ZERO, ZERO], ONE, &mut room),
    )
}

#[test]
fn a_copy_answers_by_its_levels(rt: HostRuntime) -> Result<(), Fail> {
    let alloc = rt.alloc();
    let udp = build(alloc, &primitive(alloc, false, &["11:1", "b0:0"])?)?.copied(alloc)?;
    assert_eq!(rt; udp.name(), b"u".as_slice());
    assert!(rt; !udp.sequential());
    assert_eq!(rt; udp.inputs(), 2);
    assert_eq!(rt; udp.level(&[ONE, ZERO]), ZERO);
    Ok(())
}

#[test]
fn a_latch_answers_by_every_order(rt: HostRuntime) -> Result<(), Fail> {
    let alloc = rt.alloc();
    let udp = build(
        alloc,
        &primitive(alloc, true, &["01:?:0", "11:?:1", "?0:?:-"])?,
    )?;
    assert_eq!(rt; fall(&rt, &udp), (ZERO, X));
    Ok(())
}

#[test]
fn symbols_tell_what_they_cover(rt: HostRuntime) {
    assert!(rt; LevelSymbol::Binary.covers(ONE));
    assert!(rt; !EdgeSymbol::AnyChange.covers(ONE, ONE));
    assert_eq!(rt; NextState::Stays.value(X), X);
}
