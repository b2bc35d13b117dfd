use super::*;
use std::alloc::Global;
use std::process::Abort;
use std::test::Fail;
use text_scan::{FileRefusal, Items, LimitKind, Limits, Text};
use verdict_text::{CellResult, Code, Finding, Verdict, View};
use waiver_source::Waivers;

const RIGHT: &[u8] = b"ND2,P3,A,2026-03-31,fixed in next drop\n*,H2,-,2026-04-30,\n";

fn read(alloc: Global, text: &[u8]) -> Result<Waivers, FileRefusal> {
    read_waivers(alloc, text, &Limits::standard())
}

fn is_syntax(alloc: Global, text: &[u8], at: (u32, u32)) -> bool {
    match read(alloc, text) {
        Err(FileRefusal::Syntax { line, column }) => line == at.0 && column == at.1,
        _ => false,
    }
}

fn about(alloc: Global, code: Code, pin: Option<&[u8]>) -> Result<Finding, Fail> {
    let pin = match pin {
        Some(name) => Some(Text::from_bytes(alloc, name)?),
        None => None,
    };
    Ok(Finding {
        code,
        pin,
        view: View::Lef,
        mismatch: None,
        waiver: None,
    })
}

fn waiver_at(told: &CellResult, place: usize) -> Option<u32> {
    match &told.verdict {
        Verdict::Unchecked(findings) => findings.as_slice().get(place)?.waiver,
        _ => None,
    }
}

#[test]
fn dates_have_numbers(rt: HostRuntime) -> Result<(), Fail> {
    assert_eq!(rt; read_day(b"1970-01-01"), Some(0));
    assert_eq!(rt; read_day(b"2024-02-29"), Some(19_782));
    assert_eq!(rt; read_day(b"2023-02-29"), None);
    assert_eq!(rt; read_day(b"24-02-29"), None);
    assert_eq!(rt; read_day(b""), None);
    Ok(())
}

#[test]
fn waivers_are_read(rt: HostRuntime) -> Result<(), Fail> {
    let waivers = read(rt.alloc(), RIGHT)?;
    assert_eq!(rt; waivers.len(), 2);
    let first = &waivers.as_slice()[0];
    assert!(rt; first.cell.as_bytes() == b"ND2".as_slice());
    assert_eq!(rt; first.code, Code::P3);
    assert_eq!(rt; first.last, 20_543);
    assert!(rt; first.reason.as_bytes() == b"fixed in next drop".as_slice());
    Ok(())
}

#[test]
fn wrong_records_are_refused(rt: HostRuntime) -> Result<(), Fail> {
    let alloc = rt.alloc();
    assert!(rt; is_syntax(alloc, b"ND2,P3,A,2026-03-31", (1, 0)));
    assert!(rt; is_syntax(alloc, b"*,P3,*,2026-03-31,\n-,P3,A,2026-03-31,", (2, 1)));
    assert!(rt; is_syntax(alloc, b"ND2,P5,A,2026-03-31,", (1, 2)));
    assert!(rt; is_syntax(alloc, b"ND2,P3,,2026-03-31,", (1, 3)));
    assert!(rt; is_syntax(alloc, b"ND2,P3,A,2026-02-29,", (1, 4)));
    assert!(rt; is_syntax(alloc, b"ND2,P3,A,2026-03-31,\x07", (1, 5)));
    Ok(())
}

#[test]
fn the_first_waiver_covers_to_its_last_day(rt: HostRuntime) -> Result<(), Fail> {
    let alloc = rt.alloc();
    let waivers = read(alloc, RIGHT)?;
    let finding = about(alloc, Code::P3, Some(b"A"))?;
    assert_eq!(rt; covered(&waivers, &finding, b"ND2", 20_543), Some(1));
    assert_eq!(rt; covered(&waivers, &finding, b"ND2", 20_544), None);
    assert_eq!(rt; covered(&waivers, &finding, b"ND3", 20_543), None);
    let finding = about(alloc, Code::H2, None)?;
    assert_eq!(rt; covered(&waivers, &finding, b"ND3", 20_573), Some(2));
    Ok(())
}

#[test]
fn a_verdict_gets_waivers(rt: HostRuntime) -> Result<(), Fail> {
    let alloc = rt.alloc();
    let waivers = read(alloc, RIGHT)?;
    let mut findings = Items::new(alloc);
    findings.push(about(alloc, Code::P3, Some(b"A"))?)?;
    findings.push(about(alloc, Code::P3, Some(b"B"))?)?;
    let told = apply(
        alloc,
        &waivers,
        Some(20_543),
        b"ND2",
        Verdict::Unchecked(findings),
    )?;
    assert!(rt; told.name.as_bytes() == b"ND2".as_slice());
    assert_eq!(rt; waiver_at(&told, 0), Some(1));
    assert_eq!(rt; waiver_at(&told, 1), None);
    Ok(())
}

#[test]
fn many_waivers_are_too_many(rt: HostRuntime) -> Result<(), Fail> {
    let limits = Limits {
        records: 1,
        ..Limits::standard()
    };
    let refused = match read_waivers(rt.alloc(), RIGHT, &limits) {
        Err(FileRefusal::TooMany { kind, number }) => kind == LimitKind::Records && number == 1,
        _ => false,
    };
    assert!(rt; refused);
    Ok(())
}
