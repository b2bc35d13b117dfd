//! Reads each text of some files as a house's waivers, and prints what is answered: `waiver_rows FILE..`. Texts are parted by
//! `%`. A line `= DATE` asks for the day's number and a line `? CELL CODE PIN DAY` for the waiver that covers such a finding
//! on the day; the other lines are the records, of which `@N LINE` stands for N such lines.
#![tactic(auto)]

use anyhow::Result;
use case_texts::spread;
use std::alloc::{Alloc, AllocError, Global};
use std::io::Print;
use std::{env, fs};
use text_scan::{Limits, Text};
use verdict_text::{Finding, View, code_of};
use waiver_source::{Waiver, Waivers};
use waivers::{covered, read_day, read_waivers};

/// So many waivers are shown one by one.
const MOST_SHOWN: usize = 8;

/// The lines that are records.
fn records(alloc: Global, text: &[u8]) -> Result<Vec<u8>, AllocError> {
    let mut records = Vec::new(alloc);
    for line in text.split(|byte| *byte == b'\n') {
        if !line.starts_with(b"= ") && !line.starts_with(b"? ") {
            records.extend_from_slice(line)?;
            records.push(b'\n')?;
        }
    }
    spread(alloc, &records)
}

fn show_day<R: Print>(rt: &R, date: &[u8]) -> Result<()> {
    match read_day(date) {
        Some(day) => println!(rt; "day {day}")?,
        None => println!(rt; "no day")?,
    }
    Ok(())
}

/// The finding of a code's word and a pin's name or `-`.
fn finding(alloc: Global, code: &[u8], pin: &[u8]) -> Result<Option<Finding>, AllocError> {
    let Some(code) = code_of(code) else {
        return Ok(None);
    };
    let pin = match pin {
        b"-" => None,
        name => Some(Text::from_bytes(alloc, name).map_err(|_| AllocError)?),
    };
    Ok(Some(Finding {
        code,
        pin,
        view: View::Liberty,
        mismatch: None,
        waiver: None,
    }))
}

/// The number of the waiver that covers the finding that a line asks about.
fn cover(alloc: Global, waivers: &Waivers, line: &[u8]) -> Result<Option<u32>, AllocError> {
    let mut words = line.split(|byte| *byte == b' ');
    let (Some(cell), Some(code), Some(pin), Some(date)) = (
        words.next(),
        words.next(),
        words.next(),
        words.next(),
    ) else {
        return Ok(None);
    };
    match (finding(alloc, code, pin)?, read_day(date)) {
        (Some(finding), Some(day)) => Ok(covered(waivers, &finding, cell, day)),
        _ => Ok(None),
    }
}

fn show_cover<R: Print + Alloc<A = Global>>(rt: &R, waivers: &Waivers, line: &[u8]) -> Result<()> {
    match cover(rt.alloc(), waivers, line)? {
        Some(number) => println!(rt; "waived {number}")?,
        None => println!(rt; "not waived")?,
    }
    Ok(())
}

fn show_waiver<R: Print>(rt: &R, waiver: &Waiver) -> Result<()> {
    print!(rt; " {} {} {}", waiver.cell, waiver.code.word(), waiver.pin)?;
    println!(rt; " {} [{}]", waiver.last, waiver.reason)?;
    Ok(())
}

fn show_waivers<R: Print>(rt: &R, waivers: &Waivers) -> Result<()> {
    println!(rt; "{} waivers", waivers.len())?;
    if waivers.len() <= MOST_SHOWN {
        for waiver in waivers.as_slice() {
            show_waiver(rt, waiver)?;
        }
    }
    Ok(())
}

fn show_asked<R: Print + Alloc<A = Global>>(rt: &R, waivers: &Waivers, text: &[u8]) -> Result<()> {
    for line in text.split(|byte| *byte == b'\n') {
        if let Some(line) = line.strip_prefix(b"? ") {
            show_cover(rt, waivers, line)?;
        }
    }
    Ok(())
}

fn show_days<R: Print>(rt: &R, text: &[u8]) -> Result<()> {
    for line in text.split(|byte| *byte == b'\n') {
        if let Some(date) = line.strip_prefix(b"= ") {
            show_day(rt, date)?;
        }
    }
    Ok(())
}

fn show<R: Print + Alloc<A = Global>>(rt: &R, text: &[u8]) -> Result<()> {
    show_days(rt, text)?;
    let records = records(rt.alloc(), text)?;
    match read_waivers(rt.alloc(), &records, &Limits::standard()) {
        Ok(waivers) => {
            show_waivers(rt, &waivers)?;
            show_asked(rt, &waivers, text)?;
        }
        Err(refusal) => println!(rt; "{refusal}")?,
    }
    Ok(())
}

fn main(rt: HostRuntime) -> Result<()> {
    for path in env::args(&rt)?.skip(1) {
        for text in fs::read(&rt, path.as_str())?.split(|byte| *byte == b'%') {
            show(&rt, text)?;
        }
    }
    Ok(())
}
