//! Reads each text of some files as a cell's block, and prints whether it is one and whether its result is written as the
//! text again: `block_rows FILE..`. Texts are parted by `%`; a line `@N LINE` stands for N such lines. Of the first text of
//! each file the beginnings that are blocks are counted, and those that are one byte away from it.
#![tactic(auto)]

use anyhow::Result;
use case_texts::spread;
use std::alloc::{Alloc, AllocError, Global};
use std::io::Print;
use std::{env, fs};
use verdict_text::{CellResult, Verdict, read_block, write_block};

/// What takes the place of each byte, one after the other.
const OTHERS: &[u8] = b" \n-=01XZa";

fn is_block(alloc: Global, text: &[u8]) -> Result<bool, AllocError> {
    Ok(read_block(alloc, text).map_err(|_| AllocError)?.is_some())
}

/// The result's kind, its numbers, and the word of its verdict.
fn show_cell<R: Print + Alloc<A = Global>>(rt: &R, cell: &CellResult) -> Result<()> {
    match &cell.verdict {
        Verdict::Checked {
            rows,
            defined,
            findings,
        } => {
            let found = findings.len();
            print!(rt; "checked, {rows} rows, {defined} defined, {found} findings")?;
        }
        Verdict::Unchecked(findings) => print!(rt; "unchecked, {} findings", findings.len())?,
        Verdict::Refused(_) => print!(rt; "not checked")?,
    }
    print!(rt; ", {}", cell.verdict.word())?;
    Ok(())
}

fn show<R: Print + Alloc<A = Global>>(rt: &R, text: &[u8]) -> Result<()> {
    let alloc = rt.alloc();
    match read_block(alloc, text).map_err(|_| AllocError)? {
        None => println!(rt; "no block")?,
        Some(cell) => {
            show_cell(rt, &cell)?;
            let mut again = Vec::new(alloc);
            write_block(alloc, &cell, &mut again).map_err(|_| AllocError)?;
            let told = if again.as_slice() == text {
                "the same"
            } else {
                "other"
            };
            println!(rt; ", {told} when written")?;
        }
    }
    Ok(())
}

/// How many proper beginnings are blocks.
fn beginnings(alloc: Global, text: &[u8]) -> Result<u64, AllocError> {
    let mut blocks = 0u64;
    for length in 0..text.len() {
        if is_block(alloc, &text[..length])? {
            blocks = blocks.saturating_add(1);
        }
    }
    Ok(blocks)
}

/// The text with this byte at the place.
fn with_byte(alloc: Global, text: &[u8], place: usize, byte: u8) -> Result<Vec<u8>, AllocError> {
    let mut bytes = Vec::new(alloc);
    for (at, old) in text.iter().enumerate() {
        bytes.push(if at == place { byte } else { *old })?;
    }
    Ok(bytes)
}

/// How many texts are blocks that have another byte at this place.
fn neighbours_at(alloc: Global, text: &[u8], place: usize, old: u8) -> Result<u64, AllocError> {
    let mut blocks = 0u64;
    for other in OTHERS {
        if *other != old && is_block(alloc, &with_byte(alloc, text, place, *other)?)? {
            blocks = blocks.saturating_add(1);
        }
    }
    Ok(blocks)
}

fn neighbours(alloc: Global, text: &[u8]) -> Result<u64, AllocError> {
    let mut blocks = 0u64;
    for (place, byte) in text.iter().enumerate() {
        blocks = blocks.saturating_add(neighbours_at(alloc, text, place, *byte)?);
    }
    Ok(blocks)
}

fn show_file<R: Print + Alloc<A = Global>>(rt: &R, texts: &[u8]) -> Result<()> {
    let mut first = true;
    for text in texts.split(|byte| *byte == b'%') {
        let text = spread(rt.alloc(), text)?;
        show(rt, &text)?;
        if first {
            println!(rt; "{} beginnings are blocks", beginnings(rt.alloc(), &text)?)?;
            println!(rt; "{} neighbours are blocks", neighbours(rt.alloc(), &text)?)?;
        }
        first = false;
    }
    Ok(())
}

fn main(rt: HostRuntime) -> Result<()> {
    for path in env::args(&rt)?.skip(1) {
        show_file(&rt, &fs::read(&rt, path.as_str())?)?;
    }
    Ok(())
}
