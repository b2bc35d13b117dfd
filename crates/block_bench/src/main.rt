//! Writes or reads one block again and again: `block_bench write|read FILE TIMES`, or `neither` for what a run costs
//! besides.
#![tactic(auto)]

use anyhow::Result;
use std::alloc::{AllocError, Global};
use std::{env, fs};
use text_scan::NoMemory;
use verdict_text::{CellResult, read_block, write_block};

/// The bytes that were written.
fn write(alloc: Global, cell: &CellResult, times: u32) -> Result<u64, NoMemory> {
    let mut bytes = 0u64;
    let mut text = Vec::new(alloc);
    for _ in 0..times {
        text.clear();
        write_block(alloc, cell, &mut text)?;
        bytes = bytes.saturating_add(text.len() as u64);
    }
    Ok(bytes)
}

/// How many times the text was read as a block.
fn read(alloc: Global, text: &[u8], times: u32) -> Result<u64, NoMemory> {
    let mut blocks = 0u64;
    for _ in 0..times {
        if read_block(alloc, text)?.is_some() {
            blocks = blocks.saturating_add(1);
        }
    }
    Ok(blocks)
}

/// The bytes that were written, or the blocks that were read; 0 where neither is asked for.
fn repeat(
    alloc: Global,
    what: &str,
    cell: &CellResult,
    text: &[u8],
    times: u32,
) -> Result<u64, NoMemory> {
    match what {
        "write" => write(alloc, cell, times),
        "read" => read(alloc, text, times),
        _ => Ok(0),
    }
}

fn main(rt: HostRuntime) -> Result<()> {
    let mut words = env::args(&rt)?.skip(1);
    let (Some(what), Some(path), Some(times)) = (words.next(), words.next(), words.next()) else {
        println!(rt; "usage: block_bench write|read|neither FILE TIMES")?;
        return Ok(());
    };
    let times = times.as_str().parse::<u32>()?;
    let text = fs::read(&rt, path.as_str())?;
    let Some(cell) = read_block(rt.alloc(), &text).map_err(|_| AllocError)? else {
        println!(rt; "no block")?;
        return Ok(());
    };
    let done = repeat(rt.alloc(), what.as_str(), &cell, &text, times).map_err(|_| AllocError)?;
    println!(rt; "{done}")?;
    Ok(())
}
