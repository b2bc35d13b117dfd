//! Primitives as a file has them.
use anyhow::{Context, Result};
use std::alloc::{AllocError, Global};
use text_scan::{Items, Text};
use verilog_source::UdpText;

fn copied(alloc: Global, text: &str) -> Result<Text, AllocError> {
    Text::from_bytes(alloc, text.as_bytes()).map_err(|_| AllocError)
}

fn rows_of(alloc: Global, primitive: &str) -> Result<Items<Text>, AllocError> {
    let mut rows = Items::new(alloc);
    for line in primitive.split('\n') {
        if let Some(row) = line.strip_prefix('|') {
            rows.push(copied(alloc, row)?).map_err(|_| AllocError)?;
        }
    }
    Ok(rows)
}

pub fn text_of(alloc: Global, primitive: &str) -> Result<UdpText> {
    let mut words = primitive.split('\n').next().unwrap_or("").split(' ');
    let name = copied(alloc, words.next().unwrap_or(""))?;
    let sequential = words.next() == Some("sequential");
    let inputs = words
        .next()
        .unwrap_or("")
        .parse::<u32>()
        .context("a number of inputs")?;
    let rows = rows_of(alloc, primitive)?;
    Ok(UdpText {
        name,
        sequential,
        inputs,
        rows,
    })
}
