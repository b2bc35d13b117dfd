//! The block of a cell.
ghost use Rattle.std.specs.Prelude.{◌≡◌, ◌++◌, ◌∷◌, [], IfOk, OnOk, codes, decimal, string_bytes};
ghost use Rattle.std.specs.List.{flat_map};
ghost use Rattle.verdict_text.specs.Lines.{finding_line};
ghost use Rattle.compare_text.specs.Text as spec;

use crate::report::Totals;
use crate::verdict::verdict_of;
use cell_compare::Comparison;
use std::alloc::Global;
use text_scan::NoMemory;
use verdict_text::{Finding, write_finding, write_reason};

/// Appends a line of two parts.
pub(crate) fn put_line(text: &mut Vec<u8>, front: &[u8], rest: &[u8]) -> Result<(), NoMemory>
    ensures { OnOk result (text.new.items ≡ text.old.items ++ spec.line (front.now ++ rest.now)) }
{
    text.extend_from_slice(front)?;
    text.extend_from_slice(rest)?;
    text.push(b'\n')?;
    Ok(())
}

pub(crate) fn number(alloc: Global, n: usize) -> Result<String, NoMemory>
    ensures { IfOk result (λ s. string_bytes s ≡ decimal n) }
{
    Ok(format!(in alloc; "{n}")?)
}

fn put_findings(alloc: Global, text: &mut Vec<u8>, found: &[Finding]) -> Result<(), NoMemory>
    ensures { OnOk result (text.new.items ≡ text.old.items ++ flat_map finding_line found.now) }
{
    for finding in found {
        write_finding(alloc, finding, text)?;
    }
    Ok(())
}

fn put_first(alloc: Global, text: &mut Vec<u8>, first: &Option<Finding>) -> Result<(), NoMemory>
    ensures { OnOk result (text.new.items ≡ text.old.items ++ spec.first_lines first.now) }
{
    match first {
        None => Ok(()),
        Some(finding) => write_finding(alloc, finding, text),
    }
}

fn put_vectors(
    alloc: Global,
    text: &mut Vec<u8>,
    vectors: u32,
    defined: u32,
    first: &Option<Finding>,
) -> Result<(), NoMemory>
    ensures { OnOk result (text.new.items ≡ text.old.items ++ spec.vectors_lines vectors defined first.now) }
{
    put_line(
        text,
        b"vectors ",
        number(alloc, vectors as usize)?.as_bytes(),
    )?;
    put_line(
        text,
        b"defined ",
        number(alloc, defined as usize)?.as_bytes(),
    )?;
    put_first(alloc, text, first)
}

fn put_found(alloc: Global, text: &mut Vec<u8>, comparison: &Comparison) -> Result<(), NoMemory>
    ensures { OnOk result (text.new.items ≡ text.old.items ++ spec.found_lines comparison.now) }
{
    match comparison {
        Comparison::Refused(reason) => write_reason(alloc, reason, text),
        Comparison::Pins(found) => put_findings(alloc, text, found.as_slice()),
        Comparison::Vectors {
            vectors,
            defined,
            first,
        } => put_vectors(alloc, text, *vectors, *defined, first),
    }
}

/// Appends the block of a cell of this name.
pub(crate) fn put_block(
    alloc: Global,
    text: &mut Vec<u8>,
    name: &[u8],
    comparison: &Comparison,
) -> Result<(), NoMemory>
    ensures { OnOk result (text.new.items ≡ text.old.items ++ spec.block name.now comparison.now) }
{
    put_line(text, b"compare ", name)?;
    put_found(alloc, text, comparison)?;
    put_line(text, b"verdict ", verdict_of(comparison).word().as_bytes())
}

fn put_count(alloc: Global, text: &mut Vec<u8>, front: &[u8], n: usize) -> Result<(), NoMemory>
    ensures { OnOk result (text.new.items ≡ text.old.items ++ front.now ++ decimal n) }
{
    text.extend_from_slice(front)?;
    text.extend_from_slice(number(alloc, n)?.as_bytes())?;
    Ok(())
}

/// Appends the line of totals.
pub(crate) fn put_totals(alloc: Global, text: &mut Vec<u8>, totals: Totals) -> Result<(), NoMemory>
    ensures { OnOk result (text.new.items ≡ text.old.items ++ spec.line (spec.total_words totals)) }
{
    put_count(alloc, text, b"total equal ", totals.equal)?;
    put_count(alloc, text, b" differs ", totals.differs)?;
    put_count(alloc, text, b" refused ", totals.refused)?;
    text.push(b'\n')?;
    Ok(())
}
