//! Blocks read back.
ghost use Rattle.std.specs.Prelude.{◌≡◌, ◌≤◌, ◌↔◌, IfOk, IsTrue, map, length};
ghost use Rattle.verdict_text.specs.Told as spec;
ghost use Rattle.verdict_text.specs.Told.{Tells};
ghost use Rattle.verdict_text.specs.Block.{IsReadBack};

use crate::finding::Finding;
use crate::told::{Unread, lines_of, told_finding, told_number, words_of};
use crate::told_reason::told_reason;
use crate::verdict::{CellResult, Verdict};
use crate::well_formed::is_well_formed;
use crate::write::block_lines;
use std::alloc::Global;
use text_scan::{Items, NoMemory, Text};

/// The most bytes of a block.
const BLOCK_BYTES: usize = 1_048_576;

/// The result whose block is exactly this text; none exactly where no well-formed result has it.
pub fn read_block(alloc: Global, text: &[u8]) -> Result<Option<CellResult>, NoMemory>
    ensures { IfOk result (IsReadBack text.now) }
{
    if text.len() > BLOCK_BYTES {
        return Ok(None);
    }
    let lines = lines_of(alloc, text)?;
    match told_result(alloc, lines.as_slice()) {
        Err(Unread::NoMemory) => Err(NoMemory),
        Err(Unread::Unlike) => Ok(None),
        Ok(cell) => checked(alloc, cell, text),
    }
}

// A block has one spelling, so what was told counts only where it is written as the text.
fn checked(alloc: Global, cell: CellResult, text: &[u8]) -> Result<Option<CellResult>, NoMemory>
    requires { length text.now ≤ 1048576 }
    ensures { IfOk result (spec.IsChecked cell text.now) }
{
    if is_well_formed(&cell) && block_lines(alloc, &cell)?.is(text) {
        Ok(Some(cell))
    } else {
        Ok(None)
    }
}

// The verdict's line is told by those before it; behind its end stands a line of no bytes.
fn told_result(alloc: Global, lines: &[&[u8]]) -> Result<CellResult, Unread>
    ensures { Tells (spec.told_result (map (λ l. l.now) lines.now)) result }
{
    match lines {
        [told @ .., _, _] => told_lines(alloc, told),
        _ => Err(Unread::Unlike),
    }
}

fn told_lines(alloc: Global, lines: &[&[u8]]) -> Result<CellResult, Unread>
    ensures { Tells (spec.told_lines (map (λ l. l.now) lines.now)) result }
{
    let [cell, first, others @ ..] = lines else {
        return Err(Unread::Unlike);
    };
    let name = told_name(alloc, cell)?;
    let verdict = told_verdict(alloc, first, others)?;
    Ok(CellResult { name, verdict })
}

#[tactic(auto, unfolding(crate::specs::Told::told_verdict))]
fn told_verdict(alloc: Global, first: &[u8], others: &[&[u8]]) -> Result<Verdict, Unread>
    ensures { Tells (spec.told_verdict first.now (map (λ l. l.now) others.now)) result }
{
    if first == b"check full".as_slice() {
        told_checked(alloc, others)
    } else if first == b"check none".as_slice() {
        Ok(Verdict::Unchecked(told_findings(alloc, others)?))
    } else {
        let words = words_of(alloc, first)?;
        Ok(Verdict::Refused(told_reason(alloc, words.as_slice())?))
    }
}

fn told_checked(alloc: Global, lines: &[&[u8]]) -> Result<Verdict, Unread>
    ensures { Tells (spec.told_checked (map (λ l. l.now) lines.now)) result }
{
    let [rows, defined, findings @ ..] = lines else {
        return Err(Unread::Unlike);
    };
    let rows = told_count(alloc, rows)?;
    let defined = told_count(alloc, defined)?;
    let findings = told_findings(alloc, findings)?;
    Ok(Verdict::Checked {
        rows,
        defined,
        findings,
    })
}

fn told_name(alloc: Global, line: &[u8]) -> Result<Text, Unread>
    ensures { Tells (spec.second_word line.now) result }
{
    let words = words_of(alloc, line)?;
    let [_, name] = words.as_slice() else {
        return Err(Unread::Unlike);
    };
    Ok(Text::from_bytes(alloc, name)?)
}

fn told_count(alloc: Global, line: &[u8]) -> Result<u32, Unread>
    ensures { Tells (spec.told_count line.now) result }
{
    let words = words_of(alloc, line)?;
    let [_, count] = words.as_slice() else {
        return Err(Unread::Unlike);
    };
    told_number(count)
}

// One line for each finding.
#[tactic(auto, using(crate::proofs::Findings::next_at, crate::proofs::Findings::no_more_at))]
fn told_findings(alloc: Global, lines: &[&[u8]]) -> Result<Items<Finding>, Unread>
    ensures { Tells (spec.told_findings (map (λ l. l.now) lines.now)) result }
{
    let mut findings = Items::new(alloc);
    for line in lines {
        findings.push(told_line(alloc, line)?)?;
    }
    Ok(findings)
}

fn told_line(alloc: Global, line: &[u8]) -> Result<Finding, Unread>
    ensures { Tells (spec.told_finding (spec.words_of line.now)) result }
{
    let words = words_of(alloc, line)?;
    told_finding(alloc, words.as_slice())
}
