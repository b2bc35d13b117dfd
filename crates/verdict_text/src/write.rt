//! The lines of findings, refusals and blocks.
ghost use Rattle.std.specs.Prelude.{◌≡◌, ◌++◌, OnOk, OnErr, IfOk, codes, map};
ghost use Rattle.std.specs.List.{flat_map};
ghost use Rattle.verdict_text.specs.Lines as spec;

use crate::finding::{Change, Finding, Mismatch};
use crate::line::Lines;
use crate::reason::Reason;
use crate::reason_line::add_reason_words;
use crate::verdict::{CellResult, Verdict};
use std::alloc::Global;
use tern_core::Tern;
use text_scan::{NoMemory, Text};

/// Appends the line of a finding. Where memory is refused the text is as before.
pub fn write_finding(alloc: Global, finding: &Finding, text: &mut Vec<u8>) -> Result<(), NoMemory>
    ensures ok { OnOk result (text.new.items ≡ text.old.items ++ spec.finding_line finding.now) }
    ensures err { OnErr result (text.new.items ≡ text.old.items) }
{
    let mut lines = Lines::new(alloc);
    add_finding(&mut lines, finding)?;
    lines.append_to(text)
}

/// Appends the line of a refusal. Where memory is refused the text is as before.
pub fn write_reason(alloc: Global, reason: &Reason, text: &mut Vec<u8>) -> Result<(), NoMemory>
    ensures ok { OnOk result (text.new.items ≡ text.old.items ++ spec.reason_line reason.now) }
    ensures err { OnErr result (text.new.items ≡ text.old.items) }
{
    let mut lines = Lines::new(alloc);
    add_reason(&mut lines, reason)?;
    lines.append_to(text)
}

/// Appends the block of a cell: its name, what was found of it, and the word of its verdict, each on lines of its own.
/// Where memory is refused the text is as before.
pub fn write_block(alloc: Global, cell: &CellResult, text: &mut Vec<u8>) -> Result<(), NoMemory>
    ensures ok { OnOk result (text.new.items ≡ text.old.items ++ spec.block cell.now) }
    ensures err { OnErr result (text.new.items ≡ text.old.items) }
{
    block_lines(alloc, cell)?.append_to(text)
}

/// The lines of a cell's block.
pub(crate) fn block_lines(alloc: Global, cell: &CellResult) -> Result<Lines, NoMemory>
    ensures { IfOk result (λ lines. lines ≡ spec.block cell.now) }
{
    let mut lines = Lines::new(alloc);
    lines.begin("cell")?;
    lines.name(&cell.name)?;
    lines.end()?;
    add_verdict(&mut lines, &cell.verdict)?;
    lines.begin("verdict")?;
    lines.word(cell.verdict.word().word())?;
    lines.end()?;
    Ok(lines)
}

fn add_verdict(lines: &mut Lines, verdict: &Verdict) -> Result<(), NoMemory>
    ensures { OnOk result (lines.new ≡ lines.old ++ flat_map spec.line (spec.verdict_texts verdict.now)) }
{
    match verdict {
        Verdict::Checked {
            rows,
            defined,
            findings,
        } => {
            lines.begin("check full\n")?;
            add_count(lines, "rows", *rows)?;
            add_count(lines, "defined", *defined)?;
            add_findings(lines, findings.as_slice())
        }
        Verdict::Unchecked(findings) => {
            lines.begin("check none\n")?;
            add_findings(lines, findings.as_slice())
        }
        Verdict::Refused(reason) => add_reason(lines, reason),
    }
}

fn add_count(lines: &mut Lines, what: &str, count: u32) -> Result<(), NoMemory>
    ensures { OnOk result (lines.new ≡ lines.old ++ spec.count_line what.now count) }
{
    lines.begin(what)?;
    lines.number(count)?;
    lines.end()
}

fn add_findings(lines: &mut Lines, findings: &[Finding]) -> Result<(), NoMemory>
    ensures { OnOk result (lines.new ≡ lines.old ++ flat_map spec.finding_line findings.now) }
{
    for finding in findings {
        add_finding(lines, finding)?;
    }
    Ok(())
}

fn add_finding(lines: &mut Lines, finding: &Finding) -> Result<(), NoMemory>
    ensures { OnOk result (lines.new ≡ lines.old ++ spec.finding_line finding.now) }
{
    lines.begin("finding")?;
    lines.word(finding.code.word())?;
    add_pin(lines, &finding.pin)?;
    lines.word(finding.view.word())?;
    add_mismatch(lines, &finding.mismatch)?;
    add_waiver(lines, finding.waiver)?;
    lines.end()
}

fn add_pin(lines: &mut Lines, pin: &Option<Text>) -> Result<(), NoMemory>
    ensures { OnOk result (lines.new ≡ lines.old ++ spec.after_blank (spec.pin_word pin.now)) }
{
    match pin {
        None => lines.word("-"),
        Some(pin) => lines.name(pin),
    }
}

fn add_mismatch(lines: &mut Lines, mismatch: &Option<Mismatch>) -> Result<(), NoMemory>
    ensures { OnOk result (lines.new ≡ lines.old ++ spec.spaced (spec.mismatch_words mismatch.now)) }
{
    let Some(mismatch) = mismatch else {
        return Ok(());
    };
    add_row(lines, mismatch.row)?;
    add_any_change(lines, &mismatch.change)?;
    add_values(lines, mismatch.liberty, mismatch.other)
}

fn add_values(lines: &mut Lines, liberty: Tern, other: Tern) -> Result<(), NoMemory>
    ensures { OnOk result (lines.new ≡ lines.old ++ spec.spaced (spec.values_words liberty other)) }
{
    lines.word("liberty")?;
    lines.word(liberty.symbol())?;
    lines.word("view")?;
    lines.word(other.symbol())
}

fn add_any_change(lines: &mut Lines, change: &Option<Change>) -> Result<(), NoMemory>
    ensures { OnOk result (lines.new ≡ lines.old ++ spec.after_blank (spec.any_change_word change.now)) }
{
    match change {
        None => lines.word("-"),
        Some(change) => add_change(lines, change),
    }
}

fn add_waiver(lines: &mut Lines, waiver: Option<u32>) -> Result<(), NoMemory>
    ensures { OnOk result (lines.new ≡ lines.old ++ spec.spaced (spec.waived_words waiver)) }
{
    match waiver {
        None => Ok(()),
        Some(number) => {
            lines.word("waived")?;
            lines.number(number)
        }
    }
}

fn add_reason(lines: &mut Lines, reason: &Reason) -> Result<(), NoMemory>
    ensures { OnOk result (lines.new ≡ lines.old ++ spec.reason_line reason.now) }
{
    lines.begin("refused")?;
    add_reason_words(lines, reason)?;
    lines.end()
}

// The words before a change.
pub(crate) fn add_row(lines: &mut Lines, row: u32) -> Result<(), NoMemory>
    ensures { OnOk result (lines.new ≡ lines.old ++ spec.spaced (spec.row_words row)) }
{
    lines.word("row")?;
    lines.number(row)?;
    lines.word("change")
}

pub(crate) fn add_change(lines: &mut Lines, change: &Change) -> Result<(), NoMemory>
    ensures { OnOk result (lines.new ≡ lines.old ++ spec.after_blank (spec.change_word change.now)) }
{
    lines.name(&change.pin)?;
    lines.append(b"=")?;
    lines.append(change.value.symbol().as_bytes())
}
