//! Whether a block can hold a result.
ghost use Rattle.std.specs.Prelude.{◌≡◌, ◌&&◌};
ghost use Rattle.std.specs.List.{list_all};
ghost use Rattle.file_rules.specs.Names.{is_shown};
ghost use Rattle.verdict_text.specs.WellFormed as spec;

use crate::finding::{Change, Code, Finding, Mismatch};
use crate::reason::Reason;
use crate::verdict::{CellResult, Verdict};
use file_rules::{is_name, shown_word};
use text_scan::Text;

/// The most findings of a cell.
const FINDINGS: usize = 2500;

/// Whether the names and numbers of a result are as they are told.
pub(crate) fn is_well_formed(cell: &CellResult) -> bool
    ensures { result ≡ (spec.is_told_name cell.now.name && spec.is_verdict cell.now.verdict) }
{
    is_told_name(&cell.name) && is_verdict(&cell.verdict)
}

fn is_told_name(name: &Text) -> bool
    ensures { result ≡ spec.is_told_name name.now }
{
    let bytes = name.as_bytes();
    is_name(bytes) && bytes.len() <= 128
}

// Whether a word is shown as itself.
fn is_shown(word: &Text) -> bool
    ensures { result ≡ is_shown word.now }
{
    shown_word(word.as_bytes()) == word.as_bytes()
}

fn is_verdict(verdict: &Verdict) -> bool
    ensures { result ≡ spec.is_verdict verdict.now }
{
    match verdict {
        Verdict::Checked {
            rows,
            defined,
            findings,
        } => is_number(*rows) && is_number(*defined) && are_findings(findings.as_slice()),
        Verdict::Unchecked(findings) => {
            let findings = findings.as_slice();
            !findings.is_empty() && are_findings(findings)
        }
        Verdict::Refused(reason) => is_reason(reason),
    }
}

fn are_findings(findings: &[Finding]) -> bool
    ensures { result ≡ spec.are_findings findings.now }
{
    findings.len() <= FINDINGS && findings.iter().all(|finding| is_finding(finding))
}

fn is_finding(finding: &Finding) -> bool
    ensures { result ≡ spec.is_finding finding.now }
{
    is_any_pin(&finding.pin)
        && is_mismatch(finding.code, &finding.mismatch)
        && is_waiver(finding.waiver)
}

fn is_any_pin(pin: &Option<Text>) -> bool
    ensures { result ≡ spec.is_any_pin pin.now }
{
    match pin {
        None => true,
        Some(name) => is_told_name(name),
    }
}

fn is_mismatch(code: Code, mismatch: &Option<Mismatch>) -> bool
    ensures { result ≡ spec.is_mismatch code mismatch.now }
{
    match mismatch {
        None => !is_about_values(code),
        Some(mismatch) => {
            is_about_values(code) && is_ordinal(mismatch.row) && is_any_change(&mismatch.change)
        }
    }
}

fn is_about_values(code: Code) -> bool
    ensures { result ≡ spec.is_about_values code }
{
    match code {
        Code::M1 | Code::M2 | Code::Z1 | Code::Z2 => true,
        _ => false,
    }
}

fn is_any_change(change: &Option<Change>) -> bool
    ensures { result ≡ spec.is_any_change change.now }
{
    match change {
        None => true,
        Some(change) => is_told_name(&change.pin),
    }
}

fn is_waiver(waiver: Option<u32>) -> bool
    ensures { result ≡ spec.is_waiver waiver }
{
    match waiver {
        None => true,
        Some(number) => is_ordinal(number),
    }
}

// Every number of 32 bits is one.
fn is_number(number: u32) -> bool
    ensures { result ≡ spec.is_number number }
{
    number <= u32::MAX
}

// Rows, lines and waivers count from 1.
fn is_ordinal(number: u32) -> bool
    ensures { result ≡ spec.is_ordinal number }
{
    1 <= number
}

fn is_reason(reason: &Reason) -> bool
    ensures { result ≡ spec.is_reason reason.now }
{
    match reason {
        Reason::Construct { word, line, .. } => is_shown(word) && is_ordinal(*line),
        Reason::UnknownName(name)
        | Reason::UnknownUdp(name)
        | Reason::UnknownModel(name)
        | Reason::Loop(name)
        | Reason::TwoDrivers(name)
        | Reason::PortCount(name)
        | Reason::SupplyShort(name)
        | Reason::FloatRead(name) => is_told_name(name),
        Reason::BadFunction {
            owner: name,
            place: number,
        }
        | Reason::BadShape {
            pin: name,
            index: number,
        } => is_told_name(name) && is_number(*number),
        Reason::BadStateRow(number) | Reason::TableShape(number) => is_ordinal(*number),
        Reason::UdpRow { udp, row } => is_told_name(udp) && is_ordinal(*row),
        Reason::UdpRows { udp, first, second } => {
            is_told_name(udp) && is_ordinal(*first) && is_ordinal(*second)
        }
        Reason::Limit { number, .. } => is_number(*number),
        Reason::NoTable | Reason::EmptyTable => true,
        Reason::RowNotAtRest { row, place } => is_ordinal(*row) && is_told_name(place),
        Reason::NotClosed { row, change } => is_ordinal(*row) && is_told_name(&change.pin),
        Reason::Moving { row, change, node } => {
            is_ordinal(*row) && is_told_name(&change.pin) && is_told_name(node)
        }
    }
}
