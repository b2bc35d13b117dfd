//! A cell's result: its verdict, each of whose findings has its waiver.
ghost use Rattle.std.specs.Prelude.{◌≡◌, IfOk};
ghost use Rattle.waivers.specs.Cover as spec;

use crate::cover::covered;
use std::alloc::Global;
use text_scan::{Items, NoMemory, Text};
use verdict_text::{CellResult, Change, Finding, Mismatch, Verdict};
use waiver_source::Waivers;

fn copied_pin(alloc: Global, pin: &Option<Text>) -> Result<Option<Text>, NoMemory>
    ensures { IfOk result (λ copy. copy ≡ pin.now) }
{
    match pin {
        None => Ok(None),
        Some(name) => Ok(Some(name.copied(alloc)?)),
    }
}

fn copied_change(alloc: Global, change: &Option<Change>) -> Result<Option<Change>, NoMemory>
    ensures { IfOk result (λ copy. copy ≡ change.now) }
{
    match change {
        None => Ok(None),
        Some(change) => Ok(Some(Change {
            pin: change.pin.copied(alloc)?,
            value: change.value,
        })),
    }
}

fn copied_mismatch(alloc: Global, mismatch: &Option<Mismatch>) -> Result<Option<Mismatch>, NoMemory>
    ensures { IfOk result (λ copy. copy ≡ mismatch.now) }
{
    match mismatch {
        None => Ok(None),
        Some(mismatch) => Ok(Some(Mismatch {
            row: mismatch.row,
            change: copied_change(alloc, &mismatch.change)?,
            liberty: mismatch.liberty,
            other: mismatch.other,
        })),
    }
}

fn waiver_on(waivers: &Waivers, cell: &[u8], day: Option<i32>, finding: &Finding) -> Option<u32>
    ensures { result ≡ spec.waiver_on waivers.now cell.now day finding.now }
{
    match day {
        None => None,
        Some(day) => covered(waivers, finding, cell, day),
    }
}

fn waived(
    alloc: Global,
    waivers: &Waivers,
    cell: &[u8],
    day: Option<i32>,
    finding: &Finding,
) -> Result<Finding, NoMemory>
    ensures { IfOk result (λ new. new ≡ spec.waived waivers.now cell.now day finding.now) }
{
    Ok(Finding {
        code: finding.code,
        pin: copied_pin(alloc, &finding.pin)?,
        view: finding.view,
        mismatch: copied_mismatch(alloc, &finding.mismatch)?,
        waiver: waiver_on(waivers, cell, day, finding),
    })
}

fn all_waived(
    alloc: Global,
    waivers: &Waivers,
    cell: &[u8],
    day: Option<i32>,
    findings: &[Finding],
) -> Result<Items<Finding>, NoMemory>
    ensures { IfOk result (λ new. new ≡ spec.all_waived waivers.now cell.now day findings.now) }
{
    let mut all = Items::new(alloc);
    for finding in findings {
        all.push(waived(alloc, waivers, cell, day, finding)?)?;
    }
    Ok(all)
}

/// The cell's result: the verdict, each of whose findings has the number of the first waiver that covers it on the day.
/// Without a day no finding has one. Nothing else of the verdict changes.
pub fn apply(
    alloc: Global,
    waivers: &Waivers,
    day: Option<i32>,
    cell: &[u8],
    verdict: Verdict,
) -> Result<CellResult, NoMemory>
    ensures { IfOk result (λ told. told ≡ spec.result_of waivers.now cell.now day verdict) }
{
    let verdict = match verdict {
        Verdict::Refused(reason) => Verdict::Refused(reason),
        Verdict::Unchecked(findings) => {
            Verdict::Unchecked(all_waived(alloc, waivers, cell, day, findings.as_slice())?)
        }
        Verdict::Checked {
            rows,
            defined,
            findings,
        } => Verdict::Checked {
            rows,
            defined,
            findings: all_waived(alloc, waivers, cell, day, findings.as_slice())?,
        },
    };
    Ok(CellResult {
        name: Text::from_bytes(alloc, cell)?,
        verdict,
    })
}
