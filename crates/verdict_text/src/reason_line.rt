//! The words of a refusal.
ghost use Rattle.std.specs.Prelude.{◌≡◌, ◌++◌, [], ◌∷◌, OnOk, codes, decimal};
ghost use Rattle.verdict_text.specs.Lines as spec;
ghost use Rattle.verdict_text.specs.declared.reason.Reason.TheVariants as reasons;

use crate::finding::{Change, View};
use crate::line::Lines;
use crate::reason::Reason;
use crate::write::{add_change, add_row};
use text_scan::{NoMemory, Text};

/// Adds what a refusal's line says after its first word.
pub(crate) fn add_reason_words(lines: &mut Lines, reason: &Reason) -> Result<(), NoMemory>
    ensures { OnOk result (lines.new ≡ lines.old ++ spec.spaced (spec.reason_words reason.now)) }
{
    match reason {
        Reason::Construct { view, word, line } => add_construct(lines, *view, word, *line),
        Reason::UnknownName(name) => add_named(lines, "unknown name", name),
        Reason::BadFunction { owner, place } => {
            add_named(lines, "function", owner)?;
            add_numbered(lines, "place", *place)
        }
        Reason::BadStateRow(row) => add_numbered(lines, "state row", *row),
        Reason::UdpRow { udp, row } => {
            add_named(lines, "udp", udp)?;
            add_numbered(lines, "row", *row)
        }
        Reason::UdpRows { udp, first, second } => add_udp_rows(lines, udp, *first, *second),
        Reason::Loop(net) => add_named(lines, "loop", net),
        Reason::TwoDrivers(net) => add_named(lines, "two drivers", net),
        Reason::UnknownUdp(name) => add_named(lines, "unknown udp", name),
        Reason::PortCount(label) => add_named(lines, "port count", label),
        Reason::UnknownModel(name) => add_named(lines, "unknown model", name),
        Reason::SupplyShort(node) => add_named(lines, "short", node),
        Reason::FloatRead(net) => add_named(lines, "float read", net),
        Reason::BadShape { pin, index } => {
            add_named(lines, "shape", pin)?;
            lines.number(*index)
        }
        Reason::Limit { kind, number } => {
            lines.word("limit")?;
            add_numbered(lines, kind.word(), *number)
        }
        Reason::NoTable => lines.word("no table"),
        Reason::EmptyTable => lines.word("empty table"),
        Reason::TableShape(at) => add_numbered(lines, "table line", *at),
        Reason::RowNotAtRest { row, place } => {
            add_numbered(lines, "not at rest row", *row)?;
            lines.name(place)
        }
        Reason::NotClosed { row, change } => add_step(lines, "not closed", *row, change),
        Reason::Moving { row, change, node } => {
            add_step(lines, "moving", *row, change)?;
            add_named(lines, "node", node)
        }
    }
}

fn add_construct(lines: &mut Lines, view: View, word: &Text, line: u32) -> Result<(), NoMemory>
    ensures { OnOk result (lines.new ≡ lines.old ++ spec.spaced (spec.reason_words (reasons.Construct view word.now line))) }
{
    lines.word("construct")?;
    lines.word(view.word())?;
    add_numbered(lines, "line", line)?;
    lines.name(word)
}

fn add_udp_rows(lines: &mut Lines, udp: &Text, first: u32, second: u32) -> Result<(), NoMemory>
    ensures { OnOk result (lines.new ≡ lines.old ++ spec.spaced (spec.reason_words (reasons.UdpRows udp.now first second))) }
{
    add_named(lines, "udp", udp)?;
    add_numbered(lines, "rows", first)?;
    lines.number(second)
}

fn add_named(lines: &mut Lines, words: &str, name: &Text) -> Result<(), NoMemory>
    ensures { OnOk result (lines.new ≡ lines.old ++ spec.spaced (words.now ∷ name.now ∷ [])) }
{
    lines.word(words)?;
    lines.name(name)
}

fn add_numbered(lines: &mut Lines, words: &str, number: u32) -> Result<(), NoMemory>
    ensures { OnOk result (lines.new ≡ lines.old ++ spec.spaced (words.now ∷ decimal number ∷ [])) }
{
    lines.word(words)?;
    lines.number(number)
}

// A row and the change that comes after it.
fn add_step(lines: &mut Lines, words: &str, row: u32, change: &Change) -> Result<(), NoMemory>
    ensures { OnOk result (lines.new ≡ lines.old ++ spec.spaced (words.now ∷ spec.step_words row change.now)) }
{
    lines.word(words)?;
    add_row(lines, row)?;
    add_change(lines, change)
}
