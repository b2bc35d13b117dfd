//! What refusals are told as.
ghost use Rattle.std.specs.Prelude.{◌≡◌, IfOk};
ghost use Rattle.cell_compare.specs.Reasons.{IsMeaningReason, IsFlaw, reason_of, IsGateReason};

use liberty_meaning::MeaningRefusal;
use module_net::GateRefusal;
use std::alloc::Global;
use text_scan::{LimitKind, NoMemory, Text};
use udp_table::UdpRefusal;
use verdict_text::{Reason, View};

/// Why a cell has no meaning.
pub(crate) fn meaning_reason(refusal: MeaningRefusal) -> Result<Reason, NoMemory>
    ensures { IfOk result (IsMeaningReason refusal) }
{
    match refusal {
        MeaningRefusal::NoMemory => Err(NoMemory),
        MeaningRefusal::UnknownName(name) => Ok(Reason::UnknownName(name)),
        MeaningRefusal::BadFunction { owner, place } => Ok(Reason::BadFunction { owner, place }),
        MeaningRefusal::BadStateRow(row) => Ok(Reason::BadStateRow(row)),
        MeaningRefusal::Construct { word, line } => Ok(Reason::Construct {
            view: View::Liberty,
            word,
            line,
        }),
    }
}

/// Why a primitive has no table.
#[derive(Debug, Drop)]
pub(crate) enum Flaw {
    /// A construct of its text isn't read, at this line.
    NotRead { construct: Text, line: u32 },
    /// This row isn't one, counted from 1.
    BadRow(u32),
    /// These rows conflict.
    RowsConflict(u32, u32),
    TooManyInputs,
}

/// The flaw for which a table isn't built.
pub(crate) fn flaw_of_refusal(refusal: UdpRefusal) -> Result<Flaw, NoMemory>
    ensures { IfOk result (IsFlaw refusal) }
{
    match refusal {
        UdpRefusal::NoMemory => Err(NoMemory),
        UdpRefusal::BadRow(row) => Ok(Flaw::BadRow(row)),
        UdpRefusal::RowsConflict(first, second) => Ok(Flaw::RowsConflict(first, second)),
        UdpRefusal::TooManyInputs(_) => Ok(Flaw::TooManyInputs),
    }
}

impl Flaw {
    /// How a primitive of this name is told.
    pub fn reason(&self, alloc: Global, name: &Text) -> Result<Reason, NoMemory>
        ensures { IfOk result (λ reason. reason ≡ reason_of name.now self.now) }
    {
        Ok(match self {
            Flaw::NotRead { construct, line } => Reason::Construct {
                view: View::Verilog,
                word: construct.copied(alloc)?,
                line: *line,
            },
            Flaw::BadRow(row) => Reason::UdpRow {
                udp: name.copied(alloc)?,
                row: *row,
            },
            Flaw::RowsConflict(first, second) => Reason::UdpRows {
                udp: name.copied(alloc)?,
                first: *first,
                second: *second,
            },
            Flaw::TooManyInputs => Reason::Limit {
                kind: LimitKind::UdpInputs,
                number: 10,
            },
        })
    }
}

/// Why elements make no network.
pub(crate) fn gate_reason(refusal: GateRefusal) -> Result<Reason, NoMemory>
    ensures { IfOk result (IsGateReason refusal) }
{
    match refusal {
        GateRefusal::NoMemory => Err(NoMemory),
        GateRefusal::Loop(net) => Ok(Reason::Loop(net)),
        GateRefusal::TwoDrivers(net) => Ok(Reason::TwoDrivers(net)),
        GateRefusal::UnknownUdp(name) => Ok(Reason::UnknownUdp(name)),
        GateRefusal::PortCount(label) => Ok(Reason::PortCount(label)),
    }
}
