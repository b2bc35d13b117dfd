//! The report on a library.
ghost use Rattle.std.specs.Prelude.{◌≡◌, ◌<◌, ◌+◌, ◌^◌, IfOk};
ghost use Rattle.compare_text.specs.Text as spec;
ghost use Rattle.text_scan.specs.declared.limits.Limits.{Limits};
ghost use Rattle.liberty_source.specs.Library.{cell_name, IsLibrary};
ghost use Rattle.verilog_source.specs.Source.{IsSource};
ghost use Rattle.compare_text.specs.Blocks.{SaysEqualTruly};

use crate::block::{put_block, put_line, put_totals};
use crate::verdict::{CompareVerdict, verdict_of};
use cell_compare::laws::{equal_means_equal, texts_can_be_shown};
use cell_compare::{Models, compare_part};
use liberty_source::{CellPart, Library};
use std::alloc::Global;
use text_scan::{NoMemory, Text};

/// How many cells have each verdict.
#[derive(Clone, Copy, Debug, PartialEq, Eq)]
pub struct Totals {
    pub equal: usize,
    pub differs: usize,
    pub refused: usize,
}

/// The compare text and its totals.
#[derive(Debug, Drop)]
pub struct CompareReport {
    pub text: Text,
    pub totals: Totals,
}

impl Totals {
    fn with(self, verdict: CompareVerdict) -> Totals
        requires { self.equal + self.differs + self.refused + 1 < 2 ^ 64 }
        ensures { result ≡ spec.with_verdict verdict self }
    {
        let mut totals = self;
        match verdict {
            CompareVerdict::Equal => totals.equal += 1,
            CompareVerdict::Differs => totals.differs += 1,
            CompareVerdict::Refused => totals.refused += 1,
        }
        totals
    }
}

fn cell_name(part: &CellPart) -> &Text
    ensures { result.now ≡ cell_name part.now }
{
    match part {
        CellPart::Whole(cell) => &cell.name,
        CellPart::Refused { name, .. } => name,
    }
}

/// Compares each cell of a library with the module of its name, and reports on them in the order of the file.
pub fn compare_library(
    alloc: Global,
    library: &Library,
    models: &Models,
) -> Result<CompareReport, NoMemory>
    ensures report { IfOk result (spec.IsReport library.now models.now) }
    // Where the lines say that a cell is equal, it is, if the names and words of both files can be shown.
    ensures equal { IfOk result (λ report. (limits : Limits) → IsLibrary limits library.now → IsSource limits models.now
        → SaysEqualTruly library.now models.now report.text) }
{
    equal_means_equal();
    texts_can_be_shown();
    let mut text = Vec::new(alloc);
    let mut totals = Totals {
        equal: 0,
        differs: 0,
        refused: 0,
    };
    for part in library.cells.as_slice() {
        let comparison = compare_part(alloc, part, models)?;
        put_block(alloc, &mut text, cell_name(part).as_bytes(), &comparison)?;
        totals = totals.with(verdict_of(&comparison));
    }
    put_totals(alloc, &mut text, totals)?;
    put_line(&mut text, b"", b"end")?;
    Ok(CompareReport {
        text: Text::from_vec(text),
        totals,
    })
}
