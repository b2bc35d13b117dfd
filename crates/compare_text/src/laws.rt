//! Laws of reports. Each function's contract is the law; it does nothing.
ghost use Rattle.std.specs.Prelude.{◌≡◌};
ghost use Rattle.liberty_source.specs.declared.Library.{Library};
ghost use Rattle.verilog_source.specs.declared.Source.{Source};
ghost use Rattle.compare_text.specs.declared.report.CompareReport.{CompareReport};
ghost use Rattle.compare_text.specs.Text.{IsReport};

/// A library has one report with a source text: its text and its totals are determined by both.
pub fn reports_are_one()
    ensures { (library : Library) (source : Source) (r s : CompareReport) → IsReport library source r → IsReport library source s → r ≡ s }
{}
