//! Laws of comparisons. Each function's contract is the law; it does nothing.
ghost use Rattle.std.specs.Prelude.{◌≡◌, true};
ghost use Rattle.liberty_source.specs.declared.CellPart.{CellPart};
ghost use Rattle.verilog_source.specs.declared.Source.{Source};
ghost use Rattle.cell_compare.specs.declared.comparison.Comparison.{Comparison};
ghost use Rattle.cell_compare.specs.Compare.{IsComparison};
ghost use Rattle.text_scan.specs.declared.limits.Limits.{Limits};
ghost use Rattle.liberty_source.specs.Library.{is_part};
ghost use Rattle.verilog_source.specs.Source.{IsSource};
ghost use Rattle.cell_compare.specs.Equal.{SaysEqual, IsEqualPart};
ghost use Rattle.cell_compare.specs.Telling.{told_texts, AreGraphic};

/// Where every vector was compared and none differs, the views are equal: the cell means something, its module makes a
/// network, and at every vector of input values each output that Liberty defines has its value in the settled network.
pub fn equal_means_equal()
    ensures { (part : CellPart) (source : Source) (c : Comparison) → IsComparison part source c → SaysEqual c → IsEqualPart part source }
{}

/// A cell has one comparison with a source text: the findings, the refusal with its reason, or the numbers of vectors and
/// of defined values and the first that differs are determined by both.
pub fn comparisons_are_one()
    ensures { (part : CellPart) (source : Source) (c d : Comparison) → IsComparison part source c → IsComparison part source d → c ≡ d }
{}

/// The names and words that a comparison shows have no blank and no line end, if those of the cell and of the source text
/// have none.
pub fn texts_can_be_shown()
    ensures { (limits : Limits) (part : CellPart) (source : Source) (c : Comparison) → is_part limits part ≡ true
        → IsSource limits source → IsComparison part source c → AreGraphic (told_texts c) }
{}
