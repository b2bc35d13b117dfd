//! Laws of blocks. Each function's contract is the law; it does nothing.
ghost use Rattle.std.specs.Prelude.{◌≡◌, ◌++◌, ℕ, List};
ghost use Rattle.verdict_text.specs.Lines.{block};
ghost use Rattle.verdict_text.specs.WellFormed.{IsWellFormed};
ghost use Rattle.verdict_text.specs.declared.verdict.CellResult.{CellResult};

/// A block tells its own end, and its result: where two texts that begin with blocks are equal, the results are equal and
/// so is what stands behind them. So no block is a proper beginning of another, two well-formed results with one block are
/// equal, and a text is a list of blocks in one way only.
pub fn blocks_are_told_apart()
    ensures { (r s : CellResult) (x y : List ℕ) → IsWellFormed r → IsWellFormed s → block r ++ x ≡ block s ++ y → (r ≡ s) × (x ≡ y) }
{}
