//! Laws of covering. Each function's contract is the law; it does nothing.
ghost use Rattle.std.specs.Prelude.{◌≡◌, ◌≤◌, ℕ, List, Option, Some, slice_get};
ghost use Rattle.tern_core.specs.declared.tern.Tern.{Tern};
ghost use Rattle.tern_core.specs.Order.{AreAtMost};
ghost use Rattle.table_source.specs.declared.Row.{Row};
ghost use Rattle.correspondence.specs.Cover.{Covers, CoversFirst, IsAtOrBefore, IsFirstCover};

/// A row that covers nodes still covers them where more is known of them, and the first row to cover them is then the
/// same or an earlier one.
pub fn covers_what_is_more_known()
    ensures row { (row : Row) (pins liberty udps nodes more : List Tern) → AreAtMost nodes more
        → Covers row pins liberty udps nodes → Covers row pins liberty udps more }
    ensures first { (rows : List Row) (pins liberty udps nodes more : List Tern) (place : ℕ) (o : Option ℕ) → AreAtMost nodes more
        → CoversFirst place rows pins liberty udps nodes → IsFirstCover rows pins liberty udps more o → IsAtOrBefore place o }
{}

/// Each row covers its own values, so that the first row to cover them is this one or an earlier one.
pub fn covers_its_own_values()
    ensures row { (row : Row) → Covers row row.pins row.liberty row.udps row.nodes }
    ensures first { (rows : List Row) (place : ℕ) (row : Row) (o : Option ℕ) → slice_get rows place ≡ Some row
        → IsFirstCover rows row.pins row.liberty row.udps row.nodes o → IsAtOrBefore place o }
{}

/// There is one answer to the question which row is the first to cover.
pub fn one_row_covers_first()
    ensures { (rows : List Row) (pins liberty udps nodes : List Tern) (o p : Option ℕ)
        → IsFirstCover rows pins liberty udps nodes o → IsFirstCover rows pins liberty udps nodes p → o ≡ p }
{}
