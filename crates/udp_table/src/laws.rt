//! Laws of tables and orders. Each function's contract is the law; it does nothing.
ghost use Rattle.std.specs.Prelude.{◌≡◌, ◌≢◌, ◌↔◌, ℕ, Bool, true, false, IsTrue, List, [], All, Contains, IsPermutation, length};
ghost use Rattle.tern_core.specs.declared.tern.Tern.{Tern};
ghost use Rattle.tern_core.specs.declared.tern.Tern.TheVariants.{Unknown};
ghost use Rattle.udp_table.specs.declared.row.LevelRow.{LevelRow};
ghost use Rattle.udp_table.specs.declared.row.EdgeRow.{EdgeRow};
ghost use Rattle.udp_table.specs.declared.row.Row.{Row};
ghost use Rattle.udp_table.specs.declared.row.Row.TheVariants.{Level, Edge};
ghost use Rattle.udp_table.specs.Symbols.{next_value};
ghost use Rattle.udp_table.specs.Rows.{Case, level_row_matches, edge_row_matches};
ghost use Rattle.udp_table.specs.Answers.{answer_of, level_of, level_answer};
ghost use Rattle.udp_table.specs.Letters.{Fits, IsRow};
ghost use Rattle.udp_table.specs.Conflicts.{IsCase, HasNoConflict};
ghost use Rattle.udp_table.specs.Orders.{changed_inputs, orders_of, ends_of, change_of};

/// In a sequential table without a conflict each row that matches gives the one answer, whichever
/// is taken: each level row that matches, and where none does each edge row that matches. Where no
/// row matches the answer is X.
pub fn any_matching_row_decides()
    ensures level_row { (inputs : ℕ) (rows : List Row) → HasNoConflict true inputs rows →
        (c : Case) → IsCase true inputs c →
        (row : LevelRow) → Contains rows (Level row) → IsTrue (level_row_matches row c.levels c.state) →
        answer_of rows c ≡ next_value row.next c.state }
    ensures edge_row { (inputs : ℕ) (rows : List Row) → HasNoConflict true inputs rows →
        (c : Case) → IsCase true inputs c →
        ((row : LevelRow) → Contains rows (Level row) → level_row_matches row c.levels c.state ≡ false) →
        (row : EdgeRow) → Contains rows (Edge row) → IsTrue (edge_row_matches row c) →
        answer_of rows c ≡ next_value row.next c.state }
    ensures no_row { (rows : List Row) (c : Case) →
        ((row : LevelRow) → Contains rows (Level row) → level_row_matches row c.levels c.state ≡ false) →
        ((row : EdgeRow) → Contains rows (Edge row) → edge_row_matches row c ≡ false) →
        answer_of rows c ≡ Unknown }
{}

/// The same of a combinational table, whose rows look at no state.
pub fn any_matching_level_decides()
    ensures row { (inputs : ℕ) (rows : List Row) → HasNoConflict false inputs rows →
        (levels : List Tern) → length levels ≡ inputs →
        (row : LevelRow) → Contains rows (Level row) → IsTrue (level_row_matches row levels Unknown) →
        level_of rows levels ≡ next_value row.next Unknown }
    ensures no_row { (rows : List Row) (levels : List Tern) →
        ((row : LevelRow) → Contains rows (Level row) → level_row_matches row levels Unknown ≡ false) →
        level_of rows levels ≡ Unknown }
    ensures any_state { (inputs : ℕ) (rows : List Row) → All (Fits false inputs) rows →
        (levels : List Tern) (state : Tern) → level_answer rows levels state ≡ level_answer rows levels Unknown }
{}

/// The orders that are listed are all arrangements of the inputs.
pub fn orders_are_permutations()
    ensures { (inputs order : List ℕ) → Contains (orders_of inputs) order ↔ IsPermutation inputs order }
{}

/// The answer to several changes is the state in which all orders end, and X where two of them
/// differ. Where no input has changed it is the state.
pub fn orders_agree()
    ensures same { (rows : List Row) (old new : List Tern) (state end : Tern) →
        All (λ other. other ≡ end) (ends_of rows old new state) → change_of rows old new state ≡ end }
    ensures different { (rows : List Row) (old new : List Tern) (state one other : Tern) →
        Contains (ends_of rows old new state) one → Contains (ends_of rows old new state) other → one ≢ other →
        change_of rows old new state ≡ Unknown }
    ensures unchanged { (rows : List Row) (old new : List Tern) (state : Tern) →
        changed_inputs old new ≡ [] → change_of rows old new state ≡ state }
{}

/// Bytes are written for one row at most.
pub fn rows_are_readable()
    ensures { (sequential : Bool) (inputs : ℕ) (bytes : List ℕ) (one other : Row) →
        IsRow sequential inputs bytes one → IsRow sequential inputs bytes other → one ≡ other }
{}
