//! Laws of cells. Each function's contract is the law; it does nothing.
ghost use Rattle.std.specs.Prelude.{◌≡◌, ℕ, true, List, Some, length, slice_get};
ghost use Rattle.tern_core.specs.declared.tern.Tern.{Tern};
ghost use Rattle.liberty_source.specs.declared.FfText.{FfText};
ghost use Rattle.liberty_source.specs.declared.LatchText.{LatchText};
ghost use Rattle.liberty_source.specs.declared.RowsText.{RowsText};
ghost use Rattle.liberty_source.specs.declared.LibertyCell.{LibertyCell};
ghost use Rattle.liberty_source.specs.declared.LibertyPin.{LibertyPin};
ghost use Rattle.liberty_function.specs.declared.program.Source.{Source};
ghost use Rattle.liberty_function.specs.Function.{Function, SpellsText};
ghost use Rattle.liberty_function.specs.Sources.{value_at};
ghost use Rattle.liberty_meaning.specs.declared.behaviour.Behaviour.{Behaviour};
ghost use Rattle.liberty_meaning.specs.declared.pairs.Kind.TheVariants.{Clocked, Latched};
ghost use Rattle.liberty_meaning.specs.declared.refusal.MeaningRefusal.{MeaningRefusal};
ghost use Rattle.liberty_meaning.specs.declared.table.Row.{Row};
ghost use Rattle.liberty_meaning.specs.Names.{names_of, output_pins};
ghost use Rattle.liberty_meaning.specs.Meaning.{values_of, output_text};
ghost use Rattle.liberty_meaning.specs.PairMeaning.{Functions, pair_after};
ghost use Rattle.liberty_meaning.specs.Table.{first_matching};
ghost use Rattle.liberty_meaning.specs.Next.{pair_value, row_value};
ghost use Rattle.liberty_meaning.specs.Behaviour.{output_value, next_value_of, IsAtRest, after_times};
ghost use Rattle.liberty_meaning.specs.Rest.{FlipFlopRests, LatchRests, TableRests};
ghost use Rattle.liberty_meaning.specs.Cell.{Means, Refuses};
ghost use Rattle.liberty_meaning.specs.Known.{OutputKeeps, NextKeeps, may_rise, ClockedKeeps, TableKeeps, LosesAtRise, LosesAtKnown};
ghost use Rattle.liberty_meaning.specs.Groups.{SameMeaning, IsStateless, IsFlipFlop, IsLatched, IsTable};

/// A cell has one meaning at most, and none where there is a reason to refuse it.
pub fn exactly_one()
    ensures same { (cell : LibertyCell) (b c : Behaviour) → Means cell b → Means cell c → SameMeaning b c }
    ensures refused { (cell : LibertyCell) (b : Behaviour) (e : MeaningRefusal) → Means cell b → Refuses cell e → ⊥ }
{}

/// What the calls of a compiled cell answer: an output has the value of each function that its text spells, and the next
/// values are those of the functions, or of the rows, that the texts of the state group say.
pub fn answers()
    ensures output { (cell : LibertyCell) (b : Behaviour) → Means cell b →
        (k : ℕ) (p : LibertyPin) (text : List ℕ) (f : Function) → slice_get (output_pins cell.pins) k ≡ Some p →
        output_text p ≡ Some text → SpellsText text f →
        (pins state : List Tern) → output_value b k pins state ≡ values_of (names_of cell) f pins state }
    ensures stateless { (cell : LibertyCell) (b : Behaviour) → IsStateless cell b →
        (old new state : List Tern) (k : ℕ) → next_value_of b old new state k ≡ value_at state k }
    ensures flip_flop { (cell : LibertyCell) (ff : FfText) (fs : Functions) (b : Behaviour) → IsFlipFlop cell ff fs b →
        (old new state : List Tern) (k : ℕ) → next_value_of b old new state k ≡
        pair_value (pair_after Clocked ff.both (names_of cell) fs old new state) k (value_at state k) }
    ensures latch { (cell : LibertyCell) (latch : LatchText) (fs : Functions) (b : Behaviour) → IsLatched cell latch fs b →
        (old new state : List Tern) (k : ℕ) → next_value_of b old new state k ≡
        pair_value (pair_after Latched latch.both (names_of cell) fs old new state) k (value_at state k) }
    ensures table { (cell : LibertyCell) (r : RowsText) (columns : List Source) (rows : List Row) (b : Behaviour) →
        IsTable cell r columns rows b →
        (old new state : List Tern) (k : ℕ) → next_value_of b old new state k ≡
        row_value (first_matching columns old new state rows) k (value_at state k) }
{}

/// What becomes more known of the pins and the state keeps what was known: of each output; of the next state of a cell
/// without a state group and of a latch; of a flip-flop's, unless an unknown clock that stayed turns out to rise or to be
/// one that may; of a table's, where no row matched or the same row decides.
pub fn monotone()
    ensures outputs { (cell : LibertyCell) (b : Behaviour) → Means cell b → (k : ℕ) → OutputKeeps b k }
    ensures stateless { (cell : LibertyCell) (b : Behaviour) → IsStateless cell b → NextKeeps b }
    ensures latch { (cell : LibertyCell) (latch : LatchText) (fs : Functions) (b : Behaviour) →
        IsLatched cell latch fs b → NextKeeps b }
    ensures flip_flop { (cell : LibertyCell) (ff : FfText) (fs : Functions) (b : Behaviour) →
        IsFlipFlop cell ff fs b → ClockedKeeps (values_of (names_of cell) fs.control) b }
    ensures table { (cell : LibertyCell) (r : RowsText) (columns : List Source) (rows : List Row) (b : Behaviour) →
        IsTable cell r columns rows b → TableKeeps columns rows b }
{}

/// Elsewhere it is not so: at each clock that rises or may there is a pair that an unknown clock which stayed knows and
/// that one doesn't; and a table has rows of which an unknown column finds one, and a known column another.
pub fn not_monotone()
    ensures flip_flop { (before after : Tern) → may_rise before after ≡ true → LosesAtRise before after }
    ensures table { LosesAtKnown }
{}

/// A state at rest stays, however often it is asked for with the same pins. Which states are at rest: each one of a cell
/// without a state group; of a flip-flop and of a latch those whose pair is kept; of a table those whose row keeps them.
pub fn at_rest()
    ensures lasts { (b : Behaviour) (pins state : List Tern) → IsAtRest b pins state →
        (n : ℕ) → after_times b pins n state ≡ state }
    ensures stateless { (cell : LibertyCell) (b : Behaviour) → IsStateless cell b →
        (pins state : List Tern) → IsAtRest b pins state }
    ensures flip_flop { (cell : LibertyCell) (ff : FfText) (fs : Functions) (b : Behaviour) → IsFlipFlop cell ff fs b →
        (pins state : List Tern) → length state ≡ 2 → FlipFlopRests (names_of cell) fs ff.both b pins state }
    ensures latch { (cell : LibertyCell) (latch : LatchText) (fs : Functions) (b : Behaviour) → IsLatched cell latch fs b →
        (pins state : List Tern) → length state ≡ 2 → LatchRests (names_of cell) fs latch.both b pins state }
    ensures table { (cell : LibertyCell) (r : RowsText) (columns : List Source) (rows : List Row) (b : Behaviour) →
        IsTable cell r columns rows b → (pins state : List Tern) → TableRests columns rows b pins state }
{}
