//! Laws of functions. Each function's contract is the law; it does nothing.
ghost use Rattle.std.specs.Prelude.{ℕ, List};
ghost use Rattle.tern_core.specs.declared.tern.Tern.{Tern};
ghost use Rattle.tern_core.specs.Order.{IsAtMost, AreAtMost};
ghost use Rattle.liberty_function.specs.Function.{Function, value_of, SpellsText, IsBadAt, HasOneValue};
ghost use Rattle.liberty_function.specs.Sources.{Named};
ghost use Rattle.liberty_function.specs.Texts.{name_value};

/// All functions that a text spells have the same value under every assignment of names, and a text with a token that
/// cannot follow spells none.
pub fn one_value()
    ensures same { (text : List ℕ) → HasOneValue text }
    ensures refused { (text : List ℕ) (place : ℕ) (f : Function) → IsBadAt text place → SpellsText text f → ⊥ }
{}

/// What becomes more known in the values of names changes nothing that was known of a function's value, and what becomes
/// more known of the pins and the state changes nothing that was known of a name's.
pub fn monotone()
    ensures function { (f : Function) (a b : List ℕ → Tern) →
        ((n : List ℕ) → IsAtMost (a n) (b n)) → IsAtMost (value_of a f) (value_of b f) }
    ensures name { (names : List Named) (p q s t : List Tern) → AreAtMost p q → AreAtMost s t →
        (n : List ℕ) → IsAtMost (name_value names p s n) (name_value names q t n) }
{}
