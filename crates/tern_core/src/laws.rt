//! Laws of the order of information. Each function's contract is the law; it does nothing.
ghost use Rattle.std.specs.Prelude.{◌≡◌, List};
ghost use Rattle.tern_core.specs.declared.tern.Tern.{Tern};
ghost use Rattle.tern_core.specs.Values.{not_of, and_of, or_of, xor_of, common_of};
ghost use Rattle.tern_core.specs.Order.{IsAtMost, AreAtMost, IsMonotone, IsMonotoneInBoth};

/// Each value is at most as known as itself.
pub fn reflexive()
    ensures { (a : Tern) → IsAtMost a a }
{}

/// Two values that are at most as known as each other are equal.
pub fn antisymmetric()
    ensures { (a b : Tern) → IsAtMost a b → IsAtMost b a → a ≡ b }
{}

pub fn transitive()
    ensures { (a b c : Tern) → IsAtMost a b → IsAtMost b c → IsAtMost a c }
{}

/// What becomes more known in an operation's arguments doesn't change what was known of its value.
pub fn monotone()
    ensures negation { IsMonotone not_of }
    ensures conjunction { IsMonotoneInBoth and_of }
    ensures disjunction { IsMonotoneInBoth or_of }
    ensures difference { IsMonotoneInBoth xor_of }
    ensures common_value { IsMonotoneInBoth common_of }
{}

/// The common value is at most as known as each of both.
pub fn common_is_below()
    ensures left { (a b : Tern) → IsAtMost (common_of a b) a }
    ensures right { (a b : Tern) → IsAtMost (common_of a b) b }
{}

/// The order on lists, place by place, is an order too.
pub fn lists_are_ordered()
    ensures same { (xs : List Tern) → AreAtMost xs xs }
    ensures equal { (xs ys : List Tern) → AreAtMost xs ys → AreAtMost ys xs → xs ≡ ys }
    ensures through { (xs ys zs : List Tern) → AreAtMost xs ys → AreAtMost ys zs → AreAtMost xs zs }
{}
