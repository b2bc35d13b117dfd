ghost use Rattle.std.specs.Prelude.{◌≡◌, ◌↔◌, [], ◌∷◌, IsTrue, Some};
ghost use Rattle.tern_core.specs.Values.{not_of, and_of, or_of, xor_of, common_of, symbol_of};
ghost use Rattle.tern_core.specs.Order.{IsAtMost};

use std::fmt::{Display, Formatter, Write};

/// The value of a pin, a net, a node or a state variable.
#[derive(Clone, Copy, Debug, PartialEq, Eq)]
pub enum Tern {
    Zero,
    One,
    /// 0 or 1, it isn't known which.
    Unknown,
}

impl Tern {
    /// `0`, `1` or `X`.
    pub fn symbol(self) -> &'static str
        ensures { result.now ≡ symbol_of self ∷ [] }
    {
        match self {
            Tern::Zero => "0",
            Tern::One => "1",
            Tern::Unknown => "X",
        }
    }
}

impl Display for Tern {
    ghost output = { λ t. Some (symbol_of t ∷ []) };

    fn fmt<W: Write>(&self, f: &mut Formatter<W>) -> std::fmt::Result {
        f.write_str(self.symbol())
    }
}

pub fn not(a: Tern) -> Tern
    ensures { result ≡ not_of a }
{
    match a {
        Tern::Zero => Tern::One,
        Tern::One => Tern::Zero,
        Tern::Unknown => Tern::Unknown,
    }
}

pub fn and(a: Tern, b: Tern) -> Tern
    ensures { result ≡ and_of a b }
{
    match (a, b) {
        (Tern::Zero, _) | (_, Tern::Zero) => Tern::Zero,
        (Tern::One, Tern::One) => Tern::One,
        _ => Tern::Unknown,
    }
}

pub fn or(a: Tern, b: Tern) -> Tern
    ensures { result ≡ or_of a b }
{
    match (a, b) {
        (Tern::One, _) | (_, Tern::One) => Tern::One,
        (Tern::Zero, Tern::Zero) => Tern::Zero,
        _ => Tern::Unknown,
    }
}

/// Unknown where a side is.
pub fn xor(a: Tern, b: Tern) -> Tern
    ensures { result ≡ xor_of a b }
{
    match (a, b) {
        (Tern::Unknown, _) | (_, Tern::Unknown) => Tern::Unknown,
        (Tern::Zero, other) => other,
        (Tern::One, other) => not(other),
    }
}

/// Whether `a` is at most as known as `b`: unknown, or the same value.
pub fn at_most(a: Tern, b: Tern) -> bool
    ensures { IsTrue result ↔ IsAtMost a b }
{
    match (a, b) {
        (Tern::Unknown, _) | (Tern::Zero, Tern::Zero) | (Tern::One, Tern::One) => true,
        _ => false,
    }
}

/// The value of both where they are equal, else unknown.
pub fn common(a: Tern, b: Tern) -> Tern
    ensures { result ≡ common_of a b }
{
    match (a, b) {
        (Tern::Zero, Tern::Zero) => Tern::Zero,
        (Tern::One, Tern::One) => Tern::One,
        _ => Tern::Unknown,
    }
}
