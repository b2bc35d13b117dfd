//! A few tokens that were looked at and not yet read.
ghost use Rattle.std.specs.Prelude.{◌≡◌, ◌<◌, ◌≤◌, ◌∷◌, [], ◌++◌, length, drop, slice_get, Some, true};
ghost use Rattle.verilog_directives.specs.Held as spec;

use text_scan::Token;

/// At most four tokens, the first to be read first.
#[derive(Clone, Copy)]
pub(crate) enum Held {
    Nothing,
    One(Token),
    Two(Token, Token),
    Three(Token, Token, Token),
    Four(Token, Token, Token, Token),
}

impl Held {
    pub(crate) fn len(self) -> usize
        ensures { result ≡ length (spec.tokens self) }
    {
        match self {
            Held::Nothing => 0,
            Held::One(_) => 1,
            Held::Two(_, _) => 2,
            Held::Three(_, _, _) => 3,
            Held::Four(_, _, _, _) => 4,
        }
    }

    pub(crate) fn get(self, place: usize) -> Option<Token>
        ensures { result ≡ slice_get (spec.tokens self) place }
    {
        match (self, place) {
            (Held::One(a) | Held::Two(a, _) | Held::Three(a, _, _) | Held::Four(a, _, _, _), 0) => {
                Some(a)
            }
            (Held::Two(_, b) | Held::Three(_, b, _) | Held::Four(_, b, _, _), 1) => Some(b),
            (Held::Three(_, _, c) | Held::Four(_, _, c, _), 2) => Some(c),
            (Held::Four(_, _, _, d), 3) => Some(d),
            _ => None,
        }
    }

    /// With one more token behind the others.
    pub(crate) fn with_last(self, token: Token) -> Held
        requires { length (spec.tokens self) < 4 }
        ensures { spec.tokens result ≡ spec.tokens self ++ token ∷ [] }
    {
        match self {
            Held::Nothing => Held::One(token),
            Held::One(a) => Held::Two(a, token),
            Held::Two(a, b) => Held::Three(a, b, token),
            Held::Three(a, b, c) | Held::Four(a, b, c, _) => Held::Four(a, b, c, token),
        }
    }

    /// With one more token before the others.
    pub(crate) fn with_first(self, token: Token) -> Held
        requires { length (spec.tokens self) < 4 }
        ensures { spec.tokens result ≡ token ∷ spec.tokens self }
    {
        match self {
            Held::Nothing => Held::One(token),
            Held::One(a) => Held::Two(token, a),
            Held::Two(a, b) => Held::Three(token, a, b),
            Held::Three(a, b, c) | Held::Four(a, b, c, _) => Held::Four(token, a, b, c),
        }
    }

    pub(crate) fn without_first(self) -> Held
        ensures { spec.tokens result ≡ drop 1 (spec.tokens self) }
    {
        match self {
            Held::Nothing | Held::One(_) => Held::Nothing,
            Held::Two(_, b) => Held::One(b),
            Held::Three(_, b, c) => Held::Two(b, c),
            Held::Four(_, b, c, d) => Held::Three(b, c, d),
        }
    }

    /// Without so many of the first.
    pub(crate) fn without(self, n: usize) -> Held
        ensures { spec.tokens result ≡ drop n (spec.tokens self) }
    {
        let mut held = self;
        for _ in 0..n {
            held = held.without_first();
        }
        held
    }
}
