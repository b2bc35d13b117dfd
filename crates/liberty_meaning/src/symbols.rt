//! The symbols of a state table.
ghost use Rattle.std.specs.Prelude.{◌≡◌};
ghost use Rattle.liberty_meaning.specs.Symbols as spec;

use tern_core::Tern;

#[derive(Clone, Copy)]
pub(crate) enum Symbol {
    Low,
    High,
    Any,
    Rise,
    Fall,
    NotRise,
    NotFall,
    Keep,
    Unknown,
}

/// Where a symbol stands in a row.
#[derive(Clone, Copy)]
pub(crate) enum Role {
    Input,
    Node,
    Next,
}

fn edge_of(word: &[u8]) -> Option<Symbol>
    ensures { result ≡ spec.edge_of word.now }
{
    if word == b"R".as_slice() {
        Some(Symbol::Rise)
    } else if word == b"F".as_slice() {
        Some(Symbol::Fall)
    } else if word == b"~R".as_slice() {
        Some(Symbol::NotRise)
    } else if word == b"~F".as_slice() {
        Some(Symbol::NotFall)
    } else {
        None
    }
}

fn result_of(word: &[u8]) -> Option<Symbol>
    ensures { result ≡ spec.result_of word.now }
{
    if word == b"X".as_slice() {
        Some(Symbol::Unknown)
    } else if word == b"N".as_slice() {
        Some(Symbol::Keep)
    } else {
        None
    }
}

fn special_of(role: Role, word: &[u8]) -> Option<Symbol>
    ensures { result ≡ spec.special_of role word.now }
{
    match role {
        Role::Input => edge_of(word),
        Role::Node => None,
        Role::Next => result_of(word),
    }
}

pub(crate) fn is_slash(word: &[u8]) -> bool
    ensures { result ≡ spec.is_slash word.now }
{
    word == b"L/H".as_slice() || word == b"H/L".as_slice()
}

/// The symbol of a word; of a slash word its first or its second letter.
pub(crate) fn symbol_of(role: Role, second: bool, word: &[u8]) -> Option<Symbol>
    ensures { result ≡ spec.symbol_of role second word.now }
{
    if word == b"L".as_slice() {
        Some(Symbol::Low)
    } else if word == b"H".as_slice() {
        Some(Symbol::High)
    } else if word == b"-".as_slice() {
        Some(Symbol::Any)
    } else if word == b"L/H".as_slice() {
        Some(if second { Symbol::High } else { Symbol::Low })
    } else if word == b"H/L".as_slice() {
        Some(if second { Symbol::Low } else { Symbol::High })
    } else {
        special_of(role, word)
    }
}

/// Whether a symbol matches a value that was `old` and is `new`.
pub(crate) fn matches_symbol(symbol: Symbol, old: Tern, new: Tern) -> bool
    ensures { result ≡ spec.matches_symbol symbol old new }
{
    match (symbol, old, new) {
        (Symbol::Low, _, Tern::Zero) => true,
        (Symbol::Low, _, _) => false,
        (Symbol::High, _, Tern::One) => true,
        (Symbol::High, _, _) => false,
        (Symbol::Rise, Tern::Zero, Tern::One) => true,
        (Symbol::Rise, _, _) => false,
        (Symbol::Fall, Tern::One, Tern::Zero) => true,
        (Symbol::Fall, _, _) => false,
        (Symbol::NotRise, Tern::Zero, Tern::One) => false,
        (Symbol::NotFall, Tern::One, Tern::Zero) => false,
        _ => true,
    }
}

/// A node's value where a row has matched.
pub(crate) fn next_value(symbol: Symbol, old: Tern) -> Tern
    ensures { result ≡ spec.next_value symbol old }
{
    match symbol {
        Symbol::Low => Tern::Zero,
        Symbol::High => Tern::One,
        Symbol::Keep => old,
        _ => Tern::Unknown,
    }
}
