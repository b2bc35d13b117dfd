//! The words of gates.
ghost use Rattle.std.specs.Prelude.{◌≡◌, Some};
ghost use Rattle.module_net.specs.Elements as spec;

use gate_settle::Fold;
use verilog_source::Element;

/// What the word of a gate says (IEEE 1364-2005, 7.2 and 7.3).
#[derive(Clone, Copy, Debug)]
pub struct GateWord {
    pub fold: Fold,
    pub inverted: bool,
    /// All terminals but the last are outputs, as of `buf` and `not`; else the first alone is one.
    pub many_outputs: bool,
}

fn one_output(fold: Fold, inverted: bool) -> Option<GateWord>
    ensures { result ≡ Some (spec.one_output fold inverted) }
{
    Some(GateWord {
        fold,
        inverted,
        many_outputs: false,
    })
}

fn one_input(inverted: bool) -> Option<GateWord>
    ensures { result ≡ Some (spec.one_input inverted) }
{
    Some(GateWord {
        fold: Fold::And,
        inverted,
        many_outputs: true,
    })
}

/// The gate that the word names.
#[tactic(auto, unfolding(crate::specs::Elements::gate_word))]
pub fn gate_word(word: &[u8]) -> Option<GateWord>
    ensures { result ≡ spec.gate_word word.now }
{
    if word == b"and".as_slice() {
        one_output(Fold::And, false)
    } else if word == b"nand".as_slice() {
        one_output(Fold::And, true)
    } else if word == b"or".as_slice() {
        one_output(Fold::Or, false)
    } else if word == b"nor".as_slice() {
        one_output(Fold::Or, true)
    } else if word == b"xor".as_slice() {
        one_output(Fold::Xor, false)
    } else if word == b"xnor".as_slice() {
        one_output(Fold::Xor, true)
    } else if word == b"buf".as_slice() {
        one_input(false)
    } else if word == b"not".as_slice() {
        one_input(true)
    } else {
        None
    }
}

/// The gate that the element is, if it is one.
#[tactic(auto, unfolding(crate::specs::Elements::element_word))]
pub fn element_word(element: &Element) -> Option<GateWord>
    ensures { result ≡ spec.element_word element.now }
{
    if element.is_gate {
        gate_word(element.kind.as_bytes())
    } else {
        None
    }
}

/// How many of so many terminals are outputs, which stand first.
pub fn outputs_by(word: Option<GateWord>, terminals: usize) -> usize
    ensures { result ≡ spec.outputs_by word terminals }
{
    match word {
        Some(word) if word.many_outputs => terminals.saturating_sub(1),
        _ => 1,
    }
}
