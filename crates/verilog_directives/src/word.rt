//! The words of directives, and the words that are no names.
ghost use Rattle.std.specs.Prelude.{◌≡◌};
ghost use Rattle.verilog_directives.specs.Words as spec;

/// A directive (IEEE 1364-2005, clause 19), by its word.
#[derive(Clone, Copy, Debug, PartialEq, Eq)]
pub(crate) enum Directive {
    Define,
    Undef,
    Ifdef,
    Ifndef,
    Elsif,
    Else,
    Endif,
    /// A directive that says nothing here.
    PassedOver,
    /// Another directive, or a macro.
    Other,
    /// A `` ` `` that no word touches.
    Alone,
}

#[tactic(auto, unfolding(crate::specs::Words::is_passed_over))]
fn is_passed_over(word: &[u8]) -> bool
    ensures { result ≡ spec.is_passed_over word.now }
{
    word == b"timescale".as_slice()
        || word == b"celldefine".as_slice()
        || word == b"endcelldefine".as_slice()
        || word == b"resetall".as_slice()
        || word == b"default_nettype".as_slice()
        || is_fault_or_delay(word)
}

// Directives that only some simulators have.
#[tactic(auto, unfolding(crate::specs::Words::is_fault_or_delay))]
fn is_fault_or_delay(word: &[u8]) -> bool
    ensures { result ≡ spec.is_fault_or_delay word.now }
{
    word == b"suppress_faults".as_slice()
        || word == b"nosuppress_faults".as_slice()
        || word == b"enable_portfaults".as_slice()
        || word == b"disable_portfaults".as_slice()
        || word == b"delay_mode_path".as_slice()
        || word == b"delay_mode_distributed".as_slice()
        || word == b"delay_mode_unit".as_slice()
        || word == b"delay_mode_zero".as_slice()
}

impl Directive {
    #[tactic(auto, unfolding(crate::specs::Words::word_directive))]
    fn of_word(word: &[u8]) -> Directive
        ensures { result ≡ spec.word_directive word.now }
    {
        if word == b"define".as_slice() {
            Directive::Define
        } else if word == b"undef".as_slice() {
            Directive::Undef
        } else if word == b"ifdef".as_slice() {
            Directive::Ifdef
        } else if word == b"ifndef".as_slice() {
            Directive::Ifndef
        } else if word == b"elsif".as_slice() {
            Directive::Elsif
        } else if word == b"else".as_slice() {
            Directive::Else
        } else if word == b"endif".as_slice() {
            Directive::Endif
        } else if is_passed_over(word) {
            Directive::PassedOver
        } else {
            Directive::Other
        }
    }

    /// The directive of the word that touches its `` ` ``, if one does.
    #[tactic(auto, unfolding(crate::specs::Words::directive_of))]
    pub(crate) fn of(word: &[u8]) -> Directive
        ensures { result ≡ spec.directive_of word.now }
    {
        match word {
            [] => Directive::Alone,
            [_, ..] => Directive::of_word(word),
        }
    }
}

#[tactic(auto, unfolding(crate::specs::Words::is_gate_word))]
fn is_gate_word(word: &[u8]) -> bool
    ensures { result ≡ spec.is_gate_word word.now }
{
    word == b"and".as_slice()
        || word == b"nand".as_slice()
        || word == b"or".as_slice()
        || word == b"nor".as_slice()
        || word == b"xor".as_slice()
        || word == b"xnor".as_slice()
        || word == b"buf".as_slice()
        || word == b"not".as_slice()
}

#[tactic(auto, unfolding(crate::specs::Words::is_declaring_word))]
fn is_declaring_word(word: &[u8]) -> bool
    ensures { result ≡ spec.is_declaring_word word.now }
{
    word == b"input".as_slice()
        || word == b"output".as_slice()
        || word == b"inout".as_slice()
        || word == b"wire".as_slice()
        || word == b"reg".as_slice()
        || word == b"supply0".as_slice()
        || word == b"supply1".as_slice()
}

#[tactic(auto, unfolding(crate::specs::Words::is_enclosing_word))]
fn is_enclosing_word(word: &[u8]) -> bool
    ensures { result ≡ spec.is_enclosing_word word.now }
{
    word == b"module".as_slice()
        || word == b"endmodule".as_slice()
        || word == b"primitive".as_slice()
        || word == b"endprimitive".as_slice()
        || word == b"specify".as_slice()
        || word == b"endspecify".as_slice()
        || word == b"table".as_slice()
        || word == b"endtable".as_slice()
        || word == b"initial".as_slice()
}

/// Whether the word is one of those that the grammar of cell models has of its own, which are no identifiers
/// (IEEE 1364-2005, 3.7.2). The standard's other keywords count as identifiers here.
#[tactic(auto, unfolding(crate::specs::Words::is_reserved))]
pub fn is_reserved(word: &[u8]) -> bool
    ensures { result ≡ spec.is_reserved word.now }
{
    is_enclosing_word(word) || is_declaring_word(word) || is_gate_word(word)
}
