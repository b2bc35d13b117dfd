//! Verdicts.
ghost use Rattle.std.specs.Prelude.{◌≡◌};
ghost use Rattle.compare_text.specs.Text as spec;

use cell_compare::Comparison;
use verdict_text::Finding;

/// How a cell's Liberty description and its Verilog module agree.
#[derive(Clone, Copy, Debug, PartialEq, Eq)]
pub enum CompareVerdict {
    Equal,
    Differs,
    Refused,
}

fn vectors_verdict(first: &Option<Finding>) -> CompareVerdict
    ensures { result ≡ spec.vectors_verdict first.now }
{
    match first {
        None => CompareVerdict::Equal,
        Some(_) => CompareVerdict::Differs,
    }
}

pub(crate) fn verdict_of(comparison: &Comparison) -> CompareVerdict
    ensures { result ≡ spec.verdict_of comparison.now }
{
    match comparison {
        Comparison::Refused(_) => CompareVerdict::Refused,
        Comparison::Pins(_) => CompareVerdict::Differs,
        Comparison::Vectors { first, .. } => vectors_verdict(first),
    }
}

impl CompareVerdict {
    /// `equal`, `differs` or `refused`.
    pub fn word(self) -> &'static str
        ensures { result.now ≡ spec.verdict_word self }
    {
        match self {
            CompareVerdict::Equal => "equal",
            CompareVerdict::Differs => "differs",
            CompareVerdict::Refused => "refused",
        }
    }
}
