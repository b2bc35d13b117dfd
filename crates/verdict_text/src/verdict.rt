ghost use Rattle.std.specs.Prelude.{◌≡◌, Some};
ghost use Rattle.verdict_text.specs.Lines.{word_of_findings, word_of_verdict};
ghost use Rattle.verdict_text.specs.Words.{verdict_word};

use crate::finding::Finding;
use crate::reason::Reason;
use std::fmt::{Display, Formatter, Write};
use text_scan::{Items, Text};

/// What a check says of a cell.
#[derive(Debug, Drop)]
pub enum Verdict {
    /// The rows of its table were checked, by these numbers of rows and of values that Liberty defines.
    Checked {
        rows: u32,
        defined: u32,
        findings: Items<Finding>,
    },
    /// Findings about pins kept its rows from being checked; there is at least one.
    Unchecked(Items<Finding>),
    Refused(Reason),
}

/// A cell and its verdict.
#[derive(Debug, Drop)]
pub struct CellResult {
    pub name: Text,
    pub verdict: Verdict,
}

/// The word that ends a cell's block.
#[derive(Clone, Copy, Debug, PartialEq, Eq)]
pub enum VerdictWord {
    /// Nothing was found.
    Qualified,
    /// Waivers cover all that was found.
    Waived,
    /// No waiver covers something that was found.
    Failed,
    /// The cell wasn't checked.
    Refused,
}

impl VerdictWord {
    /// `qualified`, `waived`, `failed` or `refused`.
    pub fn word(self) -> &'static str
        ensures { result.now ≡ verdict_word self }
    {
        match self {
            VerdictWord::Qualified => "qualified",
            VerdictWord::Waived => "waived",
            VerdictWord::Failed => "failed",
            VerdictWord::Refused => "refused",
        }
    }
}

impl Display for VerdictWord {
    ghost output = { λ word. Some (verdict_word word) };

    fn fmt<W: Write>(&self, f: &mut Formatter<W>) -> std::fmt::Result {
        f.write_str(self.word())
    }
}

impl Verdict {
    /// The word that tells it.
    pub fn word(&self) -> VerdictWord
        ensures { result ≡ word_of_verdict self.now }
    {
        match self {
            Verdict::Checked { findings, .. } | Verdict::Unchecked(findings) => {
                word_of_findings(findings.as_slice())
            }
            Verdict::Refused(_) => VerdictWord::Refused,
        }
    }
}

fn word_of_findings(findings: &[Finding]) -> VerdictWord
    ensures { result ≡ word_of_findings findings.now }
{
    if !findings.iter().all(|finding| finding.waiver.is_some()) {
        VerdictWord::Failed
    } else if findings.is_empty() {
        VerdictWord::Qualified
    } else {
        VerdictWord::Waived
    }
}
