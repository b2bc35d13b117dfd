//! Laws of pin findings.
ghost use Rattle.std.specs.Prelude.{◌≡◌, List};
ghost use Rattle.verdict_text.specs.declared.finding.Finding.{Finding};
ghost use Rattle.pin_tables.specs.Findings.{ArePinFindings};

use crate::table::FourViews;

/// There is one list of findings for the views.
pub fn findings_are_one(views: &FourViews)
    ensures { (a : List Finding) → (b : List Finding) → ArePinFindings views.now a → ArePinFindings views.now b → a ≡ b }
{}
