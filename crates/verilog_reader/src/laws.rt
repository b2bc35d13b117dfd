//! Laws of source texts. Each function's contract is the law; it does nothing.
ghost use Rattle.std.specs.Prelude.{ℕ, ◌≤◌, List, Ok};
ghost use Rattle.text_scan.specs.declared.limits.Limits.{Limits};
ghost use Rattle.verilog_source.specs.declared.Source.{Source};
ghost use Rattle.verilog_source.specs.Source.{IsSource};
ghost use Rattle.verilog_reader.specs.Driving.{AllDriveNets};
ghost use Rattle.verilog_reader.specs.Promise.{IsAnswered};

/// No text gives a module in which a constant stands at an output of a gate or primitive.
pub fn texts_drive_nets()
    ensures { (text : List ℕ) (limits : Limits) (source : Source) → IsAnswered text limits (Ok source) → AllDriveNets source.modules }
{}

/// Each source that is read has names within the limit, each module a direction for each port and no port twice, no
/// part the name of another, and what is refused a word that can be shown. The limit of a name is at least 4 bytes, as
/// many as the longest word of a gate has, and at most 128, as many as a shown word may have.
pub fn names_are_kept()
    ensures { (text : List ℕ) (limits : Limits) (source : Source) → 4 ≤ limits.name → limits.name ≤ 128
        → IsAnswered text limits (Ok source) → IsSource limits source }
{}
