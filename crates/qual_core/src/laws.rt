//! Laws of outcomes. Each function's contract is the law; it does nothing.
ghost use Rattle.std.specs.Prelude.{◌≡◌, ℕ, List, Option, Ok};
ghost use Rattle.qual_core.specs.declared.reply.Reply.{Reply};
ghost use Rattle.qual_core.specs.Driving.{AllDriveNets};
ghost use Rattle.qual_core.specs.Files.{IsSourceRead};
ghost use Rattle.qual_core.specs.Outcome.{IsOutcome};
ghost use Rattle.verilog_source.specs.declared.Source.{Source};

/// Words have one outcome at most over the files: its status and each byte of its text are determined by both.
pub fn outcomes_are_one()
    ensures { (words : List (List ℕ)) (file : List ℕ → Option (List ℕ)) (a b : Reply) → IsOutcome words file a → IsOutcome words file b → a ≡ b }
{}

/// No text gives a module in which a constant stands at an output, so none is refused for that.
pub fn texts_drive_nets()
    ensures { (bytes : List ℕ) (source : Source) → IsSourceRead bytes (Ok source) → AllDriveNets source.modules }
{}
