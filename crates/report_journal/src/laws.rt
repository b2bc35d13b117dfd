//! Laws of images and refusals. Each function's contract is the law; it does nothing.
ghost use Rattle.std.specs.Prelude.{◌≡◌, List, ℕ, length};
ghost use Rattle.report_journal.specs.Image.{StandsFor, StandsForAny};
ghost use Rattle.report_journal.specs.Disks.{AtMostRecords};
ghost use Rattle.report_journal.specs.Open.{Refuses};
ghost use Rattle.report_journal.specs.declared.opening.OpenError.{OpenError};

/// An image stands for at most one list of blocks under a key.
pub fn one_list_of_blocks()
    ensures { (key image : List ℕ) (a b : List (List ℕ)) → StandsFor key image a → StandsFor key image b → a ≡ b }
{}

/// Bytes meet at most one refusal, and none where they stand for a list of blocks or for no journal
/// yet.
pub fn one_refusal_or_none()
    ensures one { (key image : List ℕ) (a b : OpenError) → Refuses key image a → Refuses key image b → a ≡ b }
    ensures none { (key image : List ℕ) (blocks : List (List ℕ)) (e : OpenError)
        → StandsForAny key image blocks → Refuses key image e → ⊥ }
{}

/// Bytes have no more records than the list that they stand for has blocks.
pub fn as_many_records_as_blocks()
    ensures { (key image : List ℕ) (blocks : List (List ℕ)) → StandsForAny key image blocks
        → AtMostRecords (length blocks) image }
{}
