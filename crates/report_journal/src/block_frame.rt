// A block as a record has it.
use std::marker::Model;

/// A block that is ready to be appended: its size, the block, and a shut gate.
#[derive(Drop)]
pub struct Frame {
    pub(crate) bytes: Vec<u8>,
}

impl Model for Frame {
    ghost use Rattle.std.specs.Prelude.{List, ℕ, ◌≡◌, ◌-◌, [], ◌∷◌, ◌++◌, length, take, drop};
    ghost use Rattle.report_journal.specs.Image.{plain_head, IsBlock};

    ghost Value = { List ℕ };

    ghost view = { λ f. take (length f.bytes.items - 5) (drop 4 f.bytes.items) };

    ghost invariant = { λ f.
        let block = take (length f.bytes.items - 5) (drop 4 f.bytes.items) in
        IsBlock block × (f.bytes.items ≡ plain_head (length block) ++ (block ++ 0 ∷ [])) };
}
