//! Laws of what directives leave.
ghost use Rattle.std.specs.Prelude.{◌≡◌, [], ◌∷◌, ◌++◌, true, false, map};
ghost use Rattle.std.specs.List.{list_any};
ghost use Rattle.text_scan.specs.Left.{is_end};
ghost use Rattle.verilog_directives.specs.Left.{item, left_from, start};
ghost use Rattle.verilog_directives.specs.Signs.{is_mark};

use crate::left::Role;
use text_scan::{Limits, Token};

/// Tokens without a `` ` `` stay as they are.
#[tactic(auto, using(crate::proofs::Plain::tokens_stay))]
pub fn tokens_without_directives_stay(source: &[u8], limits: &Limits, tokens: &[Token], end: Token)
    requires free { list_any (is_mark source.now) tokens.now ≡ false }
    requires one_end { list_any (λ token. is_end token.kind) tokens.now ≡ false }
    requires end { is_end end.kind ≡ true }
    ensures { left_from source.now limits.now start 0 (tokens.now ++ end ∷ []) ≡ map (item Role.Plain) (tokens.now ++ end ∷ []) }
{}
