//! Laws of the tokens of a text that is cut anywhere.
ghost use Rattle.std.specs.Prelude.{◌≡◌, ◌≤◌, ◌∷◌, ◌++◌, [], length, map};
ghost use Rattle.text_scan.specs.declared.token.Kind.TheVariants as kinds;
ghost use Rattle.text_scan.specs.Tokens.{start, after, token, tokens, tokens_of};
ghost use Rattle.text_scan.specs.Firm.{firm, open_bytes, open_place};
ghost use Rattle.text_scan.specs.Moved.{moved, EndsAtToken};

use crate::token::Style;

/// The firm tokens of a text are the first tokens of every longer text. The other tokens are those of the bytes that
/// are left open and then the longer text's, as they stand alone, moved to the place where the open bytes begin.
pub fn firm_tokens_stay(text: &[u8], more: &[u8], style: Style)
    ensures { tokens_of style (text.now ++ more.now) ≡ firm style start 0 text.now
        ++ map (moved (open_place style start 0 text.now)) (tokens_of style (open_bytes style start 0 text.now ++ more.now)) }
{}

/// What is left open is one token at most, and then the end.
pub fn one_token_is_open(text: &[u8], style: Style)
    ensures { length (tokens style (open_place style start 0 text.now) 0 (open_bytes style start 0 text.now)) ≤ 2 }
{}

/// A text that ends at a token's end, and any text behind it: their tokens are those of the first, without its end,
/// and those of the second as they stand alone, moved to the first one's end.
pub fn parts_have_their_tokens(text: &[u8], more: &[u8], style: Style)
    requires { EndsAtToken style text.now }
    // all tokens of the first text but its end
    ensures first { tokens_of style text.now ≡ firm style start 0 text.now ++ token kinds.End (after start text.now) (after start text.now).at ∷ [] }
    ensures both { tokens_of style (text.now ++ more.now) ≡ firm style start 0 text.now ++ map (moved (after start text.now)) (tokens_of style more.now) }
{}
