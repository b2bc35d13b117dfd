ghost use Rattle.std.specs.Prelude.{◌≡◌};
ghost use Rattle.text_scan.specs.Left.{IsSliceOf};
ghost use Rattle.verilog_directives.specs.Regions as spec;

use crate::line::Line;
use crate::signs::is_word;
use text_scan::Token;

/// Where a text stands.
#[derive(Clone, Copy, Debug, PartialEq, Eq)]
pub(crate) enum Region {
    /// Outside modules and primitives.
    Outside,
    /// In a module or primitive.
    Part,
    /// In a specify block of one.
    Specify,
}

#[tactic(auto, unfolding(crate::specs::Regions::begins_part))]
fn begins_part(word: &[u8]) -> bool
    ensures { result ≡ spec.begins_part word.now }
{
    word == b"module".as_slice() || word == b"primitive".as_slice()
}

#[tactic(auto, unfolding(crate::specs::Regions::ends_part))]
fn ends_part(word: &[u8]) -> bool
    ensures { result ≡ spec.ends_part word.now }
{
    word == b"endmodule".as_slice() || word == b"endprimitive".as_slice()
}

#[tactic(auto, unfolding(crate::specs::Regions::begins_block))]
fn begins_block(word: &[u8]) -> bool
    ensures { result ≡ spec.begins_block word.now }
{
    word == b"specify".as_slice()
}

#[tactic(auto, unfolding(crate::specs::Regions::ends_block))]
fn ends_block(word: &[u8]) -> bool
    ensures { result ≡ spec.ends_block word.now }
{
    word == b"endspecify".as_slice()
}

/// Whether the word begins a module, a primitive or a specify block.
pub(crate) fn begins_region(word: &[u8]) -> bool
    ensures { result ≡ spec.begins_region word.now }
{
    begins_part(word) || begins_block(word)
}

impl Region {
    // Where the text stands after a word that is read.
    fn after_word(self, word: &[u8]) -> Region
        ensures { result ≡ spec.after_word self word.now }
    {
        match self {
            Region::Outside if begins_part(word) || ends_block(word) => Region::Part,
            Region::Part | Region::Specify if ends_part(word) => Region::Outside,
            Region::Part if begins_block(word) => Region::Specify,
            Region::Specify if ends_block(word) => Region::Part,
            region => region,
        }
    }

    /// Where the text stands after a token that is read.
    #[tactic(auto, unfolding(crate::specs::Regions::after_token))]
    pub(crate) fn after_token(self, source: &[u8], token: Token) -> Region
        requires { IsSliceOf source.now token }
        ensures { result ≡ spec.after_token source.now self token }
    {
        if is_word(token.kind) {
            self.after_word(token.text(source))
        } else {
            self
        }
    }

    /// Where the text stands after a token on a line that stands as it is, which may end a part that is refused.
    #[tactic(auto, unfolding(crate::specs::Regions::after_kept))]
    pub(crate) fn after_kept(self, source: &[u8], token: Token) -> Region
        requires { IsSliceOf source.now token }
        ensures { result ≡ spec.after_kept source.now self token }
    {
        if is_word(token.kind) && ends_part(token.text(source)) {
            Region::Outside
        } else {
            self
        }
    }

    /// What becomes of this line after a directive or macro on it that isn't obeyed.
    pub(crate) fn line_behind(self, line: u32) -> Line
        ensures { result ≡ spec.line_behind self line }
    {
        match self {
            Region::Outside | Region::Specify => Line::Kept(line),
            Region::Part => Line::Free,
        }
    }
}
