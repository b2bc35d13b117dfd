ghost use Rattle.std.specs.Prelude.{◌≡◌};
ghost use Rattle.verilog_directives.specs.Left as spec;

use text_scan::Token;

/// What becomes of the rest of a line.
#[derive(Clone, Copy, Debug, PartialEq, Eq)]
pub(crate) enum Line {
    /// No directive asks for anything.
    Free,
    /// The tokens that begin on this line are passed over.
    Passed(u32),
    /// The tokens that begin on this line stand as they are.
    Kept(u32),
    /// The tokens that begin on this line are a text of a definition, which goes on with the next line where the last
    /// of them is a lone `\`.
    Text(u32),
}

impl Line {
    pub(crate) fn passes(self, token: Token) -> bool
        ensures { result ≡ spec.is_passed self token }
    {
        match self {
            Line::Passed(line) | Line::Text(line) => token.span.line == line,
            Line::Free | Line::Kept(_) => false,
        }
    }

    pub(crate) fn keeps(self, token: Token) -> bool
        ensures { result ≡ spec.is_kept self token }
    {
        match self {
            Line::Kept(line) => token.span.line == line,
            Line::Free | Line::Passed(_) | Line::Text(_) => false,
        }
    }

    /// The line that it speaks of; 0 where there is none.
    pub(crate) fn number(self) -> u32
        ensures { result ≡ spec.line_of self }
    {
        match self {
            Line::Free => 0,
            Line::Passed(line) | Line::Kept(line) | Line::Text(line) => line,
        }
    }
}
