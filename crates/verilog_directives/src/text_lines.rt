//! The lines of a definition's text, which goes on with the next line where the last token of its line is a lone `\`
//! (IEEE 1364-2005, 19.3.1).
ghost use Rattle.std.specs.Prelude.{◌≡◌};
ghost use Rattle.text_scan.specs.Left.{IsSliceOf};
ghost use Rattle.verilog_directives.specs.Left as spec;
ghost use Rattle.verilog_directives.specs.Lookahead.{to_come};

use crate::line::Line;
use crate::lookahead::Lookahead;
use crate::signs::is_lone;
use text_scan::Token;

// Whether the next token begins on the line after this one's.
fn is_next_line(token: Token, next: Token) -> bool
    ensures { result ≡ spec.is_next_line token next }
{
    token.span.line < u32::MAX && next.span.line == token.span.line + 1
}

impl<'s> Lookahead<'s> {
    // The line of a definition's text behind a token of it that was taken.
    #[tactic(auto, unfolding(crate::specs::Left::text_line), using(crate::proofs::Orders::first_after))]
    fn text_line(&mut self, line: u32, token: Token) -> Line
        requires { IsSliceOf self.old.source.now token }
        ensures source { self.new.source.now ≡ self.old.source.now }
        ensures to_come { to_come self.new ≡ to_come self.old }
        ensures value { result ≡ spec.text_line self.old.source.now line token (spec.after 0 token (to_come self.old)) }
    {
        if !is_lone(self.source, token) {
            return Line::Text(line);
        }
        let next = self.at(0);
        if is_next_line(token, next) {
            Line::Text(next.span.line)
        } else {
            Line::Text(line)
        }
    }

    /// What becomes of the line behind a token on it that was taken and is passed over.
    pub(crate) fn line_after(&mut self, line: Line, token: Token) -> Line
        requires { IsSliceOf self.old.source.now token }
        ensures source { self.new.source.now ≡ self.old.source.now }
        ensures to_come { to_come self.new ≡ to_come self.old }
        ensures value { result ≡ spec.line_after self.old.source.now line token (spec.after 0 token (to_come self.old)) }
    {
        match line {
            Line::Free | Line::Passed(_) | Line::Kept(_) => line,
            Line::Text(number) => self.text_line(number, token),
        }
    }
}
