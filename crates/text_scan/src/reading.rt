//! The tokens of a text, one by one.
ghost use Rattle.std.specs.Prelude.{◌≡◌, ◌≤◌, ◌<◌, ◌+◌, ◌∷◌, [], length, take, drop, false, MatchOption, IfSome, slice_range, slice_index, true};
ghost use Rattle.text_scan.specs.Bytes.{is_blank};
ghost use Rattle.text_scan.specs.declared.token.Kind.TheVariants.{End, Word};
ghost use Rattle.text_scan.specs.Tokens.{token, tokens, after, start_at, tokens_of};
ghost use Rattle.text_scan.specs.Jumps.{forward};
ghost use Rattle.text_scan.specs.Left as spec;

use crate::bytes;
use crate::cursor::Cursor;
use crate::piece::{Piece, piece_of};
use crate::search::until_blanks_end;
use crate::token::{Kind, Place, Span, Style, Token};

#[tactic(auto, unfolding(crate::specs::Tokens::token))]
fn make_token(kind: Kind, start: Place, end: usize) -> Token
    ensures { result ≡ token kind start end }
{
    Token {
        kind,
        span: Span {
            line: start.line,
            column: start.column,
            start: start.at,
            end,
        },
    }
}

impl Token {
    /// The token's bytes in the text that it stands in.
    pub fn text<'a>(self, source: &'a [u8]) -> &'a [u8]
        requires { spec.IsSliceOf source.now self }
        ensures { result.now ≡ slice_range source.now self.span.start self.span.end }
    {
        &source[self.span.start..self.span.end]
    }
}

impl<'a> Cursor<'a> {
    /// Stands before the first token of the text.
    #[tactic(auto, unfolding(crate::specs::Left::left, crate::specs::Left::tokens_at, crate::specs::Left::source, crate::specs::Tokens::tokens_of))]
    pub fn new(text: &'a [u8], style: Style) -> Cursor<'a>
        ensures source { spec.source result ≡ text.now }
        ensures left { spec.left result ≡ tokens_of style text.now }
    {
        Cursor {
            source: text,
            style,
            place: Place::start(),
        }
    }

    /// Stands before the first token of a text that goes on from another, at this line and column.
    #[tactic(auto, unfolding(crate::specs::Left::left, crate::specs::Left::tokens_at, crate::specs::Left::source))]
    pub fn going_on(text: &'a [u8], style: Style, line: u32, column: u32) -> Cursor<'a>
        ensures source { spec.source result ≡ text.now }
        ensures left { spec.left result ≡ tokens style (start_at line column) 0 text.now }
    {
        Cursor {
            source: text,
            style,
            place: Place {
                at: 0,
                line,
                column,
            },
        }
    }

    // Goes over so many bytes.
    fn advance(&mut self, n: usize)
        requires { self.old.place.at + n ≤ length self.old.source.now }
        ensures source { self.new.source.now ≡ self.old.source.now }
        ensures style { self.new.style ≡ self.old.style }
        ensures place { self.new.place ≡ after self.old.place (take n (drop self.old.place.at self.old.source.now)) }
        ensures at { self.new.place.at ≡ self.old.place.at + n }
    {
        let end = self.place.at + n;
        self.place = self.place.after(&self.source[self.place.at..end]);
    }

    // Goes over a token of so many bytes. No line ends in a word.
    fn advance_token(&mut self, kind: Kind, n: usize)
        requires within { self.old.place.at + n ≤ length self.old.source.now }
        requires word { kind ≡ Word → forward n self.old.place
            ≡ after self.old.place (take n (drop self.old.place.at self.old.source.now)) }
        ensures source { self.new.source.now ≡ self.old.source.now }
        ensures style { self.new.style ≡ self.old.style }
        ensures place { self.new.place ≡ after self.old.place (take n (drop self.old.place.at self.old.source.now)) }
        ensures at { self.new.place.at ≡ self.old.place.at + n }
    {
        match kind {
            Kind::Word => self.place = self.place.forward(n),
            _ => self.advance(n),
        }
    }

    // Goes over the piece that begins here, and answers the kind of its token.
    fn turn(&mut self) -> Option<Kind>
        requires { self.old.place.at < length self.old.source.now }
        ensures source { self.new.source.now ≡ self.old.source.now }
        ensures further { self.old.place.at < self.new.place.at }
        ensures next { MatchOption result
            (spec.left self.old ≡ spec.left self.new)
            (λ kind. spec.left self.old ≡ token kind self.old.place self.new.place.at ∷ spec.left self.new) }
        ensures no_end { IfSome result (λ kind. spec.is_end kind ≡ false) }
    {
        let text = &self.source[self.place.at..];
        match piece_of(self.style, text[0], &text[1..], text) {
            Piece::Passed(n) => {
                self.advance(n);
                None
            }
            Piece::Shown(kind, n) => {
                self.advance_token(kind, n);
                Some(kind)
            }
        }
    }

    // Goes over the blanks that stand here.
    fn skip_blanks(&mut self)
        requires within { self.old.place.at < length self.old.source.now }
        requires blank { is_blank (slice_index self.old.source.now self.old.place.at) ≡ true }
        ensures source { self.new.source.now ≡ self.old.source.now }
        ensures further { self.old.place.at < self.new.place.at }
        ensures next { spec.left self.old ≡ spec.left self.new }
    {
        let n = until_blanks_end(&self.source[self.place.at..]);
        self.place = self.place.forward(n);
    }

    /// The next token; after the last one the end, again and again.
    #[tactic(auto, using(crate::proofs::Scan::left_read, crate::proofs::Scan::same_source, crate::proofs::Scan::ends_here))]
    pub fn next_token(&mut self) -> Token
        ensures source { spec.source self.new ≡ spec.source self.old }
        ensures next { spec.left self.old ≡ spec.followed result (spec.left self.new) }
        ensures end_stays { spec.is_end result.kind ≡ true → spec.left self.new ≡ spec.left self.old }
        ensures slice { spec.IsSliceOf (spec.source self.new) result }
    {
        while self.place.at < self.source.len() {
            let start = self.place;
            if bytes::is_blank(self.source[start.at]) {
                self.skip_blanks();
            } else if let Some(kind) = self.turn() {
                return make_token(kind, start, self.place.at);
            }
        }
        make_token(Kind::End, self.place, self.place.at)
    }
}
