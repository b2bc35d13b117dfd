//! Reading tokens, and looking at those to come.
ghost use Rattle.std.specs.Prelude.{◌≡◌, [], ◌<◌, ◌≤◌, ◌∷◌, ◌+◌, ◌-◌, ◌^◌, ◌==◌, if◌then◌else◌, min, length, drop, slice_get, Some, true, false};
ghost use Rattle.text_scan.specs.declared.token.Style.TheVariants.{Verilog};
ghost use Rattle.text_scan.specs.Left.{IsSliceOf, is_end as spec_is_end, followed, tokens_at};
ghost use Rattle.text_scan.specs.Tokens.{tokens_of};
ghost use Rattle.text_scan.specs.Moved.{moved};
ghost use Rattle.verilog_directives.specs.Behind.{IsCounted, moved_on};
ghost use Rattle.verilog_directives.specs.Held as held;
ghost use Rattle.verilog_directives.specs.Lookahead.{to_come};
ghost use Rattle.verilog_directives.specs.Skims.{Skims};

use crate::held::Held;
use crate::lookahead::Lookahead;
use crate::signs::is_end;
use crate::skim::skimmed;
use text_scan::{Cursor, Place, Span, Style, Token};

const START: Place = Place {
    at: 0,
    line: 1,
    column: 1,
};

// The column of a token whose text stands at this place of another one.
fn moved_column(place: Place, span: Span) -> u32
    ensures { result ≡ (if span.line == 1 then min (place.column + (span.column - 1)) 4294967295 else span.column) }
{
    if span.line == 1 {
        place.column.saturating_add(span.column.saturating_sub(1))
    } else {
        span.column
    }
}

// The token, where its text stands at this place of another one.
#[tactic(auto, unfolding(text_scan::specs::Moved::moved, text_scan::specs::Moved::onward, text_scan::specs::Tokens::token))]
fn moved(place: Place, token: Token) -> Token
    requires start { place.at + token.span.start < 2 ^ 64 }
    requires end { place.at + token.span.end < 2 ^ 64 }
    ensures { result ≡ moved place token }
{
    let column = moved_column(place, token.span);
    Token {
        kind: token.kind,
        span: Span {
            line: place.line.saturating_add(token.span.line.saturating_sub(1)),
            column,
            start: place.at + token.span.start,
            end: place.at + token.span.end,
        },
    }
}

impl<'s> Lookahead<'s> {
    #[tactic(auto, unfolding(crate::specs::Lookahead::to_come))]
    pub(crate) fn new(source: &'s [u8]) -> Lookahead<'s>
        ensures source { result.source.now ≡ source.now }
        ensures to_come { to_come result ≡ tokens_of Verilog source.now }
    {
        Lookahead {
            source,
            place: START,
            cursor: Cursor::new(source, Style::Verilog),
            held: Held::Nothing,
        }
    }

    // The next token that isn't held.
    fn scan(&mut self) -> Token
        ensures source { self.new.source.now ≡ self.old.source.now }
        ensures held { self.new.held ≡ self.old.held }
        ensures next { moved_on self.old.place self.old.cursor ≡ followed result (moved_on self.new.place self.new.cursor) }
        ensures end_stays { spec_is_end result.kind ≡ true → moved_on self.new.place self.new.cursor ≡ moved_on self.old.place self.old.cursor }
        ensures slice { IsSliceOf self.new.source.now result }
    {
        let token = self.cursor.next_token();
        moved(self.place, token)
    }

    /// The next token; after the last one the end, again and again.
    #[tactic(auto, unfolding(crate::specs::Lookahead::to_come), using(crate::proofs::Looks::held_first, crate::proofs::Looks::held_none, crate::proofs::Looks::inside_rest, crate::proofs::Looks::room_after))]
    pub(crate) fn take(&mut self) -> Token
        ensures source { self.new.source.now ≡ self.old.source.now }
        ensures next { to_come self.old ≡ followed result (to_come self.new) }
        ensures end_stays { spec_is_end result.kind ≡ true → to_come self.new ≡ to_come self.old }
        ensures room { length (held.tokens self.new.held) < 4 }
        ensures slice { IsSliceOf self.new.source.now result }
    {
        match self.held.get(0) {
            Some(token) => {
                self.held = self.held.without_first();
                token
            }
            None => self.scan(),
        }
    }

    /// Puts a token before those to come.
    #[tactic(auto, unfolding(crate::specs::Lookahead::to_come))]
    pub(crate) fn put_back(&mut self, token: Token)
        requires room { length (held.tokens self.old.held) < 4 }
        requires slice { IsSliceOf self.old.source.now token }
        requires no_end { spec_is_end token.kind ≡ false }
        ensures source { self.new.source.now ≡ self.old.source.now }
        ensures to_come { to_come self.new ≡ token ∷ to_come self.old }
        ensures held { held.tokens self.new.held ≡ token ∷ held.tokens self.old.held }
    {
        self.held = self.held.with_first(token);
    }

    // The token after those that are held; it is held too, unless it is the end.
    #[tactic(auto, unfolding(crate::specs::Lookahead::to_come))]
    fn hold_next(&mut self) -> Token
        requires { length (held.tokens self.old.held) < 4 }
        ensures source { self.new.source.now ≡ self.old.source.now }
        ensures to_come { to_come self.new ≡ to_come self.old }
        ensures value { slice_get (to_come self.new) (length (held.tokens self.old.held)) ≡ Some result }
        ensures held { spec_is_end result.kind ≡ false → length (held.tokens self.new.held) ≡ length (held.tokens self.old.held) + 1 }
        ensures kept { length (held.tokens self.old.held) ≤ length (held.tokens self.new.held) }
        ensures slice { IsSliceOf self.new.source.now result }
    {
        let token = self.scan();
        if !is_end(token.kind) {
            self.held = self.held.with_last(token);
        }
        token
    }

    /// The token at this place, counted from 0, of those to come, where none before it is the end.
    #[tactic(auto, unfolding(crate::specs::Lookahead::to_come))]
    pub(crate) fn at(&mut self, place: usize) -> Token
        requires few { place < 4 }
        requires after_held { place ≤ length (held.tokens self.old.held) }
        ensures source { self.new.source.now ≡ self.old.source.now }
        ensures to_come { to_come self.new ≡ to_come self.old }
        ensures value { slice_get (to_come self.new) place ≡ Some result }
        ensures held { spec_is_end result.kind ≡ false → place < length (held.tokens self.new.held) }
        ensures kept { length (held.tokens self.old.held) ≤ length (held.tokens self.new.held) }
        ensures slice { IsSliceOf self.new.source.now result }
    {
        match self.held.get(place) {
            Some(token) => token,
            None => self.hold_next(),
        }
    }

    /// Goes over so many tokens that were looked at.
    #[tactic(auto, unfolding(crate::specs::Lookahead::to_come))]
    pub(crate) fn skip(&mut self, n: usize)
        requires { n ≤ length (held.tokens self.old.held) }
        ensures source { self.new.source.now ≡ self.old.source.now }
        ensures to_come { to_come self.new ≡ drop n (to_come self.old) }
    {
        self.held = self.held.without(n);
    }

    // Begins again at this place.
    fn stand_at(&mut self, place: Place)
        requires within { place.at ≤ length self.old.source.now }
        requires counted { IsCounted place }
        requires none_held { held.tokens self.old.held ≡ [] }
        ensures source { self.new.source.now ≡ self.old.source.now }
        ensures to_come { to_come self.new ≡ tokens_at Verilog self.old.source.now place }
    {
        *self = Lookahead {
            source: self.source,
            place,
            cursor: Cursor::new(&self.source[place.at..], Style::Verilog),
            held: Held::Nothing,
        };
    }

    /// Goes over fillers, as far as no other token comes, and none on this line. Where a token is held it stays where
    /// it is.
    pub(crate) fn skim(&mut self, line: u32)
        ensures source { self.new.source.now ≡ self.old.source.now }
        ensures skims { Skims self.old.source.now line (to_come self.old) (to_come self.new) }
    {
        if self.held.len() > 0 {
            return;
        }
        let first = self.scan();
        if is_end(first.kind) {
            return;
        }
        let place = Place {
            at: first.span.start,
            line: first.span.line,
            column: first.span.column,
        };
        self.stand_at(skimmed(self.source, line, place));
    }
}
