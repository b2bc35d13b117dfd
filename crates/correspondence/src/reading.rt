//! Reading a text line by line and word by word.
ghost use Rattle.std.specs.Prelude.{◌≡◌, ◌≤◌, ◌∷◌, [], length, MatchOption};
ghost use Rattle.correspondence.specs.Lines as spec;
ghost use Rattle.correspondence.specs.Left.{Came, is_between, line_with, lines_left, placed, tokens_left};

use crate::lines::Lines;
use crate::word::{Next, Word};
use text_scan::{Cursor, Kind, Span, Style, Token};

fn ends_line(kind: Kind) -> bool
    ensures { result ≡ spec.ends_line kind }
{
    match kind {
        Kind::LineEnd | Kind::End => true,
        Kind::Word | Kind::Str | Kind::Sign | Kind::Unfinished => false,
    }
}

#[tactic(auto, unfolding(text_scan::specs::Bytes::begins_with))]
fn is_comment(bytes: &[u8]) -> bool
    ensures { result ≡ spec.is_comment bytes.now }
{
    match bytes {
        [first, ..] => *first == b'#',
        [] => false,
    }
}

impl<'a> Lines<'a> {
    /// Stands before the first line.
    #[tactic(auto, unfolding(crate::specs::Left::lines_left, crate::specs::Lines::lines_of))]
    pub(crate) fn new(text: &'a [u8]) -> Lines<'a>
        ensures lines { lines_left result ≡ spec.lines_of text.now }
    {
        Lines {
            text,
            cursor: Cursor::new(text, Style::Words),
            last: Token {
                kind: Kind::LineEnd,
                span: Span {
                    line: 1,
                    column: 1,
                    start: 0,
                    end: 0,
                },
            },
        }
    }

    /// The next word of the line, or the token that ends it, again and again.
    pub(crate) fn next_word(&mut self) -> Next<'a>
        ensures came { Came result self.old self.new }
        ensures lines { lines_left self.new ≡ lines_left self.old }
        ensures no_longer { length (tokens_left self.new) ≤ length (tokens_left self.old) }
    {
        if ends_line(self.last.kind) {
            return Next::LineEnd(self.last);
        }
        let token = self.cursor.next_token();
        self.last = token;
        if ends_line(token.kind) {
            return Next::LineEnd(token);
        }
        Next::Word(Word {
            bytes: token.text(self.text),
            token,
        })
    }

    // Goes over the words that are left of the line.
    fn skip_words(&mut self)
        ensures lines { lines_left self.new ≡ lines_left self.old }
        ensures between { is_between self.new }
        ensures no_longer { length (tokens_left self.new) ≤ length (tokens_left self.old) }
    {
        'words: while let Next::Word(_) = self.next_word() {}
    }

    /// The first word of the next line that isn't empty and no comment; what is left of this line is passed over.
    pub(crate) fn next_line(&mut self) -> Option<Word<'a>>
        ensures { MatchOption result (lines_left self.old ≡ []) (λ w. lines_left self.old ≡ line_with (placed w) self.new ∷ lines_left self.new) }
    {
        'lines: loop {
            self.skip_words();
            let token = self.cursor.next_token();
            self.last = token;
            match token.kind {
                Kind::End => return None,
                Kind::LineEnd => {}
                _ => {
                    let bytes = token.text(self.text);
                    if !is_comment(bytes) {
                        return Some(Word { bytes, token });
                    }
                }
            }
        }
    }
}
