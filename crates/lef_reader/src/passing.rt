//! Goes over tokens.
ghost use Rattle.std.specs.Prelude.{◌≡◌, ◌∷◌, false, true, None, IfOk};
ghost use Rattle.text_scan.specs.Left as left;
ghost use Rattle.text_scan.specs.Tokens.{tokens_of};
ghost use Rattle.text_scan.specs.declared.token.Style.TheVariants as styles;
ghost use Rattle.lef_tokens.specs.Looks as looks;
ghost use Rattle.lef_reader.specs.Passing as spec;
ghost use Rattle.lef_reader.specs.Steps.{rest, Passes, IsBehind, EndsName};

use crate::extent::Extent;
use crate::halt::{Halt, Refusal};
use crate::tokens::Tokens;
use crate::until::{Closing, Until};
use file_rules::slice;
use lef_tokens::{Look, is_passed, is_same_word, is_word, look_of, text};
use std::alloc::Global;
use text_scan::{Cursor, NoMemory, Style, Text, Token};

fn until_word(until: Until) -> &'static [u8]
    ensures { result.now ≡ spec.until_word until }
{
    match until {
        Until::Semicolon => b";",
        Until::End => b"end",
        Until::EndExt => b"endext",
    }
}

/// Whether this is the word up to which is passed over.
#[tactic(auto, unfolding(crate::specs::Passing::stops))]
pub fn stops(source: &[u8], until: Until, token: Token) -> bool
    ensures { result ≡ spec.stops source.now until token }
{
    is_word(token) && is_same_word(text(source, token), until_word(until))
}

fn extended(extent: Option<Extent>, token: Token) -> Option<Extent>
    ensures { result ≡ spec.extended extent token }
{
    match extent {
        None => Some(Extent {
            from: token.span.start,
            to: token.span.end,
        }),
        Some(Extent { from, to: _ }) => Some(Extent {
            from,
            to: token.span.end,
        }),
    }
}

/// The bytes of an extent, none where there is none.
pub fn kept_text(alloc: Global, source: &[u8], extent: Option<Extent>) -> Result<Text, NoMemory>
    ensures { IfOk result (λ t. t ≡ spec.kept_text source.now extent) }
{
    match extent {
        None => Text::from_bytes(alloc, &[]),
        Some(Extent { from, to }) => Text::from_bytes(alloc, slice(source, from, to)),
    }
}

/// Whether the token is this name.
pub fn is_name_of(source: &[u8], name: Token, token: Token) -> bool
    ensures { result ≡ spec.is_name_of source.now name token }
{
    text(source, token) == text(source, name)
}

fn closes(source: &[u8], closing: Closing, token: Token) -> bool
    ensures { result ≡ spec.closes source.now closing token }
{
    match closing {
        Closing::Name(name) => is_name_of(source, name, token),
        Closing::Keyword(word) => is_same_word(text(source, token), text(source, word)),
    }
}

/// Whether a statement of a macro or a pin begins so.
pub fn is_statement(look: Look) -> bool
    ensures { result ≡ looks.is_statement look }
{
    !matches!(look, Look::End | Look::Barred | Look::Over)
}

/// Whether this is `END`.
pub fn is_end(look: Look) -> bool
    ensures { result ≡ looks.is_end look }
{
    matches!(look, Look::End)
}

impl<'a> Tokens<'a> {
    /// Stands before the first token of the text.
    #[tactic(auto, using(crate::proofs::OverTokens::begins))]
    pub fn new(text: &'a [u8]) -> Tokens<'a>
        ensures { rest result ≡ tokens_of styles.Lef text.now }
    {
        let mut cursor = Cursor::new(text, Style::Lef);
        let ahead = cursor.next_token();
        Tokens { cursor, ahead }
    }

    /// Goes on to the next token.
    #[tactic(auto, using(crate::proofs::OverTokens::shifted))]
    pub fn shift(&mut self)
        requires { left.is_end self.old.ahead.kind ≡ false }
        ensures { rest self.old ≡ self.old.ahead ∷ rest self.new }
    {
        self.ahead = self.cursor.next_token();
    }

    /// Whether the token ahead looks so.
    pub fn look(&self, source: &[u8]) -> Look
        ensures { result ≡ looks.look_of source.now self.now.ahead }
    {
        look_of(source, self.ahead)
    }

    /// Passes over words and strings up to a stopping word, and answers from the first of them to the last.
    #[tactic(auto, using(crate::proofs::OverTokens::passed_on, crate::proofs::OverTokens::passed_stop, crate::proofs::OverTokens::passed_end, crate::proofs::OverTokens::passed_goes))]
    pub fn extent(&mut self, source: &[u8], until: Until) -> Result<Option<Extent>, Halt>
        ensures { Passes result (spec.passed source.now until None (rest self.old)) (rest self.new) }
    {
        let mut extent = None;
        'words: while is_passed(self.ahead) {
            let token = self.ahead;
            self.shift();
            if stops(source, until, token) {
                return Ok(extent);
            }
            extent = extended(extent, token);
        }
        Err(Halt::Syntax)
    }

    /// Passes over words and strings up to a stopping word.
    pub fn pass(&mut self, source: &[u8], until: Until) -> Result<(), Halt>
        ensures { IsBehind result (spec.dropped (spec.passed source.now until None (rest self.old))) (rest self.new) }
    {
        match self.extent(source, until) {
            Ok(_) => Ok(()),
            Err(halt) => Err(halt),
        }
    }

    /// Passes over a statement.
    #[tactic(auto, unfolding(crate::specs::Passing::past_statement))]
    pub fn statement(&mut self, source: &[u8]) -> Result<(), Halt>
        requires { left.is_end self.old.ahead.kind ≡ false }
        ensures { IsBehind result (spec.past_statement source.now (rest self.old)) (rest self.new) }
    {
        let first = self.ahead;
        self.shift();
        if stops(source, Until::Semicolon, first) {
            return Ok(());
        }
        self.pass(source, Until::Semicolon)
    }

    /// Passes over a semicolon.
    #[tactic(auto, unfolding(crate::specs::Passing::past_semicolon), using(crate::proofs::OverTokens::stops_goes))]
    pub fn semicolon(&mut self, source: &[u8]) -> Result<(), Halt>
        ensures { IsBehind result (spec.past_semicolon source.now (rest self.old)) (rest self.new) }
    {
        if !stops(source, Until::Semicolon, self.ahead) {
            return Err(Halt::Syntax);
        }
        self.shift();
        Ok(())
    }

    /// Passes over the name behind an `END`; a word that isn't the name is refused.
    #[tactic(auto, using(crate::proofs::OverTokens::passed_goes))]
    pub fn end_name(&mut self, source: &[u8], name: Token) -> Result<(), Halt>
        ensures { EndsName source.now name result (rest self.old) (rest self.new) }
    {
        if !is_passed(self.ahead) {
            return Err(Halt::Syntax);
        }
        if !is_name_of(source, name, self.ahead) {
            return Err(Halt::Refused(Refusal::OtherEnd));
        }
        self.shift();
        Ok(())
    }

    /// Passes over words and strings up to the first `END` and the word that closes; whether `END` stands right before
    /// is told.
    #[tactic(auto, using(crate::proofs::OverTokens::behind_on, crate::proofs::OverTokens::behind_stop, crate::proofs::OverTokens::behind_end, crate::proofs::OverTokens::passed_goes))]
    pub fn behind(&mut self, source: &[u8], closing: Closing, after_end: bool) -> Result<(), Halt>
        ensures { IsBehind result (spec.behind source.now closing after_end (rest self.old)) (rest self.new) }
    {
        let mut ended = after_end;
        'words: while is_passed(self.ahead) {
            let token = self.ahead;
            self.shift();
            if ended && closes(source, closing, token) {
                return Ok(());
            }
            ended = is_end(look_of(source, token));
        }
        Err(Halt::Syntax)
    }
}
