//! What macros add to a file, whole ones and refused ones.
ghost use Rattle.std.specs.Prelude.{◌≡◌, ◌∷◌, [], OnOk, IfOk, Option};
ghost use Rattle.lef_reader.specs.File as spec;
ghost use Rattle.lef_reader.specs.Passing.{kept_size};
ghost use Rattle.lef_reader.specs.MacroActions.{macro_of};
ghost use Rattle.lef_reader.specs.Steps.{rest};
ghost use Rattle.lef_reader.specs.Turning.{Leads};
ghost use Rattle.lef_reader.specs.Passing as passing;
ghost use Rattle.lef_reader.specs.declared.lef_text.LefText.{LefText as LefData};
ghost use Rattle.lef_reader.specs.declared.until.Closing.TheVariants as closings;
ghost use Rattle.file_rules.specs.Told.{Tells};

use crate::extent::Extent;
use crate::halt::Refusal;
use crate::lef_text::LefText;
use crate::macro_text::MacroText;
use crate::passing::is_name_of;
use crate::tokens::Tokens;
use crate::until::Closing;
use file_rules::{at_token, slice, too_many};
use lef_source::{Macro, MacroPart};
use lef_tokens::{is_passed, text, word_of};
use name_index::Names;
use std::alloc::Global;
use text_scan::{FileRefusal, Items, LimitKind, Limits, NoMemory, Text, Token};

fn kept_size(alloc: Global, source: &[u8], extent: Option<Extent>) -> Result<Option<Text>, NoMemory>
    ensures { IfOk result (λ size. size ≡ kept_size source.now extent) }
{
    match extent {
        None => Ok(None),
        Some(Extent { from, to }) => Ok(Some(Text::from_bytes(alloc, slice(source, from, to))?)),
    }
}

fn macro_of(alloc: Global, source: &[u8], name: &[u8], text: MacroText) -> Result<Macro, NoMemory>
    ensures { IfOk result (λ m. m ≡ macro_of source.now name.now text) }
{
    let MacroText {
        names: _,
        pins,
        size,
        pin: _,
        port: _,
    } = text;
    Ok(Macro {
        name: Text::from_bytes(alloc, name)?,
        size: kept_size(alloc, source, size)?,
        pins,
    })
}

// The word behind an `END` that isn't its own.
fn ending_word(alloc: Global, source: &[u8], name: Token, token: Token) -> Result<Text, NoMemory>
    ensures { IfOk result (λ t. t ≡ spec.ending_word source.now name token) }
{
    if is_name_of(source, name, token) {
        Text::from_bytes(alloc, b"end")
    } else {
        word_of(alloc, source, token)
    }
}

fn double_name(alloc: Global, source: &[u8], token: Token) -> FileRefusal
    ensures { Tells result (spec.double_name source.now (token ∷ [])) }
{
    match Text::from_bytes(alloc, text(source, token)) {
        Ok(name) => FileRefusal::DoubleName {
            name,
            line: token.span.line,
        },
        Err(_) => FileRefusal::NoMemory,
    }
}

/// What is told of what an action refuses at a token.
pub fn told_refusal(
    alloc: Global,
    source: &[u8],
    limits: &Limits,
    refusal: Refusal,
    token: Token,
) -> FileRefusal
    ensures { Tells result (spec.told_refusal source.now limits.now refusal (token ∷ [])) }
{
    match refusal {
        Refusal::TooManyMacros => too_many(limits, LimitKind::Cells),
        Refusal::LongName => too_many(limits, LimitKind::Name),
        Refusal::DoubleName => double_name(alloc, source, token),
        Refusal::OtherEnd => at_token(token),
    }
}

impl Tokens<'_> {
    /// Goes on behind the first `END` and the word that closes.
    pub fn go_behind(
        &mut self,
        source: &[u8],
        closing: Closing,
        after_end: bool,
    ) -> Result<(), FileRefusal>
        ensures { (f : LefData) → Leads result (spec.goes_behind f (passing.behind source.now closing after_end (rest self.old))) f (rest self.new) }
    {
        match self.behind(source, closing, after_end) {
            Ok(()) => Ok(()),
            Err(_) => Err(at_token(self.ahead)),
        }
    }
}

impl LefText {
    pub fn new(alloc: Global) -> LefText
        ensures { result ≡ spec.no_lef }
    {
        LefText {
            names: Names::new(alloc),
            macros: Items::new(alloc),
        }
    }

    fn add(&mut self, alloc: Global, name: &[u8], part: MacroPart) -> Result<(), NoMemory>
        ensures { OnOk result (self.new ≡ spec.with_macro name.now part self.old) }
    {
        self.names.push(alloc, name)?;
        self.macros.push(part)
    }

    /// Adds the macro that was read behind this name.
    pub fn add_whole(
        &mut self,
        alloc: Global,
        source: &[u8],
        name: Token,
        body: MacroText,
    ) -> Result<(), NoMemory>
        ensures { OnOk result (self.new ≡ spec.whole source.now name body self.old) }
    {
        let bytes = text(source, name);
        let whole = macro_of(alloc, source, bytes, body)?;
        self.add(alloc, bytes, MacroPart::Whole(whole))
    }

    // Adds the macro of this name as one that is refused at a word.
    fn add_refused(
        &mut self,
        alloc: Global,
        source: &[u8],
        name: Token,
        construct: Text,
        line: u32,
    ) -> Result<(), NoMemory>
        ensures { OnOk result (self.new ≡ spec.refused source.now name construct line self.old) }
    {
        let bytes = text(source, name);
        let part = MacroPart::Refused {
            name: Text::from_bytes(alloc, bytes)?,
            construct,
            line,
        };
        self.add(alloc, bytes, part)
    }

    /// Refuses the macro of this name at the token ahead, and goes on behind it.
    pub fn refuse_at(
        &mut self,
        alloc: Global,
        source: &[u8],
        name: Token,
        tokens: &mut Tokens<'_>,
    ) -> Result<(), FileRefusal>
        ensures { Leads result (spec.refused_at source.now name self.old (rest tokens.old)) self.new (rest tokens.new) }
    {
        let token = tokens.ahead;
        if !is_passed(token) {
            return Err(at_token(token));
        }
        let word = word_of(alloc, source, token)?;
        self.add_refused(alloc, source, name, word, token.span.line)?;
        tokens.go_behind(source, Closing::Name(name), false)
    }

    /// Refuses the macro of this name at the word ahead, which stands behind an `END`, and goes on behind it.
    pub fn refuse_at_end(
        &mut self,
        alloc: Global,
        source: &[u8],
        name: Token,
        tokens: &mut Tokens<'_>,
    ) -> Result<(), FileRefusal>
        ensures { Leads result (spec.refused_at_end source.now name self.old (rest tokens.old)) self.new (rest tokens.new) }
    {
        let token = tokens.ahead;
        let word = ending_word(alloc, source, name, token)?;
        self.add_refused(alloc, source, name, word, token.span.line)?;
        tokens.go_behind(source, Closing::Name(name), true)
    }
}
