//! Reads what stands outside macros.
ghost use Rattle.std.specs.Prelude.{◌≡◌, Ok, true};
ghost use Rattle.grammar.specs.Reading.{read};
ghost use Rattle.lef_tokens.specs.Looks as looks;
ghost use Rattle.lef_reader.specs.OutsideGrammar as grammar;
ghost use Rattle.lef_reader.specs.Steps.{rest, Finds};
ghost use Rattle.lef_tokens.specs.declared.look.Look.TheVariants as look_of;
ghost use Rattle.lef_reader.specs.declared.until.Opened.TheVariants as openings;

use crate::halt::{Halt, Refusal};
use crate::lef_text::LefText;
use crate::tokens::Tokens;
use crate::until::{Closing, Opened, Until};
use file_rules::is_too_long;
use lef_tokens::{Look, can_name, is_passed, text};
use text_scan::Limits;

fn is_library(look: Look) -> bool
    ensures { result ≡ looks.is_library look }
{
    matches!(look, Look::Library)
}

impl Tokens<'_> {
    fn plain(&mut self, source: &[u8]) -> Result<Opened, Halt>
        requires { looks.is_plain (looks.look_of source.now self.old.ahead) ≡ true }
        ensures { Finds result (read (grammar.statement source.now) openings.End (rest self.old)) (rest self.new) }
    {
        match self.statement(source) {
            Err(halt) => Err(halt),
            Ok(()) => Ok(Opened::Nothing),
        }
    }

    fn extension(&mut self, source: &[u8]) -> Result<Opened, Halt>
        requires { looks.look_of source.now self.old.ahead ≡ look_of.Extension }
        ensures { Finds result (read (grammar.extension source.now) openings.End (rest self.old)) (rest self.new) }
    {
        self.shift();
        match self.pass(source, Until::EndExt) {
            Err(halt) => Err(halt),
            Ok(()) => Ok(Opened::Nothing),
        }
    }

    fn block(&mut self, source: &[u8]) -> Opened
        requires { looks.look_of source.now self.old.ahead ≡ look_of.Block }
        ensures { read (grammar.block source.now) openings.End (rest self.old) ≡ Ok (result, rest self.new) }
    {
        let word = self.ahead;
        self.shift();
        Opened::Section(Closing::Keyword(word))
    }

    fn ending(&mut self, source: &[u8]) -> Result<Opened, Halt>
        requires { looks.look_of source.now self.old.ahead ≡ look_of.End }
        ensures { Finds result (read (grammar.ending source.now) openings.End (rest self.old)) (rest self.new) }
    {
        self.shift();
        if is_library(self.look(source)) {
            self.shift();
            return Ok(Opened::End);
        }
        if !is_passed(self.ahead) {
            return Err(Halt::Syntax);
        }
        match self.statement(source) {
            Err(halt) => Err(halt),
            Ok(()) => Ok(Opened::Nothing),
        }
    }

    fn section(&mut self, source: &[u8], limits: &Limits) -> Result<Opened, Halt>
        requires { looks.look_of source.now self.old.ahead ≡ look_of.Section }
        ensures { Finds result (read (grammar.section source.now limits.now) openings.End (rest self.old)) (rest self.new) }
    {
        self.shift();
        if can_name(source, limits, self.ahead) {
            return self.section_name(source, limits);
        }
        if !is_passed(self.ahead) {
            return Err(Halt::Syntax);
        }
        match self.statement(source) {
            Err(halt) => Err(halt),
            Ok(()) => Ok(Opened::Nothing),
        }
    }

    fn section_name(&mut self, source: &[u8], limits: &Limits) -> Result<Opened, Halt>
        requires { looks.can_name source.now limits.now self.old.ahead ≡ true }
        ensures { Finds result (read (grammar.section_rest source.now limits.now) openings.Nothing (rest self.old)) (rest self.new) }
    {
        let name = self.ahead;
        if is_too_long(limits, text(source, name)) {
            return Err(Halt::Refused(Refusal::LongName));
        }
        self.shift();
        Ok(Opened::Section(Closing::Name(name)))
    }

    fn title(&mut self, source: &[u8], limits: &Limits, lef: &LefText) -> Result<Opened, Halt>
        requires { looks.look_of source.now self.old.ahead ≡ look_of.Macro }
        ensures { Finds result (read (grammar.title source.now limits.now lef.now) openings.End (rest self.old)) (rest self.new) }
    {
        if (limits.cells as usize) <= lef.macros.len() {
            return Err(Halt::Refused(Refusal::TooManyMacros));
        }
        self.shift();
        if !can_name(source, limits, self.ahead) {
            return Err(Halt::Syntax);
        }
        self.macro_name(source, limits, lef)
    }

    fn macro_name(&mut self, source: &[u8], limits: &Limits, lef: &LefText) -> Result<Opened, Halt>
        requires { looks.can_name source.now limits.now self.old.ahead ≡ true }
        ensures { Finds result (read (grammar.macro_name source.now limits.now lef.now) openings.End (rest self.old)) (rest self.new) }
    {
        let name = self.ahead;
        if is_too_long(limits, text(source, name)) {
            return Err(Halt::Refused(Refusal::LongName));
        }
        if lef.names.contains(text(source, name)) {
            return Err(Halt::Refused(Refusal::DoubleName));
        }
        self.shift();
        Ok(Opened::Macro(name))
    }

    /// Reads what stands outside macros, up to its end or to a word behind which more is passed over, or a macro's title;
    /// nothing at the end of the text.
    pub fn outside(&mut self, source: &[u8], limits: &Limits, lef: &LefText) -> Result<Opened, Halt>
        ensures { Finds result (read (grammar.outside source.now limits.now lef.now) openings.End (rest self.old)) (rest self.new) }
    {
        match self.look(source) {
            Look::Macro => self.title(source, limits, lef),
            Look::Section => self.section(source, limits),
            Look::Block => Ok(self.block(source)),
            Look::Extension => self.extension(source),
            Look::End => self.ending(source),
            Look::Barred => Err(Halt::Syntax),
            Look::Over => Ok(Opened::End),
            _ => self.plain(source),
        }
    }
}
