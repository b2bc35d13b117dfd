//! Reads macros.
ghost use Rattle.std.specs.Prelude.{◌≡◌, true};
ghost use Rattle.grammar.specs.Rule.{many};
ghost use Rattle.grammar.specs.Reading.{read};
ghost use Rattle.lef_tokens.specs.Looks as looks;
ghost use Rattle.lef_reader.specs.MacroActions.{no_macro};
ghost use Rattle.lef_reader.specs.MacroGrammar as grammar;
ghost use Rattle.lef_reader.specs.Steps.{rest, Gives};
ghost use Rattle.lef_tokens.specs.declared.look.Look.TheVariants as look_of;
ghost use Rattle.lef_reader.specs.declared.macro_text.MacroText.{MacroText as MacroData};

use crate::halt::Halt;
use crate::macro_text::MacroText;
use crate::passing::{is_end, is_statement};
use crate::pins::no_pin;
use crate::tokens::Tokens;
use crate::until::Until;
use lef_tokens::Look;
use name_index::Names;
use std::alloc::Global;
use text_scan::{Items, Limits, Text, Token};

impl Tokens<'_> {
    // Reads `END` and the macro's name.
    fn macro_end(&mut self, source: &[u8], name: Token) -> Result<(), Halt>
        requires { looks.look_of source.now self.old.ahead ≡ look_of.End }
        ensures { (m : MacroData) → Gives result (read (grammar.macro_end source.now name) m (rest self.old)) m (rest self.new) }
    {
        self.shift();
        self.end_name(source, name)
    }
}

impl MacroText {
    pub fn new(alloc: Global) -> MacroText
        ensures { result ≡ no_macro }
    {
        MacroText {
            names: Names::new(alloc),
            pins: Items::new(alloc),
            size: None,
            pin: no_pin(alloc, Text::from_vec(Vec::new(alloc))),
            port: None,
        }
    }

    fn size(&mut self, source: &[u8], tokens: &mut Tokens<'_>) -> Result<(), Halt>
        requires { looks.look_of source.now tokens.old.ahead ≡ look_of.Size }
        ensures { Gives result (read (grammar.size source.now) self.old (rest tokens.old)) self.new (rest tokens.new) }
    {
        tokens.shift();
        match tokens.extent(source, Until::Semicolon) {
            Err(halt) => Err(halt),
            Ok(extent) => {
                self.size = extent;
                Ok(())
            }
        }
    }

    fn item(
        &mut self,
        alloc: Global,
        source: &[u8],
        limits: &Limits,
        tokens: &mut Tokens<'_>,
    ) -> Result<(), Halt>
        requires { looks.is_statement (looks.look_of source.now tokens.old.ahead) ≡ true }
        ensures { Gives result (read (grammar.item source.now limits.now) self.old (rest tokens.old)) self.new (rest tokens.new) }
    {
        match tokens.look(source) {
            Look::Pin => self.pin(alloc, source, limits, tokens),
            Look::Shapes => {
                tokens.shift();
                tokens.pass(source, Until::End)
            }
            Look::Size => self.size(source, tokens),
            _ => tokens.statement(source),
        }
    }

    fn items(
        &mut self,
        alloc: Global,
        source: &[u8],
        limits: &Limits,
        tokens: &mut Tokens<'_>,
    ) -> Result<(), Halt>
        ensures { Gives result (read (many (grammar.item source.now limits.now)) self.old (rest tokens.old)) self.new (rest tokens.new) }
    {
        'items: while is_statement(tokens.look(source)) {
            if let Err(halt) = self.item(alloc, source, limits, tokens) {
                return Err(halt);
            }
        }
        Ok(())
    }

    /// Reads a macro behind its name.
    pub fn body(
        &mut self,
        alloc: Global,
        source: &[u8],
        limits: &Limits,
        name: Token,
        tokens: &mut Tokens<'_>,
    ) -> Result<(), Halt>
        ensures { Gives result (read (grammar.macro_body source.now limits.now name) self.old (rest tokens.old)) self.new (rest tokens.new) }
    {
        if let Err(halt) = self.items(alloc, source, limits, tokens) {
            return Err(halt);
        }
        if !is_end(tokens.look(source)) {
            return Err(Halt::Syntax);
        }
        tokens.macro_end(source, name)
    }
}
