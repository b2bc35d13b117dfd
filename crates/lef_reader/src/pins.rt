//! Reads pins.
ghost use Rattle.std.specs.Prelude.{◌≡◌, OnOk, true, List, []};
ghost use Rattle.grammar.specs.Rule.{many};
ghost use Rattle.grammar.specs.Reading.{read};
ghost use Rattle.lef_tokens.specs.Looks as looks;
ghost use Rattle.lef_reader.specs.MacroActions as spec;
ghost use Rattle.lef_reader.specs.MacroGrammar as grammar;
ghost use Rattle.lef_reader.specs.Steps.{rest, Does, Gives};
ghost use Rattle.lef_tokens.specs.declared.look.Look.TheVariants as look_of;
ghost use Rattle.lef_reader.specs.declared.macro_text.MacroText.{MacroText as MacroData};

use crate::halt::{Halt, Refusal};
use crate::macro_text::MacroText;
use crate::passing::{is_end, is_statement, kept_text};
use crate::tokens::Tokens;
use crate::until::Until;
use file_rules::is_too_long;
use lef_source::MacroPin;
use lef_tokens::{Look, can_name, text};
use std::alloc::Global;
use std::mem;
use text_scan::{Direction, Items, Limits, NoMemory, PinKind, Text, Token};

fn is_direction_word(look: Look) -> bool
    ensures { result ≡ looks.is_direction_word look }
{
    matches!(
        look,
        Look::Input | Look::Output | Look::Inout | Look::Feedthru
    )
}

fn is_output(look: Look) -> bool
    ensures { result ≡ looks.is_output look }
{
    matches!(look, Look::Output)
}

fn is_tristate(look: Look) -> bool
    ensures { result ≡ looks.is_tristate look }
{
    matches!(look, Look::Tristate)
}

fn direction_of(look: Look) -> Direction
    ensures { result ≡ spec.direction_of look }
{
    match look {
        Look::Output => Direction::Output,
        Look::Inout => Direction::Inout,
        Look::Feedthru => Direction::Feedthru,
        _ => Direction::Input,
    }
}

fn is_use_word(look: Look) -> bool
    ensures { result ≡ looks.is_use_word look }
{
    matches!(look, Look::Signal | Look::Power | Look::Ground)
}

fn kind_of(look: Look) -> PinKind
    ensures { result ≡ spec.kind_of look }
{
    match look {
        Look::Power => PinKind::Power,
        Look::Ground => PinKind::Ground,
        _ => PinKind::Signal,
    }
}

/// A pin without statements.
pub fn no_pin(alloc: Global, name: Text) -> MacroPin
    ensures { result ≡ spec.no_pin name }
{
    MacroPin {
        name,
        direction: Direction::Input,
        kind: PinKind::Signal,
        ports: Items::new(alloc),
    }
}

impl Tokens<'_> {
    // The end of a direction, which may be TRISTATE behind OUTPUT.
    fn direction_end(&mut self, source: &[u8], output: bool) -> Result<(), Halt>
        ensures { (m : MacroData) → Gives result (read (grammar.direction_end source.now output) m (rest self.old)) m (rest self.new) }
    {
        if output && is_tristate(self.look(source)) {
            self.shift();
            return self.semicolon(source);
        }
        self.semicolon(source)
    }
}

impl MacroText {
    fn direction(&mut self, source: &[u8], tokens: &mut Tokens<'_>) -> Result<(), Halt>
        requires { looks.look_of source.now tokens.old.ahead ≡ look_of.Direction }
        ensures { Gives result (read (grammar.direction source.now) self.old (rest tokens.old)) self.new (rest tokens.new) }
    {
        tokens.shift();
        let look = tokens.look(source);
        if !is_direction_word(look) {
            return Err(Halt::Syntax);
        }
        let direction = direction_of(look);
        self.pin.direction = direction;
        tokens.shift();
        tokens.direction_end(source, is_output(look))
    }

    fn use_statement(&mut self, source: &[u8], tokens: &mut Tokens<'_>) -> Result<(), Halt>
        requires { looks.look_of source.now tokens.old.ahead ≡ look_of.Use }
        ensures { Gives result (read (grammar.use_statement source.now) self.old (rest tokens.old)) self.new (rest tokens.new) }
    {
        tokens.shift();
        let look = tokens.look(source);
        if !is_use_word(look) {
            return Err(Halt::Syntax);
        }
        self.pin.kind = kind_of(look);
        tokens.shift();
        tokens.semicolon(source)
    }

    // Keeps the port that was read.
    fn end_port(&mut self, alloc: Global, source: &[u8]) -> Result<(), NoMemory>
        ensures { OnOk result (self.new ≡ spec.with_port source.now self.old) }
    {
        let port = kept_text(alloc, source, self.port)?;
        self.pin.ports.push(port)?;
        self.port = None;
        Ok(())
    }

    fn port(&mut self, alloc: Global, source: &[u8], tokens: &mut Tokens<'_>) -> Result<(), Halt>
        requires { looks.look_of source.now tokens.old.ahead ≡ look_of.Port }
        ensures { Gives result (read (grammar.port source.now) self.old (rest tokens.old)) self.new (rest tokens.new) }
    {
        tokens.shift();
        match tokens.extent(source, Until::End) {
            Err(halt) => return Err(halt),
            Ok(extent) => self.port = extent,
        }
        self.end_port(alloc, source)?;
        Ok(())
    }

    fn pin_item(
        &mut self,
        alloc: Global,
        source: &[u8],
        tokens: &mut Tokens<'_>,
    ) -> Result<(), Halt>
        requires { looks.is_statement (looks.look_of source.now tokens.old.ahead) ≡ true }
        ensures { Gives result (read (grammar.pin_item source.now) self.old (rest tokens.old)) self.new (rest tokens.new) }
    {
        match tokens.look(source) {
            Look::Direction => self.direction(source, tokens),
            Look::Use => self.use_statement(source, tokens),
            Look::Port => self.port(alloc, source, tokens),
            _ => tokens.statement(source),
        }
    }

    fn pin_items(
        &mut self,
        alloc: Global,
        source: &[u8],
        tokens: &mut Tokens<'_>,
    ) -> Result<(), Halt>
        ensures { Gives result (read (many (grammar.pin_item source.now)) self.old (rest tokens.old)) self.new (rest tokens.new) }
    {
        'items: while is_statement(tokens.look(source)) {
            if let Err(halt) = self.pin_item(alloc, source, tokens) {
                return Err(halt);
            }
        }
        Ok(())
    }

    // Keeps the pin that was read.
    fn add_pin(&mut self, alloc: Global) -> Result<(), NoMemory>
        ensures { OnOk result (self.new ≡ spec.with_pin self.old) }
    {
        let none = no_pin(alloc, Text::from_vec(Vec::new(alloc)));
        let pin = mem::replace(&mut self.pin, none);
        self.pins.push(pin)
    }

    fn pin_end(
        &mut self,
        alloc: Global,
        source: &[u8],
        name: Token,
        tokens: &mut Tokens<'_>,
    ) -> Result<(), Halt>
        requires { looks.look_of source.now tokens.old.ahead ≡ look_of.End }
        ensures { Gives result (read (grammar.pin_end source.now name) self.old (rest tokens.old)) self.new (rest tokens.new) }
    {
        tokens.shift();
        if let Err(halt) = tokens.end_name(source, name) {
            return Err(halt);
        }
        self.add_pin(alloc)?;
        Ok(())
    }

    // Reads a pin behind its name.
    fn pin_body(
        &mut self,
        alloc: Global,
        source: &[u8],
        name: Token,
        tokens: &mut Tokens<'_>,
    ) -> Result<(), Halt>
        ensures { Gives result (read (grammar.pin_body source.now name) self.old (rest tokens.old)) self.new (rest tokens.new) }
    {
        if let Err(halt) = self.pin_items(alloc, source, tokens) {
            return Err(halt);
        }
        if !is_end(tokens.look(source)) {
            return Err(Halt::Syntax);
        }
        self.pin_end(alloc, source, name, tokens)
    }

    // Begins a pin of this name.
    #[tactic(auto, unfolding(crate::specs::MacroActions::name_pin))]
    fn name_pin(
        &mut self,
        alloc: Global,
        source: &[u8],
        limits: &Limits,
        token: Token,
    ) -> Result<(), Halt>
        ensures { Does result self.new (spec.name_pin source.now limits.now token self.old) }
    {
        let name = text(source, token);
        if is_too_long(limits, name) {
            return Err(Halt::Refused(Refusal::LongName));
        }
        if self.names.contains(name) {
            return Err(Halt::Refused(Refusal::DoubleName));
        }
        let pin = no_pin(alloc, Text::from_bytes(alloc, name)?);
        self.names.push(alloc, name)?;
        self.pin = pin;
        Ok(())
    }

    /// Reads a pin.
    pub fn pin(
        &mut self,
        alloc: Global,
        source: &[u8],
        limits: &Limits,
        tokens: &mut Tokens<'_>,
    ) -> Result<(), Halt>
        requires { looks.look_of source.now tokens.old.ahead ≡ look_of.Pin }
        ensures { Gives result (read (grammar.pin source.now limits.now) self.old (rest tokens.old)) self.new (rest tokens.new) }
    {
        tokens.shift();
        let name = tokens.ahead;
        if !can_name(source, limits, name) {
            return Err(Halt::Syntax);
        }
        if let Err(halt) = self.name_pin(alloc, source, limits, name) {
            return Err(halt);
        }
        tokens.shift();
        self.pin_body(alloc, source, name, tokens)
    }
}
