//! What a token changes in the state of a reader.
ghost use Rattle.std.specs.Prelude.{◌≡◌, ◌≤◌, ◌<◌, ◌+◌, ◌-◌, ◌^◌, ◌&&◌, OnOk};
ghost use Rattle.liberty_statements.specs.Steps as spec;
ghost use Rattle.liberty_tokens.specs.Looks as looks;
ghost use Rattle.liberty_tokens.specs.Words as words;
ghost use Rattle.liberty_statements.specs.Actions as actions;
ghost use Rattle.liberty_statements.specs.declared.machine.Phase.TheVariants as phases;
ghost use Rattle.liberty_statements.specs.Does.{Leads};
ghost use Rattle.liberty_statements.specs.Bounds.{IsBounded};

use crate::halt::{Halt, Refusal};
use crate::machine::{Machine, Phase};
use liberty_tokens::{Look, is_include, is_library, look_of, text};
use std::alloc::Global;
use text_scan::{LimitKind, Limits, Token};

fn is_title(source: &[u8], token: Token, look: Look) -> bool
    ensures { result ≡ (looks.is_word look && words.is_library (looks.text source.now token)) }
{
    matches!(look, Look::Word) && is_library(text(source, token))
}

impl Machine {
    fn go_to(&mut self, phase: Phase)
        ensures does { self.new ≡ spec.to_phase phase self.old }
        ensures bounded { IsBounded self.old → IsBounded self.new }
    {
        self.phase = phase;
    }

    fn in_title(&mut self, is_title: bool) -> Result<(), Halt>
        requires bounded { IsBounded self.old }
        ensures leads { Leads result self.new (spec.in_title is_title self.old) }
        ensures bounded { OnOk result (IsBounded self.new) }
    {
        if !is_title {
            return Err(Halt::Syntax);
        }
        self.go_to(Phase::TitleWord);
        Ok(())
    }

    fn in_title_word(&mut self, look: Look) -> Result<(), Halt>
        requires bounded { IsBounded self.old }
        ensures leads { Leads result self.new (spec.in_title_word look self.old) }
        ensures bounded { OnOk result (IsBounded self.new) }
    {
        match look {
            Look::OpenParen => {
                self.go_to(Phase::TitleOpen);
                Ok(())
            }
            _ => Err(Halt::Syntax),
        }
    }

    fn in_title_open(
        &mut self,
        alloc: Global,
        source: &[u8],
        limits: &Limits,
        token: Token,
        look: Look,
    ) -> Result<(), Halt>
        requires bounded { IsBounded self.old }
        ensures leads { Leads result self.new (spec.in_title_open source.now limits.now token look self.old) }
        ensures bounded { OnOk result (IsBounded self.new) }
    {
        match look {
            Look::Word | Look::Str => {
                self.statements.name_library(alloc, source, limits, token)?;
                self.phase = Phase::TitleName;
                Ok(())
            }
            _ => Err(Halt::Syntax),
        }
    }

    fn in_title_name(&mut self, look: Look) -> Result<(), Halt>
        requires bounded { IsBounded self.old }
        ensures leads { Leads result self.new (spec.in_title_name look self.old) }
        ensures bounded { OnOk result (IsBounded self.new) }
    {
        match look {
            Look::CloseParen => {
                self.go_to(Phase::TitleClosed);
                Ok(())
            }
            _ => Err(Halt::Syntax),
        }
    }

    // One group deeper.
    fn deepen(&mut self)
        requires bounded { IsBounded self.old }
        requires room { 0 < self.old.room }
        ensures does { self.new ≡ spec.deeper self.old }
    {
        self.phase = Phase::Statement;
        self.depth += 1;
        self.room -= 1;
    }

    #[tactic(auto, unfolding(crate::specs::Actions::open_library), using(crate::proofs::Groups::nested_none, crate::proofs::Groups::nested_some))]
    fn in_title_closed(&mut self, token: Token, look: Look) -> Result<(), Halt>
        requires bounded { IsBounded self.old }
        ensures leads { Leads result self.new (spec.in_title_closed token look self.old) }
        ensures bounded { OnOk result (IsBounded self.new) }
    {
        match look {
            Look::OpenBrace => {
                if self.room == 0 {
                    return Err(Halt::Refused(Refusal::TooMany(LimitKind::Nesting)));
                }
                self.deepen();
                Ok(())
            }
            _ => Err(Halt::Syntax),
        }
    }

    // A brace ends the innermost group.
    #[tactic(auto, unfolding(crate::specs::Steps::in_closing))]
    fn in_closing(&mut self, alloc: Global, source: &[u8]) -> Result<(), Halt>
        requires bounded { IsBounded self.old }
        ensures leads { Leads result self.new (spec.in_closing source.now self.old) }
        ensures bounded { OnOk result (IsBounded self.new) }
    {
        self.statements.settle(source)?;
        if self.depth <= 1 {
            self.phase = Phase::Library;
            return Ok(());
        }
        self.statements.leave(alloc)?;
        self.phase = Phase::Statement;
        self.depth -= 1;
        self.room += 1;
        Ok(())
    }

    fn in_statement(
        &mut self,
        alloc: Global,
        source: &[u8],
        token: Token,
        look: Look,
    ) -> Result<(), Halt>
        requires bounded { IsBounded self.old }
        ensures leads { Leads result self.new (spec.in_statement source.now token look self.old) }
        ensures bounded { OnOk result (IsBounded self.new) }
    {
        match look {
            Look::Semicolon => {
                self.go_to(Phase::Statement);
                Ok(())
            }
            Look::Word => {
                self.statements.begin_statement(alloc, token);
                self.phase = Phase::Word;
                Ok(())
            }
            Look::CloseBrace => self.in_closing(alloc, source),
            _ => Err(Halt::Syntax),
        }
    }

    fn in_word(&mut self, look: Look) -> Result<(), Halt>
        requires bounded { IsBounded self.old }
        ensures leads { Leads result self.new (spec.in_word look self.old) }
        ensures bounded { OnOk result (IsBounded self.new) }
    {
        match look {
            Look::Colon => {
                self.go_to(Phase::Value);
                Ok(())
            }
            Look::OpenParen => {
                self.go_to(Phase::Open);
                Ok(())
            }
            _ => Err(Halt::Syntax),
        }
    }

    #[tactic(auto, unfolding(crate::specs::Actions::settle))]
    fn end_value(&mut self, source: &[u8], token: Token) -> Result<(), Halt>
        requires bounded { IsBounded self.old }
        ensures leads { Leads result self.new (spec.moved phases.Statement self.old (actions.settle source.now token self.old.statements)) }
        ensures bounded { OnOk result (IsBounded self.new) }
    {
        self.statements.settle(source)?;
        self.phase = Phase::Statement;
        Ok(())
    }

    fn in_value(
        &mut self,
        alloc: Global,
        source: &[u8],
        limits: &Limits,
        token: Token,
        look: Look,
    ) -> Result<(), Halt>
        requires bounded { IsBounded self.old }
        ensures leads { Leads result self.new (spec.in_value source.now limits.now token look self.old) }
        ensures bounded { OnOk result (IsBounded self.new) }
    {
        match look {
            Look::Semicolon | Look::LineEnd => self.end_value(source, token),
            Look::CloseBrace => self.in_closing(alloc, source),
            Look::Word | Look::Str | Look::OpenParen | Look::CloseParen | Look::Comma => {
                self.statements.add_value(alloc, source, limits, token)?;
                self.phase = Phase::Value;
                Ok(())
            }
            _ => Err(Halt::Syntax),
        }
    }

    fn add_arg(&mut self, arg: Token) -> Result<(), Halt>
        requires bounded { IsBounded self.old }
        ensures leads { Leads result self.new (spec.moved phases.Arg self.old (actions.add_arg arg self.old.statements)) }
        ensures bounded { OnOk result (IsBounded self.new) }
    {
        self.statements.add_arg(arg)?;
        self.phase = Phase::Arg;
        Ok(())
    }

    fn in_open(&mut self, token: Token, look: Look) -> Result<(), Halt>
        requires bounded { IsBounded self.old }
        ensures leads { Leads result self.new (spec.in_open token look self.old) }
        ensures bounded { OnOk result (IsBounded self.new) }
    {
        match look {
            Look::Word | Look::Str => self.add_arg(token),
            Look::CloseParen => {
                self.go_to(Phase::Closed);
                Ok(())
            }
            _ => Err(Halt::Syntax),
        }
    }

    fn in_arg(&mut self, token: Token, look: Look) -> Result<(), Halt>
        requires bounded { IsBounded self.old }
        ensures leads { Leads result self.new (spec.in_arg token look self.old) }
        ensures bounded { OnOk result (IsBounded self.new) }
    {
        match look {
            Look::Word | Look::Str => self.add_arg(token),
            Look::Comma => {
                self.go_to(Phase::Comma);
                Ok(())
            }
            Look::CloseParen => {
                self.go_to(Phase::Closed);
                Ok(())
            }
            _ => Err(Halt::Syntax),
        }
    }

    fn in_comma(&mut self, token: Token, look: Look) -> Result<(), Halt>
        requires bounded { IsBounded self.old }
        ensures leads { Leads result self.new (spec.in_comma token look self.old) }
        ensures bounded { OnOk result (IsBounded self.new) }
    {
        match look {
            Look::Word | Look::Str => self.add_arg(token),
            _ => Err(Halt::Syntax),
        }
    }

    fn open_group(
        &mut self,
        alloc: Global,
        source: &[u8],
        limits: &Limits,
        token: Token,
    ) -> Result<(), Halt>
        requires bounded { IsBounded self.old }
        ensures leads { Leads result self.new (spec.deepened self.old (actions.enter source.now limits.now self.old.room token self.old.statements)) }
        ensures bounded { OnOk result (IsBounded self.new) }
    {
        let room = self.room;
        self.statements.enter(alloc, source, limits, room, token)?;
        self.phase = Phase::Statement;
        self.depth += 1;
        self.room -= 1;
        Ok(())
    }

    fn in_closed(
        &mut self,
        alloc: Global,
        source: &[u8],
        limits: &Limits,
        token: Token,
        look: Look,
    ) -> Result<(), Halt>
        requires bounded { IsBounded self.old }
        ensures leads { Leads result self.new (spec.in_closed source.now limits.now token look self.old) }
        ensures bounded { OnOk result (IsBounded self.new) }
    {
        match look {
            Look::OpenBrace => self.open_group(alloc, source, limits, token),
            _ => {
                if is_include(text(source, self.statements.word)) {
                    return Err(Halt::Syntax);
                }
                self.in_statement(alloc, source, token, look)
            }
        }
    }

    fn in_library(&mut self, look: Look) -> Result<(), Halt>
        requires bounded { IsBounded self.old }
        ensures leads { Leads result self.new (spec.in_library look self.old) }
        ensures bounded { OnOk result (IsBounded self.new) }
    {
        match look {
            Look::Semicolon => {
                self.go_to(Phase::Semicolon);
                Ok(())
            }
            Look::End => {
                self.go_to(Phase::File);
                Ok(())
            }
            _ => Err(Halt::Syntax),
        }
    }

    fn in_semicolon(&mut self, look: Look) -> Result<(), Halt>
        requires bounded { IsBounded self.old }
        ensures leads { Leads result self.new (spec.in_semicolon look self.old) }
        ensures bounded { OnOk result (IsBounded self.new) }
    {
        match look {
            Look::End => {
                self.go_to(Phase::File);
                Ok(())
            }
            _ => Err(Halt::Syntax),
        }
    }

    // The steps of the library's title.
    #[tactic(auto, unfolding(crate::specs::Steps::step))]
    fn step_title(
        &mut self,
        alloc: Global,
        source: &[u8],
        limits: &Limits,
        token: Token,
        look: Look,
    ) -> Result<(), Halt>
        requires bounded { IsBounded self.old }
        ensures leads { Leads result self.new (spec.in_titles source.now limits.now token look self.old.phase self.old) }
        ensures bounded { OnOk result (IsBounded self.new) }
    {
        match self.phase {
            Phase::Title => self.in_title(is_title(source, token, look)),
            Phase::TitleWord => self.in_title_word(look),
            Phase::TitleOpen => self.in_title_open(alloc, source, limits, token, look),
            Phase::TitleName => self.in_title_name(look),
            Phase::TitleClosed => self.in_title_closed(token, look),
            _ => Err(Halt::Syntax),
        }
    }

    fn step_args(
        &mut self,
        alloc: Global,
        source: &[u8],
        limits: &Limits,
        token: Token,
        look: Look,
    ) -> Result<(), Halt>
        requires bounded { IsBounded self.old }
        ensures leads { Leads result self.new (spec.in_args source.now limits.now token look self.old.phase self.old) }
        ensures bounded { OnOk result (IsBounded self.new) }
    {
        match self.phase {
            Phase::Word => self.in_word(look),
            Phase::Open => self.in_open(token, look),
            Phase::Arg => self.in_arg(token, look),
            Phase::Comma => self.in_comma(token, look),
            Phase::Closed => self.in_closed(alloc, source, limits, token, look),
            _ => self.step_title(alloc, source, limits, token, look),
        }
    }

    #[tactic(auto, unfolding(crate::specs::Steps::step))]
    fn step(
        &mut self,
        alloc: Global,
        source: &[u8],
        limits: &Limits,
        token: Token,
        look: Look,
    ) -> Result<(), Halt>
        requires bounded { IsBounded self.old }
        ensures leads { Leads result self.new (spec.step source.now limits.now token look self.old.phase self.old) }
        ensures bounded { OnOk result (IsBounded self.new) }
    {
        match self.phase {
            Phase::Statement => self.in_statement(alloc, source, token, look),
            Phase::Value => self.in_value(alloc, source, limits, token, look),
            Phase::Library => self.in_library(look),
            Phase::Semicolon => self.in_semicolon(look),
            _ => self.step_args(alloc, source, limits, token, look),
        }
    }

    /// Takes the next token of the source, but for a line's end that is a blank.
    #[tactic(auto, unfolding(crate::specs::Steps::taken))]
    pub fn take(
        &mut self,
        alloc: Global,
        source: &[u8],
        limits: &Limits,
        token: Token,
    ) -> Result<(), Halt>
        requires bounded { IsBounded self.old }
        ensures leads { Leads result self.new (spec.taken source.now limits.now token self.old) }
        ensures bounded { OnOk result (IsBounded self.new) }
    {
        let look = look_of(source, token);
        if !shows(self.phase, look) {
            return Ok(());
        }
        self.step(alloc, source, limits, token, look)
    }
}

// A line's end is a blank but in a value, which it ends.
fn shows(phase: Phase, look: Look) -> bool
    ensures { result ≡ looks.shows (spec.is_in_value phase) look }
{
    matches!(phase, Phase::Value) || !matches!(look, Look::LineEnd)
}
