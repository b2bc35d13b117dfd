//! What each token of a statement adds.
ghost use Rattle.std.specs.Prelude.{◌≡◌, ◌≤◌, Some, Ok, IfOk, OnOk};
ghost use Rattle.liberty_statements.specs.Actions as spec;
ghost use Rattle.liberty_statements.specs.Does.{Does, nothing, no_token};

use crate::halt::{Halt, Refusal};
use crate::statements::{Attribute, Level, Statements, Value};
use file_rules::is_too_long;
use liberty_tokens::{AttributeKind, GroupKind, attribute_kind, between, content, text};
use name_index::Names;
use std::alloc::Global;
use text_scan::{Items, Kind, LimitKind, Limits, NoMemory, Span, Text, Token};

fn no_token() -> Token
    ensures { result ≡ no_token }
{
    Token {
        kind: Kind::End,
        span: Span {
            line: 0,
            column: 0,
            start: 0,
            end: 0,
        },
    }
}

fn is_pin(kind: GroupKind) -> bool
    ensures { result ≡ spec.is_pin kind }
{
    matches!(kind, GroupKind::Pin)
}

fn is_internal_node(kind: AttributeKind) -> bool
    ensures { result ≡ spec.is_internal_node kind }
{
    matches!(kind, AttributeKind::InternalNode)
}

fn is_other(kind: AttributeKind) -> bool
    ensures { result ≡ spec.is_other kind }
{
    matches!(kind, AttributeKind::Other)
}

fn is_outer(level: Level) -> bool
    ensures { result ≡ spec.is_outer level }
{
    !matches!(level, Level::Group)
}

fn is_group(level: Level) -> bool
    ensures { result ≡ spec.is_group level }
{
    matches!(level, Level::Group)
}

#[tactic(auto, unfolding(crate::specs::Actions::grown))]
fn grown(token: Token, value: Option<Value>) -> Value
    ensures { result ≡ spec.grown token value }
{
    let first = match value {
        None => token,
        Some(value) => value.first,
    };
    Value { first, last: token }
}

/// A value of one token is its content; one of several is the text from the first to the last as it stands.
#[tactic(auto, unfolding(crate::specs::Actions::value_text))]
pub fn value_text(alloc: Global, source: &[u8], value: Value) -> Result<Text, NoMemory>
    ensures { IfOk result (λ t. t ≡ spec.value_text source.now value) }
{
    if value.first.span.start == value.last.span.start {
        content(alloc, source, value.first)
    } else {
        Text::from_bytes(alloc, between(source, value.first, value.last))
    }
}

/// Whether a value has more bytes than a name may have.
#[tactic(auto, unfolding(crate::specs::Actions::is_long))]
fn is_long(alloc: Global, source: &[u8], limits: &Limits, value: Value) -> Result<bool, NoMemory>
    ensures { IfOk result (λ long. long ≡ spec.is_long source.now limits.now value) }
{
    let shown = value_text(alloc, source, value)?;
    Ok(is_too_long(limits, shown.as_bytes()))
}

impl Statements {
    pub fn new(alloc: Global) -> Statements
        ensures { result ≡ nothing }
    {
        Statements {
            name: None,
            cells: Items::new(alloc),
            cell_names: Names::new(alloc),
            level: Level::Library,
            passed: 0,
            word: no_token(),
            args: Items::new(alloc),
            value: None,
            cell_word: no_token(),
            cell_name: no_token(),
            groups: Items::new(alloc),
            pin_names: Names::new(alloc),
            group_kind: GroupKind::Other,
            group_word: no_token(),
            group_args: Items::new(alloc),
            attributes: Items::new(alloc),
        }
    }

    #[tactic(auto, unfolding(crate::specs::Actions::begin_statement))]
    pub fn begin_statement(&mut self, alloc: Global, word: Token)
        ensures does { spec.begin_statement word self.old ≡ Ok self.new }
        ensures passed { self.new.passed ≡ self.old.passed }
    {
        self.word = word;
        self.args = Items::new(alloc);
    }

    #[tactic(auto, unfolding(crate::specs::Actions::add_arg))]
    pub fn add_arg(&mut self, arg: Token) -> Result<(), NoMemory>
        ensures does { OnOk result (spec.add_arg arg self.old ≡ Ok self.new) }
        ensures passed { self.new.passed ≡ self.old.passed }
    {
        if self.passed == 0 && is_outer(self.level) {
            self.args.push(arg)?;
        }
        Ok(())
    }

    #[tactic(auto, unfolding(crate::specs::Actions::reads_node))]
    fn reads_node(&self, source: &[u8]) -> bool
        ensures { result ≡ spec.reads_node source.now self.now }
    {
        self.passed == 0
            && is_group(self.level)
            && is_pin(self.group_kind)
            && is_internal_node(attribute_kind(text(source, self.word)))
    }

    // Whether the value, with this token, is too long a name.
    #[tactic(auto, unfolding(crate::specs::Actions::is_refused))]
    fn is_refused(
        &self,
        alloc: Global,
        source: &[u8],
        limits: &Limits,
        token: Token,
    ) -> Result<bool, NoMemory>
        ensures { IfOk result (λ long. long ≡ spec.is_refused source.now limits.now token self.now) }
    {
        if self.reads_node(source) {
            is_long(alloc, source, limits, grown(token, self.value))
        } else {
            Ok(false)
        }
    }

    #[tactic(auto, unfolding(crate::specs::Actions::add_value))]
    pub fn add_value(
        &mut self,
        alloc: Global,
        source: &[u8],
        limits: &Limits,
        token: Token,
    ) -> Result<(), Halt>
        ensures does { Does result self.new (spec.add_value source.now limits.now token self.old) }
        ensures passed { self.new.passed ≡ self.old.passed }
    {
        if self.is_refused(alloc, source, limits, token)? {
            return Err(Halt::Refused(Refusal::TooMany(LimitKind::Name)));
        }
        self.value = Some(grown(token, self.value));
        Ok(())
    }

    #[tactic(auto, unfolding(crate::specs::Actions::keep_value))]
    fn keep_value(
        &mut self,
        counts: bool,
        kind: AttributeKind,
        value: Value,
    ) -> Result<(), NoMemory>
        ensures does { OnOk result (self.new ≡ spec.keep_value counts kind value self.old) }
        ensures passed { self.new.passed ≡ self.old.passed }
    {
        self.value = None;
        if counts && !is_other(kind) {
            let word = self.word;
            self.attributes.push(Attribute { kind, word, value })?;
        }
        Ok(())
    }

    #[tactic(auto, unfolding(crate::specs::Actions::settled))]
    pub fn settle(&mut self, source: &[u8]) -> Result<(), NoMemory>
        ensures does { OnOk result (self.new ≡ spec.settled source.now self.old) }
        ensures passed { self.new.passed ≡ self.old.passed }
    {
        match self.value {
            None => Ok(()),
            Some(value) => {
                let counts = self.passed == 0 && is_group(self.level);
                let kind = attribute_kind(text(source, self.word));
                self.keep_value(counts, kind, value)
            }
        }
    }
}
