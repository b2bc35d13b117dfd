//! Groups begin and end.
ghost use Rattle.std.specs.Prelude.{◌≡◌, ◌≤◌, ◌<◌, ◌+◌, ◌-◌, ◌^◌, Ok, IfOk, OnOk};
ghost use Rattle.liberty_statements.specs.Actions as spec;
ghost use Rattle.liberty_tokens.specs.Names as names;
ghost use Rattle.liberty_statements.specs.Does.{Does};

use crate::halt::{Halt, Refusal};
use crate::statements::{CellText, Group, Level, Statements};
use file_rules::{is_name, is_too_long};
use liberty_tokens::{GroupKind, columns, content, group_kind, is_cell, text};
use name_index::Names;
use std::alloc::Global;
use std::mem;
use text_scan::{Items, Kind, LimitKind, Limits, NoMemory, Text, Token};

// The use of a pin's name.
#[tactic(auto, unfolding(crate::specs::Actions::add_pin_name))]
fn add_pin_name(
    alloc: Global,
    source: &[u8],
    limits: &Limits,
    token: Token,
    names: &mut Names,
) -> Result<(), Halt>
    ensures { Does result names.new (spec.add_pin_name source.now limits.now token names.old) }
{
    let name = content(alloc, source, token)?;
    if is_too_long(limits, name.as_bytes()) {
        return Err(Halt::Refused(Refusal::TooMany(LimitKind::Name)));
    }
    if is_name(name.as_bytes()) {
        if names.contains(name.as_bytes()) {
            return Err(Halt::Refused(Refusal::DoubleName(token)));
        }
        names.push(alloc, name.as_bytes())?;
    }
    Ok(())
}

#[tactic(auto, using(crate::proofs::Groups::next_pin_name, crate::proofs::Groups::last_pin_name))]
fn add_pin_names(
    alloc: Global,
    source: &[u8],
    limits: &Limits,
    tokens: &[Token],
    names: &mut Names,
) -> Result<(), Halt>
    ensures { Does result names.new (spec.add_pin_names source.now limits.now tokens.now names.old) }
{
    for at in 0..tokens.len() {
        add_pin_name(alloc, source, limits, tokens[at], names)?;
    }
    Ok(())
}

// An argument of `ff` or `latch`.
#[tactic(auto, unfolding(crate::specs::Actions::is_long_variable))]
fn is_long_variable(
    alloc: Global,
    source: &[u8],
    limits: &Limits,
    token: Token,
) -> Result<bool, NoMemory>
    ensures { IfOk result (λ long. long ≡ spec.is_long_variable source.now limits.now token) }
{
    let name = content(alloc, source, token)?;
    Ok(is_too_long(limits, name.as_bytes()))
}

#[tactic(auto, using(crate::proofs::Groups::next_variable, crate::proofs::Groups::long_variable, crate::proofs::Groups::last_variable))]
fn has_long_variable(
    alloc: Global,
    source: &[u8],
    limits: &Limits,
    tokens: &[Token],
) -> Result<bool, NoMemory>
    ensures { IfOk result (λ long. long ≡ spec.has_long_variable source.now limits.now tokens.now) }
{
    for at in 0..tokens.len() {
        if is_long_variable(alloc, source, limits, tokens[at])? {
            return Ok(true);
        }
    }
    Ok(false)
}

fn has_long_column(limits: &Limits, columns: &[Text]) -> bool
    ensures { result ≡ spec.has_long_column limits.now columns.now }
{
    columns
        .iter()
        .any(|column| is_too_long(limits, column.as_bytes()))
}

// The strings of `statetable` whose columns are names.
#[tactic(auto, unfolding(crate::specs::Actions::column_strings))]
fn column_strings(alloc: Global, args: &[Token]) -> Result<Vec<Token>, NoMemory>
    ensures { IfOk result (λ strings. strings.items ≡ spec.column_strings args.now) }
{
    let strings = args
        .iter()
        .copied()
        .filter(|arg| matches!(arg.kind, Kind::Str))
        .take(2)
        .collect(alloc)?;
    Ok(strings)
}

#[tactic(auto, unfolding(crate::specs::Actions::is_long_row))]
fn is_long_row(
    alloc: Global,
    source: &[u8],
    limits: &Limits,
    token: Token,
) -> Result<bool, NoMemory>
    ensures { IfOk result (λ long. long ≡ spec.is_long_row source.now limits.now token) }
{
    let row = content(alloc, source, token)?;
    let columns = columns(alloc, row.as_bytes())?;
    Ok(has_long_column(limits, columns.as_slice()))
}

#[tactic(auto, using(crate::proofs::Groups::next_row, crate::proofs::Groups::long_row, crate::proofs::Groups::last_row))]
fn has_long_row(
    alloc: Global,
    source: &[u8],
    limits: &Limits,
    tokens: &[Token],
) -> Result<bool, NoMemory>
    ensures { IfOk result (λ long. long ≡ spec.has_long_row source.now limits.now tokens.now) }
{
    for at in 0..tokens.len() {
        if is_long_row(alloc, source, limits, tokens[at])? {
            return Ok(true);
        }
    }
    Ok(false)
}

// The names that the arguments of a group are.
#[tactic(auto, unfolding(crate::specs::Actions::add_names, crate::specs::Actions::unless_long))]
fn add_names(
    alloc: Global,
    source: &[u8],
    limits: &Limits,
    kind: GroupKind,
    tokens: &[Token],
    names: &mut Names,
) -> Result<(), Halt>
    ensures { Does result names.new (spec.add_names source.now limits.now kind tokens.now names.old) }
{
    match kind {
        GroupKind::Pin | GroupKind::PgPin => add_pin_names(alloc, source, limits, tokens, names),
        GroupKind::Ff | GroupKind::Latch => {
            if has_long_variable(alloc, source, limits, tokens)? {
                return Err(Halt::Refused(Refusal::TooMany(LimitKind::Name)));
            }
            Ok(())
        }
        GroupKind::StateTable => {
            let strings = column_strings(alloc, tokens)?;
            if has_long_row(alloc, source, limits, &strings)? {
                return Err(Halt::Refused(Refusal::TooMany(LimitKind::Name)));
            }
            Ok(())
        }
        GroupKind::Unread | GroupKind::Other => Ok(()),
    }
}

impl Statements {
    #[tactic(auto, unfolding(crate::specs::Actions::pass))]
    fn pass(&mut self)
        requires { self.old.passed + 1 < 2 ^ 32 }
        ensures does { self.new ≡ spec.pass self.old }
        ensures passed { self.new.passed ≤ self.old.passed + 1 }
    {
        self.passed += 1;
    }

    #[tactic(auto, unfolding(crate::specs::Actions::open_group))]
    fn open_group(&mut self, alloc: Global, kind: GroupKind)
        ensures does { self.new ≡ spec.open_group kind self.old self.old.pin_names }
        ensures passed { self.new.passed ≡ self.old.passed }
    {
        self.level = Level::Group;
        self.group_kind = kind;
        self.group_word = self.word;
        self.group_args = mem::replace(&mut self.args, Items::new(alloc));
    }

    #[tactic(auto, unfolding(crate::specs::Actions::enter_read_group))]
    fn enter_read_group(
        &mut self,
        alloc: Global,
        source: &[u8],
        limits: &Limits,
        kind: GroupKind,
    ) -> Result<(), Halt>
        ensures does { Does result self.new (spec.enter_read_group source.now limits.now kind self.old) }
        ensures passed { self.new.passed ≡ self.old.passed }
    {
        let args = self.args.as_slice();
        add_names(alloc, source, limits, kind, args, &mut self.pin_names)?;
        self.open_group(alloc, kind);
        Ok(())
    }

    #[tactic(auto, unfolding(crate::specs::Actions::enter_group))]
    fn enter_group(
        &mut self,
        alloc: Global,
        source: &[u8],
        limits: &Limits,
        kind: GroupKind,
    ) -> Result<(), Halt>
        requires { self.old.passed + 1 < 2 ^ 32 }
        ensures does { Does result self.new (spec.enter_group source.now limits.now kind self.old) }
        ensures passed { self.new.passed ≤ self.old.passed + 1 }
    {
        match kind {
            GroupKind::Other => {
                self.pass();
                Ok(())
            }
            _ => self.enter_read_group(alloc, source, limits, kind),
        }
    }

    #[tactic(auto, unfolding(crate::specs::Actions::open_cell))]
    fn open_cell(&mut self, alloc: Global, token: Token, name: &[u8]) -> Result<(), NoMemory>
        ensures does { OnOk result (self.new ≡ spec.open_cell self.old token name.now) }
        ensures passed { self.new.passed ≡ self.old.passed }
    {
        self.cell_names.push(alloc, name)?;
        self.level = Level::Cell;
        self.cell_word = self.word;
        self.cell_name = token;
        self.args = Items::new(alloc);
        Ok(())
    }

    #[tactic(auto, unfolding(crate::specs::Actions::enter_named_cell))]
    fn enter_named_cell(
        &mut self,
        alloc: Global,
        limits: &Limits,
        token: Token,
        name: &[u8],
    ) -> Result<(), Halt>
        ensures does { Does result self.new (spec.enter_named_cell limits.now token name.now self.old) }
        ensures passed { self.new.passed ≡ self.old.passed }
    {
        if is_too_long(limits, name) {
            return Err(Halt::Refused(Refusal::TooMany(LimitKind::Name)));
        }
        if !is_name(name) {
            return Err(Halt::Refused(Refusal::BadName(token)));
        }
        if self.cell_names.contains(name) {
            return Err(Halt::Refused(Refusal::DoubleName(token)));
        }
        self.open_cell(alloc, token, name)?;
        Ok(())
    }

    #[tactic(auto, unfolding(crate::specs::Actions::enter_cell))]
    fn enter_cell(
        &mut self,
        alloc: Global,
        source: &[u8],
        limits: &Limits,
        token: Token,
    ) -> Result<(), Halt>
        ensures does { Does result self.new (spec.enter_cell source.now limits.now token self.old) }
        ensures passed { self.new.passed ≡ self.old.passed }
    {
        if limits.cells as usize <= self.cells.len() {
            return Err(Halt::Refused(Refusal::TooMany(LimitKind::Cells)));
        }
        let name = content(alloc, source, token)?;
        self.enter_named_cell(alloc, limits, token, name.as_bytes())
    }

    #[tactic(auto, unfolding(crate::specs::Actions::enter_in_library))]
    fn enter_in_library(
        &mut self,
        alloc: Global,
        source: &[u8],
        limits: &Limits,
    ) -> Result<(), Halt>
        requires { self.old.passed + 1 < 2 ^ 32 }
        ensures does { Does result self.new (spec.enter_in_library source.now limits.now self.old.args self.old) }
        ensures passed { self.new.passed ≤ self.old.passed + 1 }
    {
        if let [name] = self.args.as_slice()
            && is_cell(text(source, self.word))
        {
            let token = *name;
            return self.enter_cell(alloc, source, limits, token);
        }
        self.pass();
        Ok(())
    }

    #[tactic(auto, unfolding(crate::specs::Actions::entered))]
    fn enter_inner(&mut self, alloc: Global, source: &[u8], limits: &Limits) -> Result<(), Halt>
        requires { self.old.passed + 1 < 2 ^ 32 }
        ensures does { Does result self.new (spec.entered source.now limits.now self.old) }
        ensures passed { self.new.passed ≤ self.old.passed + 1 }
    {
        if self.passed == 0 {
            match self.level {
                Level::Library => return self.enter_in_library(alloc, source, limits),
                Level::Cell => {
                    let kind = group_kind(text(source, self.word));
                    return self.enter_group(alloc, source, limits, kind);
                }
                Level::Group => {}
            }
        }
        self.pass();
        Ok(())
    }

    /// A group begins, in which so many more may be nested.
    #[tactic(auto, unfolding(crate::specs::Actions::enter), using(crate::proofs::Groups::nested_none, crate::proofs::Groups::nested_some))]
    pub fn enter(
        &mut self,
        alloc: Global,
        source: &[u8],
        limits: &Limits,
        room: u32,
        brace: Token,
    ) -> Result<(), Halt>
        requires { self.old.passed + 1 < 2 ^ 32 }
        ensures does { Does result self.new (spec.enter source.now limits.now room brace self.old) }
        ensures passed { self.new.passed ≤ self.old.passed + 1 }
        ensures room { OnOk result (0 < room) }
    {
        self.enter_inner(alloc, source, limits)?;
        if room == 0 {
            return Err(Halt::Refused(Refusal::TooMany(LimitKind::Nesting)));
        }
        Ok(())
    }

    #[tactic(auto, unfolding(crate::specs::Actions::name_library))]
    pub fn name_library(
        &mut self,
        alloc: Global,
        source: &[u8],
        limits: &Limits,
        token: Token,
    ) -> Result<(), Halt>
        ensures does { Does result self.new (spec.name_library source.now limits.now token self.old) }
        ensures passed { self.new.passed ≡ self.old.passed }
    {
        let name = content(alloc, source, token)?;
        if is_too_long(limits, name.as_bytes()) {
            return Err(Halt::Refused(Refusal::TooMany(LimitKind::Name)));
        }
        if !is_name(name.as_bytes()) {
            return Err(Halt::Refused(Refusal::BadName(token)));
        }
        self.name = Some(token);
        Ok(())
    }

    fn leave_cell(&mut self, alloc: Global) -> Result<(), NoMemory>
        ensures does { OnOk result (self.new ≡ spec.left_cell self.old) }
        ensures passed { self.new.passed ≡ self.old.passed }
    {
        self.level = Level::Library;
        self.pin_names = Names::new(alloc);
        let groups = mem::replace(&mut self.groups, Items::new(alloc));
        self.cells.push(CellText {
            word: self.cell_word,
            name: self.cell_name,
            groups,
        })
    }

    fn leave_read_group(&mut self, alloc: Global) -> Result<(), NoMemory>
        ensures does { OnOk result (self.new ≡ spec.left_read_group self.old) }
        ensures passed { self.new.passed ≡ self.old.passed }
    {
        self.level = Level::Cell;
        let args = mem::replace(&mut self.group_args, Items::new(alloc));
        let attributes = mem::replace(&mut self.attributes, Items::new(alloc));
        self.groups.push(Group {
            kind: self.group_kind,
            word: self.group_word,
            args,
            attributes,
        })
    }

    /// The innermost group ends.
    #[tactic(auto, unfolding(crate::specs::Actions::left_group))]
    pub fn leave(&mut self, alloc: Global) -> Result<(), NoMemory>
        ensures does { OnOk result (self.new ≡ spec.left_group self.old) }
        ensures passed { OnOk result (self.new.passed ≡ self.old.passed - 1) }
    {
        if self.passed > 0 {
            self.passed -= 1;
            return Ok(());
        }
        match self.level {
            Level::Library => Ok(()),
            Level::Cell => self.leave_cell(alloc),
            Level::Group => self.leave_read_group(alloc),
        }
    }
}
