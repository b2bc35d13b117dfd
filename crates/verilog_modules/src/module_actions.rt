//! What the items of a module leave.
ghost use Rattle.std.specs.Prelude.{◌≡◌, OnOk, ◌++◌, ◌∷◌, []};
ghost use Rattle.verilog_modules.specs.ModuleActions as spec;
ghost use Rattle.verilog_looks.specs.Looks as looks;
ghost use Rattle.verilog_looks.specs.Does.{Does};
ghost use Rattle.verilog_source.specs.declared.module.Terminal.TheVariants as terminals;

use crate::module_phase::ModuleAction;
use crate::module_text::{Declared, ModuleText};
use crate::ports::Ports;
use file_rules::{is_name, is_too_long};
use std::alloc::Global;
use std::mem;
use tern_core::Tern;
use text_scan::{Direction, Items, LimitKind, Limits, NoMemory, Text};
use verilog_directives::Left;
use verilog_looks::{Halt, Look, Refusal, content, look_of, text};
use verilog_source::{Element, Terminal};

fn direction_of(look: Look) -> Direction
    ensures { result ≡ spec.direction_of look }
{
    match look {
        Look::Input => Direction::Input,
        Look::Output => Direction::Output,
        Look::Inout => Direction::Inout,
        _ => Direction::Absent,
    }
}

fn declared_of(look: Look) -> Declared
    ensures { result ≡ spec.declared_of look }
{
    match look {
        Look::Input => Declared::Port(Direction::Input),
        Look::Output => Declared::Port(Direction::Output),
        Look::Inout => Declared::Port(Direction::Inout),
        Look::Supply0 => Declared::Supply(Tern::Zero),
        Look::Supply1 => Declared::Supply(Tern::One),
        _ => Declared::Net,
    }
}

fn constant_of(look: Look) -> Tern
    ensures { result ≡ spec.constant_of look }
{
    match look {
        Look::Zero => Tern::Zero,
        _ => Tern::One,
    }
}

impl ModuleText {
    pub fn new(alloc: Global) -> ModuleText
        ensures { result ≡ spec.no_module }
    {
        ModuleText {
            ports: Ports::new(alloc),
            supplies: Items::new(alloc),
            elements: Items::new(alloc),
            direction: Direction::Absent,
            declared: Declared::Net,
            kind: Text::from_vec(Vec::new(alloc)),
            is_gate: false,
            label: Text::from_vec(Vec::new(alloc)),
            terminals: Items::new(alloc),
        }
    }

    #[tactic(auto, unfolding(crate::specs::ModuleActions::add_port))]
    fn add_port(&mut self, alloc: Global, item: &Left, name: &[u8]) -> Result<(), Halt>
        ensures { Does result self.new (spec.add_port item.now name.now self.old) }
    {
        if self.ports.contains(name) {
            return Err(Halt::Refused(Refusal::DoubleName(item.token)));
        }
        let direction = self.direction;
        self.ports.push(alloc, name, direction)?;
        Ok(())
    }

    // A direction for a listed port that has none.
    fn direct(&mut self, direction: Direction, name: &[u8]) -> Result<(), Halt>
        ensures { Does result self.new (spec.declare_port direction name.now self.old) }
    {
        if !self.ports.direct(name, direction) {
            return Err(Halt::Refused(Refusal::Here));
        }
        Ok(())
    }

    fn supply(&mut self, alloc: Global, value: Tern, name: &[u8]) -> Result<(), Halt>
        ensures { Does result self.new (spec.declare_supply value name.now self.old) }
    {
        let net = Text::from_bytes(alloc, name)?;
        self.supplies.push((net, value))?;
        Ok(())
    }

    #[tactic(auto, unfolding(crate::specs::ModuleActions::declare))]
    fn declare(&mut self, alloc: Global, name: &[u8]) -> Result<(), Halt>
        ensures { Does result self.new (spec.declare self.old.declared name.now self.old) }
    {
        match self.declared {
            Declared::Port(direction) => self.direct(direction, name),
            Declared::Net => Ok(()),
            Declared::Supply(value) => self.supply(alloc, value, name),
        }
    }

    fn set_kind(&mut self, alloc: Global, is_gate: bool, kind: &[u8]) -> Result<(), Halt>
        ensures { Does result self.new (spec.set_kind is_gate kind.now self.old) }
    {
        self.kind = Text::from_bytes(alloc, kind)?;
        self.is_gate = is_gate;
        Ok(())
    }

    fn set_label(&mut self, alloc: Global, name: &[u8]) -> Result<(), Halt>
        ensures { Does result self.new (spec.set_label name.now self.old) }
    {
        self.label = Text::from_bytes(alloc, name)?;
        Ok(())
    }

    fn add_terminal(&mut self, alloc: Global, name: &[u8]) -> Result<(), Halt>
        ensures { Does result self.new (spec.add_terminal name.now self.old) }
    {
        let net = Text::from_bytes(alloc, name)?;
        self.terminals.push(Terminal::Net(net))?;
        Ok(())
    }

    // The first terminal of an instance without a name.
    fn add_output(&mut self, alloc: Global, name: &[u8]) -> Result<(), Halt>
        ensures { Does result self.new (spec.add_output name.now self.old) }
    {
        self.label = Text::from_bytes(alloc, name)?;
        self.add_terminal(alloc, name)
    }

    fn add_constant(&mut self, look: Look) -> Result<(), Halt>
        ensures { Does result self.new (spec.add_constant look self.old) }
    {
        self.terminals.push(Terminal::Constant(constant_of(look)))?;
        Ok(())
    }

    fn end_instance(&mut self, alloc: Global) -> Result<(), Halt>
        ensures { Does result self.new (spec.end_instance self.old) }
    {
        let kind = self.kind.copied(alloc)?;
        let label = mem::replace(&mut self.label, Text::from_vec(Vec::new(alloc)));
        let terminals = mem::replace(&mut self.terminals, Items::new(alloc));
        self.elements.push(Element {
            kind,
            is_gate: self.is_gate,
            label,
            terminals,
        })?;
        Ok(())
    }

    fn end_module(&mut self, alloc: Global) -> Result<(), Halt>
        ensures { Does result self.new (spec.end_module self.old) }
    {
        match self.ports.undirected(alloc)? {
            None => Ok(()),
            Some(name) => Err(Halt::Refused(Refusal::NoDirection(name))),
        }
    }

    // What the name of an item adds.
    #[tactic(auto, unfolding(crate::specs::ModuleActions::add_name))]
    fn add_name(
        &mut self,
        alloc: Global,
        action: ModuleAction,
        item: &Left,
        name: &[u8],
    ) -> Result<(), Halt>
        ensures { Does result self.new (spec.add_name action item.now name.now self.old) }
    {
        match action {
            ModuleAction::AddPort => self.add_port(alloc, item, name),
            ModuleAction::Declare => self.declare(alloc, name),
            ModuleAction::BeginPrimitive => self.set_kind(alloc, false, name),
            ModuleAction::Label => self.set_label(alloc, name),
            ModuleAction::AddOutput => self.add_output(alloc, name),
            ModuleAction::AddNet => self.add_terminal(alloc, name),
            _ => Ok(()),
        }
    }

    #[tactic(auto, unfolding(verilog_looks::specs::Names::named))]
    fn perform_name(
        &mut self,
        alloc: Global,
        source: &[u8],
        limits: &Limits,
        action: ModuleAction,
        item: &Left,
    ) -> Result<(), Halt>
        ensures { Does result self.new (spec.perform_name source.now limits.now action item.now self.old) }
    {
        let name = content(source, item.token);
        if is_too_long(limits, name) {
            return Err(Halt::Refused(Refusal::TooMany(LimitKind::Name)));
        }
        if !is_name(name) {
            return Err(Halt::Refused(Refusal::Here));
        }
        self.add_name(alloc, action, item, name)
    }

    /// What an item adds.
    #[tactic(auto, unfolding(crate::specs::ModuleActions::perform))]
    pub fn perform(
        &mut self,
        alloc: Global,
        source: &[u8],
        limits: &Limits,
        action: ModuleAction,
        item: &Left,
    ) -> Result<(), Halt>
        ensures { Does result self.new (spec.perform source.now limits.now action item.now self.old) }
    {
        match action {
            ModuleAction::Keep => Ok(()),
            ModuleAction::Direct => {
                self.direction = direction_of(look_of(source, item));
                Ok(())
            }
            ModuleAction::BeginDeclaration => {
                self.declared = declared_of(look_of(source, item));
                Ok(())
            }
            ModuleAction::BeginGate => self.set_kind(alloc, true, text(source, item.token)),
            ModuleAction::AddConstant => self.add_constant(look_of(source, item)),
            ModuleAction::EndInstance => self.end_instance(alloc),
            ModuleAction::EndModule => self.end_module(alloc),
            _ => self.perform_name(alloc, source, limits, action, item),
        }
    }
}
