//! What the items of a primitive leave.
ghost use Rattle.std.specs.Prelude.{◌≡◌, OnOk, ◌++◌, ◌∷◌, []};
ghost use Rattle.verilog_primitives.specs.UdpActions as spec;
ghost use Rattle.verilog_looks.specs.Looks as looks;
ghost use Rattle.verilog_looks.specs.Does.{Does};

use crate::row::Row;
use crate::udp_phase::UdpAction;
use crate::udp_text::{PrimitiveText, UdpDeclared};
use file_rules::{is_name, is_too_long};
use name_index::Names;
use std::alloc::Global;
use text_scan::{Items, LimitKind, Limits};
use verilog_directives::Left;
use verilog_looks::{Halt, Look, Refusal, content, look_of, text};

fn declared_of(look: Look) -> UdpDeclared
    ensures { result ≡ spec.udp_declared_of look }
{
    match look {
        Look::Output => UdpDeclared::Output,
        Look::Reg => UdpDeclared::Reg,
        Look::Input => UdpDeclared::Input,
        _ => UdpDeclared::Plain,
    }
}

impl PrimitiveText {
    pub fn new(alloc: Global) -> PrimitiveText
        ensures { result ≡ spec.no_udp }
    {
        PrimitiveText {
            ports: Names::new(alloc),
            has_output: false,
            sequential: false,
            inputs: Names::new(alloc),
            declared: UdpDeclared::Plain,
            rows: Items::new(alloc),
            row: Row::new(alloc),
        }
    }

    fn declare_output(&mut self) -> Result<(), Halt>
        ensures { Does result self.new (spec.declare_output self.old) }
    {
        if self.has_output {
            return Err(Halt::Refused(Refusal::Here));
        }
        self.has_output = true;
        Ok(())
    }

    fn declare_reg(&mut self) -> Result<(), Halt>
        ensures { Does result self.new (spec.declare_reg self.old) }
    {
        if self.sequential {
            return Err(Halt::Refused(Refusal::Here));
        }
        self.sequential = true;
        Ok(())
    }

    fn declare_output_reg(&mut self) -> Result<(), Halt>
        ensures { Does result self.new (spec.declare_output_reg self.old) }
    {
        if self.has_output {
            return Err(Halt::Refused(Refusal::Here));
        }
        if self.sequential {
            return Err(Halt::Refused(Refusal::Here));
        }
        self.has_output = true;
        self.sequential = true;
        Ok(())
    }

    #[tactic(auto, unfolding(crate::specs::UdpActions::declare_first))]
    fn declare_first(&mut self, declared: UdpDeclared) -> Result<(), Halt>
        ensures { Does result self.new (spec.declare_first declared self.old) }
    {
        match declared {
            UdpDeclared::Plain => Ok(()),
            UdpDeclared::Output => self.declare_output(),
            UdpDeclared::OutputReg => self.declare_output_reg(),
            UdpDeclared::Reg => self.declare_reg(),
            UdpDeclared::Input => Err(Halt::Refused(Refusal::Here)),
        }
    }

    fn declare_input(&mut self, alloc: Global, name: &[u8]) -> Result<(), Halt>
        ensures { Does result self.new (spec.declare_input name.now self.old) }
    {
        if self.inputs.contains(name) {
            return Err(Halt::Refused(Refusal::Here));
        }
        self.inputs.push(alloc, name)?;
        Ok(())
    }

    #[tactic(auto, unfolding(crate::specs::UdpActions::declare_other))]
    fn declare_other(
        &mut self,
        alloc: Global,
        declared: UdpDeclared,
        name: &[u8],
    ) -> Result<(), Halt>
        ensures { Does result self.new (spec.declare_other declared name.now self.old) }
    {
        match declared {
            UdpDeclared::Plain => Ok(()),
            UdpDeclared::Input => self.declare_input(alloc, name),
            UdpDeclared::Output | UdpDeclared::OutputReg | UdpDeclared::Reg => {
                Err(Halt::Refused(Refusal::Here))
            }
        }
    }

    // What is said of a name: the first port is the output, the others are inputs.
    #[tactic(auto, unfolding(crate::specs::UdpActions::declare_udp))]
    fn declare(&mut self, alloc: Global, declared: UdpDeclared, name: &[u8]) -> Result<(), Halt>
        ensures { Does result self.new (spec.declare_udp declared name.now self.old) }
    {
        match self.ports.place_of(name) {
            None => Err(Halt::Refused(Refusal::Here)),
            Some(place) => {
                if place == 0 {
                    self.declare_first(declared)
                } else {
                    self.declare_other(alloc, declared, name)
                }
            }
        }
    }

    fn add_port(&mut self, alloc: Global, name: &[u8]) -> Result<(), Halt>
        ensures { Does result self.new (spec.add_udp_port name.now self.old) }
    {
        let declared = self.declared;
        self.ports.push(alloc, name)?;
        self.declare(alloc, declared, name)
    }

    fn end_row(&mut self, alloc: Global) -> Result<(), Halt>
        ensures { Does result self.new (spec.end_row self.old) }
    {
        let row = self.row.end(alloc);
        self.rows.push(row)?;
        Ok(())
    }

    fn add_symbols(&mut self, symbols: &[u8]) -> Result<(), Halt>
        ensures { Does result self.new (spec.add_symbols symbols.now self.old) }
    {
        self.row.append(symbols)?;
        Ok(())
    }

    fn begin(&mut self, declared: UdpDeclared) -> Result<(), Halt>
        ensures { Does result self.new (spec.begin declared self.old) }
    {
        self.declared = declared;
        Ok(())
    }

    #[tactic(auto, unfolding(crate::specs::UdpActions::add_udp_name))]
    fn add_name(&mut self, alloc: Global, action: UdpAction, name: &[u8]) -> Result<(), Halt>
        ensures { Does result self.new (spec.add_udp_name action name.now self.old) }
    {
        let declared = self.declared;
        match action {
            UdpAction::AddPort => self.add_port(alloc, name),
            UdpAction::Declare => self.declare(alloc, declared, name),
            _ => Ok(()),
        }
    }

    #[tactic(auto, unfolding(verilog_looks::specs::Names::named))]
    fn perform_name(
        &mut self,
        alloc: Global,
        source: &[u8],
        limits: &Limits,
        action: UdpAction,
        item: &Left,
    ) -> Result<(), Halt>
        ensures { Does result self.new (spec.perform_udp_name source.now limits.now action item.now self.old) }
    {
        let name = content(source, item.token);
        if is_too_long(limits, name) {
            return Err(Halt::Refused(Refusal::TooMany(LimitKind::Name)));
        }
        if !is_name(name) {
            return Err(Halt::Refused(Refusal::Here));
        }
        self.add_name(alloc, action, name)
    }

    /// What an item adds.
    #[tactic(auto, unfolding(crate::specs::UdpActions::perform_udp))]
    pub fn perform(
        &mut self,
        alloc: Global,
        source: &[u8],
        limits: &Limits,
        action: UdpAction,
        item: &Left,
    ) -> Result<(), Halt>
        ensures { Does result self.new (spec.perform_udp source.now limits.now action item.now self.old) }
    {
        match action {
            UdpAction::Keep => Ok(()),
            UdpAction::BeginOutput => self.begin(UdpDeclared::Output),
            UdpAction::BeginOutputReg => self.begin(UdpDeclared::OutputReg),
            UdpAction::BeginInput => self.begin(UdpDeclared::Input),
            UdpAction::BeginDeclaration => self.begin(declared_of(look_of(source, item))),
            UdpAction::AddSymbols => self.add_symbols(text(source, item.token)),
            UdpAction::EndRow => self.end_row(alloc),
            _ => self.perform_name(alloc, source, limits, action, item),
        }
    }
}
