//! What parts add to what has been read of a file.
ghost use Rattle.std.specs.Prelude.{◌≡◌, ◌-◌, min, length, OnOk};
ghost use Rattle.verilog_reader.specs.FileActions as spec;

use crate::file_text::FileText;
use name_index::Names;
use std::alloc::Global;
use std::mem;
use text_scan::{NoMemory, Text};
use verilog_modules::ModuleText;
use verilog_primitives::PrimitiveText;
use verilog_source::{Module, ModulePart, UdpPart, UdpText};

fn module_of(name: Text, text: ModuleText) -> Module
    ensures { result ≡ spec.module_of name text }
{
    let ModuleText {
        ports,
        supplies,
        elements,
        direction: _,
        declared: _,
        kind: _,
        is_gate: _,
        label: _,
        terminals: _,
    } = text;
    Module {
        name,
        ports: ports.into_items(),
        supplies,
        elements,
    }
}

// The ports but the output.
fn inputs(ports: &Names) -> u32
    ensures { result ≡ min (length ports.now - 1) 4294967295 }
{
    let inputs = ports.len().saturating_sub(1);
    if inputs <= 4_294_967_295 {
        inputs as u32
    } else {
        4_294_967_295
    }
}

fn udp_of(name: Text, text: PrimitiveText) -> UdpText
    ensures { result ≡ spec.udp_of name text }
{
    let inputs = inputs(&text.ports);
    let PrimitiveText {
        ports: _,
        has_output: _,
        sequential,
        inputs: _,
        declared: _,
        rows,
        row: _,
    } = text;
    UdpText {
        name,
        sequential,
        inputs,
        rows,
    }
}

impl FileText {
    fn take_name(&mut self, alloc: Global) -> Text
        ensures name { result ≡ self.old.name }
        ensures rest { self.new ≡ spec.unnamed self.old }
    {
        mem::replace(&mut self.name, Text::from_vec(Vec::new(alloc)))
    }

    #[tactic(auto, unfolding(crate::specs::FileActions::whole_module))]
    pub fn add_module(&mut self, alloc: Global, text: ModuleText) -> Result<(), NoMemory>
        ensures { OnOk result (self.new ≡ spec.whole_module self.old text) }
    {
        let name = self.take_name(alloc);
        self.modules.push(ModulePart::Whole(module_of(name, text)))
    }

    #[tactic(auto, unfolding(crate::specs::FileActions::refused_module))]
    pub fn refuse_module(
        &mut self,
        alloc: Global,
        construct: Text,
        line: u32,
    ) -> Result<(), NoMemory>
        ensures { OnOk result (self.new ≡ spec.refused_module self.old construct line) }
    {
        let name = self.take_name(alloc);
        self.modules.push(ModulePart::Refused {
            name,
            construct,
            line,
        })
    }

    #[tactic(auto, unfolding(crate::specs::FileActions::whole_udp))]
    pub fn add_udp(&mut self, alloc: Global, text: PrimitiveText) -> Result<(), NoMemory>
        ensures { OnOk result (self.new ≡ spec.whole_udp self.old text) }
    {
        let name = self.take_name(alloc);
        self.primitives.push(UdpPart::Whole(udp_of(name, text)))
    }

    #[tactic(auto, unfolding(crate::specs::FileActions::refused_udp))]
    pub fn refuse_udp(&mut self, alloc: Global, construct: Text, line: u32) -> Result<(), NoMemory>
        ensures { OnOk result (self.new ≡ spec.refused_udp self.old construct line) }
    {
        let name = self.take_name(alloc);
        self.primitives.push(UdpPart::Refused {
            name,
            construct,
            line,
        })
    }
}
