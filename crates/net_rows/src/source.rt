//! What a source text has.
use module_net::Primitives;
use std::alloc::Global;
use text_scan::{Items, NoMemory};
use udp_table::{Udp, UdpRefusal, build};
use verilog_reader::{Module, ModulePart, Source, UdpPart, UdpText};

fn add_table(alloc: Global, tables: &mut Items<Udp>, text: &UdpText) -> Result<(), NoMemory> {
    match build(alloc, text) {
        Ok(table) => tables.push(table),
        Err(UdpRefusal::NoMemory) => Err(NoMemory),
        Err(_) => Ok(()),
    }
}

/// The primitives that are whole and make tables.
pub fn primitives_of(alloc: Global, source: &Source) -> Result<Primitives, NoMemory> {
    let mut tables = Items::new(alloc);
    for part in source.primitives.as_slice() {
        if let UdpPart::Whole(text) = part {
            add_table(alloc, &mut tables, text)?;
        }
    }
    Primitives::new(alloc, tables)
}

pub fn module_of<'a>(source: &'a Source, name: &[u8]) -> Option<&'a Module> {
    for part in source.modules.as_slice() {
        if let ModulePart::Whole(module) = part {
            if module.name.as_bytes() == name {
                return Some(module);
            }
        }
    }
    None
}
