//! The cells, modules, subcircuits and macros of the files by their names.
use cdl_reader::{Netlist, Subcircuit, SubcircuitPart, read_netlist};
use lef_reader::{Lef, Macro, MacroPart, read_lef};
use liberty_reader::{CellPart, LibertyCell, Library, read_library};
use std::alloc::Global;
use text_scan::{FileRefusal, Limits};
use verilog_reader::{Module, ModulePart, Source, read_source};

/// The texts of the four files.
#[derive(Clone, Copy)]
pub struct Texts<'a> {
    pub liberty: &'a [u8],
    pub verilog: &'a [u8],
    pub cdl: &'a [u8],
    pub lef: &'a [u8],
}

/// What was read of the four files.
#[derive(Drop)]
pub struct Sources {
    library: Library,
    source: Source,
    netlist: Netlist,
    lef: Lef,
}

impl Sources {
    pub fn read(alloc: Global, texts: Texts<'_>) -> Result<Sources, FileRefusal> {
        let limits = Limits::standard();
        Ok(Sources {
            library: read_library(alloc, texts.liberty, &limits)?,
            source: read_source(alloc, texts.verilog, &limits)?,
            netlist: read_netlist(alloc, texts.cdl, &limits)?,
            lef: read_lef(alloc, texts.lef, &limits)?,
        })
    }

    pub fn cell(&self, name: &str) -> Option<&LibertyCell> {
        for part in self.library.cells.as_slice() {
            if let CellPart::Whole(cell) = part {
                if cell.name.as_bytes() == name.as_bytes() {
                    return Some(cell);
                }
            }
        }
        None
    }

    pub fn module_of(&self, name: &str) -> Option<&Module> {
        for part in self.source.modules.as_slice() {
            if let ModulePart::Whole(module) = part {
                if module.name.as_bytes() == name.as_bytes() {
                    return Some(module);
                }
            }
        }
        None
    }

    pub fn subcircuit(&self, name: &str) -> Option<&Subcircuit> {
        for part in self.netlist.parts.as_slice() {
            if let SubcircuitPart::Whole(subcircuit) = part {
                if subcircuit.name.as_bytes() == name.as_bytes() {
                    return Some(subcircuit);
                }
            }
        }
        None
    }

    pub fn macro_of(&self, name: &str) -> Option<&Macro> {
        for part in self.lef.macros.as_slice() {
            if let MacroPart::Whole(found) = part {
                if found.name.as_bytes() == name.as_bytes() {
                    return Some(found);
                }
            }
        }
        None
    }
}
