//! The limits of input files.
ghost use Rattle.std.specs.Prelude.{◌≡◌, Some};
ghost use Rattle.text_scan.specs.Limits.{standard, word_of};

use std::fmt;

/// The greatest numbers that a reader takes.
#[derive(Clone, Copy, Debug, PartialEq, Eq)]
pub struct Limits {
    /// Bytes of a file.
    pub file: u64,
    /// Cells of a library, and modules, primitives, subcircuits, macros and tables, each.
    pub cells: u32,
    /// Open Liberty groups, or open Verilog conditions.
    pub nesting: u32,
    /// Bytes of a name.
    pub name: u32,
    /// Records of a technology or waiver file.
    pub records: u32,
}

impl Limits {
    pub fn standard() -> Limits
        ensures { result ≡ standard }
    {
        Limits {
            file: 134_217_728,
            cells: 4096,
            nesting: 32,
            name: 128,
            records: 65_536,
        }
    }
}

/// What there is too much of.
#[derive(Clone, Copy, Debug, PartialEq, Eq)]
pub enum LimitKind {
    Inputs,
    Gates,
    Transistors,
    Nodes,
    Rows,
    Pins,
    UdpInputs,
    Cells,
    Name,
    Nesting,
    Records,
    /// Rectangles of a macro's ports.
    Rects,
}

impl LimitKind {
    /// The word that names it.
    pub fn word(self) -> &'static str
        ensures { result.now ≡ word_of self }
    {
        match self {
            LimitKind::Inputs => "inputs",
            LimitKind::Gates => "gates",
            LimitKind::Transistors => "transistors",
            LimitKind::Nodes => "nodes",
            LimitKind::Rows => "rows",
            LimitKind::Pins => "pins",
            LimitKind::UdpInputs => "udp_inputs",
            LimitKind::Cells => "cells",
            LimitKind::Name => "name",
            LimitKind::Nesting => "nesting",
            LimitKind::Records => "records",
            LimitKind::Rects => "rects",
        }
    }
}

impl fmt::Display for LimitKind {
    ghost output = { λ kind. Some (word_of kind) };

    fn fmt<W: fmt::Write>(&self, f: &mut fmt::Formatter<W>) -> fmt::Result {
        f.write_str(self.word())
    }
}
