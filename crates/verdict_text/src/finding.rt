ghost use Rattle.std.specs.Prelude.{◌≡◌, Some};
ghost use Rattle.verdict_text.specs.Words.{code_word, view_word};

use std::fmt::{Display, Formatter, Write};
use tern_core::Tern;
use text_scan::Text;

/// One of the four descriptions of a cell.
#[derive(Clone, Copy, Debug, PartialEq, Eq)]
pub enum View {
    Liberty,
    Verilog,
    Cdl,
    Lef,
}

impl View {
    /// `liberty`, `verilog`, `cdl` or `lef`.
    pub fn word(self) -> &'static str
        ensures { result.now ≡ view_word self }
    {
        match self {
            View::Liberty => "liberty",
            View::Verilog => "verilog",
            View::Cdl => "cdl",
            View::Lef => "lef",
        }
    }
}

impl Display for View {
    ghost output = { λ view. Some (view_word view) };

    fn fmt<W: Write>(&self, f: &mut Formatter<W>) -> std::fmt::Result {
        f.write_str(self.word())
    }
}

/// The rule that a finding breaks: P rules are about pins, H rules are a house's own, M rules are about meanings, Z rules
/// about outputs that can float.
#[derive(Clone, Copy, Debug, PartialEq, Eq)]
pub enum Code {
    /// The view has no such cell.
    P1,
    /// The view lacks the pin.
    P2,
    /// The view gives the pin another direction.
    P3,
    /// The view gives the pin another kind.
    P4,
    /// The cell's name doesn't begin as the house wants.
    H1,
    /// The cell has more signal pins than the house allows.
    H2,
    /// A pin's name has a byte that the house doesn't allow.
    H3,
    /// A pin has a shape outside the cell's margin.
    H4,
    /// Shapes of two pins overlap on a layer that the house names.
    H5,
    /// Verilog has another value where Liberty's is known.
    M1,
    /// The transistors have another value where Liberty's is known.
    M2,
    /// Verilog drives or floats an output where Liberty doesn't.
    Z1,
    /// The transistors drive or float an output where Liberty doesn't.
    Z2,
}

impl Code {
    /// The two letters of its name.
    pub fn word(self) -> &'static str
        ensures { result.now ≡ code_word self }
    {
        match self {
            Code::P1 => "P1",
            Code::P2 => "P2",
            Code::P3 => "P3",
            Code::P4 => "P4",
            Code::H1 => "H1",
            Code::H2 => "H2",
            Code::H3 => "H3",
            Code::H4 => "H4",
            Code::H5 => "H5",
            Code::M1 => "M1",
            Code::M2 => "M2",
            Code::Z1 => "Z1",
            Code::Z2 => "Z2",
        }
    }
}

impl Display for Code {
    ghost output = { λ code. Some (code_word code) };

    fn fmt<W: Write>(&self, f: &mut Formatter<W>) -> std::fmt::Result {
        f.write_str(self.word())
    }
}

/// What was found of a cell.
#[derive(Debug, Drop)]
pub struct Finding {
    pub code: Code,
    /// The pin, or none where the finding is about the cell.
    pub pin: Option<Text>,
    /// The view that differs from Liberty.
    pub view: View,
    /// Where the values differ; there exactly for M1, M2, Z1 and Z2.
    pub mismatch: Option<Mismatch>,
    /// The number of the first waiver that covers it, counted from 1.
    pub waiver: Option<u32>,
}

/// Two values of an output that differ.
#[derive(Debug, Drop)]
pub struct Mismatch {
    /// The row of the table, counted from 1.
    pub row: u32,
    /// The change of a pin that came after the row, if one did.
    pub change: Option<Change>,
    pub liberty: Tern,
    pub other: Tern,
}

/// A pin that gets another value.
#[derive(Debug, Drop)]
pub struct Change {
    pub pin: Text,
    pub value: Tern,
}
