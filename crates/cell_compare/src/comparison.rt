//! What compare finds of a cell.
use text_scan::Items;
use verdict_text::{Finding, Reason};

/// What comparing a cell's Liberty description with its Verilog module finds.
#[derive(Debug, Drop)]
pub enum Comparison {
    /// The cell can't be compared.
    Refused(Reason),
    /// The pins of the views differ; there is at least one finding.
    Pins(Items<Finding>),
    /// Every input vector was compared.
    Vectors {
        vectors: u32,
        /// The number of pairs of a vector and an output at which Liberty's value is 0 or 1.
        defined: u32,
        /// The first vector, and its first output, at which Verilog has another value than Liberty defines.
        first: Option<Finding>,
    },
}
