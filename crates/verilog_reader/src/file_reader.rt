//! Reads a file, an item at a time.
use crate::file_phase::FilePhase;
use crate::file_text::FileText;
use verilog_modules::ModuleReader;
use verilog_primitives::UdpReader;

/// What was read last of a file, and what is kept of it and of the part that is read.
#[derive(Drop)]
pub struct FileReader {
    pub phase: FilePhase,
    pub text: FileText,
    pub module_reader: ModuleReader,
    pub udp_reader: UdpReader,
}
