//! Reads a user-defined primitive after its name, an item at a time.
ghost use Rattle.std.specs.Prelude.{◌≡◌};
ghost use Rattle.verilog_primitives.specs.UdpMoves as spec;
ghost use Rattle.verilog_looks.specs.Looks as looks;
ghost use Rattle.verilog_looks.specs.Does.{Leads};

use crate::udp_moves::udp_move;
use crate::udp_phase::{UdpMove, UdpPhase};
use crate::udp_text::PrimitiveText;
use std::alloc::Global;
use text_scan::Limits;
use verilog_directives::Left;
use verilog_looks::{Halt, Look, look_of, text};

/// What was read last of a primitive, and what is kept of it.
#[derive(Drop)]
pub struct UdpReader {
    pub phase: UdpPhase,
    pub text: PrimitiveText,
}

#[tactic(auto, unfolding(verilog_looks::specs::Looks::is_symbol))]
fn is_symbol(byte: u8) -> bool
    ensures { result ≡ looks.is_symbol byte }
{
    matches!(
        byte,
        b'0' | b'1'
            | b'x'
            | b'X'
            | b'?'
            | b'b'
            | b'B'
            | b'-'
            | b'r'
            | b'R'
            | b'f'
            | b'F'
            | b'p'
            | b'P'
            | b'n'
            | b'N'
            | b'*'
            | b':'
            | b'('
            | b')'
    )
}

fn is_symbolic(look: Look) -> bool
    ensures { result ≡ looks.is_symbolic look }
{
    matches!(
        look,
        Look::Name | Look::Zero | Look::One | Look::Number | Look::Open | Look::Close | Look::Other
    )
}

#[tactic(auto, unfolding(verilog_looks::specs::Looks::are_symbols))]
fn are_symbols(source: &[u8], item: &Left) -> bool
    ensures { result ≡ looks.are_symbols source.now item.now }
{
    is_symbolic(look_of(source, item)) && has_symbols(text(source, item.token))
}

fn has_symbols(bytes: &[u8]) -> bool
    ensures { result ≡ looks.has_symbols bytes.now }
{
    bytes.iter().all(|byte| is_symbol(*byte))
}

impl UdpReader {
    /// Stands after a primitive's name.
    pub fn new(alloc: Global) -> UdpReader
        ensures { result ≡ spec.begun }
    {
        UdpReader {
            phase: UdpPhase::Header,
            text: PrimitiveText::new(alloc),
        }
    }

    /// Takes the next item of the source.
    #[tactic(auto, unfolding(crate::specs::UdpMoves::taken))]
    pub fn take(
        &mut self,
        alloc: Global,
        source: &[u8],
        limits: &Limits,
        item: &Left,
    ) -> Result<(), Halt>
        ensures { Leads result self.new (spec.taken source.now limits.now item.now self.old) }
    {
        match udp_move(self.phase, are_symbols(source, item), look_of(source, item)) {
            UdpMove::Stop => Err(Halt::Syntax),
            UdpMove::Go(action, phase) => {
                self.text.perform(alloc, source, limits, action, item)?;
                self.phase = phase;
                Ok(())
            }
        }
    }

    /// Whether the primitive has ended.
    pub fn is_done(&self) -> bool
        ensures { result ≡ spec.is_done self.now.phase }
    {
        matches!(self.phase, UdpPhase::Done)
    }
}
