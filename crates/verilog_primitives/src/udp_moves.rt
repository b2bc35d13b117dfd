//! What an item does where a reader of a primitive stands.
ghost use Rattle.std.specs.Prelude.{◌≡◌};
ghost use Rattle.verilog_primitives.specs.UdpMoves as spec;

use crate::udp_phase::{UdpAction, UdpMove, UdpPhase};
use verilog_looks::Look;

fn keep(phase: UdpPhase) -> UdpMove
    ensures { result ≡ spec.keep phase }
{
    UdpMove::Go(UdpAction::Keep, phase)
}

fn at_header(look: Look) -> UdpMove
    ensures { result ≡ spec.at_header look }
{
    match look {
        Look::Open => keep(UdpPhase::Port),
        _ => UdpMove::Stop,
    }
}

fn at_port_name(look: Look) -> UdpMove
    ensures { result ≡ spec.at_port_name look }
{
    match look {
        Look::Name => UdpMove::Go(UdpAction::AddPort, UdpPhase::PortEnd),
        _ => UdpMove::Stop,
    }
}

fn at_output_port(look: Look) -> UdpMove
    ensures { result ≡ spec.at_output_port look }
{
    match look {
        Look::Reg => UdpMove::Go(UdpAction::BeginOutputReg, UdpPhase::PortName),
        _ => at_port_name(look),
    }
}

fn at_port(look: Look) -> UdpMove
    ensures { result ≡ spec.at_port look }
{
    match look {
        Look::Output => UdpMove::Go(UdpAction::BeginOutput, UdpPhase::OutputPort),
        Look::Input => UdpMove::Go(UdpAction::BeginInput, UdpPhase::PortName),
        _ => at_port_name(look),
    }
}

fn at_port_end(look: Look) -> UdpMove
    ensures { result ≡ spec.at_port_end look }
{
    match look {
        Look::Comma => keep(UdpPhase::Port),
        Look::Close => keep(UdpPhase::HeaderEnd),
        _ => UdpMove::Stop,
    }
}

fn at_header_end(look: Look) -> UdpMove
    ensures { result ≡ spec.at_header_end look }
{
    match look {
        Look::Semicolon => keep(UdpPhase::Declarations),
        _ => UdpMove::Stop,
    }
}

fn at_table_word(look: Look) -> UdpMove
    ensures { result ≡ spec.at_table_word look }
{
    match look {
        Look::Table => keep(UdpPhase::Rows),
        _ => UdpMove::Stop,
    }
}

fn at_declarations(look: Look) -> UdpMove
    ensures { result ≡ spec.at_declarations look }
{
    match look {
        Look::Output | Look::Reg | Look::Input => {
            UdpMove::Go(UdpAction::BeginDeclaration, UdpPhase::Name)
        }
        Look::Initial => keep(UdpPhase::Initial),
        _ => at_table_word(look),
    }
}

fn at_name(look: Look) -> UdpMove
    ensures { result ≡ spec.at_name look }
{
    match look {
        Look::Name => UdpMove::Go(UdpAction::Declare, UdpPhase::NameEnd),
        _ => UdpMove::Stop,
    }
}

fn at_name_end(look: Look) -> UdpMove
    ensures { result ≡ spec.at_name_end look }
{
    match look {
        Look::Comma => keep(UdpPhase::Name),
        Look::Semicolon => keep(UdpPhase::Declarations),
        _ => UdpMove::Stop,
    }
}

fn at_initial(look: Look) -> UdpMove
    ensures { result ≡ spec.at_initial look }
{
    match look {
        Look::Semicolon => keep(UdpPhase::TableWord),
        Look::Barred | Look::End => UdpMove::Stop,
        _ => keep(UdpPhase::Initial),
    }
}

fn at_row(symbols: bool, look: Look) -> UdpMove
    ensures { result ≡ spec.at_row symbols look }
{
    if symbols {
        return UdpMove::Go(UdpAction::AddSymbols, UdpPhase::Row);
    }
    match look {
        Look::Semicolon => UdpMove::Go(UdpAction::EndRow, UdpPhase::Rows),
        _ => UdpMove::Stop,
    }
}

fn at_rows(symbols: bool, look: Look) -> UdpMove
    ensures { result ≡ spec.at_rows symbols look }
{
    match look {
        Look::EndTable => keep(UdpPhase::TableEnd),
        _ => at_row(symbols, look),
    }
}

fn at_table_end(look: Look) -> UdpMove
    ensures { result ≡ spec.at_table_end look }
{
    match look {
        Look::EndPrimitive => keep(UdpPhase::Done),
        _ => UdpMove::Stop,
    }
}

fn table_move(phase: UdpPhase, symbols: bool, look: Look) -> UdpMove
    ensures { result ≡ spec.table_move phase symbols look }
{
    match phase {
        UdpPhase::Initial => at_initial(look),
        UdpPhase::TableWord => at_table_word(look),
        UdpPhase::Rows => at_rows(symbols, look),
        UdpPhase::Row => at_row(symbols, look),
        UdpPhase::TableEnd => at_table_end(look),
        _ => UdpMove::Stop,
    }
}

/// What an item does that looks so, by whether it is symbols of a table.
pub fn udp_move(phase: UdpPhase, symbols: bool, look: Look) -> UdpMove
    ensures { result ≡ spec.udp_move phase symbols look }
{
    match phase {
        UdpPhase::Header => at_header(look),
        UdpPhase::Port => at_port(look),
        UdpPhase::OutputPort => at_output_port(look),
        UdpPhase::PortName => at_port_name(look),
        UdpPhase::PortEnd => at_port_end(look),
        UdpPhase::HeaderEnd => at_header_end(look),
        UdpPhase::Declarations => at_declarations(look),
        UdpPhase::Name => at_name(look),
        UdpPhase::NameEnd => at_name_end(look),
        _ => table_move(phase, symbols, look),
    }
}
