//! What an item does where a reader of a module stands.
ghost use Rattle.std.specs.Prelude.{◌≡◌, ◌+◌, ◌<◌, ◌^◌, ◌==◌};
ghost use Rattle.verilog_modules.specs.ModuleMoves as spec;
ghost use Rattle.verilog_modules.specs.ModuleBounds.{IsBounded};

use crate::module_phase::{ModuleAction, ModuleMove, ModulePhase};
use verilog_looks::Look;

fn keep(phase: ModulePhase) -> ModuleMove
    ensures { result ≡ spec.keep phase }
{
    ModuleMove::Go(ModuleAction::Keep, phase)
}

fn at_header(look: Look) -> ModuleMove
    ensures { result ≡ spec.at_header look }
{
    match look {
        Look::Open => keep(ModulePhase::Ports),
        Look::Semicolon => keep(ModulePhase::Items),
        _ => ModuleMove::Stop,
    }
}

fn at_port(look: Look) -> ModuleMove
    ensures { result ≡ spec.at_port look }
{
    match look {
        Look::Input | Look::Output | Look::Inout => {
            ModuleMove::Go(ModuleAction::Direct, ModulePhase::PortNet)
        }
        Look::Name => ModuleMove::Go(ModuleAction::AddPort, ModulePhase::PortEnd),
        _ => ModuleMove::Stop,
    }
}

fn at_ports(look: Look) -> ModuleMove
    ensures { result ≡ spec.at_ports look }
{
    match look {
        Look::Close => keep(ModulePhase::HeaderEnd),
        _ => at_port(look),
    }
}

fn at_port_net(look: Look) -> ModuleMove
    ensures { result ≡ spec.at_port_net look }
{
    match look {
        Look::Wire | Look::Reg => keep(ModulePhase::PortName),
        _ => at_port_name(look),
    }
}

fn at_port_name(look: Look) -> ModuleMove
    ensures { result ≡ spec.at_port_name look }
{
    match look {
        Look::Name => ModuleMove::Go(ModuleAction::AddPort, ModulePhase::PortEnd),
        _ => ModuleMove::Stop,
    }
}

fn at_port_end(look: Look) -> ModuleMove
    ensures { result ≡ spec.at_port_end look }
{
    match look {
        Look::Comma => keep(ModulePhase::Port),
        Look::Close => keep(ModulePhase::HeaderEnd),
        _ => ModuleMove::Stop,
    }
}

fn at_header_end(look: Look) -> ModuleMove
    ensures { result ≡ spec.at_header_end look }
{
    match look {
        Look::Semicolon => keep(ModulePhase::Items),
        _ => ModuleMove::Stop,
    }
}

fn at_items(look: Look) -> ModuleMove
    ensures { result ≡ spec.at_items look }
{
    match look {
        Look::Input
        | Look::Output
        | Look::Inout
        | Look::Wire
        | Look::Reg
        | Look::Supply0
        | Look::Supply1 => ModuleMove::Go(ModuleAction::BeginDeclaration, ModulePhase::Name),
        Look::Name => ModuleMove::Go(
            ModuleAction::BeginPrimitive,
            ModulePhase::Kind { outputs: false },
        ),
        Look::Gate => ModuleMove::Go(
            ModuleAction::BeginGate,
            ModulePhase::Kind { outputs: false },
        ),
        Look::Buffer => {
            ModuleMove::Go(ModuleAction::BeginGate, ModulePhase::Kind { outputs: true })
        }
        Look::Specify => keep(ModulePhase::Specify),
        Look::EndModule => ModuleMove::Go(ModuleAction::EndModule, ModulePhase::Done),
        _ => ModuleMove::Stop,
    }
}

fn at_name(look: Look) -> ModuleMove
    ensures { result ≡ spec.at_name look }
{
    match look {
        Look::Name => ModuleMove::Go(ModuleAction::Declare, ModulePhase::NameEnd),
        _ => ModuleMove::Stop,
    }
}

fn at_name_end(look: Look) -> ModuleMove
    ensures { result ≡ spec.at_name_end look }
{
    match look {
        Look::Comma => keep(ModulePhase::Name),
        Look::Semicolon => keep(ModulePhase::Items),
        _ => ModuleMove::Stop,
    }
}

fn at_instance(outputs: bool, look: Look) -> ModuleMove
    ensures { result ≡ spec.at_instance outputs look }
{
    match look {
        Look::Name => ModuleMove::Go(ModuleAction::Label, ModulePhase::Labelled { outputs }),
        Look::Open => keep(ModulePhase::Output {
            outputs,
            labelled: false,
        }),
        _ => ModuleMove::Stop,
    }
}

fn at_kind(outputs: bool, look: Look) -> ModuleMove
    ensures { result ≡ spec.at_kind outputs look }
{
    match look {
        Look::Hash => keep(ModulePhase::Hash { outputs }),
        _ => at_instance(outputs, look),
    }
}

fn at_hash(outputs: bool, look: Look) -> ModuleMove
    ensures { result ≡ spec.at_hash outputs look }
{
    match look {
        Look::Number | Look::Zero | Look::One => keep(ModulePhase::Instance { outputs }),
        Look::Name => ModuleMove::Go(ModuleAction::CheckName, ModulePhase::Instance { outputs }),
        Look::Open => keep(ModulePhase::Delay { outputs, depth: 1 }),
        _ => ModuleMove::Stop,
    }
}

#[tactic(auto, unfolding(crate::specs::ModuleMoves::closed))]
fn closed(outputs: bool, depth: usize) -> ModulePhase
    ensures { result ≡ spec.closed outputs depth }
{
    if depth <= 1 {
        ModulePhase::Instance { outputs }
    } else {
        ModulePhase::Delay {
            outputs,
            depth: depth - 1,
        }
    }
}

fn at_delay(outputs: bool, depth: usize, look: Look) -> ModuleMove
    requires { depth + 1 < 2 ^ 64 }
    ensures { result ≡ spec.at_delay outputs depth look }
{
    match look {
        Look::Open => keep(ModulePhase::Delay {
            outputs,
            depth: depth + 1,
        }),
        Look::Close => keep(closed(outputs, depth)),
        Look::Barred | Look::End => ModuleMove::Stop,
        _ => keep(ModulePhase::Delay { outputs, depth }),
    }
}

fn at_labelled(outputs: bool, look: Look) -> ModuleMove
    ensures { result ≡ spec.at_labelled outputs look }
{
    match look {
        Look::Open => keep(ModulePhase::Output {
            outputs,
            labelled: true,
        }),
        _ => ModuleMove::Stop,
    }
}

fn naming(labelled: bool) -> ModuleAction
    ensures { result ≡ spec.naming labelled }
{
    if labelled {
        ModuleAction::AddNet
    } else {
        ModuleAction::AddOutput
    }
}

fn at_output(outputs: bool, labelled: bool, look: Look) -> ModuleMove
    ensures { result ≡ spec.at_output outputs labelled look }
{
    match look {
        Look::Name => ModuleMove::Go(naming(labelled), ModulePhase::TerminalEnd { outputs }),
        _ => ModuleMove::Stop,
    }
}

fn after_constant(outputs: bool) -> ModulePhase
    ensures { result ≡ spec.after_constant outputs }
{
    if outputs {
        ModulePhase::Last { outputs: true }
    } else {
        ModulePhase::TerminalEnd { outputs: false }
    }
}

fn at_terminal(outputs: bool, look: Look) -> ModuleMove
    ensures { result ≡ spec.at_terminal outputs look }
{
    match look {
        Look::Name => ModuleMove::Go(ModuleAction::AddNet, ModulePhase::TerminalEnd { outputs }),
        Look::Zero | Look::One => {
            ModuleMove::Go(ModuleAction::AddConstant, after_constant(outputs))
        }
        _ => ModuleMove::Stop,
    }
}

fn at_terminal_end(outputs: bool, look: Look) -> ModuleMove
    ensures { result ≡ spec.at_terminal_end outputs look }
{
    match look {
        Look::Comma => keep(ModulePhase::Terminal { outputs }),
        _ => at_last(outputs, look),
    }
}

fn at_last(outputs: bool, look: Look) -> ModuleMove
    ensures { result ≡ spec.at_last outputs look }
{
    match look {
        Look::Close => ModuleMove::Go(
            ModuleAction::EndInstance,
            ModulePhase::InstanceEnd { outputs },
        ),
        _ => ModuleMove::Stop,
    }
}

fn at_instance_end(outputs: bool, look: Look) -> ModuleMove
    ensures { result ≡ spec.at_instance_end outputs look }
{
    match look {
        Look::Comma => keep(ModulePhase::Instance { outputs }),
        Look::Semicolon => keep(ModulePhase::Items),
        _ => ModuleMove::Stop,
    }
}

fn at_specify(line: u32, look: Look) -> ModuleMove
    ensures { result ≡ spec.at_specify line look }
{
    match look {
        Look::EndSpecify => keep(ModulePhase::Items),
        Look::Macro => keep(ModulePhase::SpecifyLine { line }),
        Look::Barred | Look::End => ModuleMove::Stop,
        _ => keep(ModulePhase::Specify),
    }
}

fn beside(line: u32, look: Look) -> ModuleMove
    ensures { result ≡ spec.beside line look }
{
    match look {
        Look::Barred | Look::End => ModuleMove::Stop,
        _ => keep(ModulePhase::SpecifyLine { line }),
    }
}

fn at_specify_line(begun: u32, line: u32, look: Look) -> ModuleMove
    ensures { result ≡ spec.at_specify_line (line == begun) begun line look }
{
    if line == begun {
        beside(begun, look)
    } else {
        at_specify(line, look)
    }
}

// Where instances are read.
fn instance_move(phase: ModulePhase, look: Look) -> ModuleMove
    requires { IsBounded phase }
    ensures { result ≡ spec.instance_move phase look }
{
    match phase {
        ModulePhase::Kind { outputs } => at_kind(outputs, look),
        ModulePhase::Hash { outputs } => at_hash(outputs, look),
        ModulePhase::Delay { outputs, depth } => at_delay(outputs, depth, look),
        ModulePhase::Instance { outputs } => at_instance(outputs, look),
        ModulePhase::Labelled { outputs } => at_labelled(outputs, look),
        ModulePhase::Output { outputs, labelled } => at_output(outputs, labelled, look),
        ModulePhase::Terminal { outputs } => at_terminal(outputs, look),
        ModulePhase::TerminalEnd { outputs } => at_terminal_end(outputs, look),
        ModulePhase::Last { outputs } => at_last(outputs, look),
        ModulePhase::InstanceEnd { outputs } => at_instance_end(outputs, look),
        _ => ModuleMove::Stop,
    }
}

/// What an item on this line does that looks so.
pub fn module_move(phase: ModulePhase, line: u32, look: Look) -> ModuleMove
    requires { IsBounded phase }
    ensures { result ≡ spec.module_move phase line look }
{
    match phase {
        ModulePhase::Header => at_header(look),
        ModulePhase::Ports => at_ports(look),
        ModulePhase::Port => at_port(look),
        ModulePhase::PortNet => at_port_net(look),
        ModulePhase::PortName => at_port_name(look),
        ModulePhase::PortEnd => at_port_end(look),
        ModulePhase::HeaderEnd => at_header_end(look),
        ModulePhase::Items => at_items(look),
        ModulePhase::Name => at_name(look),
        ModulePhase::NameEnd => at_name_end(look),
        ModulePhase::Specify => at_specify(line, look),
        ModulePhase::SpecifyLine { line: begun } => at_specify_line(begun, line, look),
        _ => instance_move(phase, look),
    }
}
