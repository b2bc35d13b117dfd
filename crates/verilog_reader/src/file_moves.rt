//! What an item outside parts does.
ghost use Rattle.std.specs.Prelude.{◌≡◌, ◌==◌};
ghost use Rattle.verilog_reader.specs.FileSteps as spec;

use crate::file_phase::{FileAction, FileMove, FilePhase};
use verilog_looks::Look;

fn at_top(line: u32, look: Look) -> FileMove
    ensures { result ≡ spec.at_top line look }
{
    match look {
        Look::Macro => FileMove::Go(FileAction::BeginLine, FilePhase::Line { line }),
        Look::Module => FileMove::Go(FileAction::CountModule, FilePhase::ModuleWord),
        Look::Primitive => FileMove::Go(FileAction::CountPrimitive, FilePhase::PrimitiveWord),
        Look::End => FileMove::Go(FileAction::End, FilePhase::Done),
        _ => FileMove::Stop,
    }
}

fn on_line(begun: u32, line: u32, look: Look) -> FileMove
    ensures { result ≡ spec.on_line begun line look }
{
    match look {
        Look::Barred => FileMove::Stop,
        Look::End => at_top(line, look),
        _ => FileMove::Go(FileAction::Keep, FilePhase::Line { line: begun }),
    }
}

fn at_line(begun: u32, line: u32, look: Look) -> FileMove
    ensures { result ≡ spec.at_line (line == begun) begun line look }
{
    if line == begun {
        on_line(begun, line, look)
    } else {
        at_top(line, look)
    }
}

fn at_module_word(look: Look) -> FileMove
    ensures { result ≡ spec.at_module_word look }
{
    match look {
        Look::Name => FileMove::Go(FileAction::NameModule, FilePhase::Module),
        _ => FileMove::Stop,
    }
}

fn at_primitive_word(look: Look) -> FileMove
    ensures { result ≡ spec.at_primitive_word look }
{
    match look {
        Look::Name => FileMove::Go(FileAction::NamePrimitive, FilePhase::Primitive),
        _ => FileMove::Stop,
    }
}

/// What an item on this line does that looks so.
pub fn file_move(phase: FilePhase, line: u32, look: Look) -> FileMove
    ensures { result ≡ spec.file_move phase line look }
{
    match phase {
        FilePhase::Top => at_top(line, look),
        FilePhase::Line { line: begun } => at_line(begun, line, look),
        FilePhase::ModuleWord => at_module_word(look),
        FilePhase::PrimitiveWord => at_primitive_word(look),
        _ => FileMove::Stop,
    }
}
