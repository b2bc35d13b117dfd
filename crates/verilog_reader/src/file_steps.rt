//! What an item changes in a reader of a file.
ghost use Rattle.std.specs.Prelude.{◌≡◌};
ghost use Rattle.verilog_modules.specs.ModuleBounds.{IsBounded};
ghost use Rattle.verilog_modules.specs.ModuleMoves as modules;
ghost use Rattle.verilog_primitives.specs.UdpMoves as udps;
ghost use Rattle.verilog_looks.specs.Looks as looks;
ghost use Rattle.verilog_reader.specs.FileSteps as spec;
ghost use Rattle.file_rules.specs.Told.{Steps};
ghost use Rattle.verilog_reader.specs.declared.file_phase.FileMove.TheVariants as file_moves;
ghost use Rattle.verilog_looks.specs.declared.halt.Refusal.TheVariants as part_refusals;

use crate::file_moves::file_move;
use crate::file_phase::{FileAction, FileMove, FilePhase};
use crate::file_reader::FileReader;
use crate::file_text::FileText;
use crate::refusals::{item_refusal, told_refusal};
use std::alloc::Global;
use std::mem;
use text_scan::{FileRefusal, Limits, Text};
use verilog_directives::Left;
use verilog_looks::{Halt, Look, Refusal, look_of, word_of};
use verilog_modules::ModuleReader;
use verilog_primitives::UdpReader;

fn is_passed(look: Look) -> bool
    ensures { result ≡ looks.is_passed look }
{
    !matches!(look, Look::Barred | Look::End)
}

impl FileReader {
    pub fn new(alloc: Global) -> FileReader
        ensures { result ≡ spec.file_begun }
    {
        FileReader {
            phase: FilePhase::Top,
            text: FileText::new(alloc),
            module_reader: ModuleReader::new(alloc),
            udp_reader: UdpReader::new(alloc),
        }
    }

    // ---- outside parts

    fn act(
        &mut self,
        alloc: Global,
        source: &[u8],
        limits: &Limits,
        item: &Left,
        action: FileAction,
        phase: FilePhase,
    ) -> Result<(), FileRefusal>
        ensures { Steps result self.new (spec.outside_step source.now limits.now item.now self.old (file_moves.Go action phase)) }
    {
        match self.text.perform(alloc, source, limits, action, item) {
            Ok(()) => {
                self.phase = phase;
                self.module_reader = ModuleReader::new(alloc);
                self.udp_reader = UdpReader::new(alloc);
                Ok(())
            }
            Err(Halt::NoMemory) => Err(FileRefusal::NoMemory),
            Err(Halt::Syntax) => Err(item_refusal(limits, item)),
            Err(Halt::Refused(refusal)) => {
                Err(told_refusal(alloc, source, limits, refusal, item))
            }
        }
    }

    fn take_outside(
        &mut self,
        alloc: Global,
        source: &[u8],
        limits: &Limits,
        item: &Left,
    ) -> Result<(), FileRefusal>
        ensures { Steps result self.new (spec.outside_step source.now limits.now item.now self.old (spec.file_move self.old.phase item.now.token.span.line (looks.look_of source.now item.now))) }
    {
        match file_move(self.phase, item.token.span.line, look_of(source, item)) {
            FileMove::Stop => Err(item_refusal(limits, item)),
            FileMove::Go(action, phase) => self.act(alloc, source, limits, item, action, phase),
        }
    }

    // ---- the rest of a part that is refused

    fn take_rest(&mut self, limits: &Limits, item: &Left, look: Look) -> Result<(), FileRefusal>
        ensures { Steps result self.new (spec.rest_step limits.now item.now look self.old) }
    {
        match look {
            Look::EndModule | Look::EndPrimitive => {
                self.phase = FilePhase::Top;
                Ok(())
            }
            Look::Barred | Look::End => Err(item_refusal(limits, item)),
            _ => {
                self.phase = FilePhase::Rest;
                Ok(())
            }
        }
    }

    // Stands in a part that is refused.
    fn skip(&mut self, alloc: Global)
        ensures { self.new ≡ spec.skipping self.old }
    {
        self.phase = FilePhase::Rest;
        self.module_reader = ModuleReader::new(alloc);
        self.udp_reader = UdpReader::new(alloc);
    }

    // ---- modules

    fn end_module(&mut self, alloc: Global) -> Result<(), FileRefusal>
        ensures { Steps result self.new (spec.ended_module self.old) }
    {
        let ModuleReader { phase: _, text } = mem::replace(
            &mut self.module_reader,
            ModuleReader::new(alloc),
        );
        self.text.add_module(alloc, text)?;
        self.phase = FilePhase::Top;
        Ok(())
    }

    fn refuse_module(
        &mut self,
        alloc: Global,
        source: &[u8],
        limits: &Limits,
        item: &Left,
        construct: Text,
    ) -> Result<(), FileRefusal>
        ensures { Steps result self.new (spec.refuse_module source.now limits.now item.now self.old construct) }
    {
        self.text
            .refuse_module(alloc, construct, item.token.span.line)?;
        self.skip(alloc);
        self.take_rest(limits, item, look_of(source, item))
    }

    fn refuse_module_here(
        &mut self,
        alloc: Global,
        source: &[u8],
        limits: &Limits,
        item: &Left,
    ) -> Result<(), FileRefusal>
        ensures { Steps result self.new (spec.module_refused source.now limits.now item.now self.old part_refusals.Here) }
    {
        let word = word_of(alloc, source, item)?;
        self.refuse_module(alloc, source, limits, item, word)
    }

    fn stop_module(
        &mut self,
        alloc: Global,
        source: &[u8],
        limits: &Limits,
        item: &Left,
    ) -> Result<(), FileRefusal>
        ensures { Steps result self.new (spec.stop_module source.now limits.now item.now self.old) }
    {
        if !is_passed(look_of(source, item)) {
            return Err(item_refusal(limits, item));
        }
        self.refuse_module_here(alloc, source, limits, item)
    }

    fn module_refused(
        &mut self,
        alloc: Global,
        source: &[u8],
        limits: &Limits,
        item: &Left,
        refusal: Refusal,
    ) -> Result<(), FileRefusal>
        ensures { Steps result self.new (spec.module_refused source.now limits.now item.now self.old refusal) }
    {
        match refusal {
            Refusal::Here => self.refuse_module_here(alloc, source, limits, item),
            Refusal::NoDirection(name) => self.refuse_module(alloc, source, limits, item, name),
            refusal => Err(told_refusal(alloc, source, limits, refusal, item)),
        }
    }

    fn take_in_module(
        &mut self,
        alloc: Global,
        source: &[u8],
        limits: &Limits,
        item: &Left,
    ) -> Result<(), FileRefusal>
        requires { IsBounded self.old.module_reader.phase }
        ensures { Steps result self.new (spec.in_module source.now limits.now item.now self.old (modules.taken source.now limits.now item.now self.old.module_reader)) }
    {
        match self.module_reader.take(alloc, source, limits, item) {
            Ok(()) => {
                if self.module_reader.is_done() {
                    return self.end_module(alloc);
                }
                Ok(())
            }
            Err(Halt::NoMemory) => Err(FileRefusal::NoMemory),
            Err(Halt::Syntax) => self.stop_module(alloc, source, limits, item),
            Err(Halt::Refused(refusal)) => {
                self.module_refused(alloc, source, limits, item, refusal)
            }
        }
    }

    // ---- primitives

    fn end_udp(&mut self, alloc: Global) -> Result<(), FileRefusal>
        ensures { Steps result self.new (spec.ended_udp self.old) }
    {
        let UdpReader { phase: _, text } = mem::replace(
            &mut self.udp_reader,
            UdpReader::new(alloc),
        );
        self.text.add_udp(alloc, text)?;
        self.phase = FilePhase::Top;
        Ok(())
    }

    fn refuse_udp(
        &mut self,
        alloc: Global,
        source: &[u8],
        limits: &Limits,
        item: &Left,
        construct: Text,
    ) -> Result<(), FileRefusal>
        ensures { Steps result self.new (spec.refuse_udp source.now limits.now item.now self.old construct) }
    {
        self.text
            .refuse_udp(alloc, construct, item.token.span.line)?;
        self.skip(alloc);
        self.take_rest(limits, item, look_of(source, item))
    }

    fn refuse_udp_here(
        &mut self,
        alloc: Global,
        source: &[u8],
        limits: &Limits,
        item: &Left,
    ) -> Result<(), FileRefusal>
        ensures { Steps result self.new (spec.udp_refused source.now limits.now item.now self.old part_refusals.Here) }
    {
        let word = word_of(alloc, source, item)?;
        self.refuse_udp(alloc, source, limits, item, word)
    }

    fn stop_udp(
        &mut self,
        alloc: Global,
        source: &[u8],
        limits: &Limits,
        item: &Left,
    ) -> Result<(), FileRefusal>
        ensures { Steps result self.new (spec.stop_udp source.now limits.now item.now self.old) }
    {
        if !is_passed(look_of(source, item)) {
            return Err(item_refusal(limits, item));
        }
        self.refuse_udp_here(alloc, source, limits, item)
    }

    fn udp_refused(
        &mut self,
        alloc: Global,
        source: &[u8],
        limits: &Limits,
        item: &Left,
        refusal: Refusal,
    ) -> Result<(), FileRefusal>
        ensures { Steps result self.new (spec.udp_refused source.now limits.now item.now self.old refusal) }
    {
        match refusal {
            Refusal::Here => self.refuse_udp_here(alloc, source, limits, item),
            Refusal::NoDirection(name) => self.refuse_udp(alloc, source, limits, item, name),
            refusal => Err(told_refusal(alloc, source, limits, refusal, item)),
        }
    }

    fn take_in_udp(
        &mut self,
        alloc: Global,
        source: &[u8],
        limits: &Limits,
        item: &Left,
    ) -> Result<(), FileRefusal>
        ensures { Steps result self.new (spec.in_udp source.now limits.now item.now self.old (udps.taken source.now limits.now item.now self.old.udp_reader)) }
    {
        match self.udp_reader.take(alloc, source, limits, item) {
            Ok(()) => {
                if self.udp_reader.is_done() {
                    return self.end_udp(alloc);
                }
                Ok(())
            }
            Err(Halt::NoMemory) => Err(FileRefusal::NoMemory),
            Err(Halt::Syntax) => self.stop_udp(alloc, source, limits, item),
            Err(Halt::Refused(refusal)) => {
                self.udp_refused(alloc, source, limits, item, refusal)
            }
        }
    }

    // ---- all of them

    /// Takes the next item of the source.
    pub fn take(
        &mut self,
        alloc: Global,
        source: &[u8],
        limits: &Limits,
        item: &Left,
    ) -> Result<(), FileRefusal>
        requires { IsBounded self.old.module_reader.phase }
        ensures { Steps result self.new (spec.file_taken source.now limits.now item.now self.old.phase self.old) }
    {
        match self.phase {
            FilePhase::Module => self.take_in_module(alloc, source, limits, item),
            FilePhase::Primitive => self.take_in_udp(alloc, source, limits, item),
            FilePhase::Rest => self.take_rest(limits, item, look_of(source, item)),
            _ => self.take_outside(alloc, source, limits, item),
        }
    }

    /// Whether the whole file was read.
    pub fn is_done(&self) -> bool
        ensures { result ≡ spec.is_done self.now.phase }
    {
        matches!(self.phase, FilePhase::Done)
    }
}
