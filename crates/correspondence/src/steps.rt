//! What a reader does at a line.
ghost use Rattle.std.specs.Prelude.{◌≡◌, []};
ghost use Rattle.file_rules.specs.Told.{Steps};
ghost use Rattle.correspondence.specs.Left.{line_with, lines_left, placed};
ghost use Rattle.correspondence.specs.Parts.{nothing};
ghost use Rattle.correspondence.specs.Steps as spec;
ghost use Rattle.correspondence.specs.declared.kinds.LineKind.TheVariants as kinds;

use crate::kinds::{LineKind, kind_of_word};
use crate::lines::Lines;
use crate::parts::{Parts, Reader};
use crate::word::Word;
use file_rules::at_token;
use std::alloc::Global;
use text_scan::{FileRefusal, Limits};

impl Reader {
    pub(crate) fn new(alloc: Global) -> Reader
        ensures last { result.last ≡ kinds.End }
        ensures parts { result.parts ≡ nothing }
    {
        Reader {
            last: LineKind::End,
            parts: Parts::new(alloc),
        }
    }

    /// Takes the line with this first word.
    #[tactic(auto, unfolding(crate::specs::Steps::taken, crate::specs::Actions::enter))]
    pub(crate) fn take<'a>(
        &mut self,
        alloc: Global,
        limits: &Limits,
        first: Word<'a>,
        lines: &mut Lines<'a>,
    ) -> Result<(), FileRefusal>
        ensures taken { Steps result self.new (spec.taken limits.now (line_with (placed first.entry) lines.old) self.old) }
        ensures lines { lines_left lines.new ≡ lines_left lines.old }
    {
        let kind = kind_of_word(first.bytes);
        if !kind.follows(self.last) {
            return Err(at_token(first.token));
        }
        match self
            .parts
            .enter(alloc, limits, kind, first.token.span.line, lines)
        {
            Err(refusal) => Err(refusal),
            Ok(()) => {
                self.last = kind;
                Ok(())
            }
        }
    }
}
