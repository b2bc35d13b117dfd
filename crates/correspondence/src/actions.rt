//! What lines add to the tables of a file.
ghost use Rattle.std.specs.Prelude.{◌≡◌, Some};
ghost use Rattle.file_rules.specs.Told.{Steps, TellsSome};
ghost use Rattle.correspondence.specs.Actions as spec;
ghost use Rattle.correspondence.specs.Left.{end_left, lines_left, placed, words_left};
ghost use Rattle.correspondence.specs.Parts as parts;
ghost use Rattle.correspondence.specs.Steps.{Unless};

use crate::kinds::LineKind;
use crate::lines::Lines;
use crate::names::{check_end, check_name, read_names};
use crate::parts::Parts;
use crate::table::{NamesLine, OpenTable};
use crate::values::read_row;
use crate::word::{Next, Word};
use file_rules::{at_token, too_many};
use name_index::Names;
use std::alloc::Global;
use std::mem;
use text_scan::{FileRefusal, Items, LimitKind, Limits, Text};

fn double_name(alloc: Global, word: Word<'_>) -> FileRefusal
    ensures { TellsSome result (Some (spec.double_name (placed word.entry))) }
{
    match Text::from_bytes(alloc, word.bytes) {
        Ok(name) => FileRefusal::DoubleName {
            name,
            line: word.token.span.line,
        },
        Err(_) => FileRefusal::NoMemory,
    }
}

impl NamesLine {
    fn none(alloc: Global) -> NamesLine
        ensures { result ≡ parts.no_names }
    {
        NamesLine {
            names: Items::new(alloc),
            line: 0,
        }
    }
}

impl OpenTable {
    // Of no cell.
    fn none(alloc: Global) -> OpenTable
        ensures { result ≡ parts.no_table }
    {
        OpenTable::of_cell(alloc, Text::from_vec(Vec::new(alloc)), 0)
    }

    fn of_cell(alloc: Global, cell: Text, line: u32) -> OpenTable
        ensures { result ≡ spec.table_of line cell }
    {
        OpenTable {
            cell,
            line,
            pins: NamesLine::none(alloc),
            xpins: NamesLine::none(alloc),
            state: NamesLine::none(alloc),
            udps: NamesLine::none(alloc),
            nodes: NamesLine::none(alloc),
            rows: Items::new(alloc),
        }
    }

    fn set_names(&mut self, kind: LineKind, names: NamesLine)
        ensures { self.new ≡ parts.with_names kind names self.old }
    {
        match kind {
            LineKind::Pins => self.pins = names,
            LineKind::Xpins => self.xpins = names,
            LineKind::State => self.state = names,
            LineKind::Udps => self.udps = names,
            LineKind::Nodes => self.nodes = names,
            _ => {}
        }
    }
}

impl Parts {
    pub fn new(alloc: Global) -> Parts
        ensures { result ≡ parts.nothing }
    {
        Parts {
            names: Names::new(alloc),
            tables: Items::new(alloc),
            current: OpenTable::none(alloc),
        }
    }

    // Whether the word can name the cell of a table.
    fn check_cell(&self, alloc: Global, limits: &Limits, word: Word<'_>) -> Result<(), FileRefusal>
        ensures { Unless result (spec.new_name_refusal limits.now self.now.names (placed word.entry)) }
    {
        if let Err(refusal) = check_name(limits, word) {
            return Err(refusal);
        }
        if self.names.contains(word.bytes) {
            return Err(double_name(alloc, word));
        }
        Ok(())
    }

    // The name of a table's cell, which is all that is left of the line.
    fn read_cell<'a>(
        &self,
        alloc: Global,
        limits: &Limits,
        lines: &mut Lines<'a>,
    ) -> Result<&'a [u8], FileRefusal>
        ensures cell { spec.ReadCell limits.now self.now.names (words_left lines.old) (end_left lines.old) result }
        ensures lines { lines_left lines.new ≡ lines_left lines.old }
    {
        match lines.next_word() {
            Next::LineEnd(token) => Err(at_token(token)),
            Next::Word(word) => {
                if let Err(refusal) = self.check_cell(alloc, limits, word) {
                    return Err(refusal);
                }
                match check_end(lines) {
                    Err(refusal) => Err(refusal),
                    Ok(()) => Ok(word.bytes),
                }
            }
        }
    }

    // Begins the table on the line with this number.
    fn begin(
        &mut self,
        alloc: Global,
        limits: &Limits,
        line: u32,
        lines: &mut Lines<'_>,
    ) -> Result<(), FileRefusal>
        ensures begun { Steps result self.new (spec.begin limits.now line (words_left lines.old) (end_left lines.old) self.old) }
        ensures lines { lines_left lines.new ≡ lines_left lines.old }
    {
        if limits.cells as usize <= self.tables.len() {
            return Err(too_many(limits, LimitKind::Cells));
        }
        match self.read_cell(alloc, limits, lines) {
            Err(refusal) => Err(refusal),
            Ok(cell) => {
                self.names.push(alloc, cell)?;
                self.current = OpenTable::of_cell(alloc, Text::from_bytes(alloc, cell)?, line);
                Ok(())
            }
        }
    }

    fn add_names(
        &mut self,
        alloc: Global,
        limits: &Limits,
        kind: LineKind,
        line: u32,
        lines: &mut Lines<'_>,
    ) -> Result<(), FileRefusal>
        ensures added { Steps result self.new (spec.add_names limits.now kind line (words_left lines.old) self.old) }
        ensures lines { lines_left lines.new ≡ lines_left lines.old }
    {
        match read_names(alloc, limits, line, lines) {
            Err(refusal) => Err(refusal),
            Ok(names) => {
                self.current.set_names(kind, names);
                Ok(())
            }
        }
    }

    fn add_row(
        &mut self,
        alloc: Global,
        line: u32,
        lines: &mut Lines<'_>,
    ) -> Result<(), FileRefusal>
        ensures added { Steps result self.new (spec.add_row line (words_left lines.old) (end_left lines.old) self.old) }
        ensures lines { lines_left lines.new ≡ lines_left lines.old }
    {
        match read_row(alloc, line, lines) {
            Err(refusal) => Err(refusal),
            Ok(row) => match self.current.rows.push(row) {
                Err(_) => Err(FileRefusal::NoMemory),
                Ok(()) => Ok(()),
            },
        }
    }

    fn close(&mut self, alloc: Global, lines: &mut Lines<'_>) -> Result<(), FileRefusal>
        ensures closed { Steps result self.new (spec.close (words_left lines.old) self.old) }
        ensures lines { lines_left lines.new ≡ lines_left lines.old }
    {
        if let Err(refusal) = check_end(lines) {
            return Err(refusal);
        }
        let table = mem::replace(&mut self.current, OpenTable::none(alloc));
        self.tables.push(table.made())?;
        Ok(())
    }

    /// Enters the line of this kind and number, which is read up to its first word.
    pub(crate) fn enter(
        &mut self,
        alloc: Global,
        limits: &Limits,
        kind: LineKind,
        line: u32,
        lines: &mut Lines<'_>,
    ) -> Result<(), FileRefusal>
        ensures entered { Steps result self.new (spec.enter_by limits.now kind line (words_left lines.old) (end_left lines.old) self.old) }
        ensures lines { lines_left lines.new ≡ lines_left lines.old }
    {
        match kind {
            LineKind::Table => self.begin(alloc, limits, line, lines),
            LineKind::Row => self.add_row(alloc, line, lines),
            LineKind::End => self.close(alloc, lines),
            LineKind::Other => Ok(()),
            LineKind::Pins => self.add_names(alloc, limits, LineKind::Pins, line, lines),
            LineKind::Xpins => self.add_names(alloc, limits, LineKind::Xpins, line, lines),
            LineKind::State => self.add_names(alloc, limits, LineKind::State, line, lines),
            LineKind::Udps => self.add_names(alloc, limits, LineKind::Udps, line, lines),
            LineKind::Nodes => self.add_names(alloc, limits, LineKind::Nodes, line, lines),
        }
    }
}
