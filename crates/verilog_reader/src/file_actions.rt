//! What the items outside parts leave.
ghost use Rattle.std.specs.Prelude.{◌≡◌, ◌++◌, ◌∷◌, [], length, IfOk, OnOk};
ghost use Rattle.verilog_reader.specs.FileActions as spec;
ghost use Rattle.verilog_looks.specs.Does.{Does};

use crate::file_phase::FileAction;
use crate::file_text::{FileText, Opened};
use file_rules::{is_name, is_too_long};
use name_index::Names;
use std::alloc::Global;
use text_scan::{Items, LimitKind, Limits, Text};
use verilog_directives::Left;
use verilog_looks::{Halt, Refusal, content};

impl FileText {
    pub fn new(alloc: Global) -> FileText
        ensures { result ≡ spec.no_file }
    {
        FileText {
            names: Names::new(alloc),
            modules: Items::new(alloc),
            primitives: Items::new(alloc),
            opened: Opened::Line,
            name: Text::from_vec(Vec::new(alloc)),
        }
    }

    fn open(&mut self, opened: Opened) -> Result<(), Halt>
        ensures { Does result self.new (spec.begins opened self.old) }
    {
        self.opened = opened;
        Ok(())
    }

    fn count(&mut self, limits: &Limits, count: usize) -> Result<(), Halt>
        ensures { Does result self.new (spec.count limits.now count self.old) }
    {
        if (limits.cells as usize) <= count {
            return Err(Halt::Refused(Refusal::TooMany(LimitKind::Cells)));
        }
        Ok(())
    }

    // The name of a part.
    #[tactic(auto, unfolding(crate::specs::FileActions::name_part))]
    fn name_part(
        &mut self,
        alloc: Global,
        limits: &Limits,
        item: &Left,
        name: &[u8],
        opened: Opened,
    ) -> Result<(), Halt>
        ensures { Does result self.new (spec.name_part limits.now item.now name.now opened self.old) }
    {
        if is_too_long(limits, name) {
            return Err(Halt::Refused(Refusal::TooMany(LimitKind::Name)));
        }
        if !is_name(name) {
            return Err(Halt::Refused(Refusal::BadName(item.token)));
        }
        if self.names.contains(name) {
            return Err(Halt::Refused(Refusal::DoubleName(item.token)));
        }
        self.names.push(alloc, name)?;
        self.name = Text::from_bytes(alloc, name)?;
        self.opened = opened;
        Ok(())
    }

    /// What an item outside parts adds.
    #[tactic(auto, unfolding(crate::specs::FileActions::perform_file))]
    pub fn perform(
        &mut self,
        alloc: Global,
        source: &[u8],
        limits: &Limits,
        action: FileAction,
        item: &Left,
    ) -> Result<(), Halt>
        ensures { Does result self.new (spec.perform_file source.now limits.now action item.now self.old) }
    {
        let name = content(source, item.token);
        let modules = self.modules.len();
        let primitives = self.primitives.len();
        match action {
            FileAction::Keep => Ok(()),
            FileAction::BeginLine => self.open(Opened::Line),
            FileAction::CountModule => self.count(limits, modules),
            FileAction::CountPrimitive => self.count(limits, primitives),
            FileAction::NameModule => self.name_part(alloc, limits, item, name, Opened::Module),
            FileAction::NamePrimitive => {
                self.name_part(alloc, limits, item, name, Opened::Primitive)
            }
            FileAction::End => self.open(Opened::End),
        }
    }
}
