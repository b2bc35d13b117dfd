// The command that the words say.
ghost use Rattle.std.specs.Prelude.{◌≡◌, ◌++◌, ◌<◌, ◌^◌, [], length, IfOk, OnOk, Some, None, if◌then◌else◌, bytes_eq};
ghost use Rattle.qual_core.specs.Names.{is_among};
ghost use Rattle.qual_core.specs.Command as spec;
ghost use Rattle.qual_core.specs.Command.{texts, options, place_from, with_place};

use std::alloc::Global;
use text_scan::{Items, NoMemory, Text};

/// What the program is to do.
#[derive(Clone, Copy, Debug, PartialEq, Eq)]
pub enum CommandName {
    /// Compares the cells of a Liberty library with the Verilog modules of their names.
    Compare,
}

/// A file that an option names.
#[derive(Clone, Copy, Debug, PartialEq, Eq)]
pub(crate) enum FileOption {
    Liberty,
    Verilog,
}

/// An option of a command.
#[derive(Clone, Copy, Debug, PartialEq, Eq)]
pub(crate) enum CommandOption {
    /// Its value is the name of a file.
    File(FileOption),
}

/// A command with what it is to be done on.
#[derive(Debug, Drop)]
pub struct Command {
    pub name: CommandName,
    /// In reading order the options that name files, without `--`, each with the position of the
    /// file's name among the words, counted from 0.
    pub files: Items<(Text, usize)>,
}

impl CommandName {
    fn word(self) -> &'static str
        ensures { result.now ≡ spec.command_word self }
    {
        match self {
            CommandName::Compare => "compare",
        }
    }

    // The options that the command must have.
    fn needed(self) -> &'static [CommandOption]
        ensures { result.now ≡ spec.needed self }
    {
        match self {
            CommandName::Compare => &[
                CommandOption::File(FileOption::Liberty),
                CommandOption::File(FileOption::Verilog),
            ],
        }
    }

    // The options that the command may have.
    fn optional(self) -> &'static [CommandOption]
        ensures { result.now ≡ spec.optional self }
    {
        match self {
            CommandName::Compare => &[],
        }
    }

    // The command's option of this word.
    fn option_of(self, word: &str) -> Option<CommandOption>
        ensures { result ≡ spec.option_of self word.now }
    {
        match option_among(self.needed(), word) {
            Some(option) => Some(option),
            None => option_among(self.optional(), word),
        }
    }
}

impl FileOption {
    // The files that options may name, in reading order.
    fn all() -> &'static [FileOption]
        ensures { result.now ≡ spec.all_files }
    {
        &[FileOption::Liberty, FileOption::Verilog]
    }

    pub(crate) fn word(self) -> &'static str
        ensures { result.now ≡ spec.file_word self }
    {
        match self {
            FileOption::Liberty => "liberty",
            FileOption::Verilog => "verilog",
        }
    }

    fn option(self) -> &'static str
        ensures { result.now ≡ spec.file_option self }
    {
        match self {
            FileOption::Liberty => "--liberty",
            FileOption::Verilog => "--verilog",
        }
    }
}

impl CommandOption {
    fn word(self) -> &'static str
        ensures { result.now ≡ spec.option_word self }
    {
        match self {
            CommandOption::File(file) => file.option(),
        }
    }

    // Whether the option takes the value.
    fn takes(self, value: &str) -> bool
        ensures { result ≡ spec.is_value_of self value.now }
    {
        match self {
            CommandOption::File(_) => is_file_name(value),
        }
    }
}

fn is_file_name(word: &str) -> bool
    ensures { result ≡ spec.is_file_name word.now }
{
    1 <= word.len() && word.len() <= 4096
}

// The option of this word.
fn option_among(options: &[CommandOption], word: &str) -> Option<CommandOption>
    ensures { result ≡ spec.option_among options.now word.now }
{
    for option in options {
        if option.word() == word {
            return Some(*option);
        }
    }
    None
}

// Whether the option is one of the pairs.
#[tactic(auto, using(crate::proofs::Words::word_lemmas))]
fn has_option(pairs: &[String], wanted: &str) -> bool
    ensures { result ≡ is_among (options (texts pairs.now)) wanted.now }
{
    let mut left = pairs;
    while let [option, _, rest @ ..] = left {
        if option.as_str() == wanted {
            return true;
        }
        left = rest;
    }
    false
}

// Whether the command has the option, it takes the value, and it doesn't come again.
fn is_option_of(name: CommandName, option: &str, value: &str, rest: &[String]) -> bool
    ensures { result ≡ spec.is_option_of name option.now value.now (texts rest.now) }
{
    match name.option_of(option) {
        Some(known) => known.takes(value) && !has_option(rest, option),
        None => false,
    }
}

// Whether the words are pairs of the command's options and values that they take, with no option twice.
#[tactic(auto, using(crate::proofs::Words::options_end))]
fn are_options_of(name: CommandName, pairs: &[String]) -> bool
    ensures { result ≡ spec.are_options_of name (texts pairs.now) }
{
    let mut left = pairs;
    while let [option, value, rest @ ..] = left {
        // No more pairs than there are options get this far.
        if !is_option_of(name, option, value, rest) {
            return false;
        }
        left = rest;
    }
    left.is_empty()
}

// Whether each option that the command needs is there.
fn has_needed(name: CommandName, pairs: &[String]) -> bool
    ensures { result ≡ spec.has_needed name (texts pairs.now) }
{
    for option in name.needed() {
        if !has_option(pairs, option.word()) {
            return false;
        }
    }
    true
}

// The place of the value beside an option, where the first of the pairs stands at 1.
#[tactic(auto, using(crate::proofs::Words::word_lemmas))]
fn place_in(pairs: &[String], wanted: &str) -> Option<usize>
    requires { length pairs.now < 2 ^ 63 }
    ensures { result ≡ place_from 1 (texts pairs.now) wanted.now }
{
    let mut left = pairs;
    while let [option, _, rest @ ..] = left {
        if option.as_str() == wanted {
            return Some(pairs.len() - left.len() + 2);
        }
        left = rest;
    }
    None
}

fn place_of(words: &[String], wanted: &str) -> Option<usize>
    ensures { result ≡ spec.place_of (texts words.now) wanted.now }
{
    let [_, pairs @ ..] = words else {
        return None;
    };
    place_in(pairs, wanted)
}

fn name_of(word: &str) -> Option<CommandName>
    ensures { result ≡ spec.name_of word.now }
{
    let name = CommandName::Compare;
    if word == name.word() {
        Some(name)
    } else {
        None
    }
}

// Adds the file with the place of its name, if the words name one.
fn add_file(
    alloc: Global,
    words: &[String],
    file: FileOption,
    files: &mut Items<(Text, usize)>,
) -> Result<(), NoMemory>
    ensures { OnOk result (files.new ≡ files.old ++ with_place file (spec.place_of (texts words.now) (spec.file_option file)) []) }
{
    if let Some(place) = place_of(words, file.option()) {
        let word = Text::from_bytes(alloc, file.word().as_bytes())?;
        files.push((word, place))?;
    }
    Ok(())
}

// The files that the words name, in reading order.
fn files_named(alloc: Global, words: &[String]) -> Result<Items<(Text, usize)>, NoMemory>
    ensures { IfOk result (λ files. files ≡ spec.files_named (texts words.now) spec.all_files) }
{
    let mut files = Items::new(alloc);
    for file in FileOption::all() {
        add_file(alloc, words, *file, &mut files)?;
    }
    Ok(files)
}

/// None where the words are no command. These are a command's word and then pairs of an option and
/// a value in any order, each option at most once and each that the command needs once. A file's
/// name has 1 to 4,096 bytes.
pub fn command_of(alloc: Global, words: &[String]) -> Result<Option<Command>, NoMemory>
    ensures { IfOk result (λ command. command ≡ spec.command_of (texts words.now)) }
{
    let [word, pairs @ ..] = words else {
        return Ok(None);
    };
    let Some(name) = name_of(word) else {
        return Ok(None);
    };
    if !are_options_of(name, pairs) || !has_needed(name, pairs) {
        return Ok(None);
    }
    let files = files_named(alloc, words)?;
    Ok(Some(Command { name, files }))
}
