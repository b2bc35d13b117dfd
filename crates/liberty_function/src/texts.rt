//! From the text of a function to its program.
ghost use Rattle.std.specs.Prelude.{◌≡◌, ◌+◌, ◌<◌, ◌^◌, [], ◌∷◌, ◌++◌, MatchOption, IfOk, Ok, Err, length};
ghost use Rattle.liberty_function.specs.Texts as spec;
ghost use Rattle.liberty_function.specs.Sources.{sources_of};
ghost use Rattle.liberty_function.specs.Words.{words_of, bare};

use crate::compiler::Compiler;
use crate::function::Program;
use crate::program::Step;
use crate::scope::Scope;
use crate::words::{Placed, Word, words_of_text};
use std::alloc::Global;
use text_scan::{Items, NoMemory, Text};

/// Why a text has no program.
#[derive(Drop)]
pub enum TextRefusal {
    NoMemory,
    /// The number of bytes before the token that cannot follow.
    BadFunction(usize),
    /// The first name of a function's text that no place of the scope has.
    UnknownName(Text),
}

impl From<NoMemory> for TextRefusal {
    ghost use Rattle.liberty_function.specs.declared.texts.TextRefusal.TheVariants as refusal;

    ghost from_gives = { λ _ e. e ≡ refusal.NoMemory };

    fn from(_: NoMemory) -> Self {
        TextRefusal::NoMemory
    }
}

/// The token's name, where no place of the scope has it.
fn unknown_in<'a>(scope: &Scope, word: &'a Word) -> Option<&'a Text>
    ensures { MatchOption result (spec.unknown_or scope.now word.now None ≡ None) (λ name. spec.unknown_or scope.now word.now None ≡ Some name.now) }
{
    match word {
        Word::Name(name) => match scope.find(name.as_bytes()) {
            Some(_) => None,
            None => Some(name),
        },
        _ => None,
    }
}

/// The first name that no place of the scope has.
fn first_unknown<'a>(scope: &Scope, words: &'a [Placed]) -> Option<&'a Text>
    ensures { MatchOption result (spec.unknown_among scope.now (bare words.now) ≡ None) (λ name. spec.unknown_among scope.now (bare words.now) ≡ Some name.now) }
{
    for placed in words {
        if let Some(name) = unknown_in(scope, &placed.word) {
            return Some(name);
        }
    }
    None
}

fn steps_of_words(
    alloc: Global,
    scope: &Scope,
    words: &[Placed],
    end: usize,
) -> Result<Items<Step>, TextRefusal>
    ensures { spec.IsStepsAnswer scope.now words.now end result }
{
    let mut compiler = Compiler::new(alloc);
    for placed in words {
        if !compiler.take(scope, &placed.word)? {
            return Err(TextRefusal::BadFunction(placed.place));
        }
    }
    match compiler.finish()? {
        Some(steps) => Ok(steps),
        None => Err(TextRefusal::BadFunction(end)),
    }
}

/// Compiles the text over the names of the scope. A token that cannot follow is told before an unknown name.
#[tactic(auto, unfolding(crate::specs::Texts::program_value))]
pub fn compile_text(alloc: Global, scope: &Scope, text: &[u8]) -> Result<Program, TextRefusal>
    ensures { spec.IsTextAnswer scope.now text.now result }
{
    let words = words_of_text(alloc, text)?;
    let steps = steps_of_words(alloc, scope, words.as_slice(), text.len())?;
    match first_unknown(scope, words.as_slice()) {
        Some(name) => Err(TextRefusal::UnknownName(name.copied(alloc)?)),
        None => Ok(Program { steps }),
    }
}
