//! The compiler of a function's tokens: inversion binds first, then exclusive or, then and, then or.
ghost use Rattle.std.specs.Prelude.{◌≡◌, ◌<◌, ◌+◌, ◌^◌, [], ◌∷◌, ◌++◌, IfOk, OnOk, Some, None, if◌then◌else◌, replicate, false};
ghost use Rattle.liberty_function.specs.Compiling as spec;
ghost use Rattle.liberty_function.specs.Compiling.{standing_of};
ghost use Rattle.liberty_function.specs.Sources.{sources_of};

use crate::program::{Join, Source, Step};
use crate::scope::Scope;
use crate::words::Word;
use std::alloc::Global;
use text_scan::{Items, NoMemory};

/// What stands before the operand that is read, between two parentheses.
#[derive(Clone, Copy)]
pub(crate) struct Part {
    /// Products that wait for a sum's end.
    pub(crate) sum: bool,
    pub(crate) product: bool,
    pub(crate) exclusive: bool,
    /// `!` before the operand.
    pub(crate) inversions: usize,
}

const EMPTY: Part = Part {
    sum: false,
    product: false,
    exclusive: false,
    inversions: 0,
};

const MOST_PARENTHESES: usize = 64;

#[derive(Drop)]
pub(crate) struct Compiler {
    outer: Vec<Part>,
    part: Part,
    /// Whether an operand stands before the next token.
    operand: bool,
    steps: Items<Step>,
}

fn push_inversions(steps: &mut Items<Step>, count: usize) -> Result<(), NoMemory>
    ensures { OnOk result (steps.new ≡ steps.old ++ replicate count Step.Invert) }
{
    for _ in 0..count {
        steps.push(Step::Invert)?;
    }
    Ok(())
}

fn push_if(steps: &mut Items<Step>, wanted: bool, step: Step) -> Result<(), NoMemory>
    ensures { OnOk result (steps.new ≡ steps.old ++ spec.step_if wanted step) }
{
    if wanted {
        steps.push(step)?;
    }
    Ok(())
}

fn end_exclusive(steps: &mut Items<Step>, part: Part) -> Result<(), NoMemory>
    ensures { OnOk result (steps.new ≡ steps.old ++ spec.ends_exclusive part) }
{
    push_if(steps, part.exclusive, Step::Join(Join::Exclusive))
}

fn end_product(steps: &mut Items<Step>, part: Part) -> Result<(), NoMemory>
    ensures { OnOk result (steps.new ≡ steps.old ++ spec.ends_product part) }
{
    end_exclusive(steps, part)?;
    push_if(steps, part.product, Step::Join(Join::Both))
}

fn end_sum(steps: &mut Items<Step>, part: Part) -> Result<(), NoMemory>
    ensures { OnOk result (steps.new ≡ steps.old ++ spec.ends_sum part) }
{
    end_product(steps, part)?;
    push_if(steps, part.sum, Step::Join(Join::Either))
}

impl Compiler {
    pub(crate) fn new(alloc: Global) -> Compiler
        ensures { standing_of result ≡ spec.start }
    {
        Compiler {
            outer: Vec::new(alloc),
            part: EMPTY,
            operand: false,
            steps: Items::new(alloc),
        }
    }

    fn operand(&mut self, source: Source) -> Result<(), NoMemory>
        ensures { OnOk result (standing_of self.new ≡ spec.with_operand (standing_of self.old) (Step.Push source ∷ [])) }
    {
        self.steps.push(Step::Push(source))?;
        push_inversions(&mut self.steps, self.part.inversions)?;
        self.part.inversions = 0;
        self.operand = true;
        Ok(())
    }

    fn open(&mut self) -> Result<bool, NoMemory>
        ensures { IfOk result (λ can. spec.if_room (standing_of self.old).outer (spec.after_open (standing_of self.old)) ≡ (if can then Some (standing_of self.new) else None)) }
    {
        if self.outer.len() >= MOST_PARENTHESES {
            return Ok(false);
        }
        self.outer.push(self.part)?;
        self.part = EMPTY;
        self.operand = false;
        Ok(true)
    }

    fn close(&mut self) -> Result<bool, NoMemory>
        ensures { IfOk result (λ can. spec.after_close (standing_of self.old) (standing_of self.old).outer ≡ (if can then Some (standing_of self.new) else None)) }
    {
        let Some(part) = self.outer.pop() else {
            return Ok(false);
        };
        end_sum(&mut self.steps, self.part)?;
        push_inversions(&mut self.steps, part.inversions)?;
        self.part = Part {
            inversions: 0,
            ..part
        };
        self.operand = true;
        Ok(true)
    }

    fn caret(&mut self) -> Result<(), NoMemory>
        ensures { OnOk result (standing_of self.new ≡ spec.after_caret (standing_of self.old)) }
    {
        end_exclusive(&mut self.steps, self.part)?;
        self.part.exclusive = true;
        self.operand = false;
        Ok(())
    }

    fn and(&mut self) -> Result<(), NoMemory>
        ensures { OnOk result (standing_of self.new ≡ spec.after_and (standing_of self.old)) }
    {
        end_product(&mut self.steps, self.part)?;
        self.part.exclusive = false;
        self.part.product = true;
        self.operand = false;
        Ok(())
    }

    fn or(&mut self) -> Result<(), NoMemory>
        ensures { OnOk result (standing_of self.new ≡ spec.after_or (standing_of self.old)) }
    {
        end_sum(&mut self.steps, self.part)?;
        self.part.exclusive = false;
        self.part.product = false;
        self.part.sum = true;
        self.operand = false;
        Ok(())
    }

    /// Takes a token where an operand is wanted; false where it cannot stand there.
    fn begin(&mut self, scope: &Scope, word: &Word) -> Result<bool, NoMemory>
        requires { self.old.part.inversions + 1 < 2 ^ 64 }
        ensures { IfOk result (λ can. spec.began (sources_of scope.now) (standing_of self.old) word.now ≡ (if can then Some (standing_of self.new) else None)) }
    {
        match word {
            Word::Bang => self.part.inversions += 1,
            Word::Open => return self.open(),
            Word::Zero => self.operand(Source::Zero)?,
            Word::One => self.operand(Source::One)?,
            Word::Name(name) => self.operand(scope.source_of(name.as_bytes()))?,
            _ => return Ok(false),
        }
        Ok(true)
    }

    /// Takes a token after an operand; false where it cannot follow.
    fn go_on(&mut self, scope: &Scope, word: &Word) -> Result<bool, NoMemory>
        requires { self.old.part.inversions + 1 < 2 ^ 64 }
        ensures { IfOk result (λ can. spec.went_on (sources_of scope.now) (standing_of self.old) word.now ≡ (if can then Some (standing_of self.new) else None)) }
    {
        match word {
            Word::Quote => self.steps.push(Step::Invert)?,
            Word::Caret => self.caret()?,
            Word::And => self.and()?,
            Word::Or => self.or()?,
            Word::Close => return self.close(),
            Word::Other => return Ok(false),
            _ => {
                self.and()?;
                return self.begin(scope, word);
            }
        }
        Ok(true)
    }

    /// Takes a token; false where it cannot follow.
    #[tactic(auto, unfolding(crate::specs::Compiling::taken))]
    pub(crate) fn take(&mut self, scope: &Scope, word: &Word) -> Result<bool, NoMemory>
        requires { self.old.part.inversions + 1 < 2 ^ 64 }
        ensures { IfOk result (λ can. spec.taken (sources_of scope.now) (standing_of self.old) word.now ≡ (if can then Some (standing_of self.new) else None)) }
    {
        if self.operand {
            self.go_on(scope, word)
        } else {
            self.begin(scope, word)
        }
    }

    /// The steps of the whole function; nothing where an operand or a parenthesis is wanted.
    pub(crate) fn finish(mut self) -> Result<Option<Items<Step>>, NoMemory>
        ensures { IfOk result (λ steps. steps ≡ spec.finished (standing_of self)) }
    {
        if !self.operand || !self.outer.is_empty() {
            return Ok(None);
        }
        end_sum(&mut self.steps, self.part)?;
        Ok(Some(self.steps))
    }
}
