//! What a book tells of its rules, and how it takes one more.
ghost use Rattle.std.specs.Prelude.{◌≡◌, ◌<◌, [], Some, length, true};
ghost use Rattle.house_rules.specs.Book.{Pushed, code_at, rule_of, rules_of, setting_at};
ghost use Rattle.house_rules.specs.Rules.{is_setting};

use crate::book::HouseBook;
use crate::refusal::BookRefusal;
use crate::rule::HouseRule;
use std::alloc::Global;
use verdict_text::Code;

// The most rules that a book takes.
const MOST_RULES: usize = 16;

impl HouseBook {
    /// No rules; takes no memory.
    pub fn new(alloc: Global) -> HouseBook
        ensures { rules_of result ≡ [] }
    {
        HouseBook {
            rules: Vec::new(alloc),
        }
    }

    /// How many rules there are.
    pub fn len(&self) -> usize
        ensures { result ≡ length (rules_of self.now) }
    {
        self.rules.len()
    }

    /// The code of the rule at the place, from 0.
    pub fn code(&self, place: usize) -> Code
        requires { place < length (rules_of self.now) }
        ensures { code_at (rules_of self.now) place ≡ Some result }
    {
        self.rules[place].code
    }

    /// The setting of the rule at the place, from 0.
    pub fn setting(&self, place: usize) -> &[u8]
        requires { place < length (rules_of self.now) }
        ensures told { setting_at (rules_of self.now) place ≡ Some result.now }
    {
        self.rules[place].setting.as_bytes()
    }

    /// Puts the rule behind the others. A book of 16 rules is full: then, and where memory is refused, the rule is
    /// dropped and the book is as it was.
    pub fn push(&mut self, rule: HouseRule) -> Result<(), BookRefusal>
        ensures { Pushed (rules_of self.old) (rule_of rule) (rules_of self.new) result }
    {
        if self.rules.len() == MOST_RULES {
            return Err(BookRefusal::Full);
        }
        match self.rules.push(rule) {
            Ok(()) => Ok(()),
            Err(_) => Err(BookRefusal::NoMemory),
        }
    }
}
