//! A rule of a house: a question of pin tables, and what its answer means.
ghost use Rattle.std.specs.Prelude.{◌≡◌, true};
ghost use Rattle.house_rules.specs.Rules.{finds, is_setting};

use pin_tables::PinTable;
use text_scan::Text;
use verdict_text::Code;

/// Whether a rule finds something: asked of a whole cell, or of one of its pins by the place in the table, from 0.
pub type Question = Box<dyn Fn(&PinTable, Option<usize>) -> bool + Send + Sync>;

/// A question that may be asked of every pin table, and whose answer is that of the rule of this code and setting.
#[derive(Drop)]
pub struct HouseRule {
    pub(crate) code: Code,
    pub(crate) setting: Text,
    pub(crate) question: Question,
    ghost fits: { is_setting code setting ≡ true },
    ghost callable: { Question.IsAlwaysCallable question },
    ghost answers: { (table : _) (place : _) (found : _) → Question.post question table place found → found ≡ finds code setting table.now place },
}

impl HouseRule {
    /// The rule of the code and the setting, by a question that answers what the rule finds.
    ///
    /// The code is `H1`, `H2` or `H3`. The setting of `H1` and `H3` has at most 128 bytes from 33 to 126 and isn't a
    /// lone `-`; that of `H2` is a decimal number from 0 to 64 without leading zeros.
    pub fn new(code: Code, setting: Text, question: Question) -> HouseRule
        requires fits { is_setting code setting ≡ true }
        requires callable { Question.IsAlwaysCallable question }
        requires answers { (table : _) (place : _) (found : _) → Question.post question table place found → found ≡ finds code setting table.now place }
        ensures code { result.code ≡ code }
        ensures setting { result.setting ≡ setting }
    {
        HouseRule {
            code,
            setting,
            question,
        }
    }

    /// Whether the rule finds something of the cell, or of the pin at the place.
    pub(crate) fn asked(&self, table: &PinTable, place: Option<usize>) -> bool
        ensures { result ≡ finds self.now.code self.now.setting table.now place }
    {
        (self.question)(table, place)
    }
}
