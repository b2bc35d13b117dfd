//! The five fields of a record, and whether they are right.
ghost use Rattle.std.specs.Prelude.{◌≡◌, ◌≢◌, length, is_some, IfOk, MatchOption, Some};
ghost use Rattle.std.specs.List.{list_all};
ghost use Rattle.csv.specs.Records.{fields_of};
ghost use Rattle.csv_records.specs.Answers.{refusal_of};
ghost use Rattle.csv_records.specs.Fields as shared;
ghost use Rattle.verdict_text.specs.Told.{told_code};
ghost use Rattle.waiver_source.specs.Waivers as words;
ghost use Rattle.waivers.specs.Days.{day_of};
ghost use Rattle.waivers.specs.Fields as spec;
ghost use Rattle.waivers.specs.File.{waiver_of};
ghost use Rattle.waivers.specs.Row.{AreTerms, row_of};

use crate::day::read_day;
use csv::ByteRecord;
use csv_records::{check_name, unless};
use std::alloc::Global;
use text_scan::{FileRefusal, Limits, NoMemory, Text};
use verdict_text::{Code, code_of};
use waiver_source::Waiver;

/// The five fields of a record.
#[derive(Clone, Copy, Drop)]
pub struct Fields<'a> {
    cell: &'a [u8],
    code: &'a [u8],
    pin: &'a [u8],
    day: &'a [u8],
    reason: &'a [u8],
}

/// What the second and the fourth field tell.
#[derive(Clone, Copy, Debug)]
pub struct Terms {
    code: Code,
    last: i32,
}

fn is_star(word: &[u8]) -> bool
    ensures { result ≡ words.is_star word.now }
{
    word == b"*".as_slice()
}

fn is_dash(word: &[u8]) -> bool
    ensures { result ≡ words.is_dash word.now }
{
    word == b"-".as_slice()
}

fn is_reason_byte(byte: u8) -> bool
    ensures { result ≡ words.is_reason_byte byte }
{
    32 <= byte && byte <= 126
}

fn are_reason_bytes(text: &[u8]) -> bool
    ensures { result ≡ list_all words.is_reason_byte text.now }
{
    text.iter().all(|byte| is_reason_byte(*byte))
}

fn is_reason(text: &[u8]) -> bool
    ensures { result ≡ words.is_reason text.now }
{
    text.len() <= 1000 && are_reason_bytes(text)
}

#[tactic(auto, unfolding(crate::specs::Fields::wrong_cell))]
fn check_cell(limits: &Limits, line: u32, word: &[u8]) -> Result<(), FileRefusal>
    ensures { refusal_of result ≡ spec.wrong_cell limits.now line word.now }
{
    if is_star(word) {
        return Ok(());
    }
    check_name(limits, line, 1, word)
}

#[tactic(auto, unfolding(crate::specs::Fields::wrong_pin))]
fn check_pin(limits: &Limits, line: u32, word: &[u8]) -> Result<(), FileRefusal>
    ensures { refusal_of result ≡ spec.wrong_pin limits.now line word.now }
{
    if is_star(word) || is_dash(word) {
        return Ok(());
    }
    check_name(limits, line, 3, word)
}

#[tactic(auto, using(crate::proofs::Codes::code_told))]
fn check_code(line: u32, word: &[u8]) -> Result<Code, FileRefusal>
    ensures told { refusal_of result ≡ shared.unless (is_some (told_code word.now)) line 2 }
    ensures code { IfOk result (λ code. told_code word.now ≡ Some code) }
{
    match code_of(word) {
        Some(code) => Ok(code),
        None => Err(FileRefusal::Syntax { line, column: 2 }),
    }
}

fn check_day(line: u32, text: &[u8]) -> Result<i32, FileRefusal>
    ensures told { refusal_of result ≡ shared.unless (is_some (day_of text.now)) line 4 }
    ensures day { IfOk result (λ day. day_of text.now ≡ Some day) }
{
    match read_day(text) {
        Some(day) => Ok(day),
        None => Err(FileRefusal::Syntax { line, column: 4 }),
    }
}

impl<'a> Fields<'a> {
    /// The fields of a record that has five.
    pub fn of(row: &'a ByteRecord) -> Option<Fields<'a>>
        ensures { MatchOption result (length (fields_of row.now) ≢ 5) (λ f. fields_of row.now ≡ row_of f) }
    {
        if row.len() != 5 {
            return None;
        }
        Some(Fields {
            cell: row.get(0)?,
            code: row.get(1)?,
            pin: row.get(2)?,
            day: row.get(3)?,
            reason: row.get(4)?,
        })
    }

    /// What the fields tell where they are right, else the first that is wrong.
    pub fn check(&self, limits: &Limits, line: u32) -> Result<Terms, FileRefusal>
        ensures told { refusal_of result ≡ spec.wrong_of_five limits.now line self.now.cell.now self.now.code.now self.now.pin.now self.now.day.now self.now.reason.now }
        ensures terms { IfOk result (λ terms. AreTerms self.now terms) }
    {
        check_cell(limits, line, self.cell)?;
        let code = check_code(line, self.code)?;
        check_pin(limits, line, self.pin)?;
        let last = check_day(line, self.day)?;
        unless(is_reason(self.reason), line, 5)?;
        Ok(Terms { code, last })
    }

    /// The waiver of these fields.
    pub fn waiver(&self, alloc: Global, terms: Terms) -> Result<Waiver, NoMemory>
        requires { AreTerms self.now terms }
        ensures { IfOk result (λ waiver. waiver_of (row_of self.now) ≡ Some waiver) }
    {
        Ok(Waiver {
            cell: Text::from_bytes(alloc, self.cell)?,
            code: terms.code,
            pin: Text::from_bytes(alloc, self.pin)?,
            last: terms.last,
            reason: Text::from_bytes(alloc, self.reason)?,
        })
    }
}
