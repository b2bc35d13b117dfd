//! The four fields of a record, and whether they are right.
ghost use Rattle.std.specs.Prelude.{◌≡◌, ◌≢◌, ◌≤◌, length, IfOk, MatchOption, MatchResult, Some, ⊤};
ghost use Rattle.csv.specs.Records.{fields_of};
ghost use Rattle.tech_reader.specs.Fields as spec;
ghost use Rattle.csv_records.specs.Answers.{refusal_of};
ghost use Rattle.tech_reader.specs.Row.{IsOf, row_of};
ghost use Rattle.tech_reader.specs.Tech as tech;
ghost use Rattle.tech_reader.specs.declared.fields.Kind.TheVariants as kinds;
ghost use Rattle.file_rules.specs.Told.{TellsSome};

use circuit::{ModelCard, Size, Supply};
use csv::ByteRecord;
use csv_records::{check_name, unless};
use std::alloc::Global;
use text_scan::{FileRefusal, Limits, NoMemory, PinKind, Text};

/// What a record tells.
#[derive(Clone, Copy, Debug, PartialEq, Eq)]
pub enum Kind {
    Model,
    Size,
    Supply,
}

/// The four fields of a record.
#[derive(Clone, Copy, Drop)]
pub struct Fields<'a> {
    kind: &'a [u8],
    name: &'a [u8],
    third: &'a [u8],
    last: &'a [u8],
}

#[tactic(auto, unfolding(crate::specs::Fields::kind_of))]
fn kind_of(word: &[u8]) -> Option<Kind>
    ensures { result ≡ spec.kind_of word.now }
{
    if word == b"model".as_slice() {
        Some(Kind::Model)
    } else if word == b"size".as_slice() {
        Some(Kind::Size)
    } else if word == b"supply".as_slice() {
        Some(Kind::Supply)
    } else {
        None
    }
}

#[tactic(auto, unfolding(crate::specs::Fields::is_channel))]
fn is_channel(field: &[u8]) -> bool
    ensures { result ≡ spec.is_channel field.now }
{
    field == b"n".as_slice() || field == b"p".as_slice()
}

#[tactic(auto, unfolding(crate::specs::Fields::is_supply_kind))]
fn is_supply_kind(field: &[u8]) -> bool
    ensures { result ≡ spec.is_supply_kind field.now }
{
    field == b"power".as_slice() || field == b"ground".as_slice()
}

// At most 9 each.
fn is_digit_within(least: u8, most: u8, field: &[u8]) -> bool
    requires { (least ≤ 9) × (most ≤ 9) }
    ensures { result ≡ spec.is_digit_within least most field.now }
{
    match field {
        [digit] => b'0' + least <= *digit && *digit <= b'0' + most,
        _ => false,
    }
}

fn digit(field: &[u8]) -> u8
    ensures { result ≡ spec.digit field.now }
{
    match field {
        [digit] => digit.saturating_sub(b'0'),
        _ => 0,
    }
}

fn pin_kind(word: &[u8]) -> PinKind
    ensures { result ≡ tech.pin_kind word.now }
{
    if word == b"power".as_slice() {
        PinKind::Power
    } else {
        PinKind::Ground
    }
}

// The text, a comma and the part.
fn joined(mut text: Vec<u8>, part: &[u8]) -> Result<Vec<u8>, NoMemory>
    ensures { IfOk result (λ all. all.items ≡ tech.joined text.items part.now) }
{
    text.push(b',')?;
    text.extend_from_slice(part)?;
    Ok(text)
}

impl<'a> Fields<'a> {
    /// The fields of a record that has four.
    pub fn of(row: &'a ByteRecord) -> Option<Fields<'a>>
        ensures { MatchOption result (length (fields_of row.now) ≢ 4) (λ f. fields_of row.now ≡ row_of f) }
    {
        if row.len() != 4 {
            return None;
        }
        Some(Fields {
            kind: row.get(0)?,
            name: row.get(1)?,
            third: row.get(2)?,
            last: row.get(3)?,
        })
    }

    fn check_model(&self, limits: &Limits, line: u32) -> Result<(), FileRefusal>
        ensures { refusal_of result ≡ spec.wrong_in_model limits.now line self.now.name.now self.now.third.now self.now.last.now }
    {
        check_name(limits, line, 2, self.name)?;
        unless(is_channel(self.third), line, 3)?;
        unless(is_digit_within(4, 7, self.last), line, 4)
    }

    fn check_size(&self, limits: &Limits, line: u32) -> Result<(), FileRefusal>
        ensures { refusal_of result ≡ spec.wrong_in_size limits.now line self.now.name.now self.now.third.now self.now.last.now }
    {
        check_name(limits, line, 2, self.name)?;
        check_name(limits, line, 3, self.third)?;
        unless(is_digit_within(1, 3, self.last), line, 4)
    }

    fn check_supply(&self, limits: &Limits, line: u32) -> Result<(), FileRefusal>
        ensures { refusal_of result ≡ spec.wrong_in_supply limits.now line self.now.name.now self.now.third.now self.now.last.now }
    {
        check_name(limits, line, 2, self.name)?;
        unless(is_supply_kind(self.third), line, 3)?;
        unless(self.last == b"-".as_slice(), line, 4)
    }

    /// The kind of a record whose fields are right, else the first that is wrong.
    pub fn check(&self, limits: &Limits, line: u32) -> Result<Kind, FileRefusal>
        ensures told { refusal_of result ≡ spec.wrong_of_four limits.now line (spec.kind_of self.now.kind.now) self.now.name.now self.now.third.now self.now.last.now }
        ensures kind { IfOk result (λ kind. IsOf kind self.now) }
    {
        match kind_of(self.kind) {
            None => Err(FileRefusal::Syntax { line, column: 1 }),
            Some(Kind::Model) => {
                self.check_model(limits, line)?;
                Ok(Kind::Model)
            }
            Some(Kind::Size) => {
                self.check_size(limits, line)?;
                Ok(Kind::Size)
            }
            Some(Kind::Supply) => {
                self.check_supply(limits, line)?;
                Ok(Kind::Supply)
            }
        }
    }

    /// What may stand only once.
    pub fn key(&self, alloc: Global, kind: Kind) -> Result<Vec<u8>, NoMemory>
        requires { IsOf kind self.now }
        ensures { IfOk result (λ key. key.items ≡ tech.key (row_of self.now)) }
    {
        let named = joined(self.kind.to_vec(alloc)?, self.name)?;
        match kind {
            Kind::Size => joined(named, self.third),
            _ => Ok(named),
        }
    }

    /// The refusal of a record whose key stands a second time.
    pub fn double_name(&self, alloc: Global, kind: Kind, line: u32) -> FileRefusal
        requires { IsOf kind self.now }
        ensures { TellsSome result (tech.double (row_of self.now) line) }
    {
        let shown = match kind {
            Kind::Size => self.third,
            _ => self.name,
        };
        match Text::from_bytes(alloc, shown) {
            Ok(name) => FileRefusal::DoubleName { name, line },
            Err(_) => FileRefusal::NoMemory,
        }
    }

    pub fn model(&self, alloc: Global) -> Result<ModelCard, NoMemory>
        requires { IsOf kinds.Model self.now }
        ensures { IfOk result (λ card. tech.model_of (row_of self.now) ≡ Some card) }
    {
        Ok(ModelCard {
            name: Text::from_bytes(alloc, self.name)?,
            p: self.third == b"p".as_slice(),
            strength: digit(self.last),
        })
    }

    pub fn size(&self, alloc: Global) -> Result<Size, NoMemory>
        requires { IsOf kinds.Size self.now }
        ensures { IfOk result (λ size. tech.size_of (row_of self.now) ≡ Some size) }
    {
        Ok(Size {
            cell: Text::from_bytes(alloc, self.name)?,
            node: Text::from_bytes(alloc, self.third)?,
            strength: digit(self.last),
        })
    }

    pub fn supply(&self, alloc: Global) -> Result<Supply, NoMemory>
        requires { IsOf kinds.Supply self.now }
        ensures { IfOk result (λ supply. tech.supply_of (row_of self.now) ≡ Some supply) }
    {
        Ok(Supply {
            name: Text::from_bytes(alloc, self.name)?,
            kind: pin_kind(self.third),
        })
    }
}
