//! Days by the texts of their dates.
ghost use Rattle.std.specs.Prelude.{◌≡◌, ◌≤◌, ℤ, Some, IfSome, ◌*◌, ◌+◌};
ghost use Rattle.waivers.specs.Days as spec;

use crate::date_parts::DateParts;
use jiff::civil::Date;

fn digit(byte: u8) -> Option<u8>
    ensures told { result ≡ spec.digit byte }
    ensures small { IfSome result (λ value. value ≤ 9) }
{
    if byte.is_ascii_digit() {
        Some(byte - b'0')
    } else {
        None
    }
}

fn value_of_two(a: u8, b: u8) -> Option<u8>
    ensures told { result ≡ spec.value_of_two a b }
    ensures small { IfSome result (λ value. value ≤ 99) }
{
    match (digit(a), digit(b)) {
        (Some(tens), Some(ones)) => Some(10 * tens + ones),
        _ => None,
    }
}

fn value_of_four(a: u8, b: u8, c: u8, d: u8) -> Option<u16>
    ensures told { result ≡ spec.value_of_four a b c d }
    ensures small { IfSome result (λ value. value ≤ 9999) }
{
    match (value_of_two(a, b), value_of_two(c, d)) {
        (Some(hundreds), Some(rest)) => Some(100 * u16::from(hundreds) + u16::from(rest)),
        _ => None,
    }
}

fn parts_after(year: Option<u16>, text: &[u8]) -> Option<DateParts>
    ensures told { result ≡ spec.parts_after year text.now }
    ensures small { IfSome result (λ p. (p.month ≤ 99) × (p.day ≤ 99)) }
    ensures year { IfSome result (λ p. year ≡ Some p.year) }
{
    match text {
        [b'-', a, b, b'-', c, d] => match (year, value_of_two(*a, *b), value_of_two(*c, *d)) {
            (Some(year), Some(month), Some(day)) => Some(DateParts { year, month, day }),
            _ => None,
        },
        _ => None,
    }
}

fn date_parts(text: &[u8]) -> Option<DateParts>
    ensures told { result ≡ spec.date_parts text.now }
    ensures small { IfSome result (λ p. (p.year ≤ 9999) × (p.month ≤ 99) × (p.day ≤ 99)) }
{
    match text {
        [a, b, c, d, rest @ ..] => parts_after(value_of_four(*a, *b, *c, *d), rest),
        _ => None,
    }
}

/// The number of the day whose date the text is, as `YYYY-MM-DD` of the years 0000 to 9999; none where the text is no
/// date. The day 1970-01-01 has number 0, and each next day has the next number.
pub fn read_day(text: &[u8]) -> Option<i32>
    ensures told { result ≡ spec.day_of text.now }
    ensures found { IfSome result (λ day. spec.IsDay text.now day) }
    ensures only { (day : ℤ) → spec.IsDay text.now day → result ≡ Some day }
{
    let parts = date_parts(text)?;
    match Date::new(parts.year as i16, parts.month as i8, parts.day as i8) {
        Ok(date) => Some(date.to_plain().to_unix_epoch_day()),
        Err(_) => None,
    }
}
