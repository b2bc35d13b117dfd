//! Going over tokens that say nothing to a reader that waits for a word that begins with `end`.
ghost use Rattle.std.specs.Prelude.{◌≡◌, ◌≤◌, ◌<◌, ◌∷◌, ◌+◌, ◌^◌, length, true, false};
ghost use Rattle.text_scan.specs.declared.token.Style.TheVariants.{Verilog};
ghost use Rattle.text_scan.specs.Bytes as bytes;
ghost use Rattle.text_scan.specs.Jumps as jumps;
ghost use Rattle.text_scan.specs.Left.{tokens_at};
ghost use Rattle.verilog_directives.specs.Behind.{IsCounted};
ghost use Rattle.verilog_directives.specs.Skims as spec;

use crate::region::begins_region;
use text_scan::{
    Place, is_blank, is_digit, is_letter, until_byte, until_identifier_end, until_number_end,
};

/// What begins a text, to a reader that skims it.
#[derive(Clone, Copy)]
pub(crate) enum Skim {
    /// Something that isn't skimmed.
    Stop,
    /// So many bytes of one line that belong to no token.
    Blank(usize),
    /// A line's end.
    Line,
    /// A token of so many bytes that is gone over.
    Token(usize),
}

#[tactic(auto, unfolding(crate::specs::Skims::begins_end, text_scan::specs::Bytes::begins_with_pair, text_scan::specs::Bytes::begins_with))]
fn begins_end(word: &[u8]) -> bool
    ensures { result ≡ spec.begins_end word.now }
{
    match word {
        [a, b, c, ..] => *a == b'e' && *b == b'n' && *c == b'd',
        _ => false,
    }
}

#[tactic(auto, unfolding(text_scan::specs::Bytes::begins_with))]
fn begins_with(byte: u8, text: &[u8]) -> bool
    ensures { result ≡ bytes.begins_with byte text.now }
{
    match text {
        [] => false,
        [first, ..] => *first == byte,
    }
}

// A sign that can begin no comment, string or directive. The `\` begins a word.
fn is_plain_sign(byte: u8) -> bool
    ensures { result ≡ spec.is_plain_sign byte }
{
    33 <= byte && byte <= 126 && byte != b'"' && byte != b'/' && byte != b'\\' && byte != b'`'
}

// An identifier.
#[tactic(auto, using(crate::proofs::Skims::identifier))]
fn skim_identifier(byte: u8, rest: &[u8], text: &[u8]) -> Skim
    requires text { text.now ≡ byte ∷ rest.now }
    requires letter { bytes.is_letter byte ≡ true }
    ensures { spec.Begins text.now result }
{
    let n = until_identifier_end(rest) + 1;
    let word = &text[..n];
    if begins_end(word) || begins_region(word) {
        Skim::Stop
    } else {
        Skim::Token(n)
    }
}

#[tactic(auto, using(crate::proofs::Skims::number))]
fn skim_number(byte: u8, rest: &[u8], text: &[u8]) -> Skim
    requires text { text.now ≡ byte ∷ rest.now }
    requires no_letter { bytes.is_letter byte ≡ false }
    requires digit { bytes.is_digit byte ≡ true }
    ensures { spec.Begins text.now result }
{
    Skim::Token(until_number_end(rest) + 1)
}

// A comment to the line's end is skimmed, another one isn't.
#[tactic(auto, using(crate::proofs::Skims::comment, crate::proofs::Skims::slash))]
fn skim_slash(rest: &[u8], text: &[u8]) -> Skim
    requires { text.now ≡ 47 ∷ rest.now }
    ensures { spec.Begins text.now result }
{
    if begins_with(b'*', rest) {
        Skim::Stop
    } else if begins_with(b'/', rest) {
        Skim::Blank(until_byte(b'\n', rest) + 1)
    } else {
        Skim::Token(1)
    }
}

// What is no letter, digit or plain sign.
fn skim_rare(byte: u8, rest: &[u8], text: &[u8]) -> Skim
    requires text { text.now ≡ byte ∷ rest.now }
    ensures { spec.Begins text.now result }
{
    if byte == b'\n' {
        Skim::Line
    } else if is_blank(byte) {
        Skim::Blank(1)
    } else if byte == b'/' {
        skim_slash(rest, text)
    } else {
        Skim::Stop
    }
}

// What begins the text, of which the byte is the first and the rest what follows. What comes most often is looked for
// first.
fn skim_of(byte: u8, rest: &[u8], text: &[u8]) -> Skim
    requires text { text.now ≡ byte ∷ rest.now }
    ensures { spec.Begins text.now result }
{
    if byte == b' ' {
        Skim::Blank(1)
    } else if is_letter(byte) {
        skim_identifier(byte, rest, text)
    } else if is_digit(byte) {
        skim_number(byte, rest, text)
    } else if is_plain_sign(byte) {
        Skim::Token(1)
    } else {
        skim_rare(byte, rest, text)
    }
}

// The place so many bytes further on the same line.
fn forward(place: Place, n: usize) -> Place
    requires { place.at + n < 2 ^ 64 }
    ensures { result ≡ jumps.forward n place }
{
    let columns = u32::try_from(n).unwrap_or(u32::MAX);
    Place {
        at: place.at + n,
        line: place.line,
        column: place.column.saturating_add(columns),
    }
}

// The place after a line's end.
fn next_line(place: Place) -> Place
    requires { place.at + 1 < 2 ^ 64 }
    ensures { result ≡ jumps.line_after 1 place }
{
    Place {
        at: place.at + 1,
        line: place.line.saturating_add(1),
        column: 1,
    }
}

/// Goes over fillers from this place on, as far as no other token comes, and none on this line.
pub(crate) fn skimmed(source: &[u8], line: u32, from: Place) -> Place
    requires { from.at ≤ length source.now }
    ensures skims { spec.Skims source.now line (tokens_at Verilog source.now from) (tokens_at Verilog source.now result) }
    ensures within { result.at ≤ length source.now }
    ensures counted { IsCounted from → IsCounted result }
{
    // Where the first byte of this line that was gone over stands; the column is worked out at the line's end.
    let mut begun = from;
    let mut at = from.at;
    while at < source.len() && begun.line != line {
        let text = &source[at..];
        match skim_of(text[0], &text[1..], text) {
            Skim::Stop => return forward(begun, at - begun.at),
            Skim::Line => {
                begun = next_line(forward(begun, at - begun.at));
                at += 1;
            }
            Skim::Blank(n) => at += n,
            Skim::Token(n) => at += n,
        }
    }
    forward(begun, at - begun.at)
}
