//! The tokens of a function text.
ghost use Rattle.std.specs.Prelude.{◌≡◌, ℕ, List, IfOk, OnOk, ◌++◌, ◌+◌, ◌<◌, ◌≤◌, ◌∷◌, [], length};
ghost use Rattle.liberty_function.specs.Words as spec;

use std::alloc::Global;
use text_scan::{Items, NoMemory, Text};

/// A token of a function text.
#[derive(Drop)]
pub(crate) enum Word {
    Quote,
    Bang,
    Caret,
    And,
    Or,
    Open,
    Close,
    Zero,
    One,
    Name(Text),
    /// A byte that no rule names, or a name that is too long.
    Other,
}

/// A token and the number of bytes before it.
#[derive(Drop)]
pub(crate) struct Placed {
    pub(crate) word: Word,
    pub(crate) place: usize,
}

/// Blank, tab, CR and LF, which separate tokens.
pub fn is_blank(byte: u8) -> bool
    ensures { result ≡ spec.is_blank byte }
{
    byte == b' ' || byte == b'\t' || byte == b'\r' || byte == b'\n'
}

fn is_letter(byte: u8) -> bool
    ensures { result ≡ spec.is_letter byte }
{
    (b'a' <= byte && byte <= b'z') || (b'A' <= byte && byte <= b'Z') || byte == b'_'
}

fn is_name_byte(byte: u8) -> bool
    ensures { result ≡ spec.is_name_byte byte }
{
    is_letter(byte) || (b'0' <= byte && byte <= b'9')
}

#[tactic(auto, unfolding(crate::specs::Words::sign_of))]
fn sign_of_byte(byte: u8) -> Word
    ensures { result ≡ spec.sign_of byte }
{
    match byte {
        b'\'' => Word::Quote,
        b'!' => Word::Bang,
        b'^' => Word::Caret,
        b'*' | b'&' => Word::And,
        b'+' | b'|' => Word::Or,
        b'(' => Word::Open,
        b')' => Word::Close,
        b'0' => Word::Zero,
        b'1' => Word::One,
        _ => Word::Other,
    }
}

#[tactic(auto, unfolding(crate::specs::Words::name_of))]
fn name_word(name: Vec<u8>) -> Word
    ensures { result ≡ spec.name_of name.items }
{
    if name.len() <= 128 {
        Word::Name(Text::from_vec(name))
    } else {
        Word::Other
    }
}

#[tactic(auto, unfolding(crate::specs::Words::goes_on))]
fn goes_on(name: &[u8], byte: u8) -> bool
    ensures { result ≡ spec.goes_on name.now byte }
{
    !name.is_empty() && is_name_byte(byte)
}

#[derive(Drop)]
/// What was cut off a text so far, and the name that has begun.
struct Cutting {
    words: Items<Placed>,
    name: Vec<u8>,
}

#[tactic(auto, unfolding(crate::specs::Words::closed))]
fn close(alloc: Global, cutting: &mut Cutting, place: usize) -> Result<(), NoMemory>
    requires { length cutting.old.name.items ≤ place }
    ensures { OnOk result ((cutting.new.words ≡ cutting.old.words ++ spec.closed place cutting.old.name.items) × (cutting.new.name.items ≡ [])) }
{
    if !cutting.name.is_empty() {
        let length = cutting.name.len();
        let name = std::mem::replace(&mut cutting.name, Vec::new(alloc));
        cutting.words.push(Placed {
            word: name_word(name),
            place: place - length,
        })?;
    }
    Ok(())
}

#[tactic(auto, unfolding(crate::specs::Words::signs, crate::specs::Words::begun))]
fn begin(cutting: &mut Cutting, place: usize, byte: u8) -> Result<(), NoMemory>
    requires { cutting.old.name.items ≡ [] }
    ensures { OnOk result ((cutting.new.words ≡ cutting.old.words ++ spec.signs place byte) × (cutting.new.name.items ≡ spec.begun byte)) }
{
    if is_letter(byte) {
        cutting.name.push(byte)?;
    } else if !is_blank(byte) {
        cutting.words.push(Placed {
            word: sign_of_byte(byte),
            place,
        })?;
    }
    Ok(())
}

/// Takes the byte at a place.
#[tactic(auto, using(crate::proofs::Cutting::one_more, crate::proofs::Cutting::one_apart))]
fn cut(alloc: Global, cutting: &mut Cutting, place: usize, byte: u8) -> Result<(), NoMemory>
    requires { length cutting.old.name.items ≤ place }
    ensures words { OnOk result ((bs : List ℕ) → cutting.old.words ++ spec.words_from place cutting.old.name.items (byte ∷ bs) ≡ cutting.new.words ++ spec.words_from (place + 1) cutting.new.name.items bs) }
    ensures short { OnOk result (length cutting.new.name.items ≤ place + 1) }
{
    if goes_on(&cutting.name, byte) {
        cutting.name.push(byte)?;
    } else {
        close(alloc, cutting, place)?;
        begin(cutting, place, byte)?;
    }
    Ok(())
}

#[tactic(auto, using(crate::proofs::Cutting::cut_here))]
pub(crate) fn words_of_text(alloc: Global, text: &[u8]) -> Result<Items<Placed>, NoMemory>
    ensures { IfOk result (λ words. words ≡ spec.words_of text.now) }
{
    let mut cutting = Cutting {
        words: Items::new(alloc),
        name: Vec::new(alloc),
    };
    for (i, byte) in text.iter().enumerate() {
        cut(alloc, &mut cutting, i, *byte)?;
    }
    close(alloc, &mut cutting, text.len())?;
    Ok(cutting.words)
}
