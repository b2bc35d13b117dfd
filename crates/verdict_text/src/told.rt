//! What the words of a block's lines tell. Other spellings of a block may be taken here: what is told counts only where its
//! block is the text that was read.
ghost use Rattle.std.specs.Prelude.{◌≡◌, IfOk, map, find};
ghost use Rattle.verdict_text.specs.Told as spec;
ghost use Rattle.verdict_text.specs.Told.{Tells};
ghost use Rattle.verdict_text.specs.Block.{IsCode};

use crate::finding::{Change, Code, Finding, Mismatch, View};
use std::alloc::Global;
use tern_core::Tern;
use text_scan::{LimitKind, NoMemory, Text};

/// Why nothing is told.
#[derive(Clone, Copy, Debug)]
pub enum Unread {
    NoMemory,
    /// No block has these words.
    Unlike,
}

impl From<NoMemory> for Unread {
    ghost use Rattle.std.specs.Prelude.{◌≡◌};
    ghost use Rattle.verdict_text.specs.declared.told.Unread.TheVariants as unread;

    ghost from_gives = { λ _ why. why ≡ unread.NoMemory };

    fn from(_: NoMemory) -> Self {
        Unread::NoMemory
    }
}

/// The lines of a text, each without its end; behind the last end stands a line of no bytes.
pub(crate) fn lines_of(alloc: Global, text: &[u8]) -> Result<Vec<&[u8]>, NoMemory>
    ensures { IfOk result (λ lines. map (λ l. l.now) lines.items ≡ spec.lines_of text.now) }
{
    Ok(text.split(|byte| *byte == b'\n').collect(alloc)?)
}

/// The words of a line, one blank between two.
pub(crate) fn words_of(alloc: Global, line: &[u8]) -> Result<Vec<&[u8]>, NoMemory>
    ensures { IfOk result (λ words. map (λ w. w.now) words.items ≡ spec.words_of line.now) }
{
    Ok(line.split(|byte| *byte == b' ').collect(alloc)?)
}

// What stands between the signs of a word.
fn sides_of(alloc: Global, word: &[u8]) -> Result<Vec<&[u8]>, NoMemory>
    ensures { IfOk result (λ sides. map (λ s. s.now) sides.items ≡ spec.sides_of word.now) }
{
    Ok(word.split(|byte| *byte == b'=').collect(alloc)?)
}

/// The code that a text is; none exactly where it is no code.
pub fn code_of(text: &[u8]) -> Option<Code>
    ensures { IsCode text.now result }
{
    told_code(text)
}

fn told_code(word: &[u8]) -> Option<Code>
    ensures { result ≡ spec.told_code word.now }
{
    let codes = [
        Code::P1,
        Code::P2,
        Code::P3,
        Code::P4,
        Code::H1,
        Code::H2,
        Code::H3,
        Code::H4,
        Code::H5,
        Code::M1,
        Code::M2,
        Code::Z1,
        Code::Z2,
    ];
    code_among(codes.as_slice(), word)
}

fn code_among(codes: &[Code], word: &[u8]) -> Option<Code>
    ensures { result ≡ find (spec.is_code_word word.now) codes.now }
{
    codes
        .iter()
        .find(|code| word == code.word().as_bytes())
        .copied()
}

/// The view that a word names.
pub(crate) fn view_of(word: &[u8]) -> Option<View>
    ensures { result ≡ spec.told_view word.now }
{
    let views = [View::Liberty, View::Verilog, View::Cdl, View::Lef];
    view_among(views.as_slice(), word)
}

fn view_among(views: &[View], word: &[u8]) -> Option<View>
    ensures { result ≡ find (spec.is_view_word word.now) views.now }
{
    views
        .iter()
        .find(|view| word == view.word().as_bytes())
        .copied()
}

/// The limit that a word names.
pub(crate) fn kind_of(word: &[u8]) -> Option<LimitKind>
    ensures { result ≡ spec.told_kind word.now }
{
    let kinds = [
        LimitKind::Inputs,
        LimitKind::Gates,
        LimitKind::Transistors,
        LimitKind::Nodes,
        LimitKind::Rows,
        LimitKind::Pins,
        LimitKind::UdpInputs,
        LimitKind::Cells,
        LimitKind::Name,
        LimitKind::Nesting,
        LimitKind::Records,
        LimitKind::Rects,
    ];
    kind_among(kinds.as_slice(), word)
}

fn kind_among(kinds: &[LimitKind], word: &[u8]) -> Option<LimitKind>
    ensures { result ≡ find (spec.is_kind_word word.now) kinds.now }
{
    kinds
        .iter()
        .find(|kind| word == kind.word().as_bytes())
        .copied()
}

/// A decimal number of 32 bits.
pub(crate) fn told_number(word: &[u8]) -> Result<u32, Unread>
    ensures { Tells (spec.told_number word.now) result }
{
    if !word.iter().all(|byte| byte.is_ascii_digit()) {
        return Err(Unread::Unlike);
    }
    let Ok(digits) = std::str::from_utf8(word) else {
        return Err(Unread::Unlike);
    };
    match digits.parse::<u32>() {
        Ok(number) => Ok(number),
        Err(_) => Err(Unread::Unlike),
    }
}

#[tactic(auto, unfolding(crate::specs::Told::told_value))]
fn told_value(word: &[u8]) -> Result<Tern, Unread>
    ensures { Tells (spec.told_value word.now) result }
{
    if word == b"0".as_slice() {
        Ok(Tern::Zero)
    } else if word == b"1".as_slice() {
        Ok(Tern::One)
    } else if word == b"X".as_slice() {
        Ok(Tern::Unknown)
    } else {
        Err(Unread::Unlike)
    }
}

/// A pin and its value, as `A=1`.
pub(crate) fn told_change(alloc: Global, word: &[u8]) -> Result<Change, Unread>
    ensures { Tells (spec.told_change word.now) result }
{
    let sides = sides_of(alloc, word)?;
    let [pin, value] = sides.as_slice() else {
        return Err(Unread::Unlike);
    };
    let value = told_value(value)?;
    Ok(Change {
        pin: Text::from_bytes(alloc, pin)?,
        value,
    })
}

#[tactic(auto, unfolding(crate::specs::Told::told_any_change))]
fn told_any_change(alloc: Global, word: &[u8]) -> Result<Option<Change>, Unread>
    ensures { Tells (spec.told_any_change word.now) result }
{
    if word == b"-".as_slice() {
        return Ok(None);
    }
    Ok(Some(told_change(alloc, word)?))
}

#[tactic(auto, unfolding(crate::specs::Told::told_pin))]
fn told_pin(alloc: Global, word: &[u8]) -> Result<Option<Text>, NoMemory>
    ensures { IfOk result (λ pin. pin ≡ spec.told_pin word.now) }
{
    if word == b"-".as_slice() {
        return Ok(None);
    }
    Ok(Some(Text::from_bytes(alloc, word)?))
}

// By the words for row, change and both values.
fn told_mismatch(
    alloc: Global,
    row: &[u8],
    change: &[u8],
    liberty: &[u8],
    other: &[u8],
) -> Result<Mismatch, Unread>
    ensures { Tells (spec.told_mismatch row.now change.now liberty.now other.now) result }
{
    Ok(Mismatch {
        row: told_number(row)?,
        change: told_any_change(alloc, change)?,
        liberty: told_value(liberty)?,
        other: told_value(other)?,
    })
}

fn told_waiver(words: &[&[u8]]) -> Result<Option<u32>, Unread>
    ensures { Tells (spec.told_waiver (map (λ w. w.now) words.now)) result }
{
    match words {
        [] => Ok(None),
        [_, number] => Ok(Some(told_number(number)?)),
        _ => Err(Unread::Unlike),
    }
}

// What stands behind the view: values that differ, and a waiver.
#[tactic(auto, using(crate::proofs::Tails::short_tail))]
fn told_tail(alloc: Global, words: &[&[u8]]) -> Result<(Option<Mismatch>, Option<u32>), Unread>
    ensures { Tells (spec.told_tail (map (λ w. w.now) words.now)) result }
{
    let [_, row, _, change, _, liberty, _, other, rest @ ..] = words else {
        return Ok((None, told_waiver(words)?));
    };
    let mismatch = told_mismatch(alloc, row, change, liberty, other)?;
    Ok((Some(mismatch), told_waiver(rest)?))
}

/// The finding of a line's words.
pub(crate) fn told_finding(alloc: Global, words: &[&[u8]]) -> Result<Finding, Unread>
    ensures { Tells (spec.told_finding (map (λ w. w.now) words.now)) result }
{
    let [_, code, pin, view, tail @ ..] = words else {
        return Err(Unread::Unlike);
    };
    let code = told_code(code).ok_or(Unread::Unlike)?;
    let view = view_of(view).ok_or(Unread::Unlike)?;
    let (mismatch, waiver) = told_tail(alloc, tail)?;
    Ok(Finding {
        code,
        pin: told_pin(alloc, pin)?,
        view,
        mismatch,
        waiver,
    })
}
