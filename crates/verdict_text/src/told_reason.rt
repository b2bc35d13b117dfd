//! What the words of a refusal's line tell.
ghost use Rattle.std.specs.Prelude.{◌≡◌, map};
ghost use Rattle.verdict_text.specs.Told as spec;
ghost use Rattle.verdict_text.specs.Told.{Tells};

use crate::reason::Reason;
use crate::told::{Unread, kind_of, told_change, told_number, view_of};
use std::alloc::Global;
use text_scan::Text;

/// The refusal of a line's words.
pub(crate) fn told_reason(alloc: Global, words: &[&[u8]]) -> Result<Reason, Unread>
    ensures { Tells (spec.told_reason (map (λ w. w.now) words.now)) result }
{
    let [_, kind, rest @ ..] = words else {
        return Err(Unread::Unlike);
    };
    of_kind(alloc, kind, rest)
}

// By the first word behind `refused` and the others.
fn of_kind(alloc: Global, kind: &[u8], rest: &[&[u8]]) -> Result<Reason, Unread>
    ensures { Tells (spec.of_kind kind.now (map (λ w. w.now) rest.now)) result }
{
    match rest {
        [name] => of_two(alloc, kind, name),
        [middle, last] => of_three(alloc, kind, middle, last),
        [name, _, number] => of_four(alloc, kind, name, number),
        [first, _, third, fourth] => of_five(alloc, kind, first, third, fourth),
        [what, _, third, fourth, fifth] => of_six(alloc, what, third, fourth, fifth),
        [_, row, _, change, _, node] => of_moving(alloc, row, change, node),
        _ => Err(Unread::Unlike),
    }
}

#[tactic(auto, unfolding(crate::specs::Told::of_two))]
fn of_two(alloc: Global, kind: &[u8], name: &[u8]) -> Result<Reason, Unread>
    ensures { Tells (spec.of_two kind.now name.now) result }
{
    if kind == b"loop".as_slice() {
        Ok(Reason::Loop(Text::from_bytes(alloc, name)?))
    } else if kind == b"short".as_slice() {
        Ok(Reason::SupplyShort(Text::from_bytes(alloc, name)?))
    } else if kind == b"no".as_slice() {
        Ok(Reason::NoTable)
    } else if kind == b"empty".as_slice() {
        Ok(Reason::EmptyTable)
    } else {
        Err(Unread::Unlike)
    }
}

#[tactic(auto, unfolding(crate::specs::Told::of_three))]
fn of_three(alloc: Global, kind: &[u8], middle: &[u8], last: &[u8]) -> Result<Reason, Unread>
    ensures { Tells (spec.of_three kind.now middle.now last.now) result }
{
    if kind == b"unknown".as_slice() {
        of_unknown(alloc, middle, last)
    } else if kind == b"two".as_slice() {
        Ok(Reason::TwoDrivers(Text::from_bytes(alloc, last)?))
    } else if kind == b"port".as_slice() {
        Ok(Reason::PortCount(Text::from_bytes(alloc, last)?))
    } else if kind == b"float".as_slice() {
        Ok(Reason::FloatRead(Text::from_bytes(alloc, last)?))
    } else {
        of_number(alloc, kind, middle, last)
    }
}

// What isn't known.
#[tactic(auto, unfolding(crate::specs::Told::of_unknown))]
fn of_unknown(alloc: Global, what: &[u8], name: &[u8]) -> Result<Reason, Unread>
    ensures { Tells (spec.of_unknown what.now name.now) result }
{
    if what == b"name".as_slice() {
        Ok(Reason::UnknownName(Text::from_bytes(alloc, name)?))
    } else if what == b"udp".as_slice() {
        Ok(Reason::UnknownUdp(Text::from_bytes(alloc, name)?))
    } else if what == b"model".as_slice() {
        Ok(Reason::UnknownModel(Text::from_bytes(alloc, name)?))
    } else {
        Err(Unread::Unlike)
    }
}

// Three words of which the last is a number.
#[tactic(auto, unfolding(crate::specs::Told::of_number))]
fn of_number(alloc: Global, kind: &[u8], middle: &[u8], number: &[u8]) -> Result<Reason, Unread>
    ensures { Tells (spec.of_number kind.now middle.now number.now) result }
{
    if kind == b"state".as_slice() {
        Ok(Reason::BadStateRow(told_number(number)?))
    } else if kind == b"table".as_slice() {
        Ok(Reason::TableShape(told_number(number)?))
    } else if kind == b"shape".as_slice() {
        let index = told_number(number)?;
        Ok(Reason::BadShape {
            pin: Text::from_bytes(alloc, middle)?,
            index,
        })
    } else if kind == b"limit".as_slice() {
        of_limit(middle, number)
    } else {
        Err(Unread::Unlike)
    }
}

fn of_limit(kind: &[u8], number: &[u8]) -> Result<Reason, Unread>
    ensures { Tells (spec.of_limit kind.now number.now) result }
{
    let kind = kind_of(kind).ok_or(Unread::Unlike)?;
    let number = told_number(number)?;
    Ok(Reason::Limit { kind, number })
}

#[tactic(auto, unfolding(crate::specs::Told::of_four))]
fn of_four(alloc: Global, kind: &[u8], name: &[u8], number: &[u8]) -> Result<Reason, Unread>
    ensures { Tells (spec.of_four kind.now name.now number.now) result }
{
    if kind == b"function".as_slice() {
        let place = told_number(number)?;
        Ok(Reason::BadFunction {
            owner: Text::from_bytes(alloc, name)?,
            place,
        })
    } else if kind == b"udp".as_slice() {
        let row = told_number(number)?;
        Ok(Reason::UdpRow {
            udp: Text::from_bytes(alloc, name)?,
            row,
        })
    } else {
        Err(Unread::Unlike)
    }
}

#[tactic(auto, unfolding(crate::specs::Told::of_five))]
fn of_five(
    alloc: Global,
    kind: &[u8],
    first: &[u8],
    third: &[u8],
    fourth: &[u8],
) -> Result<Reason, Unread>
    ensures { Tells (spec.of_five kind.now first.now third.now fourth.now) result }
{
    if kind == b"construct".as_slice() {
        of_construct(alloc, first, third, fourth)
    } else if kind == b"udp".as_slice() {
        of_udp_rows(alloc, first, third, fourth)
    } else {
        Err(Unread::Unlike)
    }
}

fn of_construct(alloc: Global, view: &[u8], line: &[u8], word: &[u8]) -> Result<Reason, Unread>
    ensures { Tells (spec.of_construct view.now line.now word.now) result }
{
    let view = view_of(view).ok_or(Unread::Unlike)?;
    let line = told_number(line)?;
    Ok(Reason::Construct {
        view,
        word: Text::from_bytes(alloc, word)?,
        line,
    })
}

fn of_udp_rows(alloc: Global, udp: &[u8], first: &[u8], second: &[u8]) -> Result<Reason, Unread>
    ensures { Tells (spec.of_udp_rows udp.now first.now second.now) result }
{
    let first = told_number(first)?;
    let second = told_number(second)?;
    Ok(Reason::UdpRows {
        udp: Text::from_bytes(alloc, udp)?,
        first,
        second,
    })
}

#[tactic(auto, unfolding(crate::specs::Told::of_six))]
fn of_six(
    alloc: Global,
    what: &[u8],
    third: &[u8],
    fourth: &[u8],
    fifth: &[u8],
) -> Result<Reason, Unread>
    ensures { Tells (spec.of_six what.now third.now fourth.now fifth.now) result }
{
    if what == b"at".as_slice() {
        let row = told_number(fourth)?;
        Ok(Reason::RowNotAtRest {
            row,
            place: Text::from_bytes(alloc, fifth)?,
        })
    } else if what == b"closed".as_slice() {
        let row = told_number(third)?;
        let change = told_change(alloc, fifth)?;
        Ok(Reason::NotClosed { row, change })
    } else {
        Err(Unread::Unlike)
    }
}

fn of_moving(alloc: Global, row: &[u8], change: &[u8], node: &[u8]) -> Result<Reason, Unread>
    ensures { Tells (spec.of_moving row.now change.now node.now) result }
{
    let row = told_number(row)?;
    let change = told_change(alloc, change)?;
    Ok(Reason::Moving {
        row,
        change,
        node: Text::from_bytes(alloc, node)?,
    })
}
