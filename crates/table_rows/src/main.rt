//! Makes tables of user-defined primitives, asks copies of them, and prints what they answer: `table_rows FILE..`.
//!
//! Primitives begin with `%`, and what a file has before the first is passed over. The line of a primitive is
//! `NAME KIND INPUTS`, where the kind is `combinational` or `sequential`. Each line that begins with `|` has a row
//! behind that, and each other line what the table is asked:
//!
//! - `level: LEVELS..`, the output at each of these levels of the inputs;
//! - `step STATE INPUT OLD: LEVELS..`, the new state after the input at this place, counted from 0, has changed from
//!   the old value, with the new one in its place among the levels;
//! - `change STATE OLD: LEVELS..`, the new state after the inputs have changed from the old levels to these.
//!
//! Levels are a list of `0`, `1` and `X`, or `-` where there are no inputs. The answer to what the table can't be
//! asked is printed as `-`.
#![tactic(auto)]

mod question;
mod table;

use anyhow::Result;
use question::{Question, levels_of};
use std::alloc::{Alloc, AllocError, Global};
use std::io::Print;
use std::{env, fs};
use table::text_of;
use udp_table::{OrderRoom, Udp, UdpRefusal, build};

fn show_refusal<R: Print>(rt: &R, refusal: UdpRefusal) -> Result<()> {
    match refusal {
        UdpRefusal::NoMemory => println!(rt; "no memory")?,
        UdpRefusal::BadRow(row) => println!(rt; "row {row} is none")?,
        UdpRefusal::RowsConflict(first, second) => {
            println!(rt; "rows {first} and {second} conflict")?;
        }
        UdpRefusal::TooManyInputs(inputs) => println!(rt; "{inputs} inputs are too many")?,
    }
    Ok(())
}

fn show_answers<R: Print + Alloc<A = Global>>(
    rt: &R,
    udp: &Udp,
    line: &str,
    room: &mut OrderRoom,
) -> Result<()> {
    let mut parts = line.split(':');
    let head = parts.next().unwrap_or("");
    let question = Question::of(rt.alloc(), head)?;
    print!(rt; "{head}:")?;
    for word in parts.next().unwrap_or("").split_ascii_whitespace() {
        let levels = levels_of(rt.alloc(), word)?;
        let answer = question.answer(udp, &levels, room);
        print!(rt; " {word}={}", answer.map_or("-", |value| value.symbol()))?;
    }
    println!(rt; "")?;
    Ok(())
}

fn show_table<R: Print + Alloc<A = Global>>(
    rt: &R,
    udp: &Udp,
    primitive: &str,
    room: &mut OrderRoom,
) -> Result<()> {
    let kind = if udp.sequential() {
        "sequential"
    } else {
        "combinational"
    };
    let name = String::from_utf8(udp.name().to_vec(rt.alloc())?)?;
    println!(rt; "{name}: {kind}, {} inputs", udp.inputs())?;
    for line in primitive.split('\n').skip(1) {
        if !line.is_empty() && !line.starts_with('|') {
            show_answers(rt, udp, line, room)?;
        }
    }
    Ok(())
}

fn show_primitive<R: Print + Alloc<A = Global>>(
    rt: &R,
    primitive: &str,
    room: &mut OrderRoom,
) -> Result<()> {
    let alloc = rt.alloc();
    let text = text_of(alloc, primitive)?;
    match build(alloc, &text) {
        Ok(udp) => {
            let copy = udp.copied(alloc).map_err(|_| AllocError)?;
            show_table(rt, &copy, primitive, room)
        }
        Err(refusal) => {
            print!(rt; "{}: ", text.name)?;
            show_refusal(rt, refusal)
        }
    }
}

fn main(rt: HostRuntime) -> Result<()> {
    let mut room = OrderRoom::new();
    for path in env::args(&rt)?.skip(1) {
        let primitives = String::from_utf8(fs::read(&rt, path.as_str())?)?;
        for primitive in primitives.split('%').skip(1) {
            show_primitive(&rt, primitive, &mut room)?;
        }
    }
    Ok(())
}
