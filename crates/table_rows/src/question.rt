//! What tables are asked.
use anyhow::{Context, Result, bail};
use std::alloc::{AllocError, Global};
use tern_core::Tern;
use udp_table::{OrderRoom, Udp};

/// What is asked of a table, up to the levels that its inputs have in the end.
#[derive(Drop)]
pub enum Question {
    Level,
    Step {
        state: Tern,
        input: usize,
        old: Tern,
    },
    Change {
        state: Tern,
        old: Vec<Tern>,
    },
}

fn value_of(word: &str) -> Tern {
    match word {
        "0" => Tern::Zero,
        "1" => Tern::One,
        _ => Tern::Unknown,
    }
}

/// The values of these symbols, none of `-`.
pub fn levels_of(alloc: Global, word: &str) -> Result<Vec<Tern>, AllocError> {
    let mut levels = Vec::new(alloc);
    for symbol in word.bytes() {
        match symbol {
            b'0' => levels.push(Tern::Zero)?,
            b'1' => levels.push(Tern::One)?,
            b'X' => levels.push(Tern::Unknown)?,
            _ => {}
        }
    }
    Ok(levels)
}

fn level(udp: &Udp, levels: &[Tern]) -> Option<Tern> {
    if udp.sequential() || levels.len() != udp.inputs() {
        return None;
    }
    Some(udp.level(levels))
}

fn step(udp: &Udp, input: usize, old: Tern, levels: &[Tern], state: Tern) -> Option<Tern> {
    let new = *levels.get(input)?;
    if !udp.sequential() || levels.len() != udp.inputs() || old == new {
        return None;
    }
    Some(udp.step(input, old, new, levels, state))
}

fn change(
    udp: &Udp,
    old: &[Tern],
    new: &[Tern],
    state: Tern,
    room: &mut OrderRoom,
) -> Option<Tern> {
    if !udp.sequential() || old.len() != udp.inputs() || new.len() != udp.inputs() {
        return None;
    }
    Some(udp.change(old, new, state, room))
}

impl Question {
    pub fn of(alloc: Global, text: &str) -> Result<Question> {
        let mut words = text.split(' ');
        let kind = words.next().unwrap_or("");
        let state = value_of(words.next().unwrap_or(""));
        let third = words.next().unwrap_or("");
        match kind {
            "level" => Ok(Question::Level),
            "step" => Ok(Question::Step {
                state,
                input: third.parse::<usize>().context("an input's place")?,
                old: value_of(words.next().unwrap_or("")),
            }),
            "change" => Ok(Question::Change {
                state,
                old: levels_of(alloc, third)?,
            }),
            _ => bail!("{kind} is no question"),
        }
    }

    /// The answer at these levels, or none where the table can't be asked this.
    pub fn answer(&self, udp: &Udp, levels: &[Tern], room: &mut OrderRoom) -> Option<Tern> {
        match self {
            Question::Level => level(udp, levels),
            Question::Step { state, input, old } => step(udp, *input, *old, levels, *state),
            Question::Change { state, old } => change(udp, old, levels, *state, room),
        }
    }
}
