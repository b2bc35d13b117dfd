//! Measures responses and waits of transistor networks, in one run. Without the word `measure` it does nothing.
#![tactic(auto)]

ghost use Rattle.std.specs.Prelude.{◌≡◌, ◌<◌, length, IfOk};
ghost use Rattle.switch_response.specs.Network.{IsRoomFor};

use circuit::{ModelCard, Subcircuit, Supply, Tech, Transistor};
use std::alloc::{AllocError, Global};
use std::marker::Brand;
use std::sync::ledger::{Blank, Ledger};
use std::time::Instant;
use std::{env, io};
use switch_response::{NetRefusal, Scratch, State, Steps, SwitchNet, build, respond};
use switch_run::{Rest, wait};
use tern_core::Tern;
use text_scan::{Direction, Items, NoMemory, PinKind, Text};

/// What can go wrong.
#[derive(Debug, Drop)]
enum Trouble {
    NoMemory,
    Refused(NetRefusal),
    Io(io::Error),
}

impl From<NoMemory> for Trouble {
    fn from(_: NoMemory) -> Self {
        Trouble::NoMemory
    }
}

impl From<AllocError> for Trouble {
    fn from(_: AllocError) -> Self {
        Trouble::NoMemory
    }
}

impl From<NetRefusal> for Trouble {
    fn from(refusal: NetRefusal) -> Self {
        Trouble::Refused(refusal)
    }
}

impl From<io::Error> for Trouble {
    fn from(error: io::Error) -> Self {
        Trouble::Io(error)
    }
}

fn text(alloc: Global, word: &str) -> Result<Text, NoMemory> {
    Text::from_bytes(alloc, word.as_bytes())
}

fn card(
    alloc: Global,
    drain: &str,
    gate: &str,
    source: &str,
    model: &str,
) -> Result<Transistor, NoMemory> {
    Ok(Transistor {
        name: text(alloc, "M")?,
        drain: text(alloc, drain)?,
        gate: text(alloc, gate)?,
        source: text(alloc, source)?,
        model: text(alloc, model)?,
    })
}

/// Transistors in a row, from VDD on, whose gates are all at the input A; in their order or against it.
fn chain(alloc: Global, transistors: u32, against: bool) -> Result<Items<Transistor>, Trouble> {
    let mut cards = Items::new(alloc);
    for place in 0..transistors {
        let k = if against {
            transistors - place
        } else {
            place + 1
        };
        let last = if k == 1 {
            format!(in alloc; "VDD")?
        } else {
            format!(in alloc; "x{}", k - 1)?
        };
        let next = format!(in alloc; "x{k}")?;
        cards.push(card(alloc, last.as_str(), "A", next.as_str(), "n")?)?;
    }
    Ok(cards)
}

/// Inverters in a row, the first one with the input A.
fn inverters(alloc: Global, count: u32) -> Result<Items<Transistor>, Trouble> {
    let mut cards = Items::new(alloc);
    for k in 0..count {
        let gate = if k == 0 {
            format!(in alloc; "A")?
        } else {
            format!(in alloc; "x{k}")?
        };
        let drain = format!(in alloc; "x{}", k.saturating_add(1))?;
        cards.push(card(alloc, drain.as_str(), gate.as_str(), "VDD", "p")?)?;
        cards.push(card(alloc, drain.as_str(), gate.as_str(), "VSS", "n")?)?;
    }
    Ok(cards)
}

fn network(alloc: Global, transistors: Items<Transistor>) -> Result<SwitchNet, Trouble>
    ensures { IfOk result (λ net. net.pins ≡ 1) }
{
    let mut pins = Items::new(alloc);
    pins.push((text(alloc, "A")?, Direction::Absent))?;
    let part = Subcircuit {
        name: text(alloc, "CELL")?,
        pins,
        transistors,
    };
    let mut models = Items::new(alloc);
    for (name, p) in [("n", false), ("p", true)] {
        models.push(ModelCard {
            name: text(alloc, name)?,
            p,
            strength: 5,
        })?;
    }
    let tech = Tech {
        models,
        sizes: Items::new(alloc),
        supplies: Items::new(alloc),
    };
    let supplies = [
        Supply {
            name: text(alloc, "VDD")?,
            kind: PinKind::Power,
        },
        Supply {
            name: text(alloc, "VSS")?,
            kind: PinKind::Ground,
        },
    ];
    let inputs = [text(alloc, "A")?];
    Ok(build(alloc, &part, &tech, &supplies, &inputs)?)
}

/// A network at work.
#[derive(Drop)]
struct Rig {
    net: SwitchNet,
    state: State,
    next: State,
    scratch: Scratch,
    ghost pins: { net.pins ≡ 1 },
    ghost state_count: { length state ≡ net.net.storage },
    ghost next_count: { length next ≡ net.net.storage },
    ghost room: { IsRoomFor net scratch },
}

fn make_rig(alloc: Global, transistors: Items<Transistor>) -> Result<Rig, Trouble> {
    let net = network(alloc, transistors)?;
    let state = State::unknown(alloc, &net)?;
    let next = State::unknown(alloc, &net)?;
    let scratch = Scratch::new(alloc, &net)?;
    Ok(Rig {
        net,
        state,
        next,
        scratch,
    })
}

/// A wait that nobody counts.
fn counted<L: Ledger>(rig: &mut Rig, pin: Tern, blank: Blank) -> Rest
    requires name { blank.name ≡ L.name }
    requires parts { blank.parts ≡ L.parts }
    requires share { 0 < blank.parts }
{
    let mut steps: Steps<L> = Steps::start(blank);
    wait(
        &rig.net,
        &[pin],
        &mut rig.state,
        &mut rig.scratch,
        &mut steps,
    )
}

impl Rig {
    /// Nanoseconds of one response, over so many.
    fn response_time(&mut self, rt: &HostRuntime, count: u32) -> Result<u128, Trouble> {
        let start = Instant::now(rt)?;
        for _turn in 0..count {
            respond(
                &self.net,
                &[Tern::One],
                &self.state,
                &mut self.scratch,
                &mut self.next,
            );
        }
        Ok(start.elapsed(rt)?.as_nanos() / u128::from(count.max(1)))
    }

    /// Nanoseconds of one wait after a change of the pin, over so many.
    fn wait_time(&mut self, rt: &HostRuntime, count: u32) -> Result<u128, Trouble> {
        let start = Instant::now(rt)?;
        for turn in 0..count {
            let pin = if turn % 2 == 0 { Tern::One } else { Tern::Zero };
            let _ = counted::<Brand>(self, pin, Blank::new(1));
        }
        Ok(start.elapsed(rt)?.as_nanos() / u128::from(count.max(1)))
    }
}

fn measure(rt: &HostRuntime) -> Result<(), Trouble> {
    let alloc = rt.alloc();
    for count in [64u32, 512] {
        for against in [false, true] {
            let mut rig = make_rig(alloc, chain(alloc, count, against)?)?;
            let time = rig.response_time(rt, 10_000)?;
            println!(rt; "chain {count} against {against} response {time} ns")?;
        }
    }
    for count in [2u32, 12, 256] {
        let mut rig = make_rig(alloc, inverters(alloc, count)?)?;
        let time = rig.response_time(rt, 20_000)?;
        println!(rt; "inverters {count} response {time} ns")?;
        let time = rig.wait_time(rt, 1000)?;
        println!(rt; "inverters {count} wait {time} ns")?;
    }
    Ok(())
}

fn main(rt: HostRuntime) -> Result<(), Trouble> {
    let mut asked = false;
    for word in env::args(&rt)? {
        if word.as_str() == "measure" {
            asked = true;
        }
    }
    if asked { measure(&rt) } else { Ok(()) }
}
