//! A network at work.
ghost use Rattle.std.specs.Prelude.{◌≡◌, ◌≤◌, ◌<◌, All, length};
ghost use Rattle.switch_response.specs.Network.{IsRoomFor};

use circuit::{Subcircuit, Supply, Tech};
use std::alloc::Global;
use std::marker::Brand;
use std::sync::ledger::{Blank, Ledger};
use switch_response::{NetRefusal, Scratch, State, Steps, SwitchNet, build, respond};
use switch_run::{Rest, wait};
use tern_core::Tern;
use text_scan::Text;

/// A network, the values of its input pins, and its state.
#[derive(Drop)]
pub struct Rig {
    net: SwitchNet,
    pins: Vec<Tern>,
    state: State,
    next: State,
    scratch: Scratch,
    ghost pin_count: { length pins.items ≡ net.pins },
    ghost state_count: { length state ≡ net.net.storage },
    ghost next_count: { length next ≡ net.net.storage },
    ghost room: { IsRoomFor net scratch },
}

/// The network of the subcircuit, with its pins and storage nodes unknown.
pub fn rig_of(
    alloc: Global,
    part: &Subcircuit,
    tech: &Tech,
    supplies: &[Supply],
    inputs: &[Text],
) -> Result<Rig, NetRefusal>
    requires { All (λ z. (1 ≤ z.strength) × (z.strength ≤ 3)) tech.now.sizes }
{
    let net = build(alloc, part, tech, supplies, inputs)?;
    let pins = vec![in alloc; Tern::Unknown; inputs.len()]?;
    let state = State::unknown(alloc, &net)?;
    let next = State::unknown(alloc, &net)?;
    let scratch = Scratch::new(alloc, &net)?;
    Ok(Rig {
        net,
        pins,
        state,
        next,
        scratch,
    })
}

/// A wait whose steps nobody counts.
fn counted<L: Ledger>(rig: &mut Rig, blank: Blank) -> Rest
    requires name { blank.name ≡ L.name }
    requires parts { blank.parts ≡ L.parts }
    requires share { 0 < blank.parts }
{
    let mut steps: Steps<L> = Steps::start(blank);
    wait(
        &rig.net,
        &rig.pins,
        &mut rig.state,
        &mut rig.scratch,
        &mut steps,
    )
}

impl Rig {
    pub fn net(&self) -> &SwitchNet {
        &self.net
    }

    /// Gives the pins these values, if there are as many. Says whether it did.
    pub fn set_pins(&mut self, values: &[Tern]) -> bool {
        if values.len() != self.pins.len() {
            return false;
        }
        self.pins.copy_from_slice(values);
        true
    }

    /// Gives the storage node of this name a value, if there is one. Says whether it did.
    pub fn set(&mut self, name: &[u8], value: Tern) -> bool {
        match self.net.node_of(name) {
            Some(node) if node < self.net.nodes() => {
                self.state.set(node, value);
                true
            }
            _ => false,
        }
    }

    /// The value of a storage node, if there are as many.
    pub fn value(&self, node: usize) -> Option<Tern> {
        if node < self.net.nodes() {
            Some(self.state.get(node))
        } else {
            None
        }
    }

    /// One response.
    pub fn step(&mut self) {
        respond(
            &self.net,
            &self.pins,
            &self.state,
            &mut self.scratch,
            &mut self.next,
        );
        std::mem::swap(&mut self.state, &mut self.next);
    }

    pub fn settle(&mut self) -> Rest {
        counted::<Brand>(self, Blank::new(1))
    }
}
