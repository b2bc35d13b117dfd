//! Networks, their states, and the room that a response takes.

ghost use Rattle.std.specs.Prelude.{◌≡◌, ◌≤◌, ◌<◌, ◌+◌, ◌*◌, ◌^◌, ◌++◌, ℕ, List, length, slice_set, slice_get, IfOk, IfSome, Some, replicate, MatchOption, Contains};
ghost use Rattle.std.specs.Str.{bytes_eq};
ghost use Rattle.switch_response.specs.Places.{Indexes};
ghost use Rattle.tern_core.specs.declared.tern.Tern.{Tern};
ghost use Rattle.switch_response.specs.Walks.{value_at, net, IsResponse, HasArrival};
ghost use Rattle.switch_response.specs.Network.{Network, IsNetwork, all_values, Room, IsRoomFor};
ghost use Rattle.switch_response.specs.Differences.{IsFirstDifference};

use crate::name_index::NameIndex;
use crate::response::Levels;
use crate::wiring::Wiring;
use std::alloc::Global;
use std::marker::Model;
use tern_core::Tern;
use text_scan::{NoMemory, Text};

/// A network of transistors. Its nodes are numbered: storage nodes first, then input pins, then supplies.
#[derive(Drop)]
pub struct SwitchNet {
    pub(crate) names: Vec<Text>,
    pub(crate) index: NameIndex,
    pub(crate) pins: usize,
    pub(crate) supplies: Vec<Tern>,
    pub(crate) strengths: Vec<u8>,
    pub(crate) wiring: Wiring,
}

impl Model for SwitchNet {
    ghost Value = { Network };

    ghost view = { λ s. record { names = s.names.items; pins = s.pins; supplies = s.supplies.items; net = net (length s.names.items) s.strengths.items s.wiring.transistors } };

    ghost invariant = { λ s. IsNetwork (record { names = s.names.items; pins = s.pins; supplies = s.supplies.items; net = net (length s.names.items) s.strengths.items s.wiring.transistors }) × Indexes bytes_eq s.names.items s.index × (s.wiring.storage ≡ length s.names.items) × (s.wiring.nodes ≡ length s.strengths.items) × (9 * length s.strengths.items < 2 ^ 64) };
}

/// The values of a network's storage nodes.
#[derive(Drop)]
pub struct State {
    nodes: Vec<Tern>,
}

impl Model for State {
    ghost Value = { List Tern };

    ghost view = { λ s. s.nodes.items };
}

/// Room for responses, with the last one that was made in it.
#[derive(Drop)]
pub struct Scratch {
    values: Vec<Tern>,
    levels: Levels,
    next: Vec<Tern>,
}

impl Model for Scratch {
    ghost Value = { Room };

    ghost view = { λ s. record { nodes = length s.values.items; next = s.next.items } };

    ghost invariant = { λ s. s.levels ≡ length s.values.items };
}

impl SwitchNet {
    /// The number of storage nodes.
    pub fn nodes(&self) -> usize
        ensures count { result ≡ self.now.net.storage }
        ensures network { IsNetwork self.now }
    {
        self.names.len()
    }

    /// The name of one storage node.
    pub fn node_name(&self, node: usize) -> &[u8]
        requires { node < self.now.net.storage }
        ensures { slice_get self.now.names node ≡ Some result.now }
    {
        self.names[node].as_bytes()
    }

    /// The storage node of this name. None exactly where no storage node has the name.
    pub fn node_of(&self, name: &[u8]) -> Option<usize>
        ensures named { MatchOption result (¬ Contains self.now.names name.now) (λ node. slice_get self.now.names node ≡ Some name.now) }
        ensures within { IfSome result (λ node. node < self.now.net.storage) }
    {
        self.index.get(name)
    }
}

impl State {
    /// A state in which each node is unknown.
    pub fn unknown(alloc: Global, net: &SwitchNet) -> Result<State, NoMemory>
        ensures { IfOk result (λ state. state ≡ replicate net.now.net.storage Tern.Unknown) }
    {
        Ok(State {
            nodes: vec![in alloc; Tern::Unknown; net.names.len()]?,
        })
    }

    /// The value of one node.
    pub fn get(&self, node: usize) -> Tern
        requires { node < length self.now }
        ensures { result ≡ value_at self.now node }
    {
        self.nodes[node]
    }

    /// Changes one node.
    pub fn set(&mut self, node: usize, value: Tern)
        requires { node < length self.old }
        ensures { self.new ≡ slice_set self.old node value }
    {
        self.nodes[node] = value;
    }

    /// Takes on the last response that was made in the scratch.
    pub fn advance(&mut self, scratch: &Scratch)
        requires { length self.old ≡ length scratch.now.next }
        ensures { self.new ≡ scratch.now.next }
    {
        self.nodes.copy_from_slice(&scratch.next);
    }
}

impl Scratch {
    /// Room for the network's responses.
    pub fn new(alloc: Global, net: &SwitchNet) -> Result<Scratch, NoMemory>
        ensures { IfOk result (IsRoomFor net.now) }
    {
        let nodes = net.strengths.len();
        Ok(Scratch {
            values: vec![in alloc; Tern::Unknown; nodes]?,
            levels: Levels::new(alloc, nodes)?,
            next: vec![in alloc; Tern::Unknown; net.names.len()]?,
        })
    }
}

/// Copies three lists one after the other.
fn gather(state: &[Tern], pins: &[Tern], supplies: &[Tern], values: &mut [Tern])
    requires { length values.old ≡ length state.now + (length pins.now + length supplies.now) }
    ensures { values.new ≡ state.now ++ (pins.now ++ supplies.now) }
{
    let (front, rest) = values.split_at_mut(state.len());
    let (middle, back) = rest.split_at_mut(pins.len());
    front.copy_from_slice(state);
    middle.copy_from_slice(pins);
    back.copy_from_slice(supplies);
}

/// The first node at which two states differ.
fn first_difference(a: &[Tern], b: &[Tern]) -> Option<usize>
    requires { length a.now ≡ length b.now }
    ensures { MatchOption result (b.now ≡ a.now) (λ node. (node < length a.now) × IsFirstDifference a.now b.now node) }
{
    for node in 0..a.len() {
        if a[node] != b[node] {
            return Some(node);
        }
    }
    None
}

/// Makes the response of the network in the scratch.
fn make_response(net: &SwitchNet, pins: &[Tern], state: &State, scratch: &mut Scratch)
    requires pins { length pins.now ≡ net.now.pins }
    requires state { length state.now ≡ net.now.net.storage }
    requires scratch { IsRoomFor net.now scratch.old }
    ensures response { IsResponse net.now.net (all_values net.now state.now pins.now) scratch.new.next }
    ensures walks { (node : ℕ) → node < net.now.net.storage → HasArrival net.now.net (all_values net.now state.now pins.now) node }
    ensures scratch { IsRoomFor net.now scratch.new }
{
    gather(&state.nodes, pins, &net.supplies, &mut scratch.values);
    scratch.levels.respond(
        &net.wiring,
        &net.strengths,
        &scratch.values,
        &mut scratch.next,
    );
}

/// The response of the network: what each storage node becomes, where the input pins have these values.
pub fn respond(
    net: &SwitchNet,
    pins: &[Tern],
    state: &State,
    scratch: &mut Scratch,
    next: &mut State,
)
    requires pins { length pins.now ≡ net.now.pins }
    requires state { length state.now ≡ net.now.net.storage }
    requires next { length next.old ≡ net.now.net.storage }
    requires scratch { IsRoomFor net.now scratch.old }
    ensures response { IsResponse net.now.net (all_values net.now state.now pins.now) next.new }
    // Each storage node has an unblocked walk to it.
    ensures walks { (node : ℕ) → node < net.now.net.storage → HasArrival net.now.net (all_values net.now state.now pins.now) node }
    ensures scratch { IsRoomFor net.now scratch.new }
{
    make_response(net, pins, state, scratch);
    next.advance(scratch);
}

/// Makes the response in the scratch. Answers the first node at which it differs from the state.
pub fn first_change(
    net: &SwitchNet,
    pins: &[Tern],
    state: &State,
    scratch: &mut Scratch,
) -> Option<usize>
    requires pins { length pins.now ≡ net.now.pins }
    requires state { length state.now ≡ net.now.net.storage }
    requires scratch { IsRoomFor net.now scratch.old }
    ensures response { IsResponse net.now.net (all_values net.now state.now pins.now) scratch.new.next }
    ensures change { MatchOption result (scratch.new.next ≡ state.now) (λ node. (node < net.now.net.storage) × IsFirstDifference state.now scratch.new.next node) }
    ensures scratch { IsRoomFor net.now scratch.new }
{
    make_response(net, pins, state, scratch);
    first_difference(&state.nodes, &scratch.next)
}
