//! The strongest walks from given seeds.

ghost use Rattle.std.specs.Prelude.{◌≡◌, ◌≤◌, ◌<◌, ◌⊎◌, ◌*◌, ◌+◌, ℕ, All, length, slice_index};
ghost use Rattle.switch_response.specs.Spread.{opens, IsSpread, ground, room};
ghost use Rattle.switch_response.specs.Relaxing.{Carries, Stays, IsGrown, IsIdleFrom};

use crate::stack::Stack;
use crate::transistor::Channel;
use crate::wiring::{Arc, Wiring};
use tern_core::Tern;

/// Whether a walk may pass a transistor whose gate has this value.
fn passes(definite: bool, channel: Channel, gate: Tern) -> bool
    ensures { result ≡ opens definite channel gate }
{
    match (channel, gate) {
        (Channel::N, Tern::One) | (Channel::P, Tern::Zero) => true,
        (_, Tern::Unknown) => !definite,
        _ => false,
    }
}

/// Carries a node's strength along an arc that may be passed. The node at its end waits where it got stronger.
fn carry(arc: &Arc, strength: u8, floor: &[u8], best: &mut [u8], waiting: &mut Stack)
    requires to { arc.now.to < length best.old }
    requires floor { length floor.now ≡ length best.old }
    requires strength { strength ≤ 8 }
    requires room { length waiting.old.items + room best.old ≤ waiting.old.capacity }
    ensures carried { Carries floor.now strength arc.now best.old waiting.old.items best.new waiting.new.items ⊎ Stays floor.now strength arc.now best.old waiting.old.items best.new waiting.new.items }
    ensures capacity { waiting.new.capacity ≡ waiting.old.capacity }
{
    let reached = strength.min(arc.strength);
    if floor[arc.to] <= reached && best[arc.to] < reached {
        best[arc.to] = reached;
        waiting.push(arc.to);
    }
}

/// Carries a node's strength along each of its arcs that may be passed.
fn leave(
    wiring: &Wiring,
    node: usize,
    values: &[Tern],
    definite: bool,
    floor: &[u8],
    best: &mut [u8],
    waiting: &mut Stack,
)
    requires node { node < wiring.now.nodes }
    requires values { length values.now ≡ wiring.now.nodes }
    requires floor { length floor.now ≡ wiring.now.nodes }
    requires best { length best.old ≡ wiring.now.nodes }
    requires bounded { All (λ b. b ≤ 8) best.old }
    requires within { All (λ a. a < length best.old) waiting.old.items }
    requires room { length waiting.old.items + room best.old ≤ waiting.old.capacity }
    ensures grows { IsGrown (ground wiring.now.transistors wiring.now.storage values.now definite floor.now) best.old best.new waiting.old.items waiting.new.items }
    ensures idle { IsIdleFrom (ground wiring.now.transistors wiring.now.storage values.now definite floor.now) best.new node }
    ensures capacity { waiting.new.capacity ≡ waiting.old.capacity }
{
    let strength = best[node];
    for arc in wiring.arcs_at(node) {
        if passes(definite, arc.channel, values[arc.gate]) {
            carry(arc, strength, floor, best, waiting);
        }
    }
}

/// Leaves the strength of the strongest walk to each node, from the seeds that it is given. Each node waits once at the
/// beginning, and again each time that it gets stronger.
pub fn spread(
    wiring: &Wiring,
    values: &[Tern],
    definite: bool,
    floor: &[u8],
    best: &mut [u8],
    waiting: &mut Stack,
)
    requires values { length values.now ≡ wiring.now.nodes }
    requires floor { length floor.now ≡ wiring.now.nodes }
    requires best { length best.old ≡ wiring.now.nodes }
    requires bounded { All (λ b. b ≤ 8) best.old }
    requires room { 9 * wiring.now.nodes ≤ waiting.old.capacity }
    ensures spread { IsSpread (ground wiring.now.transistors wiring.now.storage values.now definite floor.now) best.old best.new }
    ensures capacity { waiting.new.capacity ≡ waiting.old.capacity }
{
    waiting.fill(wiring.nodes());
    'nodes: while let Some(node) = waiting.pop() {
        leave(wiring, node, values, definite, floor, best, waiting);
    }
}
