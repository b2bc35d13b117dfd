//! The response of a network.

ghost use Rattle.std.specs.Prelude.{◌≡◌, ◌≤◌, ◌<◌, ◌*◌, ◌^◌, ℕ, length, slice_index, IfOk};
ghost use Rattle.switch_response.specs.Walks.{value_at, net, IsNet, IsResponse, HasArrival};
ghost use Rattle.switch_response.specs.Seeds.{IsSeed, AreSeeds, IsLeft};

use crate::relax::spread;
use crate::stack::Stack;
use crate::wiring::Wiring;
use std::alloc::{AllocError, Global};
use std::marker::Model;
use tern_core::Tern;

/// The strength of a node as the root of walks whose root isn't at `avoid`, or 0 where no such walk begins there.
fn seed_of(value: Tern, avoid: Tern, strength: u8, definite: u8) -> u8
    ensures seed { IsSeed value avoid strength definite result }
    ensures weaker { result ≤ strength }
{
    if value == avoid || strength < definite {
        0
    } else {
        strength
    }
}

/// Writes the strength of each node as such a root.
fn sow(values: &[Tern], avoid: Tern, strengths: &[u8], definite: &[u8], seeds: &mut [u8])
    requires values { length values.now ≡ length seeds.old }
    requires strengths { length strengths.now ≡ length seeds.old }
    requires definite { length definite.now ≡ length seeds.old }
    ensures seeds { AreSeeds values.now avoid strengths.now definite.now seeds.new }
    ensures weaker { (k : ℕ) → k < length seeds.new → slice_index seeds.new k ≤ slice_index strengths.now k }
{
    for node in 0..seeds.len() {
        seeds[node] = seed_of(values[node], avoid, strengths[node], definite[node]);
    }
}

/// What a node becomes, by the strongest walks to it from other roots than those at 1, and at 0.
fn value_of(other_than_one: u8, other_than_zero: u8) -> Tern
    ensures { IsLeft other_than_one other_than_zero result }
{
    if other_than_one == 0 {
        Tern::One
    } else if other_than_zero == 0 {
        Tern::Zero
    } else {
        Tern::Unknown
    }
}

/// Writes what each storage node becomes.
fn settle(ones: &[u8], zeros: &[u8], next: &mut [Tern])
    requires ones { length next.old ≤ length ones.now }
    requires zeros { length next.old ≤ length zeros.now }
    ensures { (k : ℕ) → k < length next.new → IsLeft (slice_index ones.now k) (slice_index zeros.now k) (value_at next.new k) }
{
    for node in 0..next.len() {
        next[node] = value_of(ones[node], zeros[node]);
    }
}

/// Writes the response of the network, where all nodes have these values.
fn respond_over(
    wiring: &Wiring,
    strengths: &[u8],
    values: &[Tern],
    definite: &mut [u8],
    ones: &mut [u8],
    zeros: &mut [u8],
    waiting: &mut Stack,
    next: &mut [Tern],
)
    requires network { IsNet (net wiring.now.storage strengths.now wiring.now.transistors) }
    requires strengths { length strengths.now ≡ wiring.now.nodes }
    requires values { length values.now ≡ wiring.now.nodes }
    requires definite { length definite.old ≡ wiring.now.nodes }
    requires ones { length ones.old ≡ wiring.now.nodes }
    requires zeros { length zeros.old ≡ wiring.now.nodes }
    requires waiting { 9 * wiring.now.nodes ≤ waiting.old.capacity }
    requires next { length next.old ≡ wiring.now.storage }
    ensures response { IsResponse (net wiring.now.storage strengths.now wiring.now.transistors) values.now next.new }
    ensures walks { (node : ℕ) → node < wiring.now.storage → HasArrival (net wiring.now.storage strengths.now wiring.now.transistors) values.now node }
    ensures waiting { waiting.new.capacity ≡ waiting.old.capacity }
{
    definite.copy_from_slice(strengths);
    spread(wiring, values, true, strengths, definite, waiting);
    sow(values, Tern::One, strengths, definite, ones);
    spread(wiring, values, false, definite, ones, waiting);
    sow(values, Tern::Zero, strengths, definite, zeros);
    spread(wiring, values, false, definite, zeros, waiting);
    settle(ones, zeros, next);
}

/// Room for the strengths of walks to so many nodes.
#[derive(Drop)]
pub struct Levels {
    definite: Vec<u8>,
    ones: Vec<u8>,
    zeros: Vec<u8>,
    waiting: Stack,
}

impl Model for Levels {
    ghost Value = { ℕ };

    ghost view = { λ l. length l.definite.items };

    ghost invariant = { λ l. (length l.ones.items ≡ length l.definite.items) × (length l.zeros.items ≡ length l.definite.items) × (9 * length l.definite.items ≤ l.waiting.capacity) };
}

impl Levels {
    pub fn new(alloc: Global, nodes: usize) -> Result<Levels, AllocError>
        requires { 9 * nodes < 2 ^ 64 }
        ensures { IfOk result (λ levels. levels ≡ nodes) }
    {
        Ok(Levels {
            definite: vec![in alloc; 0u8; nodes]?,
            ones: vec![in alloc; 0u8; nodes]?,
            zeros: vec![in alloc; 0u8; nodes]?,
            waiting: Stack::new(alloc, 9 * nodes)?,
        })
    }

    /// Writes the response of the network, where all nodes have these values.
    pub fn respond(&mut self, wiring: &Wiring, strengths: &[u8], values: &[Tern], next: &mut [Tern])
        requires network { IsNet (net wiring.now.storage strengths.now wiring.now.transistors) }
        requires nodes { self.old ≡ wiring.now.nodes }
        requires strengths { length strengths.now ≡ wiring.now.nodes }
        requires values { length values.now ≡ wiring.now.nodes }
        requires next { length next.old ≡ wiring.now.storage }
        ensures response { IsResponse (net wiring.now.storage strengths.now wiring.now.transistors) values.now next.new }
        // Each node has an unblocked walk to it.
        ensures walks { (node : ℕ) → node < wiring.now.storage → HasArrival (net wiring.now.storage strengths.now wiring.now.transistors) values.now node }
        ensures nodes { self.new ≡ self.old }
    {
        respond_over(
            wiring,
            strengths,
            values,
            &mut self.definite,
            &mut self.ones,
            &mut self.zeros,
            &mut self.waiting,
            next,
        );
    }
}
