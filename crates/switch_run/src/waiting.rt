//! Waits of 512 responses.

ghost use Rattle.std.specs.Prelude.{◌≡◌, ◌≤◌, ◌+◌, ℕ, length};
ghost use Rattle.switch_response.specs.Network.{IsRoomFor};
ghost use Rattle.switch_run.specs.Waits.{Waits, Ends};

use std::sync::ledger::Ledger;
use switch_response::{Scratch, State, Steps, SwitchNet, first_change};
use tern_core::Tern;

/// How many responses a wait has.
pub const RESPONSES: usize = 512;

/// How a wait ended.
#[derive(Clone, Copy, Debug, PartialEq, Eq)]
pub enum Rest {
    /// One response more would change nothing.
    Settled,
    /// The first storage node that one response more would change.
    Moving(usize),
}

/// Leaves response 512 of the state, and tells whether response 513 differs from it. A step is one response; a state
/// that equals its response stays, so no more of them are made then.
pub fn wait<L: Ledger>(
    net: &SwitchNet,
    pins: &[Tern],
    state: &mut State,
    scratch: &mut Scratch,
    steps: &mut Steps<L>,
) -> Rest
    requires pins { length pins.now ≡ net.now.pins }
    requires state { length state.old ≡ net.now.net.storage }
    requires scratch { IsRoomFor net.now scratch.old }
    ensures waited { Waits net.now pins.now RESPONSES state.old state.new }
    ensures rest { Ends net.now pins.now state.new result }
    ensures state { length state.new ≡ net.now.net.storage }
    ensures scratch { IsRoomFor net.now scratch.new }
    ensures work { steps.new ≤ steps.old + RESPONSES + 1 }
{
    for step in 0..RESPONSES {
        steps.tick();
        match first_change(net, pins, state, scratch) {
            None => return Rest::Settled,
            Some(_) => state.advance(scratch),
        }
    }
    steps.tick();
    match first_change(net, pins, state, scratch) {
        None => Rest::Settled,
        Some(node) => Rest::Moving(node),
    }
}
