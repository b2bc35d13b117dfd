ghost use Rattle.std.specs.Prelude.{◌≡◌, ◌<◌, length, slice_get, Some};
ghost use Rattle.gate_settle.specs.Network.{given_value, given_values, IsSettled, IsMoveOf};

use crate::gate::{Gate, Given};
use crate::settle::{advance, settle, value_at};
use std::marker::Model;
use tern_core::Tern;
use text_scan::Items;
use udp_table::{OrderRoom, Udp};

/// A network whose gates stand in an order of dependence, so that one pass over them settles it.
#[derive(Debug, Drop)]
pub struct GateNet {
    pub(crate) given: Items<Given>,
    pub(crate) tables: Items<Udp>,
    pub(crate) gates: Items<Gate>,
    pub(crate) state_nets: Items<usize>,
}

impl Model for GateNet {
    ghost use Rattle.std.specs.Prelude.{◌≡◌, true, length};
    ghost use Rattle.gate_settle.specs.Order.{is_ordered, known_at_first};
    ghost use Rattle.gate_settle.specs.Settled.{have_own_states, are_places};
    ghost use Rattle.gate_settle.specs.Network.{Network};

    ghost Value = { Network };

    ghost view = { λ n. record { given = n.given; tables = n.tables; gates = n.gates; state_nets = n.state_nets } };

    ghost invariant = { λ n. (is_ordered (known_at_first (length n.given) n.gates) n.gates ≡ true) × (have_own_states (length n.state_nets) n.gates ≡ true) × (are_places (length n.given) n.state_nets ≡ true) };
}

impl Given {
    fn value(self, pins: &[Tern]) -> Tern
        ensures { result ≡ given_value pins.now self }
    {
        match self {
            Given::Pin(place) => value_at(pins, place),
            Given::Fixed(value) => value,
            Given::Floating => Tern::Unknown,
        }
    }
}

/// Gives each net the value that it has from outside the gates.
fn begin(given: &[Given], pins: &[Tern], nets: &mut [Tern])
    requires { length nets.old ≡ length given.now }
    ensures { nets.new ≡ given_values given.now pins.now }
{
    for place in 0..nets.len() {
        nets[place] = given[place].value(pins);
    }
}

impl GateNet {
    /// The number of nets.
    pub fn nets(&self) -> usize
        ensures { result ≡ length self.now.given }
    {
        self.given.len()
    }

    /// The number of states.
    pub fn states(&self) -> usize
        ensures { result ≡ length self.now.state_nets }
    {
        self.state_nets.len()
    }

    /// The net that shows a state. States count from 0, in the order of the text.
    pub fn state_net(&self, state: usize) -> usize
        requires { state < length self.now.state_nets }
        ensures found { slice_get self.now.state_nets state ≡ Some result }
        ensures within { result < length self.now.given }
    {
        self.state_nets.as_slice()[state]
    }

    /// Leaves the one settled assignment, where the pins and the sequential primitives have these
    /// values (IEEE 1364-2005, clause 7).
    pub fn settle(&self, pins: &[Tern], states: &[Tern], nets: &mut [Tern])
        requires { length nets.old ≡ length self.now.given }
        ensures { IsSettled self.now pins.now states.now nets.new }
    {
        begin(self.given.as_slice(), pins, nets);
        settle(self.tables.as_slice(), self.gates.as_slice(), states, nets);
    }

    /// Moves the pins to new values. `nets` and `states` are the old ones; the new nets are left in both
    /// lists. Each new state is that on which all orders of its primitive's changed inputs agree.
    pub fn move_pins(
        &self,
        pins: &[Tern],
        nets: &mut [Tern],
        states: &mut [Tern],
        new_nets: &mut [Tern],
        room: &mut OrderRoom,
    )
        requires nets { length nets.old ≡ length self.now.given }
        requires new_nets { length new_nets.old ≡ length self.now.given }
        requires states { length states.old ≡ length self.now.state_nets }
        ensures moved { IsMoveOf self.now pins.now nets.old states.old new_nets.new states.new }
        ensures both { nets.new ≡ new_nets.new }
    {
        begin(self.given.as_slice(), pins, new_nets);
        let tables = self.tables.as_slice();
        advance(tables, self.gates.as_slice(), nets, new_nets, states, room);
        nets.copy_from_slice(new_nets);
    }
}
