//! A module's network with its names.
use gate_settle::GateNet;
use name_index::Names;
use std::marker::Model;

/// The network of a module, whose nets stand in the order in which the module's text names them first.
#[derive(Drop)]
pub struct ModuleNet {
    pub(crate) nets: Names,
    pub(crate) net: GateNet,
}

impl Model for ModuleNet {
    ghost use Rattle.module_net.specs.Building.{NamedNetwork};

    ghost Value = { NamedNetwork };

    ghost view = { λ n. record { names = n.nets; network = n.net } };
}

impl ModuleNet {
    ghost use Rattle.std.specs.Prelude.{◌≡◌};
    ghost use Rattle.name_index.specs.Places.{place_of};

    /// The place of a net. None exactly where the module has no net or port of the name.
    pub fn net_of(&self, name: &[u8]) -> Option<usize>
        ensures { result ≡ place_of self.now.names name.now }
    {
        self.nets.place_of(name)
    }

    /// The network itself: its settled assignments and its moves.
    pub fn network(&self) -> &GateNet
        ensures { result.now ≡ self.now.network }
    {
        &self.net
    }
}
