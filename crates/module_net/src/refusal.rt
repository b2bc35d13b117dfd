//! Why a module makes no network.
use text_scan::{NoMemory, Text};

/// The first thing for which a module's elements make no network.
#[derive(Debug, Drop)]
pub enum GateRefusal {
    NoMemory,
    /// A net that depends on itself, through sequential primitives too.
    Loop(Text),
    /// A net that is driven twice, or is driven and has a value from outside.
    TwoDrivers(Text),
    /// An element's word is no gate and no primitive.
    UnknownUdp(Text),
    /// An element, by its label, has a wrong number of terminals.
    PortCount(Text),
}

impl From<NoMemory> for GateRefusal {
    ghost use Rattle.std.specs.Prelude.{◌≡◌};
    ghost use Rattle.module_net.specs.declared.refusal.GateRefusal.TheVariants.{NoMemory as refused};

    ghost from_gives = { λ _ e. e ≡ refused };

    fn from(_: NoMemory) -> GateRefusal {
        GateRefusal::NoMemory
    }
}
