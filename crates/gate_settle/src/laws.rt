//! Laws of networks. Each function's contract is the law; it does nothing.
ghost use Rattle.gate_settle.specs.Network.{HasOneSettled, AreMonotone, KeepsKnown};

use crate::network::GateNet;

/// For given pins and states a network has just one settled assignment.
pub fn one_settled(net: &GateNet)
    ensures { HasOneSettled net.now }
{
    let _nets = net.given.len();
}

/// Where the combinational tables are monotone in the order of information, so is the settled assignment in pins and
/// states. Gates always are; a table is not, where a row gives x inputs another value than one of 0 and 1 has.
pub fn settling_keeps_what_is_known(net: &GateNet)
    ensures { AreMonotone net.now.tables → KeepsKnown net.now }
{
    let _nets = net.given.len();
}
