//! Laws of the response. Each function's contract is the law; it does nothing.

ghost use Rattle.std.specs.Prelude.{◌≡◌, ◌<◌, ◌++◌, ℕ, List, length};
ghost use Rattle.tern_core.specs.declared.tern.Tern.{Tern};
ghost use Rattle.tern_core.specs.Order.{AreAtMost};
ghost use Rattle.switch_response.specs.Walks.{Net, value_at, IsNet, IsResponse, HasSameGates};

use crate::RESPONSES;

/// Where one state is at most as known as another under equal pins, so are their responses; and so it is for all values
/// of nodes, those of pins among them.
pub fn monotone()
    ensures states { (n : Net) (pins a b x y : List Tern) → IsNet n → AreAtMost a b → IsResponse n (a ++ pins) x → IsResponse n (b ++ pins) y → AreAtMost x y }
    ensures values { (n : Net) (a b x y : List Tern) → IsNet n → AreAtMost a b → IsResponse n a x → IsResponse n b y → AreAtMost x y }
{}

/// Where the gates of a node's part have equal values in a state and in its response, the response of the response
/// gives the node the value that the response gave it.
pub fn idempotent()
    ensures { (n : Net) (pins state next after : List Tern) (node : ℕ) → IsNet n → length state ≡ n.storage → node < n.storage
        → IsResponse n (state ++ pins) next → IsResponse n (next ++ pins) after → HasSameGates n node (state ++ pins) (next ++ pins)
        → value_at after node ≡ value_at next node }
{}

/// The values of all nodes have one response.
pub fn one_response()
    ensures { (n : Net) (values x y : List Tern) → IsNet n → IsResponse n values x → IsResponse n values y → x ≡ y }
{}

/// A wait makes 512 responses.
pub fn a_wait_has_512_responses()
    ensures { RESPONSES ≡ 512 }
{}
