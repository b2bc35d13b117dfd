//! Nets that are driven twice.

ghost use Rattle.std.specs.Prelude.{◌≡◌, ◌≤◌, ◌<◌, ◌+◌, ℕ, length, min, slice_index, IfOk, MatchOption};
ghost use Rattle.gate_settle.specs.Claims.{claim_of, claims_on, claimed, claimed_by, counted};

use crate::gate::{Gate, Given};
use std::alloc::Global;
use text_scan::NoMemory;

impl Given {
    /// Whether the net has a value from outside the gates.
    fn claim(self) -> usize
        ensures result { result ≡ claim_of self }
        ensures one { result ≤ 1 }
    {
        match self {
            Given::Pin(_) | Given::Fixed(_) => 1,
            Given::Floating => 0,
        }
    }
}

/// Counts one claim on each of these nets, up to two.
fn claim(outputs: &[usize], claims: &mut [usize])
    ensures { claims.new ≡ claimed outputs.now claims.old }
{
    for output in outputs {
        if *output < claims.len() && claims[*output] < 2 {
            claims[*output] += 1;
        }
    }
}

/// The claims on each net from outside and by gates, up to two.
fn claims(alloc: Global, given: &[Given], gates: &[Gate]) -> Result<Vec<usize>, NoMemory>
    ensures count { IfOk result (λ c. length c.items ≡ length given.now) }
    ensures each { (k : ℕ) → k < length given.now → IfOk result (λ c. slice_index c.items k ≡ min 2 (claims_on given.now gates.now k)) }
{
    let mut claims = Vec::new(alloc);
    for value in given {
        claims.push(value.claim())?;
    }
    'gates: for gate in gates {
        claim(gate.outputs.as_slice(), claims.as_mut_slice());
    }
    Ok(claims)
}

/// The first net that is driven twice, or is driven and has a value from outside.
pub(crate) fn contested(
    alloc: Global,
    given: &[Given],
    gates: &[Gate],
) -> Result<Option<usize>, NoMemory>
    ensures { IfOk result (λ r. MatchOption r ((k : ℕ) → k < length given.now → claims_on given.now gates.now k ≤ 1) (λ n. (n < length given.now) × (2 ≤ claims_on given.now gates.now n) × ((k : ℕ) → k < n → claims_on given.now gates.now k ≤ 1))) }
{
    let claims = claims(alloc, given, gates)?;
    for net in 0..given.len() {
        if claims[net] == 2 {
            return Ok(Some(net));
        }
    }
    Ok(None)
}
