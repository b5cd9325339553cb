//! The way back of a matching.

ghost use Rattle.std.specs.Prelude.{◌≡◌, ◌<◌, ◌^◌, IfOk, length};
ghost use Rattle.circuits.specs.Bijections.{IsSignedBijection};
ghost use Rattle.port_moves.specs.Inverses.{IsInverse};

use items::Items;
use net_core::Matching;
use std::alloc::{AllocError, Global};

/// The matching that sends each port back to where it came from, with the same sign.
///
/// # Errors
///
/// `AllocError` when out of memory.
pub fn inverse(alloc: Global, matching: &Matching) -> Result<Matching, AllocError>
    requires inputs { IsSignedBijection (length matching.now.inputs) matching.now.inputs }
    requires outputs { IsSignedBijection (length matching.now.outputs) matching.now.outputs }
    requires few_inputs { length matching.now.inputs < 2 ^ 32 }
    requires few_outputs { length matching.now.outputs < 2 ^ 32 }
    ensures inputs { IfOk result (λ back. IsInverse matching.now.inputs back.inputs) }
    ensures outputs { IfOk result (λ back. IsInverse matching.now.outputs back.outputs) }
{
    let inputs = inverse_ports(alloc, &matching.inputs)?;
    let outputs = inverse_ports(alloc, &matching.outputs)?;
    Ok(Matching { inputs, outputs })
}

// The signed bijection that undoes one.
fn inverse_ports(alloc: Global, ports: &[(u32, bool)]) -> Result<Items<(u32, bool)>, AllocError>
    requires ports { IsSignedBijection (length ports.now) ports.now }
    requires few { length ports.now < 2 ^ 32 }
    ensures { IfOk result (λ back. IsInverse ports.now back) }
{
    let mut back = vec![in alloc; (0, false); ports.len()]?;
    put_inverse(ports, &mut back);
    Ok(Items::from_vec(back))
}

// Writes each port, with its sign, to the place to which it goes.
fn put_inverse(ports: &[(u32, bool)], back: &mut [(u32, bool)])
    requires ports { IsSignedBijection (length ports.now) ports.now }
    requires few { length ports.now < 2 ^ 32 }
    requires room { length back.old ≡ length ports.now }
    ensures { IsInverse ports.now back.new }
{
    for (i, (place, inverted)) in ports.iter().enumerate() {
        back[*place as usize] = (i as u32, *inverted);
    }
}
