//! Inputs that a gate joins.

ghost use Rattle.std.specs.Prelude.{◌≡◌, ◌≤◌, IfOk, IsTrue, length};

use net_core::Graph;
use std::alloc::{AllocError, Global};

/// Of each input the place of the gate that joins it to another one: the first gate whose operands are these two and
/// for neither of which one was noted before. None where there is no such gate.
///
/// # Errors
///
/// Only when out of memory.
pub(crate) fn joining_gates(alloc: Global, graph: &Graph) -> Result<Vec<Option<u32>>, AllocError>
    ensures { IfOk result (λ joints. length joints.items ≡ graph.now.inputs) }
{
    let mut joints = vec![in alloc; None; graph.inputs() as usize]?;
    let gates = graph.gates();
    for place in 0..gates.len() {
        let gate = gates[place];
        join(gate.a.signal(), gate.b.signal(), place as u32, &mut joints);
    }
    Ok(joints)
}

/// Notes a gate for both its operands, where these are two inputs for which none was noted.
fn join(first: u32, second: u32, gate: u32, joints: &mut [Option<u32>])
    ensures { length joints.new ≡ length joints.old }
{
    if !is_free(first, joints) | !is_free(second, joints) | (first == second) {
        return;
    }
    joints[first as usize - 1] = Some(gate);
    joints[second as usize - 1] = Some(gate);
}

/// Whether a signal is an input for which no gate was noted.
fn is_free(signal: u32, joints: &[Option<u32>]) -> bool
    ensures least { IsTrue result → 1 ≤ signal }
    ensures there { IsTrue result → signal ≤ length joints.now }
{
    if (signal == 0) | (signal as usize > joints.len()) {
        return false;
    }
    joints[signal as usize - 1].is_none()
}
