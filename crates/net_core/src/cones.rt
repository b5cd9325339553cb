ghost use Rattle.std.specs.Prelude.{◌≡◌, ◌+◌, ◌<◌, ◌↔◌, ℕ, [], false, All, AllPairs, Contains, IfOk, OnOk, length};
ghost use Rattle.std.specs.Prelude.{replicate};
ghost use Rattle.net_core.specs.Graph.{AreInOrder};
ghost use Rattle.net_core.specs.Cones.{AreReachedFrom, IsFoundBy, ReachesGate};

use crate::graph::Graph;
use bit_list::Marks;
use circuits::Gate;
use std::alloc::{AllocError, Global};

impl Graph {
    /// The numbers of the gates that an output reaches, ascending: its own gate, the gates of that one's operands, and
    /// so on (its transitive fan-in). It takes a step for each of these, whatever else the circuit has.
    ///
    /// # Errors
    ///
    /// Only when out of memory.
    pub fn cone(&self, alloc: Global, output: u32) -> Result<Vec<u32>, AllocError>
        requires { output < length self.now.outputs }
        ensures ascending { IfOk result (λ gates. AllPairs (λ one other. one < other) gates.items) }
        ensures there { IfOk result (λ gates. All (λ t. t < length self.now.gates) gates.items) }
        ensures reached { IfOk result (λ gates. (t : ℕ)
            → (Contains gates.items t ↔ ReachesGate self.now output t)) }
    {
        let first_gate = 1 + self.inputs();
        let signal = self.outputs()[output as usize].signal();
        // it brings in that the signals can be counted
        let _signals = self.signals();
        let mut gates = reached(alloc, self.gates(), first_gate, signal)?;
        gates.sort_unstable();
        Ok(gates)
    }
}

/// The gates that a signal reaches, each once.
fn reached(alloc: Global, gates: &[Gate], first: u32, signal: u32) -> Result<Vec<u32>, AllocError>
    requires order { AreInOrder first gates.now }
    requires there { signal < first + length gates.now }
    ensures { IfOk result (λ found. AreReachedFrom first gates.now signal found.items) }
{
    let mut marks = Marks::none(alloc, gates.len());
    let mut found = Vec::new(alloc);
    find_all(alloc, gates, first, signal, &mut marks, &mut found)?;
    Ok(found)
}

/// Finds the gates that a signal reaches, breadth first: its own one, then those of the operands of each that was
/// found.
fn find_all(
    alloc: Global,
    gates: &[Gate],
    first: u32,
    signal: u32,
    marks: &mut Marks,
    found: &mut Vec<u32>,
) -> Result<(), AllocError>
    requires order { AreInOrder first gates.now }
    requires there { signal < first + length gates.now }
    requires unmarked { marks.old ≡ replicate (length gates.now) false }
    requires none { found.old.items ≡ [] }
    ensures { OnOk result (AreReachedFrom first gates.now signal found.new.items) }
{
    find(alloc, first, signal, marks, found)?;
    let mut next = 0;
    while next < found.len() {
        let gate = gates[found[next] as usize];
        find(alloc, first, gate.a.signal(), marks, found)?;
        find(alloc, first, gate.b.signal(), marks, found)?;
        next += 1;
    }
    Ok(())
}

/// Finds the gate of a signal, where it is a gate's, and marks it. A gate that is marked was found before.
fn find(
    alloc: Global,
    first: u32,
    signal: u32,
    marks: &mut Marks,
    found: &mut Vec<u32>,
) -> Result<(), AllocError>
    requires { signal < first + length marks.old }
    ensures { OnOk result (IsFoundBy first signal marks.old found.old.items marks.new found.new.items) }
{
    if signal < first {
        return Ok(());
    }
    let gate = signal - first;
    if marks.has(gate as usize) {
        return Ok(());
    }
    found.push(gate)?;
    marks.mark(alloc, gate as usize)
}
