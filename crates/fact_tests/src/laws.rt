//! What rows say, and what outputs reach. Each function does nothing; its contract is the law.

ghost use Rattle.std.specs.Prelude.{◌≡◌, ◌<◌, ◌↔◌, ℕ, Bool, true, false, List, length};
ghost use Rattle.circuits.specs.Circuits.{Circuit};
ghost use Rattle.circuits.specs.Functions.{Computes};
ghost use Rattle.circuits.specs.Literals.{bit};
ghost use Rattle.circuits.specs.Netlists.{IsOrdered, Net};
ghost use Rattle.claim_core.specs.Claims.{output_bit};
ghost use Rattle.claim_core.specs.declared.info.OutputInfo.{OutputInfo as Row};
ghost use Rattle.claim_core.specs.Facts.{InSupport};
ghost use Rattle.claim_core.specs.Rows.{AreRows, AreRowsOf, IsRow};
ghost use Rattle.sim_signature.specs.Supports.{output_reaches};

/// The rows of a netlist in order are those of the circuit that it computes.
pub fn rows_of_a_circuit()
    ensures { (net : Net) (circuit : Circuit) (rows : List Row)
        → Computes net circuit
        → AreRows net rows
        → AreRowsOf circuit rows }
{}

/// A function has one row at most.
pub fn one_row()
    ensures { (n : ℕ) (f : List Bool → Bool) (row other : Row)
        → IsRow n f row
        → IsRow n f other
        → row ≡ other }
{}

/// An output has the same bit on two vectors that agree on the inputs that it reaches through gates; so it depends on
/// these inputs alone.
pub fn reached_inputs()
    ensures same { (net : Net) (k : ℕ) (x y : List Bool)
        → IsOrdered net
        → k < length net.outputs
        → length x ≡ net.inputs
        → length y ≡ net.inputs
        → ((i : ℕ) → output_reaches net k i ≡ true → bit x i ≡ bit y i)
        → output_bit net k x ≡ output_bit net k y }
    ensures outside { (net : Net) (k i : ℕ)
        → IsOrdered net
        → k < length net.outputs
        → output_reaches net k i ≡ false
        → InSupport net.inputs (output_bit net k) i
        → ⊥ }
{}
