//! What the definitions of this crate say together: laws that hold of all netlists, vectors and signed
//! bijections. Each function does nothing; its contract is the law.

ghost use Rattle.std.specs.Prelude.{ℕ, suc, max, ◌<◌, ◌^◌, ◌≡◌, ◌↔◌, Bool, List, [], ◌∷◌, ◌++◌, length};
ghost use Rattle.circuits.specs.Literals.{vector_of};
ghost use Rattle.circuits.specs.Netlists.{Net, IsOrdered, Fits, valuation_of};
ghost use Rattle.circuits.specs.Bijections.{IsSignedBijection, Moves, moved};
ghost use Rattle.circuits.specs.Circuits.{Circuit, IsClosed, FitsCircuit, names_of, signal_at};
ghost use Rattle.circuits.specs.Functions.{Computes, as_circuit};
ghost use Rattle.circuits.specs.Expansion.{gates_in};
ghost use Rattle.circuits.specs.Levels.{HasLevel, HaveLevel, HasNoLevel, IsAcyclic, IsOrderOf, Reaches};
ghost use Rattle.circuits.specs.Matches.{IsMatch, IsMatchOfFunctions, AreNpnpEqual, HaveNpnpEqualFunctions};

/// Exactly one valuation fits a netlist in order and a vector as long as it has inputs: the one computed
/// gate by gate.
pub fn one_valuation()
    ensures fits { (net : Net) (x : List Bool)
        → IsOrdered net
        → length x ≡ net.inputs
        → Fits net x (valuation_of net x) }
    ensures only { (net : Net) (x v : List Bool)
        → IsOrdered net
        → length x ≡ net.inputs
        → Fits net x v
        → v ≡ valuation_of net x }
{}

/// A signed bijection moves each vector to exactly one.
pub fn moved_vector()
    ensures moves { (p : List (ℕ × Bool)) (x : List Bool)
        → IsSignedBijection (length x) p
        → Moves p x (moved p x) }
    ensures only { (p : List (ℕ × Bool)) (x y : List Bool)
        → IsSignedBijection (length x) p
        → Moves p x y
        → y ≡ moved p x }
{}

/// A netlist in order, read as one in any order, has no cycle, is closed, and means what it computes.
pub fn in_order_in_any()
    ensures acyclic { (net : Net) → IsOrdered net
        → IsAcyclic (as_circuit net) }
    ensures closed { (net : Net) → IsOrdered net
        → IsClosed (as_circuit net) }
    ensures computes { (net : Net) → IsOrdered net
        → Computes net (as_circuit net) }
{}

/// A match of two netlists without a cycle is a match of the functions that are computed of them.
pub fn match_of_functions()
    ensures { (first second : Circuit) (f g : Net) (p q : List (ℕ × Bool))
        → IsAcyclic first
        → IsAcyclic second
        → Computes f first
        → Computes g second
        → (IsMatch first second p q ↔ IsMatchOfFunctions f g p q) }
{}

/// Two netlists without a cycle are NPNP equal exactly where the functions that are computed of them are.
pub fn npnp_of_functions()
    ensures { (first second : Circuit) (f g : Net)
        → IsAcyclic first
        → IsAcyclic second
        → Computes f first
        → Computes g second
        → (AreNpnpEqual first second ↔ HaveNpnpEqualFunctions f g) }
{}

/// Each netlist without a cycle is NPNP equal to itself.
pub fn npnp_reflexive()
    ensures { (circuit : Circuit) → IsAcyclic circuit
        → AreNpnpEqual circuit circuit }
{}

/// Each vector of n bits has a number below 2 ^ n that codes it.
pub fn every_vector()
    ensures { (x : List Bool)
        → (code : ℕ) × (code < 2 ^ length x) × (x ≡ vector_of (length x) code) }
{}

/// What reaches a cycle has no level.
pub fn no_level_on_a_cycle()
    ensures { (circuit : Circuit) (j k s t : ℕ)
        → Reaches circuit j s t
        → Reaches circuit (suc k) t t
        → HasNoLevel circuit s }
{}

/// A closed netlist without a cycle that is taken by levels is in order, and computes what the netlist means.
pub fn computed_in_order()
    ensures ordered { (circuit : Circuit) (net : Net)
        → IsAcyclic circuit
        → IsClosed circuit
        → IsOrderOf circuit net
        → IsOrdered net }
    ensures computes { (circuit : Circuit) (net : Net)
        → IsAcyclic circuit
        → IsClosed circuit
        → IsOrderOf circuit net
        → Computes net circuit }
{}

/// A netlist without a cycle has one order at most.
pub fn one_order()
    ensures { (circuit : Circuit) (a b : Net)
        → IsAcyclic circuit
        → IsOrderOf circuit a
        → IsOrderOf circuit b
        → a ≡ b }
{}

/// Exactly one valuation fits a netlist without a cycle and a vector as long as it has inputs.
pub fn one_valuation_of_circuit()
    ensures some { (circuit : Circuit) (x : List Bool)
        → IsAcyclic circuit
        → length x ≡ circuit.inputs
        → (v : List Bool) × FitsCircuit circuit x v }
    ensures only { (circuit : Circuit) (x v w : List Bool)
        → IsAcyclic circuit
        → FitsCircuit circuit x v
        → FitsCircuit circuit x w
        → v ≡ w }
{}

/// The level of several signals is the greatest of their levels, and 0 where there are none.
pub fn level_of_signals()
    ensures none { (circuit : Circuit) → HaveLevel circuit [] 0 }
    ensures more { (circuit : Circuit) (signals : List ℕ) (s l m : ℕ)
        → HaveLevel circuit signals l
        → HasLevel circuit s m
        → HaveLevel circuit (signals ++ s ∷ []) (max l m) }
{}

/// A definition is one level above the signals that it names; and where it has a level, they have the one
/// below it.
pub fn level_of_definition()
    ensures above { (circuit : Circuit) (d n : ℕ)
        → d < length circuit.defs
        → HaveLevel circuit (names_of circuit d) n
        → HasLevel circuit (signal_at circuit d) (suc n) }
    ensures named { (circuit : Circuit) (d n : ℕ)
        → d < length circuit.defs
        → HasLevel circuit (signal_at circuit d) (suc n)
        → HaveLevel circuit (names_of circuit d) n }
{}

/// The ordered netlist has as many gates as its definitions' expansions.
pub fn gates_in_order()
    ensures { (circuit : Circuit) (net : Net)
        → IsClosed circuit
        → IsOrderOf circuit net
        → length net.gates ≡ gates_in circuit }
{}
