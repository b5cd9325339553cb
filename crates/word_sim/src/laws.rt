//! What the definitions of this crate say together. Each function does nothing; its contract is the law.

ghost use Rattle.std.specs.Prelude.{◌≡◌, Bool, List, length};
ghost use Rattle.circuits.specs.Netlists.{Net, IsOrdered, function_of};
ghost use Rattle.word_sim.specs.declared.tri.Tri.{Tri};
ghost use Rattle.word_sim.specs.ThreeValues.{FillsIn, tri_outputs};

/// A definite value of an output is the output's bit under every vector that fills the inputs' X in.
pub fn definite_whatever_is_filled_in()
    ensures { (net : Net) (values : List Tri) (vector : List Bool)
        → IsOrdered net
        → length values ≡ net.inputs
        → FillsIn values vector
        → FillsIn (tri_outputs net values) (function_of net vector) }
{}
