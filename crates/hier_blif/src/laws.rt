//! The laws of the definitions. Each function does nothing; its contract is the law.

ghost use Rattle.std.specs.Prelude.{◌≡◌, ℕ, [], List, true, length, All, Contains};
ghost use Rattle.text_core.specs.Piece.{Piece};
ghost use Rattle.circuits.specs.Netlists.{Net};
ghost use Rattle.circuits.specs.Functions.{Computes};
ghost use Rattle.circuits.specs.Levels.{IsAcyclic};
ghost use Rattle.circuits.specs.Circuits.{Circuit};
ghost use Rattle.hier_blif.specs.declared.model.BlifModel.{BlifModel as AnyModel};
ghost use Rattle.hier_blif.specs.Models.{models_of};
ghost use Rattle.hier_blif.specs.LineFaults.{AreSound};
ghost use Rattle.hier_blif.specs.Widths.{HasWideCovers};
ghost use Rattle.hier_blif.specs.NameFaults.{name_faults};
ghost use Rattle.hier_blif.specs.Depths.{is_within, covers_within};
ghost use Rattle.hier_blif.specs.Flattening.{flat_covers, IsFlattened, IsNumbering};
ghost use Rattle.hier_blif.specs.Signals.{signal_of_top};
ghost use Rattle.blif_reader.specs.Blif.{blif_lines};
ghost use Rattle.hier_blif.specs.declared.fault.HierFault.{HierFault as AnyFault};
ghost use Rattle.hier_blif.specs.Hierarchies.{HasFunction, AreHierarchy, IsHierFault};

/// A graph that computes a flattened circuit without a cycle has the function of its models: exactly one nested
/// valuation fits each vector, and gives the outputs that the graph computes.
pub fn flattened_means_nested()
    ensures { (models : List AnyModel) (top : AnyModel) (depth : ℕ) (circuit : Circuit) (graph : Net)
        → name_faults models ≡ []
        → Contains models top
        → is_within models depth top ≡ true
        → IsFlattened models top (flat_covers models depth top) circuit
        → IsAcyclic circuit
        → Computes graph circuit
        → HasFunction models top graph }
{}

/// A file of models is one flat circuit at most, and has one first fault at most, at one place; never both.
pub fn hier_blif_is_a_format()
    ensures one { (bytes : List ℕ) (one_depth other_depth : ℕ) (one other : Circuit)
        → AreHierarchy (blif_lines bytes) one_depth one
        → AreHierarchy (blif_lines bytes) other_depth other
        → one ≡ other }
    ensures apart { (bytes : List ℕ) (depth : ℕ) (circuit : Circuit) (fault : AnyFault)
        → AreHierarchy (blif_lines bytes) depth circuit
        → IsHierFault bytes fault
        → ⊥ }
    ensures one_fault { (bytes : List ℕ) (fault other : AnyFault)
        → IsHierFault bytes fault
        → IsHierFault bytes other
        → fault ≡ other }
{}

/// Where no name is refused, the names of all instances have a numbering: the one that is worked out from the top down.
pub fn names_have_a_numbering()
    ensures { (models : List AnyModel) (top : AnyModel) (depth : ℕ)
        → name_faults models ≡ []
        → Contains models top
        → is_within models depth top ≡ true
        → IsNumbering models top (flat_covers models depth top) (signal_of_top models depth top) }
{}

/// The covers that are counted without being made are as many as those of the flat circuit.
pub fn covers_are_counted()
    ensures { (models : List AnyModel) (model : AnyModel) (depth : ℕ)
        → length (flat_covers models depth model) ≡ covers_within models depth model }
{}

/// Where no line is refused, the rows of each cover are as wide as its operands.
pub fn covers_are_wide()
    ensures { (lines : List (List Piece)) → AreSound lines → All HasWideCovers (models_of lines) }
{}
