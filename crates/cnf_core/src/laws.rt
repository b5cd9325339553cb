//! What the definitions of this crate say together. Each function does nothing; its contract is the law.

ghost use Rattle.std.specs.Prelude.{ℕ, ◌≡◌, ◌++◌, Bool, true, List, None};
ghost use Rattle.cnf_core.specs.declared.literal.SatLit.{SatLit};
ghost use Rattle.cnf_core.specs.declared.log.LogLine.{LogLine};
ghost use Rattle.cnf_core.specs.Clauses.{Formula, Meets, is_met};
ghost use Rattle.cnf_core.specs.Derivations.{line_fault, IsRefutation};

/// A derived clause follows: what meets the formula and the clauses that were derived before meets it too.
#[tactic(auto, using(crate::proofs::DerivationLaws::derived_met))]
pub fn derived_clause_follows()
    ensures { (formula : Formula) (taken : List (List SatLit)) (line : LogLine) (assignment : List Bool)
        → line_fault formula taken line ≡ None → Meets assignment (formula.clauses ++ taken)
        → is_met assignment line.clause ≡ true }
{}

/// No assignment meets a formula that a log refutes.
pub fn refuted_is_unsatisfiable()
    ensures { (formula : Formula) (lines : List LogLine) (assignment : List Bool)
        → IsRefutation formula lines → Meets assignment formula.clauses → ⊥ }
{}
