//! What the definitions of this crate say together. Each function does nothing; its contract is the law.

ghost use Rattle.std.specs.Prelude.{◌≡◌, ◌≤◌, ℕ, List, length};
ghost use Rattle.cnf_core.specs.declared.literal.SatLit.{SatLit};
ghost use Rattle.trail_core.specs.Trails.{IsBack, Trailing, with_assigned, with_decision};
ghost use Rattle.watch_lists.specs.Propagations.{AreImplied, IsGrown, IsSound};
ghost use Rattle.watch_lists.specs.Watched.{AreUnattached, Fits, Watching};

/// Where no clause is attached, watches fit each trail over as many variables.
pub fn unattached_watches_fit()
    ensures { (watching : Watching) (trail : Trailing)
        → AreUnattached watching
        → trail.variables ≡ watching.variables
        → Fits watching trail }
{}

/// Watches that fit a trail fit it after a decision, after an assignment, and after going back: what `Trail::decide`,
/// `Trail::assign` and `Trail::back_to` do to it.
pub fn fit_is_kept()
    ensures decide { (watching : Watching) (trail : Trailing) (literal : SatLit)
        → Fits watching trail
        → trail.walked ≤ length trail.entries
        → Fits watching (with_decision trail literal) }
    ensures assign { (watching : Watching) (trail : Trailing) (literal : SatLit) (reason : ℕ)
        → Fits watching trail
        → trail.walked ≤ length trail.entries
        → Fits watching (with_assigned trail literal reason) }
    ensures back_to { (watching : Watching) (old back : Trailing) (level : ℕ)
        → Fits watching old
        → IsBack old back level
        → Fits watching back }
{}

/// A trail on which each literal is justified stays such a one where each literal that it gets is all that a clause
/// left.
pub fn sound_is_kept()
    ensures { (clauses : List (List SatLit)) (old new : Trailing)
        → IsSound clauses old
        → IsGrown old new
        → AreImplied clauses old new
        → IsSound clauses new }
{}
