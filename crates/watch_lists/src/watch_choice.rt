//! Which two literals of a clause are watched.

ghost use Rattle.std.specs.Prelude.{◌≡◌, ◌≢◌, ◌<◌, true, false, All, IfSome, IfNone, length};
ghost use Rattle.cnf_core.specs.declared.effect.Effect.TheVariants.{Conflict as AllFalse};
ghost use Rattle.cnf_core.specs.Clauses.{clause_at, variable_of, AreKnown};
ghost use Rattle.cnf_core.specs.Derivations.{effect_of, is_false, is_true};
ghost use Rattle.trail_core.specs.Trails.{literals};
ghost use Rattle.watch_lists.specs.Attachments.{ArePair, IsAtTop, IsAttachment, IsElsewhere, IsMade, IsNotAtTop};
ghost use Rattle.watch_lists.specs.Attachments.{IsNotFalseOf, IsOtherOfLevel, IsReached, IsSettled};
ghost use Rattle.watch_lists.specs.WatchStates.{IsFalseOrOther, IsHalfFalse, IsNeither, IsOtherNotFalse, IsTarget};
ghost use Rattle.watch_lists.specs.WatchStates.{IsWatchState};
ghost use Rattle.watch_lists.specs.Watched.{IsRooted};

use crate::arena::Arena;
use cnf_core::SatLit;
use trail_core::Trail;

/// What becomes of a clause of which a watched literal became false, by its other watched literal.
#[derive(Clone, Copy)]
pub(crate) enum WatchState {
    /// The other watched literal is true.
    Satisfied,
    /// This literal isn't false, and isn't the other watched one.
    Replacement(SatLit),
    /// The other watched literal alone isn't false, and is unassigned.
    Unit,
    /// All are false.
    Conflict,
}

/// The literal to watch in place of one that became false, which stays where the other watched literal of the clause is
/// true or is made true. None where all literals are false.
pub(crate) fn target(
    trail: &mut Trail,
    clauses: &Arena,
    id: u64,
    other: SatLit,
    falsified: SatLit,
) -> Option<SatLit>
    requires there { id < length clauses.now.clauses }
    requires known { AreKnown trail.old.variables (clause_at clauses.now.clauses id) }
    requires half { IsHalfFalse (literals trail.old.entries) (clause_at clauses.now.clauses id) other }
    ensures target { IfSome result
        (IsTarget trail.old trail.new (clause_at clauses.now.clauses id) id other falsified) }
    ensures conflict { IfNone result
        (effect_of (literals trail.old.entries) (clause_at clauses.now.clauses id) ≡ AllFalse) }
    ensures same { IfNone result (trail.new ≡ trail.old) }
{
    match watch_state(trail, clauses, id, other) {
        WatchState::Satisfied => Some(falsified),
        WatchState::Replacement(literal) => Some(literal),
        WatchState::Unit => {
            trail.assign(other, id);
            Some(falsified)
        }
        WatchState::Conflict => None,
    }
}

// The state of the clause, read off the trail.
fn watch_state(trail: &Trail, clauses: &Arena, id: u64, other: SatLit) -> WatchState
    requires there { id < length clauses.now.clauses }
    requires known { AreKnown trail.now.variables (clause_at clauses.now.clauses id) }
    requires half { IsHalfFalse (literals trail.now.entries) (clause_at clauses.now.clauses id) other }
    ensures { IsWatchState trail.now (clause_at clauses.now.clauses id) other result }
{
    match trail.value(other) {
        Some(true) => WatchState::Satisfied,
        Some(false) => match replacement(trail, clauses, id, other) {
            Some(literal) => WatchState::Replacement(literal),
            None => WatchState::Conflict,
        },
        None => match replacement(trail, clauses, id, other) {
            Some(literal) => WatchState::Replacement(literal),
            None => WatchState::Unit,
        },
    }
}

// A literal to watch in place of the watched one that is false: it isn't false, and isn't `other`, which is watched
// too. A binary clause has none.
fn replacement(trail: &Trail, clauses: &Arena, id: u64, other: SatLit) -> Option<SatLit>
    requires there { id < length clauses.now.clauses }
    requires half { IsHalfFalse (literals trail.now.entries) (clause_at clauses.now.clauses id) other }
    ensures found { IfSome result
        (IsOtherNotFalse (literals trail.now.entries) (clause_at clauses.now.clauses id) other) }
    ensures none { IfNone result
        (All (IsFalseOrOther (literals trail.now.entries) other) (clause_at clauses.now.clauses id)) }
{
    if clauses.is_binary(id) {
        return None;
    }
    other_not_false(trail, clauses.get(id), other)
}

/// The first literal of a clause that isn't false and isn't `other`. Any would do: the literals that became false are
/// at no certain places.
pub(crate) fn other_not_false(trail: &Trail, clause: &[SatLit], other: SatLit) -> Option<SatLit>
    ensures found { IfSome result (IsOtherNotFalse (literals trail.now.entries) clause.now other) }
    ensures none { IfNone result (All (IsFalseOrOther (literals trail.now.entries) other) clause.now) }
{
    for literal in clause.iter() {
        if !is_false_or_other(trail, *literal, other) {
            return Some(*literal);
        }
    }
    None
}

// Whether a literal can't be watched with `other`: it is false, or is that one.
fn is_false_or_other(trail: &Trail, literal: SatLit, other: SatLit) -> bool
    ensures yes { result ≡ true → IsFalseOrOther (literals trail.now.entries) other literal }
    ensures no { result ≡ false → IsNeither (literals trail.now.entries) other literal }
{
    if literal == other {
        return true;
    }
    is_false(trail, literal)
}

// Whether a literal is false.
fn is_false(trail: &Trail, literal: SatLit) -> bool
    ensures { result ≡ is_false (literals trail.now.entries) literal }
{
    // says that no literal is both true and false
    let _level = trail.level();
    match trail.value(literal) {
        Some(value) => !value,
        None => false,
    }
}

/// How a clause can be attached.
#[derive(Clone, Copy)]
pub(crate) enum Attachment {
    /// By these two literals.
    Two(SatLit, SatLit),
    /// Not at all: it has one literal alone, which is true at level 0.
    Rooted,
    /// All are false.
    Conflict,
}

/// Finds two literals by which a clause can be attached: two that aren't false, else the one that isn't false, which is
/// made true, and a false one of the present level.
pub(crate) fn find_watches(trail: &mut Trail, clause: &[SatLit], id: u64) -> Attachment
    requires known { AreKnown trail.old.variables clause.now }
    requires reached { IsReached trail.old clause.now }
    ensures attachment { IsAttachment trail.old trail.new clause.now result }
    ensures settled { IsSettled trail.old trail.new clause.now id }
{
    // it brings in that this is a trail, of fewer than 2^63 variables
    let _len = trail.len();
    let Some(first) = first_not_false(trail, clause) else {
        return Attachment::Conflict;
    };
    match other_not_false(trail, clause, first) {
        Some(second) => Attachment::Two(first, second),
        None => match propagate_unit(trail, clause, first, id) {
            Some(second) => Attachment::Two(first, second),
            None => Attachment::Rooted,
        },
    }
}

// Makes the only literal true that isn't false, and finds one of the present level to be watched with it.
fn propagate_unit(trail: &mut Trail, clause: &[SatLit], first: SatLit, id: u64) -> Option<SatLit>
    requires known { AreKnown trail.old.variables clause.now }
    requires reached { IsReached trail.old clause.now }
    requires there { is_true clause.now first ≡ true }
    requires not_false { is_false (literals trail.old.entries) first ≡ false }
    requires others { All (IsFalseOrOther (literals trail.old.entries) first) clause.now }
    ensures found { IfSome result (ArePair trail.new.entries clause.now first) }
    ensures none { IfNone result (IsRooted trail.new.entries clause.now) }
    ensures settled { IsSettled trail.old trail.new clause.now id }
{
    make_true(trail, first, id);
    // it brings in that this is a trail still
    let _len = trail.len();
    other_of_level(trail, clause, first)
}

// Makes a literal true that isn't false.
fn make_true(trail: &mut Trail, literal: SatLit, id: u64)
    requires known { variable_of literal < trail.old.variables }
    requires not_false { is_false (literals trail.old.entries) literal ≡ false }
    ensures { IsMade trail.old trail.new literal id }
{
    match trail.value(literal) {
        None => trail.assign(literal, id),
        Some(_) => {}
    }
}

// A literal of a clause that isn't false. The first is as good as any.
fn first_not_false(trail: &Trail, clause: &[SatLit]) -> Option<SatLit>
    ensures found { IfSome result (IsNotFalseOf (literals trail.now.entries) clause.now) }
    ensures none { IfNone result (All (λ l. is_false (literals trail.now.entries) l ≡ true) clause.now) }
{
    for literal in clause.iter() {
        if !is_false(trail, *literal) {
            return Some(*literal);
        }
    }
    None
}

// A literal of a clause, other than `first`, that was assigned at the present level.
fn other_of_level(trail: &Trail, clause: &[SatLit], first: SatLit) -> Option<SatLit>
    ensures found { IfSome result (IsOtherOfLevel trail.now clause.now first) }
    ensures none { IfNone result (All (IsElsewhere trail.now first) clause.now) }
{
    for literal in clause.iter() {
        if is_other_of_level(trail, *literal, first) {
            return Some(*literal);
        }
    }
    None
}

// Whether a literal isn't another one, and was assigned at the present level.
fn is_other_of_level(trail: &Trail, literal: SatLit, first: SatLit) -> bool
    ensures yes { result ≡ true → (literal.0 ≢ first.0) × IsAtTop trail.now (variable_of literal) }
    ensures no { result ≡ false → IsElsewhere trail.now first literal }
{
    if literal == first {
        return false;
    }
    is_present(trail, literal.variable())
}

// Whether a variable was assigned at the present level.
fn is_present(trail: &Trail, variable: u64) -> bool
    ensures yes { result ≡ true → IsAtTop trail.now variable }
    ensures no { result ≡ false → IsNotAtTop trail.now variable }
{
    match trail.place(variable) {
        Some(place) => trail.level_at(place) == trail.level(),
        None => false,
    }
}
