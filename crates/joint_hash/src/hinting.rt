//! Hints that derive a clause.

ghost use Rattle.std.specs.Prelude.{◌≡◌, ◌≢◌, ◌<◌, ◌++◌, All, Contains, None, IfOk, IfSome, length, map, nat_lt};
ghost use Rattle.cnf_core.specs.Clauses.{clause_at, opposite};
ghost use Rattle.cnf_core.specs.Derivations.{clauses_of, effect_of, hint_fault};
ghost use Rattle.claim_core.specs.Formulas.{query_clauses};
ghost use Rattle.joint_hash.specs.Chains.{AreListed, LeadOn};

use crate::made::Made;
use cnf_core::{Effect, LogLine, SatLit, effect_of};
use items::Items;
use query_core::ConeClauses;
use std::alloc::{AllocError, Global};

/// Hints that derive a clause from a formula and from lines: those of the clauses of these numbers, gone over in their
/// order, that make a literal true, up to the first conflict. There are none where they lead to no conflict.
pub(crate) fn hints_among(
    alloc: Global,
    cones: &ConeClauses<'_>,
    lines: &[LogLine],
    clause: &[SatLit],
    ids: &[u64],
) -> Result<Option<Items<u64>>, AllocError>
    requires { AreListed (length (query_clauses cones.now.graphs cones.now.query)) cones.now.ids ids.now }
    ensures derive { IfOk result (λ found. IfSome found (λ hints.
        hint_fault (query_clauses cones.now.graphs cones.now.query ++ clauses_of lines.now)
        (map opposite clause.now) hints ≡ None)) }
    ensures among { IfOk result (λ found. IfSome found (All (Contains ids.now))) }
    ensures found { LeadOn (query_clauses cones.now.graphs cones.now.query ++ clauses_of lines.now)
        (map opposite clause.now) ids.now
        → IfOk result (λ found. found ≢ None) }
{
    let mut made = Made::against(alloc, clause)?;
    let mut hints = Items::new(alloc);
    for id in ids.iter() {
        if !is_there(cones, lines, *id) {
            return Ok(None);
        }
        match effect_at(cones, lines, &made, *id) {
            Effect::Conflict => {
                hints.push(*id)?;
                return Ok(Some(hints));
            }
            Effect::Makes(literal) => {
                made.make(alloc, literal)?;
                hints.push(*id)?;
            }
            Effect::Neither => {}
        }
    }
    Ok(None)
}

// Whether a clause of the formula or a line has a number.
fn is_there(cones: &ConeClauses<'_>, lines: &[LogLine], id: u64) -> bool
    ensures { result ≡ nat_lt id (length (query_clauses cones.now.graphs cones.now.query ++ clauses_of lines.now)) }
{
    id < cones.count() + lines.len() as u64
}

// What the clause of a number does under an assignment.
fn effect_at(cones: &ConeClauses<'_>, lines: &[LogLine], made: &Made, id: u64) -> Effect
    requires there { id < length (query_clauses cones.now.graphs cones.now.query ++ clauses_of lines.now) }
    requires listed { id < length (query_clauses cones.now.graphs cones.now.query) → Contains cones.now.ids id }
    ensures { result ≡ effect_of made.now
        (clause_at (query_clauses cones.now.graphs cones.now.query ++ clauses_of lines.now) id) }
{
    let count = cones.count();
    if id < count {
        let clause = cones.clause(id);
        return effect_of(made, clause.literals());
    }
    let place = (id - count) as usize;
    effect_of(made, &lines[place].clause)
}
