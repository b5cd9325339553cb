//! The gates of a query's cones, read from its clauses.

ghost use Rattle.std.specs.Prelude.{◌≡◌, ◌≢◌, ◌+◌, ◌%◌, ◌<◌, ◌^◌, Contains, IfSome, length};
ghost use Rattle.claim_core.specs.ConeClauses.{IsConeId};
ghost use Rattle.claim_core.specs.Formulas.{query_clauses};
ghost use Rattle.joint_hash.specs.Classes.{is_last};
ghost use Rattle.joint_hash.specs.Trees.{IsGateOf};

use cnf_core::SatLit;
use query_core::ConeClauses;

/// A gate of a query's cones.
#[derive(Clone, Copy, Drop)]
pub struct ConeGate {
    /// The number of its first clause, that it implies its first operand. That it implies the second one is the next
    /// clause, and that both imply it is the one after.
    pub id: u64,
    pub output: SatLit,
    pub first: SatLit,
    pub second: SatLit,
}

/// The gate of the cones whose last clause has this number.
pub(crate) fn gate_of(cones: &ConeClauses<'_>, last: u64) -> ConeGate
    requires there { last < length (query_clauses cones.now.graphs cones.now.query) }
    requires cone { IsConeId cones.now.graphs cones.now.query last }
    requires some { last ≢ 0 }
    requires third { last % 3 ≡ 0 }
    ensures gate { IsGateOf cones.now.graphs cones.now.query result }
    ensures last { result.id + 2 ≡ last }
{
    let graphs = cones.graphs();
    // the gates of a graph are in order, and its ports fewer than 2^32
    let _first = graphs.first();
    let _second = graphs.second();
    // they are the numbers of the cones' clauses, ascending
    let _ids = cones.ids();
    let clause = cones.clause(last);
    let [output, first, second] = clause.lits;
    ConeGate {
        id: last - 2,
        output,
        first: first.opposite(),
        second: second.opposite(),
    }
}

/// Whether the clause of this number is the last of a gate's three: they follow the clause of variable 0.
pub(crate) fn is_last(id: u64) -> bool
    ensures { result ≡ is_last id }
{
    (0 < id) & (id % 3 == 0)
}

/// The gate whose last clause's number stands at a place among the numbers of the cones' clauses, if it is such a one.
pub(crate) fn gate_at(cones: &ConeClauses<'_>, place: usize) -> Option<ConeGate>
    ensures { IfSome result (IsGateOf cones.now.graphs cones.now.query) }
{
    let ids = cones.ids();
    if ids.len() <= place {
        return None;
    }
    let id = ids[place];
    if !is_last(id) {
        return None;
    }
    Some(gate_of(cones, id))
}

/// The number that stands so many before the last one among those of the cones' clauses.
pub(crate) fn id_before_last(cones: &ConeClauses<'_>, before_last: usize) -> Option<u64>
    ensures { IfSome result (Contains cones.now.ids) }
{
    let ids = cones.ids();
    let place = ids.len().saturating_sub(before_last).saturating_sub(1);
    if ids.len() <= place {
        return None;
    }
    Some(ids[place])
}

/// The literal that the clause of this number says.
pub(crate) fn unit_at(cones: &ConeClauses<'_>, before_last: usize) -> Option<SatLit> {
    let Some(id) = id_before_last(cones, before_last) else {
        return None;
    };
    let clause = cones.clause(id);
    Some(clause.lits[0])
}
