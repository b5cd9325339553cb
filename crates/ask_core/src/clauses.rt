//! Clauses, collected and written over dense variables.

ghost use Rattle.std.specs.Prelude.{◌≡◌, ◌<◌, ◌≤◌, ◌++◌, All, Contains, IfOk, length, map};
ghost use Rattle.std.specs.List.Sorted.{IsNonDecreasing};
ghost use Rattle.cnf_core.specs.Clauses.{clause_at, literals_of, variable_of, AreKnown};
ghost use Rattle.cnf_core.specs.Derivations.{clauses_of};
ghost use Rattle.claim_core.specs.Formulas.{formula_of, query_clauses};
ghost use Rattle.ask_core.specs.Renamings.{AreNames, AreOver, AreOverPlaces, ArePlacesOf, AreShort, IsNamed, IsOver};
ghost use Rattle.ask_core.specs.Renamings.{renamed};

use crate::places::{Places, places_for};
use cnf_core::{Clause3, LogLine, SatLit};
use query_core::ConeClauses;
use std::alloc::{AllocError, Global};

/// The clauses of a query's cones, and those of lemmas.
pub(crate) fn all_clauses(
    alloc: Global,
    cones: &ConeClauses<'_>,
    lemmas: &[LogLine],
) -> Result<Vec<Clause3>, AllocError>
    requires known { All (AreKnown (formula_of cones.now.graphs cones.now.query).variables) (clauses_of lemmas.now) }
    requires short { AreShort (clauses_of lemmas.now) }
    ensures { IfOk result (λ clauses. AreOver (formula_of cones.now.graphs cones.now.query).variables
        (map (clause_at (query_clauses cones.now.graphs cones.now.query)) cones.now.ids
        ++ clauses_of lemmas.now) clauses.items) }
{
    let mut clauses = clauses_of_cones(alloc, cones)?;
    for line in lemmas.iter() {
        clauses.push(short(&line.clause))?;
    }
    Ok(clauses)
}

// The clauses of a query's cones.
fn clauses_of_cones(alloc: Global, cones: &ConeClauses<'_>) -> Result<Vec<Clause3>, AllocError>
    ensures { IfOk result (λ clauses. AreOver (formula_of cones.now.graphs cones.now.query).variables
        (map (clause_at (query_clauses cones.now.graphs cones.now.query)) cones.now.ids) clauses.items) }
{
    let mut clauses = Vec::new(alloc);
    for id in cones.ids().iter() {
        clauses.push(cones.clause(*id))?;
    }
    Ok(clauses)
}

// A clause of one to three literals.
fn short(clause: &[SatLit]) -> Clause3
    requires some { 1 ≤ length clause.now }
    requires short { length clause.now ≤ 3 }
    ensures literals { literals_of result ≡ clause.now }
    ensures some { 1 ≤ result.len }
    ensures short { result.len ≤ 3 }
{
    match clause {
        [a] => Clause3::one(*a),
        [a, b] => Clause3::two(*a, *b),
        [a, b, c] => Clause3::three(*a, *b, *c),
        _ => unreachable!(),
    }
}

/// The clauses over dense variables, of which each stands for the formula's variable at its place in `names`.
pub(crate) fn over_names(
    alloc: Global,
    clauses: &[Clause3],
    names: &[u64],
    variables: u64,
) -> Result<Vec<Clause3>, AllocError>
    requires over { All (IsOver variables) clauses.now }
    requires named { All (λ clause. IsNamed names.now (literals_of clause)) clauses.now }
    requires names { AreNames variables names.now }
    requires ascending { IsNonDecreasing names.now }
    ensures { IfOk result (λ dense. AreOverPlaces names.now clauses.now dense.items (length clauses.now)) }
{
    let places = places_for(alloc, clauses.len(), names, variables)?;
    let dense = all_over_places(alloc, clauses, names, &places)?;
    Ok(dense)
}

// The clauses over the places of their variables.
fn all_over_places(
    alloc: Global,
    clauses: &[Clause3],
    names: &[u64],
    places: &Places,
) -> Result<Vec<Clause3>, AllocError>
    requires short { All (λ clause. clause.len ≤ 3) clauses.now }
    requires filled { All (λ clause. 1 ≤ length (literals_of clause)) clauses.now }
    requires named { All (λ clause. IsNamed names.now (literals_of clause)) clauses.now }
    requires places { ArePlacesOf names.now places.now }
    ensures { IfOk result (λ dense. AreOverPlaces names.now clauses.now dense.items (length clauses.now)) }
{
    let mut dense = Vec::new(alloc);
    for clause in clauses.iter() {
        dense.push(over_places(clause.literals(), names, places))?;
    }
    Ok(dense)
}

// A clause over the places of its variables.
fn over_places(clause: &[SatLit], names: &[u64], places: &Places) -> Clause3
    requires some { 1 ≤ length clause.now }
    requires short { length clause.now ≤ 3 }
    requires named { IsNamed names.now clause.now }
    requires places { ArePlacesOf names.now places.now }
    ensures back { map (renamed names.now) (literals_of result) ≡ clause.now }
    ensures known { AreKnown (length names.now) (literals_of result) }
    ensures some { 1 ≤ result.len }
    ensures short { result.len ≤ 3 }
{
    match clause {
        [a] => Clause3::one(over_place(*a, names, places)),
        [a, b] => Clause3::two(over_place(*a, names, places), over_place(*b, names, places)),
        [a, b, c] => Clause3::three(
            over_place(*a, names, places),
            over_place(*b, names, places),
            over_place(*c, names, places),
        ),
        _ => unreachable!(),
    }
}

// A literal over the place of its variable.
fn over_place(literal: SatLit, names: &[u64], places: &Places) -> SatLit
    requires named { Contains names.now (variable_of literal) }
    requires places { ArePlacesOf names.now places.now }
    ensures back { renamed names.now result ≡ literal }
    ensures known { variable_of result < length names.now }
{
    let place = places.of(names, literal.variable());
    SatLit::of(place as u64, !literal.is_negated())
}
