//! Queries whose clauses are worked out by hand.

ghost use Rattle.std.specs.Prelude.{IfOk, IfSome};
ghost use Rattle.claim_core.specs.Queries.{IsQuery};

use claim_core::{Claim, Feed, Feeds, Query, Shape, image, of_claim, of_match};
use cnf_core::{Base, SatLit};
use items::Items;
use net_core::{Graphs, Matching, Pair, PortKind, Side};
use query_core::{ConeClauses, QueryBase};
use samples::{GraphPair, graph, matching};
use std::alloc::{AllocError, Global};
use std::collections::HashMap;
use std::test::Fail;

/// Whether literals have these numbers.
pub fn are_literals(literals: &[SatLit], numbers: &[u64]) -> bool {
    for (literal, number) in literals.iter().zip(numbers.iter()) {
        if literal.0 != *number {
            return false;
        }
    }
    literals.len() == numbers.len()
}

fn is_clause(base: &QueryBase<'_>, id: u64, numbers: &[u64]) -> bool {
    if id >= base.count() {
        return false;
    }
    are_literals(base.clause(id).literals(), numbers)
}

/// The number of the first clause that isn't the expected one, given by the numbers of its literals.
fn wrong_clause(base: &QueryBase<'_>, expected: &[&[u64]]) -> Option<u64> {
    let count = expected.len() as u64;
    for id in 0..count {
        if !is_clause(base, id, expected[id as usize]) {
            return Some(id);
        }
    }
    if base.count() == count {
        None
    } else {
        Some(count)
    }
}

fn wrong_clause_of(
    alloc: Global,
    graphs: &Graphs<'_>,
    query: &Query,
    expected: &[&[u64]],
) -> Result<Option<u64>, AllocError>
    requires { IsQuery graphs.now query.now }
{
    let base = QueryBase::new(alloc, graphs, query)?;
    Ok(wrong_clause(&base, expected))
}

/// The query of a match for its one output, or None where these aren't the circuits' ports.
pub fn match_query(
    alloc: Global,
    graphs: &Graphs<'_>,
    matching: &Matching,
    value: bool,
) -> Result<Option<Query>, AllocError>
    ensures { IfOk result (λ query. IfSome query (IsQuery graphs.now)) }
{
    if graphs.first().inputs() != graphs.second().inputs() {
        return Ok(None);
    }
    if graphs.first().outputs().len() != 1 || graphs.second().outputs().len() != 1 {
        return Ok(None);
    }
    if !matching.check_shape(graphs.first().inputs(), 1) {
        return Ok(None);
    }
    let query = of_match(alloc, graphs, matching, 0, value)?;
    Ok(Some(query))
}

/// The first wrong clause of a match's query for its one output, or clause 0 where these aren't the circuits' ports.
fn wrong_match_clause(
    alloc: Global,
    graphs: &Graphs<'_>,
    matching: &Matching,
    value: bool,
    expected: &[&[u64]],
) -> Result<Option<u64>, AllocError> {
    let Some(query) = match_query(alloc, graphs, matching, value)? else {
        return Ok(Some(0));
    };
    wrong_clause_of(alloc, graphs, &query, expected)
}

fn wrong_difference_clause(
    alloc: Global,
    value: bool,
    expected: &[&[u64]],
) -> Result<Option<u64>, Fail> {
    let both = GraphPair::new(alloc, 2, (&[(2, 4)], 6), (&[(3, 5)], 7))?;
    let inverting = matching(alloc, &[(0, true), (1, true)], &[(0, true)])?;
    Ok(wrong_match_clause(alloc, &both.graphs(), &inverting, value, expected)?)
}

/// The clauses of a match that inverts each port of an AND and an OR, where the AND is true. Variables 1 and 2 are the
/// inputs, 3 and 4 the gates.
static WHERE_TRUE: [&[u64]; 9] = [
    &[0],
    &[7, 2],
    &[7, 4],
    &[6, 3, 5],
    &[9, 2],
    &[9, 4],
    &[8, 3, 5],
    &[6],
    &[9],
];

#[test]
fn asks_for_a_difference(rt: HostRuntime) -> Result<(), Fail> {
    let mut where_false = WHERE_TRUE;
    where_false[7] = &[7];
    where_false[8] = &[8];
    let found = (
        wrong_difference_clause(rt.alloc(), true, &WHERE_TRUE)?,
        wrong_difference_clause(rt.alloc(), false, &where_false)?,
    );
    assert_eq!(rt; found, (None, None));
    Ok(())
}

/// A circuit of one output, beside one that isn't asked about.
fn circuits_of(
    alloc: Global,
    inputs: u32,
    gates: &[(u32, u32)],
    output: u32,
) -> Result<GraphPair, Fail> {
    Ok(GraphPair {
        first: graph(alloc, inputs, gates, &[output])?,
        second: graph(alloc, 0, &[], &[0])?,
    })
}

/// The query of whether the first circuit's output falls where input 0 rises. None where it has no input or no output.
fn rise_query(alloc: Global, graphs: &Graphs<'_>) -> Result<Option<Query>, AllocError>
    ensures { IfOk result (λ query. IfSome query (IsQuery graphs.now)) }
{
    let claim = Claim {
        side: Side::First,
        output: 0,
        shape: Shape::Up(0),
    };
    if graphs.first().inputs() == 0 || graphs.first().outputs().is_empty() {
        return Ok(None);
    }
    let query = of_claim(alloc, graphs, &claim)?;
    Ok(Some(query))
}

fn wrong_clause_of_rise(
    alloc: Global,
    graphs: &Graphs<'_>,
    expected: &[&[u64]],
) -> Result<Option<u64>, Fail> {
    let query = rise_query(alloc, graphs)?.ok_or("no port")?;
    Ok(wrong_clause_of(alloc, graphs, &query, expected)?)
}

fn wrong_rise_clause(
    alloc: Global,
    inputs: u32,
    gates: &[(u32, u32)],
    output: u32,
    expected: &[&[u64]],
) -> Result<Option<u64>, Fail> {
    let both = circuits_of(alloc, inputs, gates, output)?;
    wrong_clause_of_rise(alloc, &both.graphs(), expected)
}

/// The clauses of an AND of inputs 0 and 1: it reads input 0, whose feeds differ.
static OWN_GATE: [&[u64]; 9] = [
    &[0],
    &[7, 1],
    &[7, 4],
    &[6, 0, 5],
    &[9, 0],
    &[9, 4],
    &[8, 1, 5],
    &[6],
    &[9],
];

/// Gate 0 is the AND of inputs 1 and 2, and has the left one's variable 4; gate 1 reads it and input 0.
static SHARED_GATE: [&[u64]; 15] = [
    &[0],
    &[9, 4],
    &[9, 6],
    &[8, 5, 7],
    &[11, 8],
    &[11, 1],
    &[10, 9, 0],
    &[9, 4],
    &[9, 6],
    &[8, 5, 7],
    &[15, 8],
    &[15, 0],
    &[14, 9, 1],
    &[10],
    &[15],
];

#[test]
fn shares_gates_that_reach_no_difference(rt: HostRuntime) -> Result<(), Fail> {
    let own = wrong_rise_clause(rt.alloc(), 2, &[(2, 4)], 6, &OWN_GATE)?;
    let shared = wrong_rise_clause(rt.alloc(), 3, &[(4, 6), (8, 2)], 10, &SHARED_GATE)?;
    assert_eq!(rt; (own, shared), (None, None));
    Ok(())
}

fn has_clause(base: &QueryBase<'_>, id: u64, literals: &[SatLit]) -> bool {
    if id >= base.count() {
        return false;
    }
    base.clause(id).literals() == literals
}

/// Whether the cones' clauses are those that the whole query has under their numbers.
fn are_those_of(base: &QueryBase<'_>, cones: &ConeClauses<'_>) -> bool {
    for id in cones.ids().iter() {
        if !has_clause(base, *id, cones.clause(*id).literals()) {
            return false;
        }
    }
    true
}

fn has_cone_ids(
    alloc: Global,
    graphs: &Graphs<'_>,
    query: &Query,
    expected: &[u64],
) -> Result<bool, AllocError>
    requires { IsQuery graphs.now query.now }
{
    let base = QueryBase::new(alloc, graphs, query)?;
    let cones = ConeClauses::new(alloc, graphs, query)?;
    Ok(are_those_of(&base, &cones) & (cones.ids() == expected))
}

fn has_rise_ids(alloc: Global, graphs: &Graphs<'_>, expected: &[u64]) -> Result<bool, Fail> {
    let query = rise_query(alloc, graphs)?.ok_or("no port")?;
    Ok(has_cone_ids(alloc, graphs, &query, expected)?)
}

/// Two gates over two inputs, and the numbers of the clauses of an output's cone, which gate 1 is.
static CONE_IDS: [(&[(u32, u32)], &[u64]); 2] = [
    // of gates 0 and 1 the output reads gate 1 alone
    (&[(2, 4), (3, 5)], &[0, 4, 5, 6, 10, 11, 12, 13, 14]),
    // gate 1 reads gate 0
    (
        &[(2, 4), (3, 6)],
        &[0, 1, 2, 3, 4, 5, 6, 7, 8, 9, 10, 11, 12, 13, 14],
    ),
];

#[test]
fn numbers_the_clauses_of_cones(rt: HostRuntime) -> Result<(), Fail> {
    for (gates, expected) in CONE_IDS.iter() {
        let both = circuits_of(rt.alloc(), 2, gates, 9)?;
        assert!(rt;
            has_rise_ids(rt.alloc(), &both.graphs(), expected)?,
            "at {gates:?}"
        );
    }
    Ok(())
}

fn pair(kind: PortKind, from: u32, to: u32, flip: bool) -> Pair {
    Pair {
        kind,
        from,
        to,
        flip,
    }
}

fn claim(side: Side, output: u32, shape: Shape) -> Claim {
    Claim {
        side,
        output,
        shape,
    }
}

fn swap(i: u32, j: u32, a: bool, b: bool) -> Shape {
    Shape::Swap { i, j, a, b }
}

fn moved(output: u32, shape: Shape) -> Option<Claim> {
    Some(claim(Side::Second, output, shape))
}

#[test]
fn moves_claims(rt: HostRuntime) -> Result<(), Fail> {
    // output 1 is inverted at its place, output 0 isn't
    let pairs = [
        pair(PortKind::Input, 0, 1, false),
        pair(PortKind::Input, 1, 0, true),
        pair(PortKind::Output, 0, 2, false),
        pair(PortKind::Output, 1, 0, true),
    ];
    let low = swap(0, 1, false, false);
    let left_low = swap(0, 1, false, true);
    let right_low = swap(0, 1, true, false);
    for (output, shape, expected) in [
        (0, Shape::Up(0), moved(2, Shape::Up(1))),
        (0, Shape::Up(1), moved(2, Shape::Down(0))),
        (0, Shape::Down(1), moved(2, Shape::Up(0))),
        (0, low, moved(2, right_low)),
        (0, left_low, moved(2, low)),
        (1, Shape::Up(0), moved(0, Shape::Down(1))),
        (1, Shape::Up(1), moved(0, Shape::Up(0))),
        (1, low, moved(0, left_low)),
        (2, Shape::Up(0), None),
        (0, Shape::Up(2), None),
        (0, swap(1, 2, true, true), None),
    ] {
        let given = image(&claim(Side::First, output, shape), &pairs);
        assert!(rt; given == expected, "at {output} {shape:?}");
    }
    Ok(())
}

fn wire(place: u32) -> Feed {
    Feed::Wire { place, flip: false }
}

/// Feeds of three inputs, as a list.
fn listed(alloc: Global, feeds: &[Feed]) -> Result<Feeds, AllocError> {
    Ok(Feeds::from_items(Items::from_slice(alloc, feeds)?))
}

/// The number under which feeds are kept, where those that a caller has are kept under 1 and 2.
fn number_of(
    alloc: Global,
    straight: &Feeds,
    valued: &Feeds,
    feeds: &Feeds,
) -> Result<Option<u32>, Fail> {
    let mut numbers = HashMap::new(alloc);
    numbers.insert(straight.clone()?, 1)?;
    numbers.insert(valued.clone()?, 2)?;
    Ok(numbers.get(feeds).copied())
}

/// The number under which a map has these feeds: 1 for those where each input gets its own bit, 2 for those of a claim.
fn kept_number(alloc: Global, feeds: &[Feed]) -> Result<Option<u32>, Fail> {
    let straight = Feeds::straight(3);
    let valued = Feeds::valued(3, swap(0, 2, true, false));
    let feeds = listed(alloc, feeds)?;
    number_of(alloc, &straight, &valued, &feeds)
}

#[test]
fn feeds_are_the_same_in_each_form(rt: HostRuntime) -> Result<(), Fail> {
    for (feeds, number) in [
        ([wire(0), wire(1), wire(2)], Some(1)),
        ([Feed::Fixed(true), wire(1), Feed::Fixed(false)], Some(2)),
        ([Feed::Fixed(true), wire(1), Feed::Fixed(true)], None),
        ([Feed::Fixed(true), wire(1), wire(2)], None),
    ] {
        assert_eq!(rt; kept_number(rt.alloc(), &feeds)?, number, "{feeds:?}");
    }
    assert!(rt; Feeds::straight(3) != Feeds::straight(2));
    Ok(())
}
