//! A query's clauses by their numbers.

ghost use Rattle.std.specs.Prelude.{◌≡◌, ◌+◌, ◌*◌, ◌<◌, ◌≤◌, ◌^◌, length};
ghost use Rattle.circuits.specs.Literals.{signal_of};
ghost use Rattle.cnf_core.specs.Clauses.{clause_at, literals_of};
ghost use Rattle.claim_core.specs.ConeClauses.{left_gates, right_gates};
ghost use Rattle.claim_core.specs.Formulas.{and_clauses, clauses_by, feed_literal, formula_of, half_clauses};
ghost use Rattle.claim_core.specs.Formulas.{output_literal, query_clauses, stand_in, stands_for};
ghost use Rattle.claim_core.specs.Queries.{IsQuery};
ghost use Rattle.query_core.specs.Variables.{AreFor, IsHalf, clauses_over, literals_by};

use crate::variables::Variables;
use claim_core::{Feed, Feeds, Query};
use cnf_core::{Clause3, SatLit};
use net_core::{Graph, Graphs, Lit};

/// How many variables a query's formula has.
pub(crate) fn variables_of(graphs: &Graphs<'_>, query: &Query) -> u64
    ensures { result ≡ (formula_of graphs.now query.now).variables }
{
    let left = graphs.side(query.left.side);
    let right = graphs.side(query.right.side);
    left.signals() as u64 + right.gates().len() as u64
}

/// How many clauses a query has: fewer than 2^62, so that each line of a log has a number.
pub fn count_of(graphs: &Graphs<'_>, query: &Query) -> u64
    ensures value { result ≡ length (query_clauses graphs.now query.now) }
    ensures few { result < 2 ^ 62 }
{
    let left = graphs.side(query.left.side);
    let right = graphs.side(query.right.side);
    3 + 3 * (left.gates().len() as u64 + right.gates().len() as u64)
}

/// The clause of a number, by the variables of the circuits' gates.
pub(crate) fn clause_over(
    graphs: &Graphs<'_>,
    query: &Query,
    left: &Variables,
    right: &Variables,
    id: u64,
) -> Clause3
    requires fits { IsQuery graphs.now query.now }
    requires left { AreFor (left_gates graphs.now query.now) left.now }
    requires right { AreFor (right_gates graphs.now query.now) right.now }
    requires there { id < length (query_clauses graphs.now query.now) }
    ensures value { literals_of result ≡ clause_at (clauses_over graphs.now query.now left.now right.now) id }
    ensures some { 1 ≤ result.len }
    ensures short { result.len ≤ 3 }
{
    let left = Half {
        graph: graphs.side(query.left.side),
        feed: &query.left.feed,
        variables: left,
        output: query.left.output,
        value: query.left_value,
    };
    let right = Half {
        graph: graphs.side(query.right.side),
        feed: &query.right.feed,
        variables: right,
        output: query.right.output,
        value: query.right_value,
    };
    clause_of(&left, &right, id)
}

/// One of a query's two circuits, with what its inputs get, the variables of its gates, and the output that is to have
/// a value.
#[derive(Clone, Copy, Drop)]
struct Half<'a> {
    graph: &'a Graph,
    feed: &'a Feeds,
    variables: &'a Variables,
    output: u32,
    value: bool,
}

// The clause of a number.
fn clause_of(left: &Half<'_>, right: &Half<'_>, id: u64) -> Clause3
    requires left { IsHalf left.now.graph.now left.now.feed.now left.now.variables.now left.now.output }
    requires right { IsHalf right.now.graph.now right.now.feed.now right.now.variables.now right.now.output }
    requires there { id < 3 + 3 * (length left.now.graph.now.gates + length right.now.graph.now.gates) }
    ensures value { let lefts = literals_by left.now.graph.now left.now.feed.now left.now.variables.now in
        let rights = literals_by right.now.graph.now right.now.feed.now right.now.variables.now in
        literals_of result ≡ clause_at (clauses_by
        (half_clauses left.now.graph.now lefts)
        (half_clauses right.now.graph.now rights)
        (output_literal left.now.graph.now lefts left.now.output left.now.value)
        (output_literal right.now.graph.now rights right.now.output right.now.value)) id }
    ensures some { 1 ≤ result.len }
    ensures short { result.len ≤ 3 }
{
    let of_left = 3 * left.graph.gates().len() as u64;
    let of_right = 3 * right.graph.gates().len() as u64;
    if id == 0 {
        return Clause3::one(SatLit::of(0, true));
    }
    if id - 1 < of_left {
        return gate_clause(left, id - 1);
    }
    if id - 1 - of_left < of_right {
        return gate_clause(right, id - 1 - of_left);
    }
    if id - 1 - of_left == of_right {
        return Clause3::one(output_literal(left));
    }
    Clause3::one(output_literal(right))
}

// One of the three clauses of a gate.
fn gate_clause(half: &Half<'_>, id: u64) -> Clause3
    requires half { IsHalf half.now.graph.now half.now.feed.now half.now.variables.now half.now.output }
    requires there { id < 3 * length half.now.graph.now.gates }
    ensures value { literals_of result ≡ clause_at (half_clauses half.now.graph.now
        (literals_by half.now.graph.now half.now.feed.now half.now.variables.now)) id }
    ensures some { 1 ≤ result.len }
    ensures short { result.len ≤ 3 }
{
    let place = (id / 3) as usize;
    let gate = half.graph.gates()[place];
    let a = stands_for(half, gate.a);
    let b = stands_for(half, gate.b);
    let v = stand_in(half, half.graph.inputs() as usize + 1 + place);
    and_clause(v, a, b, id % 3)
}

// One of the three clauses that say that v is the AND of a and b.
fn and_clause(v: SatLit, a: SatLit, b: SatLit, part: u64) -> Clause3
    requires { part < 3 }
    ensures value { literals_of result ≡ clause_at (and_clauses v a b) part }
    ensures some { 1 ≤ result.len }
    ensures short { result.len ≤ 3 }
{
    if part == 0 {
        return Clause3::two(v.opposite(), a);
    }
    if part == 1 {
        return Clause3::two(v.opposite(), b);
    }
    Clause3::three(v, a.opposite(), b.opposite())
}

// The literal that says that the output has its value.
fn output_literal(half: &Half<'_>) -> SatLit
    requires { IsHalf half.now.graph.now half.now.feed.now half.now.variables.now half.now.output }
    ensures { result ≡ output_literal half.now.graph.now
        (literals_by half.now.graph.now half.now.feed.now half.now.variables.now) half.now.output half.now.value }
{
    let literal = stands_for(half, half.graph.outputs()[half.output as usize]);
    if half.value {
        literal
    } else {
        literal.opposite()
    }
}

// The literal that stands for a literal of a circuit.
fn stands_for(half: &Half<'_>, literal: Lit) -> SatLit
    requires half { IsHalf half.now.graph.now half.now.feed.now half.now.variables.now half.now.output }
    requires there { signal_of literal < half.now.graph.now.inputs + 1 + length half.now.graph.now.gates }
    ensures { result ≡ stands_for (literals_by half.now.graph.now half.now.feed.now half.now.variables.now) literal }
{
    let plain = stand_in(half, literal.signal() as usize);
    if literal.is_negated() {
        plain.opposite()
    } else {
        plain
    }
}

// The literal that stands for a signal of a circuit.
fn stand_in(half: &Half<'_>, signal: usize) -> SatLit
    requires half { IsHalf half.now.graph.now half.now.feed.now half.now.variables.now half.now.output }
    requires there { signal < half.now.graph.now.inputs + 1 + length half.now.graph.now.gates }
    ensures { result ≡ stand_in (literals_by half.now.graph.now half.now.feed.now half.now.variables.now) signal }
{
    let inputs = half.feed.len();
    if signal == 0 {
        return SatLit::of(0, false);
    }
    if signal - 1 < inputs {
        return feed_literal(half.feed.get(signal - 1));
    }
    SatLit::of(half.variables.of(signal - 1 - inputs), true)
}

// The literal of what an input gets.
fn feed_literal(feed: Feed) -> SatLit
    ensures { result ≡ feed_literal feed }
{
    match feed {
        Feed::Fixed(bit) => SatLit::of(0, bit),
        Feed::Wire { place, flip } => SatLit::of(1 + u64::from(place), !flip),
    }
}
