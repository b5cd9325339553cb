//! All vectors of a query, tried one by one.

ghost use Rattle.std.specs.Prelude.{◌≡◌, ◌≤◌, ◌↔◌, All, IfOk, IfSome, IfNone, IsTrue, length, map};
ghost use Rattle.circuits.specs.Literals.{vector_of};
ghost use Rattle.claim_core.specs.Queries.{IsCone, IsQuery, IsUnmet, IsWired, MeetsQuery, bits_in, cone_bit, feed_bit};
ghost use Rattle.ask_core.specs.Answers.{IsVector};

use circuits::plain::write_vector;
use claim_core::{Cone, Feed, Feeds, Query};
use items::Items;
use net_core::{Graphs, lit_value};
use std::alloc::{AllocError, Global};

/// The first vector, by its number, that meets a query, or `None` where none does.
pub(crate) fn meeting_vector(
    alloc: Global,
    graphs: &Graphs<'_>,
    query: &Query,
) -> Result<Option<Items<bool>>, AllocError>
    requires fits { IsQuery graphs.now query.now }
    requires small { bits_in graphs.now query.now ≤ 12 }
    ensures found { IfOk result (λ found. IfSome found (IsVector graphs.now query.now)) }
    ensures none { IfOk result (λ found. IfNone found (IsUnmet graphs.now query.now)) }
{
    let bits = query.left.feed.len();
    for code in 0..1u32 << bits {
        let vector = vector_of(alloc, bits, code)?;
        if meets(alloc, graphs, query, &vector)? {
            return Ok(Some(Items::from_vec(vector)));
        }
    }
    Ok(None)
}

/// The vector that a number codes.
pub(crate) fn vector_of(alloc: Global, bits: usize, code: u32) -> Result<Vec<bool>, AllocError>
    ensures { IfOk result (λ vector. vector.items ≡ vector_of bits code) }
{
    let mut vector = no_bits(alloc, bits)?;
    write_vector(code, &mut vector);
    Ok(vector)
}

/// So many bits, all 0.
fn no_bits(alloc: Global, count: usize) -> Result<Vec<bool>, AllocError>
    ensures { IfOk result (λ bits. length bits.items ≡ count) }
{
    vec![in alloc; false; count]
}

/// Whether a vector meets a query.
fn meets(
    alloc: Global,
    graphs: &Graphs<'_>,
    query: &Query,
    vector: &[bool],
) -> Result<bool, AllocError>
    requires fits { IsQuery graphs.now query.now }
    requires bits { length vector.now ≡ bits_in graphs.now query.now }
    ensures { IfOk result (λ met. (IsTrue met ↔ MeetsQuery graphs.now query.now vector.now)) }
{
    let left = cone_bit(alloc, graphs, &query.left, vector)?;
    let right = cone_bit(alloc, graphs, &query.right, vector)?;
    Ok((left == query.left_value) & (right == query.right_value))
}

/// The bit of a cone's output.
fn cone_bit(
    alloc: Global,
    graphs: &Graphs<'_>,
    cone: &Cone,
    vector: &[bool],
) -> Result<bool, AllocError>
    requires { IsCone graphs.now (length vector.now) cone.now }
    ensures { IfOk result (λ bit. bit ≡ cone_bit graphs.now vector.now cone.now) }
{
    let graph = graphs.side(cone.side);
    let inputs = fed(alloc, &cone.feed, vector)?;
    let mut values = no_bits(alloc, graph.signals())?;
    graph.eval_into(&inputs, &mut values);
    Ok(lit_value(&values, graph.outputs()[cone.output as usize]))
}

/// What a cone's inputs get.
fn fed(alloc: Global, feed: &Feeds, vector: &[bool]) -> Result<Vec<bool>, AllocError>
    requires { All (IsWired (length vector.now)) feed.now }
    ensures { IfOk result (λ bits. bits.items ≡ map (feed_bit vector.now) feed.now) }
{
    let mut bits = Vec::new(alloc);
    for input in 0..feed.len() {
        bits.push(feed_bit(vector, feed.get(input)))?;
    }
    Ok(bits)
}

/// What an input gets.
fn feed_bit(vector: &[bool], feed: Feed) -> bool
    requires { IsWired (length vector.now) feed }
    ensures { result ≡ feed_bit vector.now feed }
{
    match feed {
        Feed::Fixed(bit) => bit,
        Feed::Wire { place, flip } => vector[place as usize] != flip,
    }
}
