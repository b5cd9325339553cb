//! Claims, decided by structure, by vectors that were seen, and by asking.

ghost use Rattle.std.specs.Prelude.{◌≡◌, ◌<◌, false, IsTrue, IfOk, IfSome, length};
ghost use Rattle.net_core.specs.Sides.{graph_of};
ghost use Rattle.claim_core.specs.Claims.{BreaksShape, IsClaim, IsPlaced, with_values};
ghost use Rattle.claim_core.specs.ClaimQueries.{claim_query};
ghost use Rattle.account_core.specs.Facts.{IsEvidence};
ghost use Rattle.ask_core.specs.Answers.{IsAnswer};
ghost use Rattle.fact_tests.specs.Asking.{DecidesClaim};
ghost use Rattle.fact_tests.specs.Books.{IsSource};
ghost use Rattle.fact_tests.specs.Supports.{IsOutside};

use crate::asking::{answer_to, by_structure, shared_answer_to};
use crate::decide::Decide;
use crate::nearby::Nearby;
use crate::sightings::Sightings;
use account_core::Evidence;
use ask_core::Answer;
use bit_list::Bits;
use claim_core::{Claim, Query, Shape, of_claim};
use cnf_core::Stop;
use items::Items;
use net_core::{Graph, Graphs, Side};
use query_core::Ledger;
use shared_lemmas::SharedLemmas;
use sim_signature::Supports;
use std::alloc::{AllocError, Global};
use std::marker::Model;
use watch_core::{Stage, Watch};

/// What is known of a circuit without asking.
#[derive(Drop)]
pub(crate) struct Source<'a> {
    supports: Supports<'a>,
    sightings: Sightings<'a>,
    nearby: Nearby<'a>,
}

impl<'a> Source<'a> {
    /// The supports of a circuit's outputs; nothing was simulated.
    pub(crate) fn new(alloc: Global, graph: &'a Graph, seed: u64) -> Result<Source<'a>, AllocError>
        ensures { IfOk result (IsSource graph.now) }
    {
        Ok(Source {
            supports: Supports::new(alloc, graph)?,
            sightings: Sightings::new(graph, seed),
            nearby: Nearby::new(alloc, graph, seed),
        })
    }
}

/// What is known of either of two circuits without asking. A claim is decided by structure where its output reaches
/// none of its inputs, by a vector that was seen to break it, and else by asking; a query of a matching is asked.
/// Contracts see it as the circuits.
#[derive(Drop)]
pub struct Sources<'a, W: Watch> {
    graphs: &'a Graphs<'a>,
    first: Source<'a>,
    second: Source<'a>,
    /// What queries of the last matching have learned.
    shared: SharedLemmas<'a>,
    /// Gets what the run is at.
    watch: &'a W,
}

impl<'a, W: Watch> Model for Sources<'a, W> {
    ghost use Rattle.net_core.specs.Sides.{Graphs as AnyGraphs};
    ghost use Rattle.fact_tests.specs.Books.{AreSources};

    ghost Value = { AnyGraphs };

    ghost view = { λ a. a.graphs.now };

    ghost invariant = { λ a. AreSources a.graphs.now a.first a.second a.shared };
}

impl<'a, W: Watch> Sources<'a, W> {
    /// The supports of all outputs; nothing was hunted. The seed chooses the vectors that are simulated.
    pub(crate) fn new(
        alloc: Global,
        graphs: &'a Graphs<'a>,
        seed: u64,
        watch: &'a W,
    ) -> Result<Sources<'a, W>, AllocError>
        ensures { IfOk result (λ sources. sources ≡ graphs.now) }
    {
        Ok(Sources {
            graphs,
            first: Source::new(alloc, graphs.first(), seed)?,
            second: Source::new(alloc, graphs.second(), seed)?,
            shared: SharedLemmas::new(alloc, graphs),
            watch,
        })
    }
}

impl<'a, W: Watch> Decide for Sources<'a, W> {
    ghost circuits = { λ sources. sources };

    fn graphs(&self) -> &Graphs<'_> {
        self.graphs
    }

    fn evidence(
        &mut self,
        alloc: Global,
        claim: &Claim,
        ledger: &mut Ledger,
    ) -> Result<Evidence, Stop> {
        let graphs = self.graphs;
        let watch = self.watch;
        match claim.side {
            Side::First => decide(alloc, graphs, &mut self.first, claim, ledger, watch),
            Side::Second => decide(alloc, graphs, &mut self.second, claim, ledger, watch),
        }
    }

    fn answer_to(
        &mut self,
        alloc: Global,
        query: &Query,
        ledger: &mut Ledger,
    ) -> Result<Answer, Stop> {
        let watch = self.watch;
        shared_answer_to(alloc, &mut self.shared, query, ledger, watch)
    }

    fn at(&self, stage: Stage) {
        self.watch.at(stage)
    }
}

/// Decides a claim of a circuit: by structure where its output reaches none of the shape's inputs; by a vector that was
/// seen to break it; and else by asking.
fn decide<W: Watch>(
    alloc: Global,
    graphs: &Graphs<'_>,
    source: &mut Source<'_>,
    claim: &Claim,
    ledger: &mut Ledger,
    watch: &W,
) -> Result<Evidence, Stop>
    requires placed { IsClaim graphs.now claim.now }
    requires source { IsSource (graph_of graphs.now claim.now.side) source.old }
    requires unspent { ledger.old.spent ≡ false }
    ensures source { IsSource (graph_of graphs.now claim.now.side) source.new }
    ensures decides { DecidesClaim graphs.now claim.now ledger.old ledger.new result }
{
    if is_outside(&source.supports, claim.output, &claim.shape) {
        return by_structure(alloc, graphs, claim, ledger);
    }
    match seen(alloc, source, claim.output, claim.shape)? {
        Some(vector) => Ok(Evidence::Fails(vector)),
        None => by_asking(alloc, graphs, &mut source.nearby, claim, ledger, watch),
    }
}

/// A vector that breaks the claim of a shape at an output, where one is seen: among those that are drawn, or near those
/// that questions gave.
fn seen(
    alloc: Global,
    source: &mut Source<'_>,
    output: u32,
    shape: Shape,
) -> Result<Option<Bits>, AllocError>
    requires output { output < length source.old.sightings.outputs }
    requires placed { IsPlaced source.old.sightings.inputs shape }
    requires same { source.old.nearby ≡ source.old.sightings }
    ensures same { source.new ≡ source.old }
    ensures breaks { IfOk result (λ found. IfSome found (BreaksShape source.old.sightings output shape)) }
{
    match source.sightings.vector_of(alloc, output, shape)? {
        Some(vector) => Ok(Some(vector)),
        None => source.nearby.vector_of(alloc, output, shape),
    }
}

/// Whether an output reaches none of a shape's inputs.
fn is_outside(supports: &Supports<'_>, output: u32, shape: &Shape) -> bool
    requires output { output < length supports.now.outputs }
    requires placed { IsPlaced supports.now.inputs shape.now }
    ensures { IsTrue result → IsOutside supports.now output shape.now }
{
    match shape {
        Shape::Up(i) => !supports.reaches(output, *i),
        Shape::Down(i) => !supports.reaches(output, *i),
        Shape::Swap { i, j, a: _, b: _ } => {
            let first = supports.reaches(output, *i);
            let second = supports.reaches(output, *j);
            !first & !second
        }
    }
}

/// Decides a claim by asking. Where a vector breaks it, later claims are tried on others near it.
fn by_asking<W: Watch>(
    alloc: Global,
    graphs: &Graphs<'_>,
    nearby: &mut Nearby<'_>,
    claim: &Claim,
    ledger: &mut Ledger,
    watch: &W,
) -> Result<Evidence, Stop>
    requires placed { IsClaim graphs.now claim.now }
    requires nearby { nearby.old ≡ graph_of graphs.now claim.now.side }
    requires unspent { ledger.old.spent ≡ false }
    ensures nearby { nearby.new ≡ nearby.old }
    ensures decides { DecidesClaim graphs.now claim.now ledger.old ledger.new result }
{
    let evidence = asked(alloc, graphs, claim, ledger, watch)?;
    if let Evidence::Fails(vector) = &evidence {
        nearby.note(alloc, claim.output, vector)?;
    }
    Ok(evidence)
}

/// What the answer of a claim's query says of the claim.
fn asked<W: Watch>(
    alloc: Global,
    graphs: &Graphs<'_>,
    claim: &Claim,
    ledger: &mut Ledger,
    watch: &W,
) -> Result<Evidence, Stop>
    requires placed { IsClaim graphs.now claim.now }
    requires unspent { ledger.old.spent ≡ false }
    ensures { DecidesClaim graphs.now claim.now ledger.old ledger.new result }
{
    let query = of_claim(alloc, graphs, claim)?;
    let answer = answer_to(alloc, graphs, &query, ledger, watch)?;
    Ok(evidence_of(alloc, graphs, claim, answer)?)
}

/// What the answer of a claim's query says of the claim: a vector breaks it, once the shape's inputs have its values; a
/// log that refutes the query is evidence for it.
///
/// # Errors
///
/// Only when out of memory.
pub fn evidence_of(
    alloc: Global,
    graphs: &Graphs<'_>,
    claim: &Claim,
    answer: Answer,
) -> Result<Evidence, AllocError>
    requires placed { IsClaim graphs.now claim.now }
    requires answer { IsAnswer graphs.now (claim_query graphs.now claim.now) answer }
    ensures { IfOk result (IsEvidence graphs.now claim.now) }
{
    match answer {
        Answer::Vector(vector) => {
            let vector = with_values(alloc, vector, &claim.shape)?;
            Ok(Evidence::Fails(vector))
        }
        Answer::Refuted(log) => Ok(Evidence::Holds(log)),
    }
}

/// The vector with the shape's inputs set to its values.
fn with_values(alloc: Global, vector: Items<bool>, shape: &Shape) -> Result<Bits, AllocError>
    requires { IsPlaced (length vector) shape.now }
    ensures { IfOk result (λ bits. bits ≡ with_values shape.now vector) }
{
    let mut vector = vector;
    match shape {
        Shape::Up(i) => vector.set(*i as usize, false),
        Shape::Down(i) => vector.set(*i as usize, true),
        Shape::Swap { i, j, a, b } => {
            vector.set(*i as usize, *a);
            vector.set(*j as usize, *b);
        }
    }
    Bits::from_slice(alloc, &vector)
}
