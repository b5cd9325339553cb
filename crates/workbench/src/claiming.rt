//! Claims asked, one after the other.

ghost use Rattle.std.specs.Prelude.{◌≡◌, ◌<◌, length};
ghost use Rattle.claim_core.specs.Claims.{IsClaim};

use anyhow::{Result, bail};
use ask_core::{Answer, ask};
use claim_core::{Claim, Shape, of_claim};
use cnf_core::Stop;
use net_core::{Graph, Graphs, Side};
use query_core::Ledger;
use sim_signature::Supports;
use std::alloc::Global;

/// The lines that a question may learn.
const BUDGET: u64 = 1_000_000;

/// How many claims were asked, and how many of them hold.
#[derive(Clone, Copy, Debug)]
struct Outcome {
    asked: u64,
    hold: u64,
}

impl Outcome {
    fn count(&mut self, holds: bool) {
        self.asked = self.asked.saturating_add(1);
        if holds {
            self.hold = self.hold.saturating_add(1);
        }
    }
}

/// Asks for n rounds, of each output and each input that it reaches through gates, whether the output never falls where
/// the input goes up, each time again, and prints how many of these claims hold. Nothing is simulated.
pub(crate) fn run<R: Print + AllocGlobal>(rt: &R, graph: &Graph, rounds: u32) -> Result<()> {
    let supports = Supports::new(rt.alloc(), graph)?;
    let graphs = Graphs::new(graph, graph);
    let mut outcome = Outcome { asked: 0, hold: 0 };
    for _round in 0..rounds {
        ask_outputs(rt.alloc(), &graphs, &supports, &mut outcome)?;
    }
    println!(rt; "asked {} hold {}", outcome.asked, outcome.hold)?;
    Ok(())
}

/// Asks the claims of all outputs.
fn ask_outputs(
    alloc: Global,
    graphs: &Graphs<'_>,
    supports: &Supports<'_>,
    outcome: &mut Outcome,
) -> Result<()>
    requires { supports.now ≡ graphs.now.first }
{
    for output in 0..graphs.first().outputs().len() as u32 {
        ask_inputs(alloc, graphs, supports, output, outcome)?;
    }
    Ok(())
}

/// Asks the claims of an output.
fn ask_inputs(
    alloc: Global,
    graphs: &Graphs<'_>,
    supports: &Supports<'_>,
    output: u32,
    outcome: &mut Outcome,
) -> Result<()>
    requires same { supports.now ≡ graphs.now.first }
    requires there { output < length graphs.now.first.outputs }
{
    for input in 0..graphs.first().inputs() {
        if supports.reaches(output, input) {
            let claim = Claim {
                side: Side::First,
                output,
                shape: Shape::Up(input),
            };
            outcome.count(holds(alloc, graphs, &claim)?);
        }
    }
    Ok(())
}

/// Whether a claim holds.
fn holds(alloc: Global, graphs: &Graphs<'_>, claim: &Claim) -> Result<bool>
    requires { IsClaim graphs.now claim.now }
{
    let query = of_claim(alloc, graphs, claim)?;
    let mut ledger = Ledger::new(alloc, BUDGET);
    match ask(alloc, graphs, &query, &mut ledger) {
        Ok(Answer::Refuted(_)) => Ok(true),
        Ok(Answer::Vector(_)) => Ok(false),
        Err(Stop::Spent(learned)) => bail!("no answer after {learned} lines"),
        Err(Stop::Memory) => bail!("out of memory"),
    }
}
