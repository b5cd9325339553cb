//! A netlist with named ports, reduced.

ghost use Rattle.std.specs.Prelude.{◌≡◌, ◌≤◌, [], false, None, IfOk, IfSome, length};
ghost use Rattle.net_core.specs.Graph.{IsGraph};
ghost use Rattle.port_moves.specs.Restored.{AreEqual};
ghost use Rattle.sweep.specs.Exposed.{IsExposed, exposed};
ghost use Rattle.sweep.specs.Reducing.{AreRepresented, IsEnd, IsReducedTo};
ghost use Rattle.sweep.specs.Swept.{IsLeft, IsReduced, IsSwept};

use crate::exposing::exposed;
use crate::merging::merged;
use crate::pruning::pruned;
use crate::sweeping::Sweep;
use cnf_core::Stop;
use items::Items;
use net_core::{Graph, Lit};
use net_file::{Name, Named};
use query_core::Ledger;
use rand_pcg::Pcg32;
use std::alloc::{AllocError, Global};

/// The stream of the generator, the same for each seed. Any would do.
const STREAM: u64 = 54;

/// A netlist that was reduced.
#[derive(Drop)]
pub struct Swept {
    pub net: Named,
    /// What was asked, where the allowance was spent before all signals were compared; None where they were.
    pub left: Option<Ledger>,
}

/// The netlist with one signal in place of all that compute the same, or the complement: of each such class the first,
/// among the constant, the inputs and the gates. Candidates are found by simulation, drawn by the seed; two signals are
/// one where two questions about them were refuted. Each line that is learned for these costs a unit of the allowance.
/// Where it is spent, the signals that weren't compared yet stay as they are. Gates that no output reaches are left out.
///
/// # Errors
///
/// Only when out of memory.
pub fn reduce(alloc: Global, net: &Named, allowance: u64, seed: u64) -> Result<Swept, AllocError>
    ensures input_names { IfOk result (λ swept. swept.net.input_names ≡ net.now.input_names) }
    ensures output_names { IfOk result (λ swept. swept.net.output_names ≡ net.now.output_names) }
    ensures functions { IfOk result (λ swept. AreEqual net.now.graph swept.net.graph) }
    ensures size { IfOk result (λ swept. length swept.net.graph.gates ≤ length net.now.graph.gates) }
    ensures reduced { IfOk result (λ swept. IsReduced net.now.graph swept.net.graph) }
    ensures whole { IfOk result (λ swept. swept.left ≡ None → IsSwept net.now.graph swept.net.graph) }
    ensures left { IfOk result (λ swept. IfSome swept.left (IsLeft net.now.graph allowance)) }
{
    let mut ledger = Ledger::new(alloc, allowance);
    let Reduced { graph, is_whole } = reduced_graph(alloc, &net.graph, seed, &mut ledger)?;
    let named = named_as(alloc, net, graph)?;
    Ok(Swept {
        net: named,
        left: if is_whole { None } else { Some(ledger) },
    })
}

/// A graph that was reduced, and whether all its signals were compared.
#[derive(Drop)]
struct Reduced {
    graph: Graph,
    is_whole: bool,
}

/// What replaces each signal, and whether all of them were compared.
#[derive(Drop)]
struct Replacements {
    literals: Vec<Lit>,
    is_whole: bool,
}

/// The graph, reduced at the cost of a ledger of which nothing was asked.
fn reduced_graph(
    alloc: Global,
    graph: &Graph,
    seed: u64,
    ledger: &mut Ledger,
) -> Result<Reduced, AllocError>
    requires asked { ledger.old.asked ≡ [] }
    requires unspent { ledger.old.spent ≡ false }
    ensures reduced { IfOk result (IsReducedTo graph.now ledger.old.budget ledger.new) }
    ensures ordered { IsGraph graph.now }
    ensures sound { IfOk result (λ reduced. IsGraph reduced.graph) }
{
    // it brings in that the graph is sound
    let _gates = graph.gates();
    let replacements = replacements_of(alloc, graph, seed, ledger)?;
    let merged = merged(alloc, graph, &replacements.literals)?;
    let graph = pruned(alloc, &merged)?;
    Ok(Reduced {
        graph,
        is_whole: replacements.is_whole,
    })
}

/// What replaces each signal of a graph.
fn replacements_of(
    alloc: Global,
    graph: &Graph,
    seed: u64,
    ledger: &mut Ledger,
) -> Result<Replacements, AllocError>
    requires asked { ledger.old.asked ≡ [] }
    requires unspent { ledger.old.spent ≡ false }
    ensures { IfOk result (λ replacements. AreRepresented graph.now ledger.old.budget ledger.new
        replacements.literals.items replacements.is_whole) }
{
    let exposed = exposed(alloc, graph)?;
    replacements_in(alloc, &exposed, seed, ledger)
}

/// What replaces each signal of a graph each signal of which is an output.
fn replacements_in(
    alloc: Global,
    exposed: &Graph,
    seed: u64,
    ledger: &mut Ledger,
) -> Result<Replacements, AllocError>
    requires exposed { IsExposed exposed.now }
    requires asked { ledger.old.asked ≡ [] }
    requires unspent { ledger.old.spent ≡ false }
    ensures { IfOk result (λ replacements. AreRepresented exposed.now ledger.old.budget ledger.new
        replacements.literals.items replacements.is_whole) }
{
    let mut generator = Pcg32::new(seed, STREAM);
    let mut sweep = Sweep::new(alloc, exposed, &mut generator)?;
    let is_whole = is_ended(sweep.run(alloc, exposed, ledger, &mut generator))?;
    Ok(Replacements {
        literals: sweep.into_replacements(),
        is_whole,
    })
}

/// Whether a run came to its end, or spent its budget.
fn is_ended(run: Result<(), Stop>) -> Result<bool, AllocError>
    ensures { IfOk result (λ ended. IsEnd run ended) }
{
    match run {
        Ok(()) => Ok(true),
        Err(Stop::Spent(_)) => Ok(false),
        Err(Stop::Memory) => Err(AllocError),
    }
}

/// A graph with the names of another one that has as many ports.
fn named_as(alloc: Global, net: &Named, graph: Graph) -> Result<Named, AllocError>
    requires inputs { graph.inputs ≡ net.now.graph.inputs }
    requires outputs { length graph.outputs ≡ length net.now.graph.outputs }
    ensures graph { IfOk result (λ named. named.graph ≡ graph) }
    ensures input_names { IfOk result (λ named. named.input_names ≡ net.now.input_names) }
    ensures output_names { IfOk result (λ named. named.output_names ≡ net.now.output_names) }
{
    let input_names = net.input_names.clone()?;
    let output_names = net.output_names.clone()?;
    Ok(Named {
        graph,
        input_names,
        output_names,
    })
}
