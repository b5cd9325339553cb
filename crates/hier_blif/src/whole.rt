//! Whole files of models.

ghost use Rattle.std.specs.Prelude.{◌≡◌, ◌<◌, ◌≤◌, length, All, Err, IfOk, IfErr};
ghost use Rattle.blif_reader.specs.Blif.{blif_lines};
ghost use Rattle.blif_reader.specs.Numbers.{names_of};
ghost use Rattle.net_core.specs.Limits.{most_bytes};
ghost use Rattle.hier_blif.specs.declared.fault.HierFault.{HierFault as AnyFault};
ghost use Rattle.hier_blif.specs.Stops.{IsStopBy};
ghost use Rattle.hier_blif.specs.Models.{models_of};
ghost use Rattle.hier_blif.specs.LineFaults.{AreSound};
ghost use Rattle.hier_blif.specs.Hierarchies.{IsHierFault, ReadAs};
ghost use Rattle.hier_blif.specs.Widths.{HasWideCovers};
ghost use Rattle.hier_blif.specs.Checked.{IsCheckOf};
ghost use Rattle.hier_blif.specs.Scopes.{IsScope};
ghost use Rattle.hier_blif.specs.Frames.{IsFlatOf};
ghost use Rattle.hier_blif.specs.Files.{IsFlatFile, IsGraphOf, IsNamedOf};

use crate::checks::{CheckedModels, checked_models};
use crate::drivers::drivers_of;
use crate::fault::{HierKind, HierStop, fault_at};
use crate::flattening::{Flat, flatten};
use crate::frames::Blocks;
use crate::hier::Hier;
use crate::model::BlifModel;
use crate::names::Scope;
use crate::reader::read_models;
use indexmap::IndexSet;
use items::Items;
use net_core::{Graph, OrderFault, order};
use net_file::{Name, Named};
use std::alloc::{AllocError, Global};

/// Reads a file in the Berkeley Logic Interchange Format (BLIF, University of California at Berkeley, 1992) that may
/// have several models with instances of one another (`.subckt`), as one flat netlist. The first model is the top. Each
/// cover of each instance is a definition, in the order of the text, a `.subckt` line standing for those of its
/// instance; the graph has their gates by level, and those of one level in that order. `input` is a file of at most
/// 67,108,864 bytes.
///
/// # Errors
///
/// [`HierStop::Fault`] with the first fault of the file: of its lines; then of names, kind by kind; an instance whose
/// model has no depth; more than 8,000,000 instances and covers, which are counted and not made; more ports of the top
/// than [`net_core::MAX_PORTS`] of a kind; a cover on a cycle or above one, at its `.names` line; or more gates than
/// [`net_core::MAX_GATES`]. [`HierStop::Memory`] when out of memory.
pub fn read(alloc: Global, input: &[u8]) -> Result<Hier, HierStop>
    requires file { length input.now ≤ most_bytes }
    ensures netlist { IfOk result (λ hier. ReadAs input.now hier.net.graph hier.net.input_names hier.net.output_names
        hier.models hier.instances) }
    ensures fault { (fault : AnyFault) → result ≡ Err (HierStop.Fault fault) → IsHierFault input.now fault }
{
    read_file(alloc, input)
}

// The netlist of a file, with what it was made of.
fn read_file(alloc: Global, input: &[u8]) -> Result<Hier, HierStop>
    ensures netlist { IfOk result (λ hier. ReadAs input.now hier.net.graph hier.net.input_names hier.net.output_names
        hier.models hier.instances) }
    ensures stop { IfErr result (IsStopBy (IsHierFault input.now)) }
{
    // A line's fault comes before any of names, wherever the line stands, so all lines are read before a name is looked
    // at.
    let models = read_models(alloc, input)?;
    flatten_models(alloc, input, &models)
}

// The netlist of a file's models.
fn flatten_models(alloc: Global, input: &[u8], models: &[BlifModel<'_>]) -> Result<Hier, HierStop>
    requires sound { AreSound (blif_lines input.now) }
    requires models { models.now ≡ models_of (blif_lines input.now) }
    ensures netlist { IfOk result (λ hier. ReadAs input.now hier.net.graph hier.net.input_names hier.net.output_names
        hier.models hier.instances) }
    ensures stop { IfErr result (IsStopBy (IsHierFault input.now)) }
{
    let checked = checked_models(alloc, models, input.len() as u64)?;
    let flat = flatten_checked(alloc, &checked)?;
    let net = name_net(alloc, input, &checked.scope, flat)?;
    Ok(Hier {
        net,
        models: models.len() as u64,
        instances: checked.sizes[0].instances,
    })
}

// The first model as one flat circuit.
fn flatten_checked(alloc: Global, checked: &CheckedModels<'_, '_>) -> Result<Flat, AllocError>
    requires some { 0 < length checked.now.scope.models.now }
    requires checked { IsCheckOf checked.now.scope.models.now checked.now }
    requires wide { All HasWideCovers checked.now.scope.models.now }
    ensures { IfOk result (IsFlatOf checked.now.scope.models.now (length checked.now.order.items)) }
{
    let drivers = drivers_of(alloc, &checked.scope, &checked.order, &checked.sizes)?;
    let blocks = Blocks {
        scope: &checked.scope,
        sizes: &checked.sizes,
        drivers: &drivers,
    };
    flatten(alloc, &blocks, checked.order.len())
}

// The netlist in order, with the names of the top's ports.
fn name_net(
    alloc: Global,
    input: &[u8],
    scope: &Scope<'_, '_>,
    flat: Flat,
) -> Result<Named, HierStop>
    requires file { IsFlatFile input.now flat }
    requires scope { IsScope scope.now }
    requires top { 0 < length scope.now.models.now }
    requires models { scope.now.models.now ≡ models_of (blif_lines input.now) }
    ensures named { IfOk result (IsNamedOf input.now) }
    ensures stop { IfErr result (IsStopBy (IsHierFault input.now)) }
{
    let input_names = copy_names(alloc, scope.input_names(0))?;
    let output_names = copy_names(alloc, scope.output_names(0))?;
    let graph = order_flat(alloc, input, flat)?;
    Ok(Named {
        graph,
        input_names,
        output_names,
    })
}

fn copy_names(alloc: Global, names: &IndexSet<&[u8]>) -> Result<Items<Name>, AllocError>
    ensures { IfOk result (λ copy. copy ≡ names_of names.now) }
{
    let mut copy = Items::new(alloc);
    for name in names.as_slice().iter() {
        copy.push(Items::from_vec((*name).to_vec(alloc)?))?;
    }
    Ok(copy)
}

// The netlist in order.
fn order_flat(alloc: Global, input: &[u8], flat: Flat) -> Result<Graph, HierStop>
    requires file { IsFlatFile input.now flat }
    ensures graph { IfOk result (IsGraphOf input.now) }
    ensures stop { IfErr result (IsStopBy (IsHierFault input.now)) }
{
    let Flat { net, places } = flat;
    match order(alloc, &net) {
        Ok(graph) => Ok(graph),
        Err(OrderFault::Cycle(definition)) => {
            Err(fault_at(places[definition as usize], HierKind::Cycle))
        }
        Err(OrderFault::TooManyGates) => {
            Err(fault_at(input.len() as u64, HierKind::TooManyGates))
        }
        Err(OrderFault::Memory) => Err(HierStop::Memory),
    }
}
