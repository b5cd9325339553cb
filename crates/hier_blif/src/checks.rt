//! What is checked of a file's models before any instance is made.

ghost use Rattle.std.specs.Prelude.{◌<◌, length, IfOk, IfErr};
ghost use Rattle.hier_blif.specs.Stops.{IsStopBy};
ghost use Rattle.hier_blif.specs.Checks.{AreChecked, IsModelFault};
ghost use Rattle.hier_blif.specs.Checked.{IsCheckOf};

use crate::fault::{HierKind, HierStop, fault_at};
use crate::limits::check_limits;
use crate::model::BlifModel;
use crate::names::{Scope, scope_of};
use crate::order::order_models;
use crate::sizes::{Size, sizes_of};
use std::alloc::Global;

/// Models that are checked.
#[derive(Drop)]
pub(crate) struct CheckedModels<'m, 'a> {
    pub(crate) scope: Scope<'m, 'a>,
    /// The models by their places, each after those that it has instances of.
    pub(crate) order: Vec<usize>,
    /// What each model makes.
    pub(crate) sizes: Vec<Size>,
}

/// Checks a file's models: their names, that each instance's model has a depth, how large the circuit is that the first
/// model is flattened to, and how many ports it has. A model without instances has depth 1, and another one is one
/// deeper than the deepest model of its instances. Instances are counted and not made. `end` is the length of the file.
///
/// # Errors
///
/// [`HierStop::Fault`] with the first fault: of names, as [`check_names`](crate::check_names) says; the first instance
/// whose model has no depth, at its line; more than 8,000,000 instances and covers together, the first model as one
/// instance, at the file's end; or more inputs of the first model than 4,096, or else more outputs, at the first one
/// beyond. [`HierStop::Memory`] when out of memory.
pub fn check_models(alloc: Global, models: &[BlifModel<'_>], end: u64) -> Result<(), HierStop>
    requires top { 0 < length models.now }
    ensures checked { IfOk result (λ _. AreChecked models.now) }
    ensures fault { IfErr result (IsStopBy (IsModelFault end models.now)) }
{
    let _checked = checked_models(alloc, models, end)?;
    Ok(())
}

/// What a file's models are, where nothing is wrong with them.
pub(crate) fn checked_models<'m, 'a>(
    alloc: Global,
    models: &'m [BlifModel<'a>],
    end: u64,
) -> Result<CheckedModels<'m, 'a>, HierStop>
    requires top { 0 < length models.now }
    ensures checked { IfOk result (IsCheckOf models.now) }
    ensures fault { IfErr result (IsStopBy (IsModelFault end models.now)) }
{
    let scope = scope_of(alloc, models)?;
    let order = order_models(alloc, &scope)?;
    let sizes = sizes_of(alloc, &scope, &order)?;
    if sizes[0].is_too_big() {
        return Err(fault_at(end, HierKind::TooBig));
    }
    check_limits(&models[0].lines)?;
    Ok(CheckedModels {
        scope,
        order,
        sizes,
    })
}
