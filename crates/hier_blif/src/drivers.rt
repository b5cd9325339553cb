//! Which of the covers that a model makes defines a name, before any instance is made.

ghost use Rattle.std.specs.Prelude.{◌≡◌, ◌+◌, ◌-◌, ◌^◌, ◌<◌, [], All, length, min, unwrap_or, Contains};
ghost use Rattle.std.specs.Prelude.{if◌then◌else◌, IfOk, OnOk};
ghost use Rattle.hier_blif.specs.Bindings.{formal_of, actual_of};
ghost use Rattle.hier_blif.specs.NameFaults.{name_faults};
ghost use Rattle.hier_blif.specs.Names.{is_among, outputs_of};
ghost use Rattle.hier_blif.specs.Scopes.{IsScope, number_of, with_number, model_at};
ghost use Rattle.hier_blif.specs.Order.{callees_on, callees, IsBottomUp};
ghost use Rattle.hier_blif.specs.Sizes.{AreSizes};
ghost use Rattle.hier_blif.specs.Drivers.{IsDriven, IsDrivenAt, AreDrivers, DefineOutputs, Drives};
ghost use Rattle.hier_blif.specs.Drivers.{IsFilled};

use crate::bindings::{actual_of, formal_of};
use crate::model::{BlifModel, InstanceLine, ModelLine};
use crate::names::Scope;
use crate::numbers::NameNumbers;
use crate::sizes::{Size, size_on};
use items::Items;
use std::alloc::{AllocError, Global};
use text_core::Span;

/// For each model which of the covers that it makes defines a name: those of a model are found after those of the
/// models that it has instances of.
pub(crate) fn drivers_of<'a>(
    alloc: Global,
    scope: &Scope<'_, 'a>,
    order: &[usize],
    sizes: &[Size],
) -> Result<Items<NameNumbers<'a>>, AllocError>
    requires scope { IsScope scope.now }
    requires named { name_faults scope.now.models.now ≡ [] }
    requires order { IsBottomUp scope.now.models.now order.now }
    requires sizes { AreSizes scope.now.models.now sizes.now }
    ensures { IfOk result (AreDrivers scope.now.models.now) }
{
    let mut drivers = no_drivers(alloc, scope.models.len())?;
    for place in order.iter() {
        let driven = drivers_in(alloc, scope, &scope.models[*place], sizes, &drivers)?;
        drivers.set(*place, driven);
    }
    Ok(drivers)
}

// Tables in which no name has a number yet.
fn no_drivers<'a>(alloc: Global, count: usize) -> Result<Items<NameNumbers<'a>>, AllocError>
    ensures { IfOk result (λ drivers. length drivers ≡ count) }
{
    let mut drivers = Items::new(alloc);
    for _table in 0..count {
        drivers.push(NameNumbers::new(alloc))?;
    }
    Ok(drivers)
}

// Which of the covers that a model makes defines a name.
fn drivers_in<'a>(
    alloc: Global,
    scope: &Scope<'_, 'a>,
    model: &BlifModel<'a>,
    sizes: &[Size],
    drivers: &[NameNumbers<'a>],
) -> Result<NameNumbers<'a>, AllocError>
    requires scope { IsScope scope.now }
    requires named { name_faults scope.now.models.now ≡ [] }
    requires model { Contains scope.now.models.now model.now }
    requires sizes { AreSizes scope.now.models.now sizes.now }
    requires entries { length drivers.now ≡ length scope.now.models.now }
    requires there { All (λ callee. callee < length drivers.now) (callees scope.now.models.now model.now.lines) }
    requires drivers { All (IsDrivenAt scope.now.models.now drivers.now)
        (callees scope.now.models.now model.now.lines) }
    ensures { IfOk result (IsDriven scope.now.models.now model.now) }
{
    let mut driven = NameNumbers::new(alloc);
    let mut before = Size::none();
    for line in model.lines.iter() {
        add_line(scope, line, drivers, before.covers, &mut driven)?;
        before = before.with(size_on(scope, line, sizes));
    }
    Ok(driven)
}

// The names that a line defines, whose covers come after so many.
fn add_line<'a>(
    scope: &Scope<'_, 'a>,
    line: &ModelLine<'a>,
    drivers: &[NameNumbers<'a>],
    before: u64,
    driven: &mut NameNumbers<'a>,
) -> Result<(), AllocError>
    requires scope { IsScope scope.now }
    requires there { All (λ callee. callee < length drivers.now) (callees_on scope.now.models.now line.now) }
    requires drivers { All (IsDrivenAt scope.now.models.now drivers.now)
        (callees_on scope.now.models.now line.now) }
    requires outputs { DefineOutputs scope.now.models.now line.now }
    ensures { OnOk result (Drives scope.now.models.now line.now before driven.old driven.new) }
{
    match line {
        ModelLine::Cover(cover) => driven.put(cover.defined.bytes(), before),
        ModelLine::Instance(instance) => {
            let place = scope.place_of(instance);
            add_outputs(scope, place, instance, &drivers[place], before, driven)
        }
        _ => Ok(()),
    }
}

// The names to which the outputs of an instance are bound, whose covers come after so many.
fn add_outputs<'a>(
    scope: &Scope<'_, 'a>,
    place: usize,
    line: &InstanceLine<'a>,
    inside: &NameNumbers<'a>,
    before: u64,
    driven: &mut NameNumbers<'a>,
) -> Result<(), AllocError>
    requires scope { IsScope scope.now }
    ensures { OnOk result (IsFilled
        (λ word. is_among (formal_of word.bytes) (outputs_of (model_at scope.now.models.now place)))
        (λ word. actual_of word.bytes)
        (λ word. min (before + unwrap_or (number_of inside.now (formal_of word.bytes)) 0) (2 ^ 64 - 1))
        driven.old line.now.bindings driven.new) }
{
    for word in line.bindings.iter() {
        let is_output = scope.is_output(place, word);
        add_output(is_output, word, inside, before, driven)?;
    }
    Ok(())
}

// The name to which an output is bound, if it is one.
fn add_output<'a>(
    is_output: bool,
    word: &Span<'a>,
    inside: &NameNumbers<'a>,
    before: u64,
    driven: &mut NameNumbers<'a>,
) -> Result<(), AllocError>
    ensures { OnOk result (driven.new ≡ (if is_output then with_number driven.old (actual_of word.now.bytes)
        (min (before + unwrap_or (number_of inside.now (formal_of word.now.bytes)) 0) (2 ^ 64 - 1))
        else driven.old)) }
{
    if is_output {
        // The sum is exact where it counts: the model makes no more covers than the limit.
        let driver = before.saturating_add(inside.number(formal_of(word.bytes())));
        driven.put(actual_of(word.bytes()), driver)?;
    }
    Ok(())
}
