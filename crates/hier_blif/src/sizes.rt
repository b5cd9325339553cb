//! How many instances and covers each model makes, counted before any is made.

ghost use Rattle.std.specs.Prelude.{◌≡◌, ◌+◌, ◌<◌, ◌∷◌, [], All, nat_lt, length, IfOk};
ghost use Rattle.hier_blif.specs.Hierarchies.{most_parts};
ghost use Rattle.hier_blif.specs.Scopes.{IsScope};
ghost use Rattle.hier_blif.specs.Order.{callees_on, callees, IsBottomUp};
ghost use Rattle.hier_blif.specs.Sizes.{capped, Counts, IsSizeAt, AreSizes};

use crate::model::ModelLine;
use crate::names::Scope;
use std::alloc::{AllocError, Global};

/// The limit of instances and covers of a flattened circuit, together: twice the gates that a netlist may have, since a
/// file of some thousand bytes can announce 2^64 of them.
const MOST_PARTS: u64 = 8_000_000;

/// What one instance of a model makes. Of each kind no more than the limit and one are counted.
#[derive(Clone, Copy, Drop)]
pub(crate) struct Size {
    /// The instances, the model's own as one.
    pub(crate) instances: u64,
    /// The covers of all these instances.
    pub(crate) covers: u64,
}

impl Size {
    /// Whether there are more instances and covers than the limit.
    pub(crate) fn is_too_big(self) -> bool
        ensures { result ≡ nat_lt most_parts (self.instances + self.covers) }
    {
        self.instances.saturating_add(self.covers) > MOST_PARTS
    }

    /// Nothing yet.
    pub(crate) fn none() -> Size
        ensures { result ≡ record { instances = 0; covers = 0 } }
    {
        Size {
            instances: 0,
            covers: 0,
        }
    }

    /// The two sizes together.
    pub(crate) fn with(self, more: Size) -> Size
        ensures instances { result.instances ≡ capped (self.instances + more.instances) }
        ensures covers { result.covers ≡ capped (self.covers + more.covers) }
    {
        Size {
            instances: self
                .instances
                .saturating_add(more.instances)
                .min(MOST_PARTS + 1),
            covers: self.covers.saturating_add(more.covers).min(MOST_PARTS + 1),
        }
    }
}

/// The sizes of all models. Each is counted after those of the models that it has instances of.
pub(crate) fn sizes_of(
    alloc: Global,
    scope: &Scope<'_, '_>,
    order: &[usize],
) -> Result<Vec<Size>, AllocError>
    requires scope { IsScope scope.now }
    requires order { IsBottomUp scope.now.models.now order.now }
    ensures { IfOk result (λ sizes. AreSizes scope.now.models.now sizes.items) }
{
    let none = Size {
        instances: 0,
        covers: 0,
    };
    let mut sizes = vec![in alloc; none; scope.models.len()]?;
    for place in order.iter() {
        sizes[*place] = size_of(scope, &scope.models[*place].lines, &sizes);
    }
    Ok(sizes)
}

// What an instance of a model with these lines makes.
fn size_of(scope: &Scope<'_, '_>, lines: &[ModelLine<'_>], sizes: &[Size]) -> Size
    requires scope { IsScope scope.now }
    requires there { All (λ callee. callee < length sizes.now) (callees scope.now.models.now lines.now) }
    requires sizes { All (IsSizeAt scope.now.models.now sizes.now) (callees scope.now.models.now lines.now) }
    ensures { Counts scope.now.models.now 1 lines.now result }
{
    let mut size = Size {
        instances: 1,
        covers: 0,
    };
    for line in lines.iter() {
        size = size.with(size_on(scope, line, sizes));
    }
    size
}

/// What a line of a model makes.
pub(crate) fn size_on(scope: &Scope<'_, '_>, line: &ModelLine<'_>, sizes: &[Size]) -> Size
    requires scope { IsScope scope.now }
    requires there { All (λ callee. callee < length sizes.now) (callees_on scope.now.models.now line.now) }
    requires sizes { All (IsSizeAt scope.now.models.now sizes.now) (callees_on scope.now.models.now line.now) }
    ensures { Counts scope.now.models.now 0 (line.now ∷ []) result }
{
    match line {
        ModelLine::Instance(instance) => sizes[scope.place_of(instance)],
        ModelLine::Cover(_) => Size {
            instances: 0,
            covers: 1,
        },
        _ => Size {
            instances: 0,
            covers: 0,
        },
    }
}
