ghost use Rattle.std.specs.Prelude.{◌≡◌, ◌↔◌, IfOk, IfSome, IsSome};
ghost use Rattle.account_core.specs.Ports.{AreOrdered};

use crate::ports::are_ordered;
use circuits::Pair;
use std::alloc::{AllocError, Global};
use std::marker::Model;

/// Pairs that are in order: those of inputs come first, the first ports of each kind ascend, and no two pairs of a kind
/// go to one port. Contracts see the list of the pairs.
#[derive(Drop)]
pub struct OrderedPairs<'a> {
    pairs: &'a [Pair],
}

impl<'a> Model for OrderedPairs<'a> {
    ghost use Rattle.std.specs.Prelude.{List};
    ghost use Rattle.circuits.specs.declared.port.Pair.{Pair as AnyPair};
    ghost use Rattle.account_core.specs.Ports.{AreOrdered};

    ghost Value = { List AnyPair };

    ghost view = { λ a. a.pairs.now };

    ghost invariant = { λ a. AreOrdered a.pairs.now };
}

impl<'a> OrderedPairs<'a> {
    /// These pairs, where they are in order.
    pub fn new(alloc: Global, pairs: &'a [Pair]) -> Result<Option<OrderedPairs<'a>>, AllocError>
        ensures same { IfOk result (λ found. IfSome found (λ ordered. ordered ≡ pairs.now)) }
        ensures exactly { IfOk result (λ found. IsSome found ↔ AreOrdered pairs.now) }
    {
        if are_ordered(alloc, pairs)? {
            Ok(Some(OrderedPairs { pairs }))
        } else {
            Ok(None)
        }
    }

    /// The pairs.
    pub fn as_slice(&self) -> &'a [Pair]
        ensures value { result.now ≡ self.now }
        ensures ordered { AreOrdered self.now }
    {
        self.pairs
    }
}
