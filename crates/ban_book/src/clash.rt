//! Pairs that no matching has both of.

ghost use Rattle.std.specs.Prelude.{◌↔◌, Contains, IfNone, IfSome, IsTrue};
ghost use Rattle.account_core.specs.Covers.{IsImpossible};
ghost use Rattle.account_core.specs.Ports.{Clash};

use circuits::Pair;

// Whether no matching has both pairs: they are of one kind, differ, and share a port.
fn clash(one: Pair, other: Pair) -> bool
    ensures { IsTrue result ↔ Clash one other }
{
    (one.kind == other.kind) & (one != other) & ((one.from == other.from) | (one.to == other.to))
}

/// An assigned pair that shares a port with the way, if there is one. The list is gone over: it has a conflict's pairs
/// where a cover is made, and all assigned ones only where open pairs are refined.
pub fn clashing(assigned: &[Pair], way: Pair) -> Option<Pair>
    ensures found { IfSome result (Contains assigned.now) }
    ensures clash { IfSome result (λ pair. Clash pair way) }
    ensures none { IfNone result (IsImpossible assigned.now way → ⊥) }
{
    for pair in assigned.iter() {
        if clash(*pair, way) {
            return Some(*pair);
        }
    }
    None
}
