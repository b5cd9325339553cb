//! Bans by ports of which some must go to some of others, though each way to pair two of them is excluded.

ghost use Rattle.std.specs.Prelude.{◌≡◌, ◌↔◌, ◌<◌, ◌++◌, ◌∷◌, true, false, All, IfOk, IsSomeAnd, IsTrue, List};
ghost use Rattle.std.specs.List.{AllZip};
ghost use Rattle.circuits.specs.declared.port.Pair.{Pair as AnyPair};
ghost use Rattle.account_core.specs.Covers.{ways, AreCoverNames, IsCover, IsReference, row, way};
ghost use Rattle.ban_check.specs.Counted.{IsReferredBanGiven};

use crate::ascent::ascend;
use crate::given::Given;
use crate::references::References;
use account_core::{ports_in, way};
use circuits::PortKind;
use net_core::Graphs;
use std::alloc::AllocError;

/// Whether the ports exist that a cover names, and its bans were given.
pub(crate) fn are_cover_names(
    graphs: &Graphs<'_>,
    given: &Given,
    kind: PortKind,
    from: &[u32],
    to: &[u32],
    refs: &[Option<u64>],
) -> bool
    ensures { IsTrue result ↔ AreCoverNames graphs.now given.now kind from.now to.now refs.now }
{
    are_below(ports_in(graphs.first(), kind), from)
        & are_below(ports_in(graphs.second(), kind), to)
        & are_given(given, refs)
}

// Whether ports are some of n.
fn are_below(count: u32, ports: &[u32]) -> bool
    ensures { IsTrue result ↔ All (λ port. port < count) ports.now }
{
    ports.iter().all(|port| *port < count)
}

// Whether the bans that are referred to were given.
fn are_given(given: &Given, refs: &[Option<u64>]) -> bool
    ensures { IsTrue result ↔ All (IsReferredBanGiven given.now) refs.now }
{
    refs.iter().all(|reference| is_given(given, *reference))
}

// Whether the ban that is referred to was given, if one is.
fn is_given(given: &Given, reference: Option<u64>) -> bool
    ensures { IsTrue result ↔ IsReferredBanGiven given.now reference }
{
    match reference {
        Some(ban) => given.has_ban(ban),
        None => true,
    }
}

/// Whether both lists ascend and have more ports than there are of the kind, and each way to pair one of `from` with
/// one of `to` has its reference.
pub(crate) fn is_cover(
    graphs: &Graphs<'_>,
    references: &mut References<'_>,
    kind: PortKind,
    from: &[u32],
    to: &[u32],
    refs: &[Option<u64>],
) -> Result<bool, AllocError>
    ensures { IfOk result (λ is. IsTrue is
        ↔ IsCover graphs.now references.old.given references.old.pairs kind from.now to.now refs.now) }
{
    let counted = ascend(from)
        & ascend(to)
        & (from.len() + to.len() > ports_in(graphs.first(), kind) as usize);
    let referred = are_referred(references, kind, from, to, refs)?;
    Ok(counted & referred)
}

// Whether each way to pair one of `from` with one of `to` has its reference, in order.
fn are_referred(
    references: &mut References<'_>,
    kind: PortKind,
    from: &[u32],
    to: &[u32],
    refs: &[Option<u64>],
) -> Result<bool, AllocError>
    ensures { IfOk result (λ are. IsTrue are
        ↔ AllZip (IsReference references.old.given references.old.pairs) (ways kind from.now to.now) refs.now) }
{
    let mut left = refs;
    for port in from.iter() {
        let Some(rest) = after_row(references, kind, *port, to, left)? else {
            return Ok(false);
        };
        left = rest;
    }
    Ok(left.is_empty())
}

// What is left of references after those for one port of `from`, if these are there.
fn after_row<'a>(
    references: &mut References<'_>,
    kind: PortKind,
    port: u32,
    to: &[u32],
    refs: &'a [Option<u64>],
) -> Result<Option<&'a [Option<u64>]>, AllocError>
    ensures same { references.new ≡ references.old }
    ensures rest { IfOk result (λ rest. (more : List AnyPair)
        → (AllZip (IsReference references.old.given references.old.pairs) (row kind port to.now ++ more) refs.now
        ↔ IsSomeAnd rest (λ left. AllZip (IsReference references.old.given references.old.pairs) more left.now))) }
{
    let mut left = refs;
    for other in to.iter() {
        let [plain, inverted, rest @ ..] = left else {
            return Ok(None);
        };
        if !fit_ways(references, kind, port, *other, *plain, *inverted)? {
            return Ok(None);
        }
        left = rest;
    }
    Ok(Some(left))
}

// Whether two references fit a way and the same one inverted.
fn fit_ways(
    references: &mut References<'_>,
    kind: PortKind,
    from: u32,
    to: u32,
    plain: Option<u64>,
    inverted: Option<u64>,
) -> Result<bool, AllocError>
    ensures same { references.new ≡ references.old }
    ensures fit { IfOk result (λ fit. IsTrue fit
        ↔ (IsReference references.old.given references.old.pairs (way kind from to false) plain
        × IsReference references.old.given references.old.pairs (way kind from to true) inverted)) }
{
    let one = references.fits(way(kind, from, to, false), plain)?;
    let other = references.fits(way(kind, from, to, true), inverted)?;
    Ok(one & other)
}
