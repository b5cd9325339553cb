//! The matching that has the pairs of all ports.

ghost use Rattle.std.specs.Prelude.{◌≡◌, ◌<◌, All, AllPairs, IfOk, length};
ghost use Rattle.circuits.specs.declared.port.Pair.{Pair as AnyPair};
ghost use Rattle.circuits.specs.Matches.{HavePorts};
ghost use Rattle.claim_core.specs.Images.{Extends};
ghost use Rattle.account_core.specs.Assigned.{AreApart, AreAssignable, IsEntryOf, IsWhole};

use account_core::PairableGraphs;
use circuits::{Pair, PortKind};
use items::Items;
use net_core::Matching;
use std::alloc::{AllocError, Global};

/// The matching that has each of the pairs, where each port is in one.
pub(crate) fn matching_of(
    alloc: Global,
    graphs: &PairableGraphs<'_>,
    assigned: &[Pair],
) -> Result<Matching, AllocError>
    requires assigned { AreAssignable graphs.now assigned.now }
    requires whole { IsWhole graphs.now assigned.now }
    ensures ports { IfOk result
        (λ matching. HavePorts graphs.now.first graphs.now.second matching.inputs matching.outputs) }
    ensures extends { IfOk result (λ matching. Extends assigned.now matching.inputs matching.outputs) }
{
    let inputs = graphs.ports(PortKind::Input);
    let outputs = graphs.ports(PortKind::Output);
    Ok(Matching {
        inputs: partners(alloc, assigned, PortKind::Input, inputs)?,
        outputs: partners(alloc, assigned, PortKind::Output, outputs)?,
    })
}

// Where each of n ports of a kind goes.
fn partners(
    alloc: Global,
    assigned: &[Pair],
    kind: PortKind,
    count: u32,
) -> Result<Items<(u32, bool)>, AllocError>
    requires known { All (λ pair. pair.kind ≡ kind → pair.from < count) assigned.now }
    requires apart { AllPairs AreApart assigned.now }
    ensures length { IfOk result (λ partners. length partners ≡ count) }
    ensures each { IfOk result (λ partners. All (IsEntryOf kind partners) assigned.now) }
{
    let mut partners = vec![in alloc; (0, false); count as usize]?;
    put_partners(assigned, kind, &mut partners);
    Ok(Items::from_vec(partners))
}

fn put_partners(assigned: &[Pair], kind: PortKind, partners: &mut [(u32, bool)])
    requires known { All (λ pair. pair.kind ≡ kind → pair.from < length partners.old) assigned.now }
    requires apart { AllPairs AreApart assigned.now }
    ensures { All (IsEntryOf kind partners.new) assigned.now }
{
    for pair in assigned.iter() {
        put_partner(*pair, kind, partners);
    }
}

fn put_partner(pair: Pair, kind: PortKind, partners: &mut [(u32, bool)])
    requires { pair.kind ≡ kind → pair.from < length partners.old }
    ensures length { length partners.new ≡ length partners.old }
    ensures put { IsEntryOf kind partners.new pair }
    ensures others { (other : AnyPair)
        → AreApart other pair
        → IsEntryOf kind partners.old other
        → IsEntryOf kind partners.new other }
{
    if pair.kind == kind {
        partners[pair.from as usize] = (pair.to, pair.flip);
    }
}
