//! The lemmas that a refutation by structure needs, and no others.

ghost use Rattle.std.specs.Prelude.{◌≡◌, [], IfOk, IfSome, OnOk, length};
ghost use Rattle.claim_core.specs.Formulas.{formula_of, query_clauses};
ghost use Rattle.joint_hash.specs.Chains.{AddsLines, AreListed};
ghost use Rattle.joint_hash.specs.Merging.{AreBetween, AreClosedBy, AreLemmas};
ghost use Rattle.joint_hash.specs.Trees.{IsGateOf};

use crate::classes::{Classes, short};
use crate::gates::{ConeGate, id_before_last, unit_at};
use crate::hinting::hints_among;
use crate::lemmas::{add_implied, push_line};
use cnf_core::{LogLine, SatLit};
use indexmap::IndexMap;
use items::Items;
use query_core::ConeClauses;
use std::alloc::{AllocError, Global};

/// A log that refutes a query by structure: lemmas by which gates of the one cone imply gates of the other, and the
/// empty line.
#[derive(Drop)]
pub struct Refutation {
    pub lemmas: Vec<LogLine>,
    pub last: LogLine,
}

/// A refutation of a query whose two outputs unfold to the same tree, and are to differ. It has the lemmas that its
/// empty line needs: from the outputs down, that a gate implies one of the other cone of the same tree, in one
/// direction, unless propagation shows it. There is none where the outputs unfold to other trees, nor where that takes
/// more steps than the cones have clauses.
///
/// # Errors
///
/// Only when out of memory.
pub fn refute(alloc: Global, cones: &ConeClauses<'_>) -> Result<Option<Refutation>, AllocError>
    ensures { IfOk result (λ found. IfSome found (λ refutation.
        AreClosedBy (formula_of cones.now.graphs cones.now.query) refutation.lemmas.items refutation.last)) }
{
    let mut needed = Needed::new(alloc, cones)?;
    refute_by(cones, &mut needed)
}

// The refutation, where nothing is needed yet.
fn refute_by(cones: &ConeClauses<'_>, needed: &mut Needed) -> Result<Option<Refutation>, AllocError>
    ensures { IfOk result (λ found. IfSome found (λ refutation.
        AreClosedBy (formula_of cones.now.graphs cones.now.query) refutation.lemmas.items refutation.last)) }
{
    let mut lemmas = Vec::new(needed.alloc);
    let Some(last) = close(cones, needed, &mut lemmas)? else {
        return Ok(None);
    };
    Ok(Some(Refutation { lemmas, last }))
}

// Adds the lemmas. Answers the empty line, if it is derived by them.
fn close(
    cones: &ConeClauses<'_>,
    needed: &mut Needed,
    lemmas: &mut Vec<LogLine>,
) -> Result<Option<LogLine>, AllocError>
    requires { lemmas.old.items ≡ [] }
    ensures { IfOk result (λ found. IfSome found
        (AreClosedBy (formula_of cones.now.graphs cones.now.query) lemmas.new.items)) }
{
    if !needed.begin(cones)? {
        return Ok(None);
    }
    if !add_needed(cones, needed, lemmas)? {
        return Ok(None);
    }
    last_line(cones, needed, lemmas)
}

/// That the gate of one variable implies that of another one, of the other cone and the same tree.
type Link = (u32, u32);

/// A link that is to become a lemma.
#[derive(Clone, Copy, Drop)]
struct Visit {
    link: Link,
    /// Whether the links of its operands were gone over.
    ready: bool,
}

/// The links that a refutation needs, and where memory is taken from.
struct Needed {
    alloc: Global,
    classes: Classes,
    /// The links that become lemmas, each with its place among the lemmas once it is there.
    places: IndexMap<Link, Option<u32>>,
    /// The links that are left to be gone over, the next one last.
    left: Vec<Visit>,
    /// The links that propagation goes through, from the outputs down: no lemma is made of them.
    path: Vec<Link>,
}

// By hand, so that each exit of a function has one call for it (docs/IDIOMS.md).
impl Drop for Needed {
    fn drop(self) {
        let Needed {
            alloc: _alloc,
            classes: _classes,
            places: _places,
            left: _left,
            path: _path,
        } = self;
    }
}

impl Needed {
    // None is needed yet.
    fn new(alloc: Global, cones: &ConeClauses<'_>) -> Result<Needed, AllocError> {
        let classes = Classes::of(alloc, cones)?;
        Ok(Needed {
            alloc,
            classes,
            places: IndexMap::new(alloc),
            left: Vec::new(alloc),
            path: Vec::new(alloc),
        })
    }

    // Begins with the outputs, whose literals the last two clauses say. Answers whether these can't both be true by
    // structure, and the path down from them ends.
    fn begin(&mut self, cones: &ConeClauses<'_>) -> Result<bool, AllocError> {
        let (Some(left), Some(right)) = (unit_at(cones, 1), unit_at(cones, 0)) else {
            return Ok(false);
        };
        if !self.classes.are_one(left, right.opposite()) {
            return Ok(false);
        }
        self.go_down(cones, link_between(left, right.opposite()))
    }

    // Goes down a path from a link. Answers whether it ends.
    fn go_down(
        &mut self,
        cones: &ConeClauses<'_>,
        start: Option<Link>,
    ) -> Result<bool, AllocError> {
        let mut next = start;
        for _turn in 0..cones.ids().len() {
            let Some(link) = next else {
                return Ok(true);
            };
            self.path.push(link)?;
            next = self.go_below(cones, link)?;
        }
        Ok(false)
    }

    // The link of operands that propagation goes on to, which is the deeper one. The other one becomes a lemma.
    fn go_below(
        &mut self,
        cones: &ConeClauses<'_>,
        link: Link,
    ) -> Result<Option<Link>, AllocError> {
        let (one, other) = self.below(cones, link);
        let Some(first) = one else {
            return Ok(other);
        };
        let Some(second) = other else {
            return Ok(one);
        };
        if self.level_of(first) < self.level_of(second) {
            self.visit(first, false)?;
            return Ok(other);
        }
        self.visit(second, false)?;
        Ok(one)
    }

    // How deep the gates of a link are, which are of one class.
    fn level_of(&self, link: Link) -> u32 {
        self.classes.level_of(SatLit::of(u64::from(link.0), true))
    }

    // The links between the operands of a link's gates.
    fn below(&self, cones: &ConeClauses<'_>, link: Link) -> (Option<Link>, Option<Link>) {
        let (Some(gate), Some(copy)) = (
            self.classes.gate_of(cones, link.0),
            self.classes.gate_of(cones, link.1),
        ) else {
            return (None, None);
        };
        let (first, second) = self.classes.partners(&gate, &copy);
        (
            link_between(gate.first, first),
            link_between(gate.second, second),
        )
    }

    fn visit(&mut self, link: Link, ready: bool) -> Result<(), AllocError> {
        self.left.push(Visit { link, ready })?;
        Ok(())
    }

    // Notes that the lemma of a link is required, after those of its operands, unless it was noted before.
    fn require(&mut self, cones: &ConeClauses<'_>, link: Link) -> Result<(), AllocError> {
        if self.places.contains_key(&link) {
            return Ok(());
        }
        self.places.insert(link, None)?;
        self.visit(link, true)?;
        let (one, other) = self.below(cones, link);
        self.visit_if(one)?;
        self.visit_if(other)
    }

    fn visit_if(&mut self, link: Option<Link>) -> Result<(), AllocError> {
        match link {
            Some(link) => self.visit(link, false),
            None => Ok(()),
        }
    }

    // Notes the place of a link's lemma.
    fn put(&mut self, link: Link, place: usize) -> Result<(), AllocError> {
        self.places.insert(link, Some(short(place as u64)))?;
        Ok(())
    }

    // The place of the lemma that one literal implies another, if there is one.
    fn place_of(&self, one: SatLit, other: SatLit) -> Option<u32> {
        let Some(link) = link_between(one, other) else {
            return None;
        };
        match self.places.get(&link) {
            Some(place) => *place,
            None => None,
        }
    }
}

// The link by which one literal implies another of its class; none where it is the same one.
fn link_between(one: SatLit, other: SatLit) -> Option<Link> {
    if one == other {
        return None;
    }
    let (from, to) = (short(one.variable()), short(other.variable()));
    if one.is_negated() {
        Some((to, from))
    } else {
        Some((from, to))
    }
}

// Adds the lemmas that are needed, each after those of its operands. Answers whether all were derived, in as many steps
// as the cones have clauses.
fn add_needed(
    cones: &ConeClauses<'_>,
    needed: &mut Needed,
    lemmas: &mut Vec<LogLine>,
) -> Result<bool, AllocError>
    requires { AreLemmas (formula_of cones.now.graphs cones.now.query) lemmas.old.items }
    ensures { OnOk result (AreLemmas (formula_of cones.now.graphs cones.now.query) lemmas.new.items) }
{
    for _turn in 0..cones.ids().len() {
        let Some(visit) = needed.left.pop() else {
            return Ok(true);
        };
        if !go_over(cones, needed, visit, lemmas)? {
            return Ok(false);
        }
    }
    Ok(needed.left.is_empty())
}

// Goes over a link: first it is noted, and once its operands' lemmas are there, its own one is added. Answers whether
// it can be.
fn go_over(
    cones: &ConeClauses<'_>,
    needed: &mut Needed,
    visit: Visit,
    lemmas: &mut Vec<LogLine>,
) -> Result<bool, AllocError>
    requires { AreLemmas (formula_of cones.now.graphs cones.now.query) lemmas.old.items }
    ensures { OnOk result (AreLemmas (formula_of cones.now.graphs cones.now.query) lemmas.new.items) }
{
    if visit.ready {
        return add_link(cones, needed, visit.link, lemmas);
    }
    needed.require(cones, visit.link)?;
    Ok(true)
}

// Adds the lemma of a link. Answers whether it is derived.
fn add_link(
    cones: &ConeClauses<'_>,
    needed: &mut Needed,
    link: Link,
    lemmas: &mut Vec<LogLine>,
) -> Result<bool, AllocError>
    requires { AreLemmas (formula_of cones.now.graphs cones.now.query) lemmas.old.items }
    ensures { OnOk result (AreLemmas (formula_of cones.now.graphs cones.now.query) lemmas.new.items) }
{
    let Some(gate) = needed.classes.gate_of(cones, link.0) else {
        return Ok(false);
    };
    let Some(copy) = needed.classes.gate_of(cones, link.1) else {
        return Ok(false);
    };
    let place = lemmas.len();
    let steps = steps(cones, needed, &gate, &copy)?;
    if !add_implied(needed.alloc, cones, &gate, &copy, &steps, lemmas)? {
        return Ok(false);
    }
    needed.put(link, place)?;
    Ok(true)
}

// The numbers of the clauses by which a gate implies one of its class: it implies its operands, these those of the
// other gate, and they that gate.
fn steps(
    cones: &ConeClauses<'_>,
    needed: &Needed,
    gate: &ConeGate,
    copy: &ConeGate,
) -> Result<Vec<u64>, AllocError>
    requires gate { IsGateOf cones.now.graphs cones.now.query gate.now }
    requires copy { IsGateOf cones.now.graphs cones.now.query copy.now }
    ensures { IfOk result
        (λ ids. AreBetween (length (query_clauses cones.now.graphs cones.now.query)) gate.now copy.now ids.items) }
{
    // a formula has fewer than 2^62 clauses
    let _count = cones.count();
    let (first, second) = needed.classes.partners(gate, copy);
    let mut ids = Vec::new(needed.alloc);
    ids.push(gate.id)?;
    push_link(cones, needed, gate.first, first, &mut ids)?;
    ids.push(gate.id + 1)?;
    push_link(cones, needed, gate.second, second, &mut ids)?;
    ids.push(copy.id + 2)?;
    Ok(ids)
}

// Adds the number of the lemma that one literal implies another, if there is one.
fn push_link(
    cones: &ConeClauses<'_>,
    needed: &Needed,
    one: SatLit,
    other: SatLit,
    ids: &mut Vec<u64>,
) -> Result<(), AllocError>
    ensures { OnOk result
        (AddsLines (length (query_clauses cones.now.graphs cones.now.query)) ids.old.items ids.new.items) }
{
    match needed.place_of(one, other) {
        Some(place) => push_line(cones, place as usize, ids),
        None => Ok(()),
    }
}

// The empty line, if it is derived by lemmas.
fn last_line(
    cones: &ConeClauses<'_>,
    needed: &Needed,
    lemmas: &[LogLine],
) -> Result<Option<LogLine>, AllocError>
    requires { AreLemmas (formula_of cones.now.graphs cones.now.query) lemmas.now }
    ensures { IfOk result (λ found. IfSome found
        (AreClosedBy (formula_of cones.now.graphs cones.now.query) lemmas.now)) }
{
    let ids = last_ids(cones, needed)?;
    let clause = Items::new(needed.alloc);
    let Some(hints) = hints_among(needed.alloc, cones, lemmas, &clause, &ids)? else {
        return Ok(None);
    };
    Ok(Some(LogLine { clause, hints }))
}

// The numbers of the clauses by which the outputs can't be as is asked: those of the outputs, and those along the path.
fn last_ids(cones: &ConeClauses<'_>, needed: &Needed) -> Result<Vec<u64>, AllocError>
    ensures { IfOk result (λ ids.
        AreListed (length (query_clauses cones.now.graphs cones.now.query)) cones.now.ids ids.items) }
{
    let mut ids = Vec::new(needed.alloc);
    push_output(cones, 1, &mut ids)?;
    push_output(cones, 0, &mut ids)?;
    for link in needed.path.iter() {
        push_steps(cones, needed, *link, &mut ids)?;
    }
    Ok(ids)
}

// Adds the number of the clause that says what an output is to be: that so many before the last one.
fn push_output(
    cones: &ConeClauses<'_>,
    before_last: usize,
    ids: &mut Vec<u64>,
) -> Result<(), AllocError>
    requires { AreListed (length (query_clauses cones.now.graphs cones.now.query)) cones.now.ids ids.old.items }
    ensures { OnOk result
        (AreListed (length (query_clauses cones.now.graphs cones.now.query)) cones.now.ids ids.new.items) }
{
    let Some(id) = id_before_last(cones, before_last) else {
        return Ok(());
    };
    ids.push(id)?;
    Ok(())
}

// Adds the numbers of the clauses by which one gate of a link implies the other.
fn push_steps(
    cones: &ConeClauses<'_>,
    needed: &Needed,
    link: Link,
    ids: &mut Vec<u64>,
) -> Result<(), AllocError>
    requires { AreListed (length (query_clauses cones.now.graphs cones.now.query)) cones.now.ids ids.old.items }
    ensures { OnOk result
        (AreListed (length (query_clauses cones.now.graphs cones.now.query)) cones.now.ids ids.new.items) }
{
    // the numbers are those of the cones' clauses
    let _ids = cones.ids();
    let Some(gate) = needed.classes.gate_of(cones, link.0) else {
        return Ok(());
    };
    let Some(copy) = needed.classes.gate_of(cones, link.1) else {
        return Ok(());
    };
    let steps = steps(cones, needed, &gate, &copy)?;
    ids.extend_from_slice(&steps)?;
    Ok(())
}
