//! Which gates of a query's cones unfold to the same tree, by a hash table. Nothing rests on it.

ghost use Rattle.std.specs.Prelude.{IfSome};
ghost use Rattle.joint_hash.specs.Trees.{IsGateOf};

use crate::gates::{ConeGate, gate_at};
use crate::twins::in_order;
use cnf_core::SatLit;
use indexmap::IndexMap;
use query_core::ConeClauses;
use std::alloc::{AllocError, Global};

/// The classes of the gates of a query's cones: gates of one class unfold to the same tree. A table by the formula's
/// variables, of 16 bytes for each.
#[derive(Drop)]
pub(crate) struct Classes {
    gates: Vec<Option<ClassedGate>>,
}

/// What is known of a variable's gate.
#[derive(Clone, Copy, Drop)]
struct ClassedGate {
    /// The variable of the first gate of its class.
    first: u32,
    /// Where its last clause stands among the numbers of the cones' clauses.
    place: u32,
    /// How many gates the longest path down from it has, the gate counted too.
    level: u32,
}

impl Classes {
    /// The classes of the gates of these cones, by one pass.
    pub(crate) fn of(alloc: Global, cones: &ConeClauses<'_>) -> Result<Classes, AllocError> {
        let gates = vec![in alloc; None; cones.variables() as usize]?;
        let mut classes = Classes { gates };
        classes.add_all(alloc, cones)?;
        Ok(classes)
    }

    // Adds the gates of the cones. Each stands after its operands.
    fn add_all(&mut self, alloc: Global, cones: &ConeClauses<'_>) -> Result<(), AllocError> {
        let mut firsts = IndexMap::new(alloc);
        for place in 0..cones.ids().len() {
            if let Some(gate) = gate_at(cones, place) {
                self.add(&gate, place, &mut firsts)?;
            }
        }
        Ok(())
    }

    // Adds a gate to the class of the first one with its operands. A gate that both cones have comes twice.
    fn add(
        &mut self,
        gate: &ConeGate,
        place: usize,
        firsts: &mut IndexMap<(SatLit, SatLit), u32>,
    ) -> Result<(), AllocError> {
        let variable = gate.output.variable();
        if self.at(variable).is_some() {
            return Ok(());
        }
        let operands = in_order(self.first_of(gate.first), self.first_of(gate.second));
        let first = first_under(firsts, operands, short(variable))?;
        let below = self.level_of(gate.first).max(self.level_of(gate.second));
        self.put(
            variable,
            ClassedGate {
                first,
                place: short(place as u64),
                level: below.saturating_add(1),
            },
        );
        Ok(())
    }

    // What is known of a variable's gate, if it has one.
    fn at(&self, variable: u64) -> Option<ClassedGate> {
        match self.gates.get(variable as usize) {
            Some(gate) => *gate,
            None => None,
        }
    }

    fn put(&mut self, variable: u64, gate: ClassedGate) {
        if let Some(slot) = self.gates.get_mut(variable as usize) {
            *slot = Some(gate);
        }
    }

    /// The gate of a variable, if it has one.
    pub(crate) fn gate_of(&self, cones: &ConeClauses<'_>, variable: u32) -> Option<ConeGate>
        ensures { IfSome result (IsGateOf cones.now.graphs cones.now.query) }
    {
        let Some(gate) = self.at(u64::from(variable)) else {
            return None;
        };
        gate_at(cones, gate.place as usize)
    }

    // The literal of the first gate of a literal's class, with its sign.
    fn first_of(&self, literal: SatLit) -> SatLit {
        let Some(gate) = self.at(literal.variable()) else {
            return literal;
        };
        SatLit::of(u64::from(gate.first), !literal.is_negated())
    }

    /// How many gates the longest path down from a literal has.
    pub(crate) fn level_of(&self, literal: SatLit) -> u32 {
        match self.at(literal.variable()) {
            Some(gate) => gate.level,
            None => 0,
        }
    }

    /// Whether two literals are of one class.
    pub(crate) fn are_one(&self, one: SatLit, other: SatLit) -> bool {
        self.first_of(one) == self.first_of(other)
    }

    /// The operands of `copy`, in the order in which they are of one class with those of `gate`.
    pub(crate) fn partners(&self, gate: &ConeGate, copy: &ConeGate) -> (SatLit, SatLit) {
        if self.are_one(gate.first, copy.first) & self.are_one(gate.second, copy.second) {
            (copy.first, copy.second)
        } else {
            (copy.second, copy.first)
        }
    }
}

// The first variable under these operands, which is this one if there was none.
fn first_under(
    firsts: &mut IndexMap<(SatLit, SatLit), u32>,
    operands: (SatLit, SatLit),
    variable: u32,
) -> Result<u32, AllocError> {
    if let Some(first) = firsts.get(&operands).copied() {
        return Ok(first);
    }
    firsts.insert(operands, variable)?;
    Ok(variable)
}

/// A number in four bytes; one that needs more is as large as these can be.
pub(crate) fn short(number: u64) -> u32 {
    number.min(u64::from(u32::MAX)) as u32
}
