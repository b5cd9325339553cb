//! Which gates are exclusive ors, and of what.

use crate::covers::operands_of_cover;
use crate::gates::LitGate;
use crate::pairs::GatePair;
use cnf_core::SatLit;
use indexmap::IndexMap;
use std::alloc::{AllocError, Global};

/// Of how many variables a form is at most: a longer sum is taken for a variable of its own, so that the forms of a
/// chain of exclusive ors take time and memory in proportion to its gates. The widest codes of the benches have fewer.
const LONGEST: usize = 128;

/// The sum of literals that a gate's output is, by what stands for each.
#[derive(Drop)]
pub(crate) struct Xor {
    pub(crate) operands: Vec<SatLit>,
    /// Whether the output's variable is the sum's opposite.
    pub(crate) is_opposite: bool,
}

/// Variables whose sum, but for a constant, another one is, in ascending order.
#[derive(Drop)]
struct Form {
    variables: Vec<u64>,
}

/// The exclusive ors among gates each of which stands after its operands, where those of a pair are taken for equal.
pub(crate) struct Xors {
    gates: IndexMap<u64, LitGate>,
    /// How many literals the chain of ANDs joins that ends with each gate, along first operands.
    joined: IndexMap<u64, usize>,
    /// What stands for a variable, if it is the later one of a pair.
    leaders: IndexMap<u64, SatLit>,
    sums: IndexMap<u64, Xor>,
    forms: IndexMap<u64, Form>,
}

// By hand, so that each exit of a function has one call for it (docs/IDIOMS.md).
impl Drop for Xors {
    fn drop(self) {
        let Xors {
            gates: _gates,
            joined: _joined,
            leaders: _leaders,
            sums: _sums,
            forms: _forms,
        } = self;
    }
}

impl Xors {
    pub(crate) fn new(
        alloc: Global,
        gates: &[LitGate],
        pairs: &[GatePair],
    ) -> Result<Xors, AllocError> {
        let mut xors = Xors {
            gates: IndexMap::new(alloc),
            joined: IndexMap::new(alloc),
            leaders: IndexMap::new(alloc),
            sums: IndexMap::new(alloc),
            forms: IndexMap::new(alloc),
        };
        xors.add_leaders(pairs)?;
        xors.add_gates(alloc, gates)?;
        Ok(xors)
    }

    /// The sum that a variable is, if it is one.
    pub(crate) fn sum_of(&self, variable: u64) -> Option<&Xor> {
        self.sums.get(&variable)
    }

    /// Whether two variables are sums of the same more than two variables.
    pub(crate) fn are_alike(&self, one: u64, other: u64) -> bool {
        if self.sum_of(one).is_none() | self.sum_of(other).is_none() {
            return false;
        }
        match (self.forms.get(&one), self.forms.get(&other)) {
            (Some(left), Some(right)) => {
                left.variables.len() > 2 && same(&left.variables, &right.variables)
            }
            _ => false,
        }
    }

    // What stands for each later one of a pair.
    fn add_leaders(&mut self, pairs: &[GatePair]) -> Result<(), AllocError> {
        for pair in pairs.iter() {
            let GatePair { one, other } = *pair;
            let leader = negated_if(one, other.is_negated());
            self.leaders.insert(other.variable(), leader)?;
        }
        Ok(())
    }

    fn add_gates(&mut self, alloc: Global, gates: &[LitGate]) -> Result<(), AllocError> {
        for gate in gates.iter() {
            self.add_gate(alloc, *gate)?;
        }
        Ok(())
    }

    fn add_gate(&mut self, alloc: Global, gate: LitGate) -> Result<(), AllocError> {
        let variable = gate.output.variable();
        let joined = self.joined_with(gate.first).saturating_add(1);
        self.gates.insert(variable, gate)?;
        self.joined.insert(variable, joined)?;
        let Some(sum) = self.xor_of(alloc, gate)? else {
            return Ok(());
        };
        let variables = self.variables_of(alloc, &sum)?;
        if variables.len() > LONGEST {
            return Ok(());
        }
        self.sums.insert(variable, sum)?;
        self.forms.insert(variable, Form { variables })?;
        Ok(())
    }

    // How many literals a gate joins that is an operand, and 1 of what is no gate's output.
    fn joined_with(&self, operand: SatLit) -> usize {
        if operand.is_negated() {
            return 1;
        }
        self.joined.get(&operand.variable()).copied().unwrap_or(1)
    }

    // The variables whose sum a sum is.
    fn variables_of(&self, alloc: Global, sum: &Xor) -> Result<Vec<u64>, AllocError> {
        let mut variables = Vec::new(alloc);
        for operand in sum.operands.iter() {
            let form = self.form_of(alloc, operand.variable())?;
            variables = toggled(alloc, &variables, &form)?;
        }
        Ok(variables)
    }

    // The form of what a sum adds: that of a sum, or the variable alone, and nothing for the constant.
    fn form_of(&self, alloc: Global, variable: u64) -> Result<Vec<u64>, AllocError> {
        if let Some(form) = self.forms.get(&variable) {
            return form.variables.to_vec(alloc);
        }
        let mut own = Vec::new(alloc);
        if variable != 0 {
            own.push(variable)?;
        }
        Ok(own)
    }

    // What a gate adds, where it is an exclusive or of two literals or a cover that is one.
    fn xor_of(&self, alloc: Global, gate: LitGate) -> Result<Option<Xor>, AllocError> {
        if let Some((first, second)) = self.summands_of(gate) {
            let mut operands = Vec::new(alloc);
            operands.push(first)?;
            operands.push(second)?;
            return Ok(Some(Xor {
                operands,
                is_opposite: gate.output.is_negated(),
            }));
        }
        let rows = self.joined_with(gate.output);
        let Some(literals) = operands_of_cover(alloc, &self.gates, gate, rows)? else {
            return Ok(None);
        };
        let is_odd = literals.len() % 2 == 1;
        Ok(Some(Xor {
            operands: self.leaders_of(alloc, &literals)?,
            is_opposite: gate.output.is_negated() ^ is_odd,
        }))
    }

    // The two literals whose sum a gate is, if it is one: neither both of two literals nor both of their opposites.
    fn summands_of(&self, gate: LitGate) -> Option<(SatLit, SatLit)> {
        let (both, neither) = (self.leader_of(gate.first), self.leader_of(gate.second));
        if !both.is_negated() | !neither.is_negated() {
            return None;
        }
        let one = self.gates.get(&both.variable()).copied()?;
        let other = self.gates.get(&neither.variable()).copied()?;
        let (first, second) = (self.leader_of(one.first), self.leader_of(one.second));
        let (third, fourth) = (self.leader_of(other.first), self.leader_of(other.second));
        if are_opposites(first, second, third, fourth) {
            return Some((first, second));
        }
        None
    }

    // What stands for each of some literals.
    fn leaders_of(&self, alloc: Global, literals: &[SatLit]) -> Result<Vec<SatLit>, AllocError> {
        let mut leaders = Vec::with_capacity(alloc, literals.len())?;
        for literal in literals.iter() {
            leaders.push(self.leader_of(*literal))?;
        }
        Ok(leaders)
    }

    // What stands for a literal.
    fn leader_of(&self, literal: SatLit) -> SatLit {
        match self.leaders.get(&literal.variable()) {
            Some(leader) => negated_if(*leader, literal.is_negated()),
            None => literal,
        }
    }
}

// Whether two literals are the opposites of two others.
fn are_opposites(first: SatLit, second: SatLit, third: SatLit, fourth: SatLit) -> bool {
    let straight = (third == first.opposite()) & (fourth == second.opposite());
    let crossed = (fourth == first.opposite()) & (third == second.opposite());
    straight | crossed
}

// A literal, or its opposite.
fn negated_if(literal: SatLit, is_opposite: bool) -> SatLit {
    if is_opposite {
        return literal.opposite();
    }
    literal
}

/// The numbers that only one of two lists has, in ascending order. Neither has one twice. Each is looked for by a scan:
/// forms of gates have few variables, `LONGEST` at most.
pub(crate) fn toggled(alloc: Global, one: &[u64], other: &[u64]) -> Result<Vec<u64>, AllocError> {
    let mut numbers = Vec::new(alloc);
    add_missing(one, other, &mut numbers)?;
    add_missing(other, one, &mut numbers)?;
    numbers.sort_unstable_by_key(|number| *number);
    Ok(numbers)
}

// Adds the numbers of a list that another one hasn't.
fn add_missing(one: &[u64], other: &[u64], numbers: &mut Vec<u64>) -> Result<(), AllocError> {
    for number in one.iter() {
        if !has(other, *number) {
            numbers.push(*number)?;
        }
    }
    Ok(())
}

/// Whether a list has a number.
pub(crate) fn has(numbers: &[u64], number: u64) -> bool {
    numbers.iter().any(|other| *other == number)
}

fn same(one: &[u64], other: &[u64]) -> bool {
    one.len() == other.len()
        && one
            .iter()
            .zip(other.iter())
            .all(|(left, right)| left == right)
}
