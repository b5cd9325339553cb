//! Definitions expanded to gates, in the order in which they are taken.

ghost use Rattle.std.specs.Prelude.{◌≡◌, ◌+◌, ◌^◌, ◌<◌, ◌≤◌, true, All, List, ◌∷◌, length, map, vec_len, IfOk};
ghost use Rattle.std.specs.List.{range_with_len};
ghost use Rattle.circuits.specs.declared.netlist.Lit.{Lit};
ghost use Rattle.circuits.specs.declared.definition.Trit.{Trit};
ghost use Rattle.circuits.specs.Literals.{plain_literal, signal_of};
ghost use Rattle.circuits.specs.Circuits.{HasWideRows, named_by, signals_in};
ghost use Rattle.circuits.specs.Expansion.{made, and_with, row_literals, row_made, or_with, cover_made, stand_in};
ghost use Rattle.circuits.specs.Expansion.{stands_for, def_made, with_def, with_defs, no_gates, gates_in};
ghost use Rattle.circuits.specs.Levels.{IsAcyclic, IsLevelOrder, IsOrderOf};
ghost use Rattle.net_core.specs.Graph.{IsGraph};
ghost use Rattle.net_core.specs.PlainNets.{IsPlainNet};
ghost use Rattle.net_core.specs.Rows.{row_continued};
ghost use Rattle.net_core.specs.Limits.{most_gates};

use crate::graph::Graph;
use crate::plain_net::PlainNet;
use circuits::{Def, Gate, Lit, Trit};
use items::Items;
use std::alloc::{AllocError, Global};

/// The literal that is constantly false.
const FALSE: Lit = Lit(0);

/// The literal that is constantly true.
const TRUE: Lit = Lit(1);

/// The gates so far. Gate 0 has the signal `first`.
#[derive(Drop)]
struct Gates {
    first: u32,
    list: Vec<Gate>,
}

impl Gates {
    /// Adds the AND of two literals, and gives its literal.
    fn and(&mut self, a: Lit, b: Lit) -> Result<Lit, AllocError>
        requires room { self.old.first + vec_len self.old.list < 2 ^ 31 }
        ensures made { IfOk result
            (λ p. made self.new.list.items p
            ≡ and_with self.old.first (made self.old.list.items a) b) }
        ensures first { self.new.first ≡ self.old.first }
    {
        let signal = self.first + self.list.len() as u32;
        self.list.push(Gate { a, b })?;
        Ok(Lit(2 * signal))
    }

    /// Adds the AND of a row's literals so far with one more. The first stands by itself.
    fn and_literal(&mut self, so_far: Option<Lit>, literal: Lit) -> Result<Lit, AllocError>
        requires room { self.old.first + vec_len self.old.list < 2 ^ 31 }
        ensures made { IfOk result
            (λ p. (rest : List Lit)
            → row_continued self.old.first self.new.list.items (Some p) rest
            ≡ row_continued self.old.first self.old.list.items so_far (literal ∷ rest)) }
        ensures first { self.new.first ≡ self.old.first }
    {
        match so_far {
            None => Ok(literal),
            Some(so_far) => self.and(so_far, literal),
        }
    }

    /// Adds what a position of a row requires of its name, where `name` stands for it.
    fn and_position(
        &mut self,
        so_far: Option<Lit>,
        name: Lit,
        trit: Trit,
    ) -> Result<Option<Lit>, AllocError>
        requires room { self.old.first + vec_len self.old.list < 2 ^ 31 }
        ensures made { IfOk result
            (λ p. (names : List Lit) (row : List Trit)
            → row_continued self.old.first self.new.list.items p (row_literals names row)
            ≡ row_continued self.old.first self.old.list.items so_far
            (row_literals (name ∷ names) (trit ∷ row))) }
        ensures first { self.new.first ≡ self.old.first }
    {
        match trit {
            Trit::Dash => Ok(so_far),
            Trit::One => Ok(Some(self.and_literal(so_far, name)?)),
            Trit::Zero => Ok(Some(self.and_literal(so_far, name.inverse())?)),
        }
    }

    /// Adds the AND of a row's literals, left to right, where `literals` stand for the signals.
    fn row(&mut self, literals: &[Lit], names: &[u32], row: &[Trit]) -> Result<Lit, AllocError>
        requires there { All (λ s. s < length literals.now) names.now }
        requires wide { length row.now ≡ length names.now }
        requires room { self.old.first
            + length (row_made self.old.first (map (stand_in literals.now) names.now)
            self.old.list.items row.now).gates < 2 ^ 31 }
        ensures made { IfOk result
            (λ p. made self.new.list.items p
            ≡ row_made self.old.first (map (stand_in literals.now) names.now) self.old.list.items row.now) }
        ensures first { self.new.first ≡ self.old.first }
    {
        let mut value = None;
        for place in 0..row.len() {
            let name = literals[names[place] as usize];
            value = self.and_position(value, name, row[place])?;
        }
        match value {
            Some(value) => Ok(value),
            None => Ok(TRUE),
        }
    }

    /// Adds a row, and its OR with the rows so far.
    fn or_row(
        &mut self,
        so_far: Lit,
        literals: &[Lit],
        names: &[u32],
        row: &[Trit],
    ) -> Result<Lit, AllocError>
        requires there { All (λ s. s < length literals.now) names.now }
        requires wide { length row.now ≡ length names.now }
        requires room { self.old.first
            + length (or_with self.old.first so_far
            (row_made self.old.first (map (stand_in literals.now) names.now)
            self.old.list.items row.now)).gates < 2 ^ 31 }
        ensures made { IfOk result
            (λ p. made self.new.list.items p
            ≡ or_with self.old.first so_far
            (row_made self.old.first (map (stand_in literals.now) names.now)
            self.old.list.items row.now)) }
        ensures first { self.new.first ≡ self.old.first }
    {
        let row = self.row(literals, names, row)?;
        let neither = self.and(so_far.inverse(), row.inverse())?;
        Ok(neither.inverse())
    }

    /// Adds rows, of which there is at least one, and their OR.
    fn rows(
        &mut self,
        literals: &[Lit],
        names: &[u32],
        rows: &[Items<Trit>],
    ) -> Result<Lit, AllocError>
        requires some { 0 < length rows.now }
        requires there { All (λ s. s < length literals.now) names.now }
        requires wide { All (λ row. length row ≡ length names.now) rows.now }
        requires room { self.old.first
            + length (cover_made self.old.first (map (stand_in literals.now) names.now)
            self.old.list.items rows.now true).gates < 2 ^ 31 }
        ensures made { IfOk result
            (λ p. made self.new.list.items p
            ≡ cover_made self.old.first (map (stand_in literals.now) names.now)
            self.old.list.items rows.now true) }
        ensures first { self.new.first ≡ self.old.first }
    {
        let mut value = self.row(literals, names, &rows[0])?;
        for place in 1..rows.len() {
            value = self.or_row(value, literals, names, &rows[place])?;
        }
        Ok(value)
    }

    /// Adds a cover, and gives the literal that stands for it.
    fn cover(
        &mut self,
        literals: &[Lit],
        names: &[u32],
        rows: &[Items<Trit>],
        on: bool,
    ) -> Result<Lit, AllocError>
        requires there { All (λ s. s < length literals.now) names.now }
        requires wide { All (λ row. length row ≡ length names.now) rows.now }
        requires room { self.old.first
            + length (cover_made self.old.first (map (stand_in literals.now) names.now)
            self.old.list.items rows.now on).gates < 2 ^ 31 }
        ensures made { IfOk result
            (λ p. made self.new.list.items p
            ≡ cover_made self.old.first (map (stand_in literals.now) names.now)
            self.old.list.items rows.now on) }
        ensures first { self.new.first ≡ self.old.first }
    {
        if rows.is_empty() {
            return Ok(FALSE);
        }
        let value = self.rows(literals, names, rows)?;
        if on { Ok(value) } else { Ok(value.inverse()) }
    }

    /// Adds a definition, and gives the literal that stands for it.
    fn definition(&mut self, literals: &[Lit], def: &Def) -> Result<Lit, AllocError>
        requires there { All (λ s. s < length literals.now) (named_by def.now) }
        requires wide { HasWideRows def.now }
        requires room { self.old.first
            + length (def_made self.old.first literals.now self.old.list.items def.now).gates < 2 ^ 31 }
        ensures made { IfOk result
            (λ p. made self.new.list.items p
            ≡ def_made self.old.first literals.now self.old.list.items def.now) }
        ensures first { self.new.first ≡ self.old.first }
    {
        match def {
            Def::And { a, b } => self.and(stand_in(literals, *a), stand_in(literals, *b)),
            Def::Cover { names, rows, on } => self.cover(literals, names, rows, *on),
        }
    }
}

/// The literal that stands for a literal of the netlist.
fn stand_in(literals: &[Lit], literal: Lit) -> Lit
    requires { signal_of literal < length literals.now }
    ensures { result ≡ stands_for literals.now literal }
{
    let signal = literals[literal.signal() as usize];
    if literal.is_negated() {
        signal.inverse()
    } else {
        signal
    }
}

/// A graph that is being made: its gates so far, and the literal that stands for each signal of the
/// netlist.
#[derive(Drop)]
struct Expansion {
    gates: Gates,
    literals: Vec<Lit>,
}

impl Expansion {
    /// Takes a definition of the netlist.
    fn take(&mut self, net: &PlainNet, position: usize) -> Result<(), AllocError>
        requires there { position < length net.now.defs }
        requires first { self.old.gates.first ≡ 1 + net.now.inputs }
        requires entries { vec_len self.old.literals ≡ signals_in net.now }
        requires room { self.old.gates.first
            + length (with_def net.now
            (record { gates = self.old.gates.list.items; literals = self.old.literals.items })
            position).gates < 2 ^ 31 }
        ensures made { IfOk result
            (λ _. record { gates = self.new.gates.list.items; literals = self.new.literals.items }
            ≡ with_def net.now
            (record { gates = self.old.gates.list.items; literals = self.old.literals.items })
            position) }
        ensures first { self.new.gates.first ≡ self.old.gates.first }
        ensures entries { vec_len self.new.literals ≡ vec_len self.old.literals }
    {
        let signal = net.inputs() as usize + 1 + position;
        let value = self.gates.definition(&self.literals, net.def_at(position))?;
        self.literals[signal] = value;
        Ok(())
    }
}

/// Literals that stand for themselves: those of the first n signals.
fn own_literals(alloc: Global, signals: u32) -> Result<Vec<Lit>, AllocError>
    requires { signals < 2 ^ 31 }
    ensures { IfOk result (λ literals. literals.items ≡ map plain_literal (range_with_len 0 signals)) }
{
    let mut literals = Vec::with_capacity(alloc, signals as usize)?;
    for signal in 0..signals {
        literals.push(Lit(2 * signal))?;
    }
    Ok(literals)
}

/// The graph that the definitions make, taken in the order given.
pub(crate) fn expand(alloc: Global, net: &PlainNet, order: &[u32]) -> Result<Graph, AllocError>
    requires order { IsLevelOrder net.now order.now }
    requires acyclic { IsAcyclic net.now }
    requires few { gates_in net.now ≤ most_gates }
    ensures graph { IfOk result (λ graph. IsOrderOf net.now graph) }
    ensures sound { IfOk result IsGraph }
    ensures plain { IfOk result (λ _. IsPlainNet net.now) }
{
    let inputs = net.inputs();
    let Expansion { gates, literals } = take_all(alloc, net, order)?;
    let outputs = stand_ins(alloc, net.outputs(), &literals)?;
    Ok(Graph::in_order(inputs, gates.list, outputs))
}

/// Takes all definitions in the order given.
fn take_all(alloc: Global, net: &PlainNet, order: &[u32]) -> Result<Expansion, AllocError>
    requires there { All (λ d. d < length net.now.defs) order.now }
    requires room { 1 + net.now.inputs + length (with_defs net.now (no_gates net.now) order.now).gates < 2 ^ 31 }
    ensures { IfOk result
        (λ all. record { gates = all.gates.list.items; literals = all.literals.items }
        ≡ with_defs net.now (no_gates net.now) order.now) }
{
    let first = net.inputs() + 1;
    let mut expansion = Expansion {
        gates: Gates {
            first,
            list: Vec::new(alloc),
        },
        literals: own_literals(alloc, first + net.defs().len() as u32)?,
    };
    for position in order.iter() {
        expansion.take(net, *position as usize)?;
    }
    Ok(expansion)
}

/// The literals that stand for the outputs.
fn stand_ins(alloc: Global, outputs: &[Lit], literals: &[Lit]) -> Result<Vec<Lit>, AllocError>
    requires { All (λ output. signal_of output < length literals.now) outputs.now }
    ensures { IfOk result (λ all. all.items ≡ map (stands_for literals.now) outputs.now) }
{
    let mut all = Vec::with_capacity(alloc, outputs.len())?;
    for output in outputs.iter() {
        all.push(stand_in(literals, *output))?;
    }
    Ok(all)
}
