//! Two circuits whose outputs are evaluated, each by the gates that it reaches.

ghost use Rattle.std.specs.Prelude.{◌≡◌, ◌<◌, IfOk, OnOk, length, slice_index_or};
ghost use Rattle.circuits.specs.Netlists.{signals_of};
ghost use Rattle.net_core.specs.Sides.{graph_of};
ghost use Rattle.claim_core.specs.Claims.{output_bit};
ghost use Rattle.word_sim.specs.declared.tri.Tri.TheVariants.{X};
ghost use Rattle.word_sim.specs.ThreeValues.{tri_outputs};
ghost use Rattle.ban_check.specs.Cones.{AreCones, IsConeOf};

use crate::cone_values::cone_value;
use crate::cones::{Cones, cone_kept, look_for_cone, no_cones};
use net_core::{Graph, Graphs, Side, lit_value};
use std::alloc::{AllocError, Global};
use std::marker::Model;
use word_sim::{Tri, tri_output};

/// Two circuits, of whose outputs one after the other is evaluated. The cones of outputs are kept, since most are asked
/// for again; what they list and the room for values is in proportion to the circuits. Contracts see the two circuits.
pub struct Evaluator<'a> {
    graphs: &'a Graphs<'a>,
    first: OutputValues<'a>,
    second: OutputValues<'a>,
}

impl<'a> Model for Evaluator<'a> {
    ghost use Rattle.net_core.specs.Sides.{Graphs as TwoNets};
    ghost use Rattle.ban_check.specs.Cones.{AreSidesOf};

    ghost Value = { TwoNets };

    ghost view = { λ a. a.graphs.now };

    ghost invariant = { λ a. AreSidesOf a.graphs.now a.first a.second };
}

// By hand, so that each exit of a function has one call for it (docs/IDIOMS.md).
impl Drop for Evaluator<'_> {
    fn drop(self) {
        let Evaluator {
            graphs: _graphs,
            first: _first,
            second: _second,
        } = self;
    }
}

impl<'a> Evaluator<'a> {
    /// No output was evaluated. It takes no memory.
    pub fn new(alloc: Global, graphs: &'a Graphs<'a>) -> Evaluator<'a>
        ensures { result ≡ graphs.now }
    {
        Evaluator {
            graphs,
            first: OutputValues::new(alloc, graphs.first()),
            second: OutputValues::new(alloc, graphs.second()),
        }
    }

    /// The two circuits.
    pub fn graphs(&self) -> &'a Graphs<'a>
        ensures { result.now ≡ self.now }
    {
        self.graphs
    }

    /// An output's bit on a vector.
    pub(crate) fn bit(
        &mut self,
        alloc: Global,
        side: Side,
        output: u32,
        vector: &[bool],
    ) -> Result<bool, AllocError>
        requires output { output < length (graph_of self.old side).outputs }
        requires vector { length vector.now ≡ (graph_of self.old side).inputs }
        ensures same { self.new ≡ self.old }
        ensures bit { IfOk result (λ bit. bit ≡ output_bit (graph_of self.old side) output vector.now) }
    {
        match side {
            Side::First => self.first.bit(alloc, output, vector),
            Side::Second => self.second.bit(alloc, output, vector),
        }
    }

    /// An output's value where the inputs have these values.
    pub(crate) fn tri(
        &mut self,
        alloc: Global,
        side: Side,
        output: u32,
        inputs: &[Tri],
    ) -> Result<Tri, AllocError>
        requires output { output < length (graph_of self.old side).outputs }
        requires inputs { length inputs.now ≡ (graph_of self.old side).inputs }
        ensures same { self.new ≡ self.old }
        ensures value { IfOk result (λ value. value
            ≡ slice_index_or (tri_outputs (graph_of self.old side) inputs.now) output X) }
    {
        match side {
            Side::First => self.first.tri(alloc, output, inputs),
            Side::Second => self.second.tri(alloc, output, inputs),
        }
    }
}

/// A circuit, with the cones of some of its outputs, and room for the value of each signal. Contracts see the circuit.
struct OutputValues<'a> {
    graph: &'a Graph,
    cones: Cones,
    bits: Vec<bool>,
    tris: Vec<Tri>,
}

impl<'a> Model for OutputValues<'a> {
    ghost use Rattle.circuits.specs.Netlists.{Net};
    ghost use Rattle.ban_check.specs.Cones.{AreCones};

    ghost Value = { Net };

    ghost view = { λ a. a.graph.now };

    ghost invariant = { λ a. AreCones a.graph.now a.cones.by_output.entries };
}

// By hand, so that each exit of a function has one call for it (docs/IDIOMS.md).
impl Drop for OutputValues<'_> {
    fn drop(self) {
        let OutputValues {
            graph: _graph,
            cones: _cones,
            bits: _bits,
            tris: _tris,
        } = self;
    }
}

impl<'a> OutputValues<'a> {
    fn new(alloc: Global, graph: &'a Graph) -> OutputValues<'a>
        ensures { result ≡ graph.now }
    {
        OutputValues {
            graph,
            cones: no_cones(alloc),
            bits: Vec::new(alloc),
            tris: Vec::new(alloc),
        }
    }

    // An output's bit on a vector.
    fn bit(&mut self, alloc: Global, output: u32, vector: &[bool]) -> Result<bool, AllocError>
        requires output { output < length self.old.outputs }
        requires vector { length vector.now ≡ self.old.inputs }
        ensures same { self.new ≡ self.old }
        ensures bit { IfOk result (λ bit. bit ≡ output_bit self.old output vector.now) }
    {
        let graph = self.graph;
        look_for_cone(alloc, graph, output, &mut self.cones)?;
        make_room(alloc, graph.signals(), false, &mut self.bits)?;
        Ok(bit_by(graph, &self.cones, output, vector, &mut self.bits))
    }

    // An output's value where the inputs have these values.
    fn tri(&mut self, alloc: Global, output: u32, inputs: &[Tri]) -> Result<Tri, AllocError>
        requires output { output < length self.old.outputs }
        requires inputs { length inputs.now ≡ self.old.inputs }
        ensures same { self.new ≡ self.old }
        ensures value { IfOk result (λ value. value ≡ slice_index_or (tri_outputs self.old inputs.now) output X) }
    {
        let graph = self.graph;
        look_for_cone(alloc, graph, output, &mut self.cones)?;
        make_room(alloc, graph.signals(), Tri::X, &mut self.tris)?;
        tri_by(alloc, graph, &self.cones, output, inputs, &mut self.tris)
    }
}

// Room for this many values.
fn make_room<V: Copy>(
    alloc: Global,
    count: usize,
    value: V,
    values: &mut Vec<V>,
) -> Result<(), AllocError>
    ensures { OnOk result (length values.new.items ≡ count) }
{
    if values.len() == count {
        return Ok(());
    }
    *values = vec![in alloc; value; count]?;
    Ok(())
}

// The bit of an output on a vector, by its cone where that is kept, else by all gates.
fn bit_by(
    graph: &Graph,
    cones: &Cones,
    output: u32,
    vector: &[bool],
    values: &mut Vec<bool>,
) -> bool
    requires cones { AreCones graph.now cones.now.by_output.entries }
    requires output { output < length graph.now.outputs }
    requires vector { length vector.now ≡ graph.now.inputs }
    requires room { length values.old.items ≡ signals_of graph.now }
    ensures { result ≡ output_bit graph.now output vector.now }
{
    match cone_kept(cones, output) {
        Some(cone) => cone_bit(
            graph,
            output,
            cone.as_slice(),
            vector,
            values.as_mut_slice(),
        ),
        None => whole_bit(graph, output, vector, values.as_mut_slice()),
    }
}

// The value of an output where the inputs have these values, by its cone where that is kept, else by all gates.
fn tri_by(
    alloc: Global,
    graph: &Graph,
    cones: &Cones,
    output: u32,
    inputs: &[Tri],
    values: &mut Vec<Tri>,
) -> Result<Tri, AllocError>
    requires cones { AreCones graph.now cones.now.by_output.entries }
    requires output { output < length graph.now.outputs }
    requires inputs { length inputs.now ≡ graph.now.inputs }
    requires room { length values.old.items ≡ signals_of graph.now }
    ensures { IfOk result (λ value. value ≡ slice_index_or (tri_outputs graph.now inputs.now) output X) }
{
    match cone_kept(cones, output) {
        Some(cone) => {
            let slice = values.as_mut_slice();
            Ok(cone_tri(graph, output, cone.as_slice(), inputs, slice))
        }
        None => tri_output(alloc, graph, inputs, output),
    }
}

// The bit of an output on a vector, by its cone.
fn cone_bit(graph: &Graph, output: u32, cone: &[u32], vector: &[bool], values: &mut [bool]) -> bool
    requires output { output < length graph.now.outputs }
    requires cone { IsConeOf graph.now output cone.now }
    requires vector { length vector.now ≡ graph.now.inputs }
    requires room { length values.old ≡ signals_of graph.now }
    ensures { result ≡ output_bit graph.now output vector.now }
{
    cone_value(graph, output, cone, false, vector, values)
}

// The bit of an output on a vector, by all gates.
fn whole_bit(graph: &Graph, output: u32, vector: &[bool], values: &mut [bool]) -> bool
    requires output { output < length graph.now.outputs }
    requires vector { length vector.now ≡ graph.now.inputs }
    requires room { length values.old ≡ signals_of graph.now }
    ensures { result ≡ output_bit graph.now output vector.now }
{
    graph.eval_into(vector, values);
    lit_value(values, graph.outputs()[output as usize])
}

// The value of an output where the inputs have these values, by its cone.
fn cone_tri(graph: &Graph, output: u32, cone: &[u32], inputs: &[Tri], values: &mut [Tri]) -> Tri
    requires output { output < length graph.now.outputs }
    requires cone { IsConeOf graph.now output cone.now }
    requires inputs { length inputs.now ≡ graph.now.inputs }
    requires room { length values.old ≡ signals_of graph.now }
    ensures { result ≡ slice_index_or (tri_outputs graph.now inputs.now) output X }
{
    cone_value(graph, output, cone, Tri::Zero, inputs, values)
}
