//! The definitions of this crate as programs: slow and obvious, for circuits of a few ports. Each contract
//! is the definition itself, so that what a test computes here is what the definition says.

ghost use Rattle.std.specs.Prelude.{◌≡◌, ◌≢◌, ◌<◌, ◌≤◌, ◌+◌, ◌↔◌, All, AllPairs, Any, IfOk, IsTrue, OnOk, length, map};
ghost use Rattle.std.specs.Prelude.{vec_len};
ghost use Rattle.circuits.specs.Literals.{EachAt, signal_of, literal_bit, vector_of};
ghost use Rattle.circuits.specs.Netlists.{IsOrdered, Fits, gate_bit, with_gates, valuation_of, function_of};
ghost use Rattle.circuits.specs.Bijections.{IsSignedBijection, moved, entries_of};
ghost use Rattle.circuits.specs.Functions.{as_circuit};
ghost use Rattle.circuits.specs.Matches.{OutputsAgree, HavePorts, AgreeOn, AgreeOnAll, IsMatch, IsMatchOfFunctions};
ghost use Rattle.circuits.specs.Matches.{IsPartOfMatch, AreNpnpEqual, HaveNpnpEqualFunctions};

use crate::netlist::{Gate, Lit, Netlist};
use std::alloc::{AllocError, Global};

/// Writes the vector that a number codes: bit i is digit i of the number in base two.
pub fn write_vector(code: u32, out: &mut [bool])
    ensures { out.new ≡ vector_of (length out.old) code }
{
    let mut rest = code;
    for bit in out.iter_mut() {
        *bit = rest % 2 == 1;
        rest /= 2;
    }
}

/// The literal's bit, where each signal has the bit given.
pub fn literal_bit(values: &[bool], literal: Lit) -> bool
    requires { signal_of literal < length values.now }
    ensures { result ≡ literal_bit values.now literal }
{
    values[literal.signal() as usize] != literal.is_negated()
}

/// The gate's bit: the AND of its two literals.
pub fn gate_bit(values: &[bool], gate: Gate) -> bool
    requires first_operand { signal_of gate.a < length values.now }
    requires second_operand { signal_of gate.b < length values.now }
    ensures { result ≡ gate_bit values.now gate }
{
    literal_bit(values, gate.a) & literal_bit(values, gate.b)
}

/// Each signal's bit under a vector of the inputs, the constant first.
pub fn valuation(alloc: Global, net: &Netlist, vector: &[bool]) -> Result<Vec<bool>, AllocError>
    requires ordered { IsOrdered net.now }
    requires inputs { length vector.now ≡ net.now.inputs }
    ensures value { IfOk result (λ values. values.items ≡ valuation_of net.now vector.now) }
    ensures fits { IfOk result (λ values. Fits net.now vector.now values.items) }
{
    let mut values = Vec::new(alloc);
    values.push(false)?;
    values.extend_from_slice(vector)?;
    add_gates(&mut values, net.gates())?;
    Ok(values)
}

/// Adds the bit of each gate to the bits of the signals before it.
fn add_gates(values: &mut Vec<bool>, gates: &[Gate]) -> Result<(), AllocError>
    requires first_operands { EachAt (λ t gate. signal_of gate.a < vec_len values.old + t) gates.now }
    requires second_operands { EachAt (λ t gate. signal_of gate.b < vec_len values.old + t) gates.now }
    ensures { OnOk result (values.new.items ≡ with_gates values.old.items gates.now) }
{
    for gate in gates {
        let bit = gate_bit(values.as_slice(), *gate);
        values.push(bit)?;
    }
    Ok(())
}

/// Each output's bit under a vector of the inputs.
pub fn outputs(alloc: Global, net: &Netlist, vector: &[bool]) -> Result<Vec<bool>, AllocError>
    requires ordered { IsOrdered net.now }
    requires inputs { length vector.now ≡ net.now.inputs }
    ensures { IfOk result (λ bits. bits.items ≡ function_of net.now vector.now) }
{
    let values = valuation(alloc, net, vector)?;
    literal_bits(alloc, values.as_slice(), net.outputs())
}

/// Each literal's bit.
fn literal_bits(alloc: Global, values: &[bool], literals: &[Lit]) -> Result<Vec<bool>, AllocError>
    requires { All (λ literal. signal_of literal < length values.now) literals.now }
    ensures { IfOk result (λ bits. bits.items ≡ map (literal_bit values.now) literals.now) }
{
    let mut bits = Vec::new(alloc);
    for literal in literals {
        bits.push(literal_bit(values, *literal))?;
    }
    Ok(bits)
}

/// Whether the entries are a signed bijection of n ports: one entry for each port, each to a place below n,
/// and no two to the same.
pub fn is_signed_bijection(entries: &[(u32, bool)], n: u32) -> bool
    ensures { IsTrue result ↔ IsSignedBijection n entries.now }
{
    is_bijection_of(entries, n as usize)
}

fn is_bijection_of(entries: &[(u32, bool)], n: usize) -> bool
    ensures { IsTrue result ↔ IsSignedBijection n entries.now }
{
    if entries.len() != n {
        return false;
    }
    places_are_below(entries, n) & places_are_distinct(entries)
}

fn places_are_below(entries: &[(u32, bool)], n: usize) -> bool
    ensures { IsTrue result ↔ All (λ entry. entry.0 < n) entries.now }
{
    entries.iter().all(|entry| (entry.0 as usize) < n)
}

fn goes_to(entries: &[(u32, bool)], place: u32) -> bool
    ensures { IsTrue result ↔ Any (λ entry. entry.0 ≡ place) entries.now }
{
    entries.iter().any(|entry| entry.0 == place)
}

fn places_are_distinct(entries: &[(u32, bool)]) -> bool
    ensures { IsTrue result ↔ AllPairs (λ one other. one.0 ≢ other.0) entries.now }
{
    for (i, entry) in entries.iter().enumerate() {
        if goes_to(&entries[..i], entry.0) {
            return false;
        }
    }
    true
}

/// The vector moved by a signed bijection of its places.
pub fn move_vector(
    alloc: Global,
    entries: &[(u32, bool)],
    vector: &[bool],
) -> Result<Vec<bool>, AllocError>
    requires { IsSignedBijection (length vector.now) entries.now }
    ensures { IfOk result (λ bits. bits.items ≡ moved entries.now vector.now) }
{
    let mut bits = Vec::from_slice(alloc, vector)?;
    for (i, entry) in entries.iter().enumerate() {
        bits[entry.0 as usize] = vector[i] != entry.1;
    }
    Ok(bits)
}

/// Whether p of the inputs and q of the outputs are a match of two netlists: they are signed bijections, the
/// netlists have the same numbers of inputs and outputs, and all outputs agree on every vector. It tries all
/// vectors, so the inputs are at most 16.
pub fn is_match(
    alloc: Global,
    first: &Netlist,
    second: &Netlist,
    p: &[(u32, bool)],
    q: &[(u32, bool)],
) -> Result<bool, AllocError>
    requires first_ordered { IsOrdered first.now }
    requires second_ordered { IsOrdered second.now }
    requires few_inputs { first.now.inputs ≤ 16 }
    ensures { IfOk result
        (λ matches. IsTrue matches
        ↔ IsMatch (as_circuit first.now) (as_circuit second.now) p.now q.now) }
{
    is_match_of_functions(alloc, first, second, p, q)
}

/// Whether p and q are a match of the functions of two netlists.
fn is_match_of_functions(
    alloc: Global,
    first: &Netlist,
    second: &Netlist,
    p: &[(u32, bool)],
    q: &[(u32, bool)],
) -> Result<bool, AllocError>
    requires first_ordered { IsOrdered first.now }
    requires second_ordered { IsOrdered second.now }
    requires few_inputs { first.now.inputs ≤ 16 }
    ensures { IfOk result
        (λ matches. IsTrue matches ↔ IsMatchOfFunctions first.now second.now p.now q.now) }
{
    if !have_ports(first, second, p, q) {
        return Ok(false);
    }
    agree_on_all(alloc, first, second, p, q)
}

/// Whether the netlists have the same numbers of ports, and p and q are signed bijections of them.
fn have_ports(first: &Netlist, second: &Netlist, p: &[(u32, bool)], q: &[(u32, bool)]) -> bool
    ensures { IsTrue result ↔ HavePorts first.now second.now p.now q.now }
{
    let inputs = first.inputs();
    let outputs = first.outputs().len();
    if second.inputs() != inputs {
        return false;
    }
    if second.outputs().len() != outputs {
        return false;
    }
    is_bijection_of(p, inputs as usize) & is_bijection_of(q, outputs)
}

/// Whether the outputs agree on every vector.
fn agree_on_all(
    alloc: Global,
    first: &Netlist,
    second: &Netlist,
    p: &[(u32, bool)],
    q: &[(u32, bool)],
) -> Result<bool, AllocError>
    requires first_ordered { IsOrdered first.now }
    requires second_ordered { IsOrdered second.now }
    requires few_inputs { first.now.inputs ≤ 16 }
    requires ports { HavePorts first.now second.now p.now q.now }
    ensures { IfOk result (λ agree. IsTrue agree ↔ AgreeOnAll first.now second.now p.now q.now) }
{
    let inputs = first.inputs();
    let mut vector = vec![in alloc; false; inputs as usize]?;
    for code in 0..1u32 << inputs {
        write_vector(code, vector.as_mut_slice());
        if !agree_on(alloc, first, second, p, q, vector.as_slice())? {
            return Ok(false);
        }
    }
    Ok(true)
}

/// Whether the outputs agree on one vector.
fn agree_on(
    alloc: Global,
    first: &Netlist,
    second: &Netlist,
    p: &[(u32, bool)],
    q: &[(u32, bool)],
    vector: &[bool],
) -> Result<bool, AllocError>
    requires first_ordered { IsOrdered first.now }
    requires second_ordered { IsOrdered second.now }
    requires ports { HavePorts first.now second.now p.now q.now }
    requires inputs { length vector.now ≡ first.now.inputs }
    ensures { IfOk result (λ agree. IsTrue agree ↔ AgreeOn first.now second.now p.now q.now vector.now) }
{
    let other_vector = move_vector(alloc, p, vector)?;
    let bits = outputs(alloc, first, vector)?;
    let other_bits = outputs(alloc, second, other_vector.as_slice())?;
    Ok(outputs_agree(q, bits.as_slice(), other_bits.as_slice()))
}

/// Whether each output of the first has the bit of the output that it goes to, inverted where its sign
/// says so.
fn outputs_agree(q: &[(u32, bool)], first: &[bool], second: &[bool]) -> bool
    requires entries { length first.now ≡ length q.now }
    requires places { All (λ entry. entry.0 < length second.now) q.now }
    ensures { IsTrue result ↔ OutputsAgree q.now first.now second.now }
{
    for (k, entry) in q.iter().enumerate() {
        if first[k] != (second[entry.0 as usize] != entry.1) {
            return false;
        }
    }
    true
}

/// Whether some signed bijections of the ports are a match of two netlists. It tries all lists of entries, so
/// there are at most 7 inputs and 7 outputs.
pub fn are_npnp_equal(alloc: Global, first: &Netlist, second: &Netlist) -> Result<bool, AllocError>
    requires first_ordered { IsOrdered first.now }
    requires second_ordered { IsOrdered second.now }
    requires few_inputs { first.now.inputs ≤ 7 }
    requires few_outputs { length first.now.outputs ≤ 7 }
    ensures { IfOk result
        (λ equal. IsTrue equal ↔ AreNpnpEqual (as_circuit first.now) (as_circuit second.now)) }
{
    have_npnp_equal_functions(alloc, first, second)
}

/// Whether some signed bijections of the ports are a match of the functions of two netlists.
fn have_npnp_equal_functions(
    alloc: Global,
    first: &Netlist,
    second: &Netlist,
) -> Result<bool, AllocError>
    requires first_ordered { IsOrdered first.now }
    requires second_ordered { IsOrdered second.now }
    requires few_inputs { first.now.inputs ≤ 7 }
    requires few_outputs { length first.now.outputs ≤ 7 }
    ensures { IfOk result (λ equal. IsTrue equal ↔ HaveNpnpEqualFunctions first.now second.now) }
{
    let inputs = first.inputs();
    for code in 0..1u32 << (4 * inputs) {
        let p = entries(alloc, inputs, code)?;
        if is_part_of_match(alloc, first, second, p.as_slice())? {
            return Ok(true);
        }
    }
    Ok(false)
}

/// Whether some signed bijection of the outputs makes a match of the functions with p.
fn is_part_of_match(
    alloc: Global,
    first: &Netlist,
    second: &Netlist,
    p: &[(u32, bool)],
) -> Result<bool, AllocError>
    requires first_ordered { IsOrdered first.now }
    requires second_ordered { IsOrdered second.now }
    requires few_inputs { first.now.inputs ≤ 7 }
    requires few_outputs { length first.now.outputs ≤ 7 }
    ensures { IfOk result (λ found. IsTrue found ↔ IsPartOfMatch first.now second.now p.now) }
{
    if !is_signed_bijection(p, first.inputs()) {
        return Ok(false);
    }
    let outputs = first.outputs().len() as u32;
    for code in 0..1u32 << (4 * outputs) {
        let q = entries(alloc, outputs, code)?;
        if is_match_of_functions(alloc, first, second, p, q.as_slice())? {
            return Ok(true);
        }
    }
    Ok(false)
}

/// The list of n entries that a number codes.
fn entries(alloc: Global, n: u32, code: u32) -> Result<Vec<(u32, bool)>, AllocError>
    ensures { IfOk result (λ entries. entries.items ≡ entries_of n code) }
{
    // A digit in base sixteen is a place below 8 and a sign, so seven of them fit the code's 32 bits.
    let mut entries = Vec::new(alloc);
    let mut rest = code;
    for i in 0..n {
        entries.push((rest % 16 / 2, rest % 2 == 1))?;
        rest /= 16;
    }
    Ok(entries)
}
