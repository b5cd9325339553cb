//! Circuits for which a matching is guessed.

ghost use Rattle.std.specs.Prelude.{◌≡◌, ◌<◌};

use crate::sample_circuits::{AND, OR, Sample, XOR, moved_pair, pair};
use account_core::PairableGraphs;
use match_guess::{Effort, Guesser};
use net_core::{Graphs, Matching};
use port_cells::Draws;
use samples::output_on;
use sim_patterns::Trials;
use std::alloc::{AllocError, Global};
use std::test::Fail;

/// What is guessed of two small circuits.
fn guessed(alloc: Global, graphs: &Graphs<'_>, seed: u64) -> Result<Option<Matching>, AllocError> {
    match PairableGraphs::new(graphs) {
        Some(graphs) => Guesser::new(alloc, &graphs, seed)?.guess(alloc, &graphs, Effort::Whole),
        None => Ok(None),
    }
}

/// Whether a matching, where there is one, inverts an output.
fn inverts(table: &Option<Matching>) -> Option<bool> {
    match table {
        Some(table) => Some(table.outputs.iter().any(|entry| entry.1)),
        None => None,
    }
}

fn guess_inverts(alloc: Global, first: Sample, second: Sample) -> Result<Option<bool>, Fail> {
    let both = pair(alloc, first, second)?;
    let graphs = both.graphs();
    let table = guessed(alloc, &graphs, 1)?;
    Ok(inverts(&table))
}

/// A circuit beside an AND, and whether the matching that is guessed inverts the output.
static GUESSED: [(Sample, Option<bool>); 2] = [(OR, Some(true)), (XOR, None)];

#[test]
fn guesses_an_and_as_an_or_alone(rt: HostRuntime) -> Result<(), Fail> {
    for (second, inverts) in GUESSED.iter() {
        assert_eq!(rt; guess_inverts(rt.alloc(), AND, *second)?, *inverts);
    }
    Ok(())
}

/// The number of the vector that a matching makes of a vector of three inputs.
fn moved_code(table: &Matching, code: u32) -> u32 {
    let mut moved = 0u32;
    for (input, entry) in table.inputs.iter().enumerate() {
        let bit = (code >> (input % 32)) % 2;
        moved |= (bit ^ entry.1 as u32) << (entry.0 % 32);
    }
    moved
}

/// Whether a matching of circuits of three inputs and one output is right on all vectors.
fn is_right(alloc: Global, graphs: &Graphs<'_>, table: &Matching) -> Result<bool, Fail> {
    let sign = table.outputs.iter().any(|entry| entry.1);
    for code in 0..8u32 {
        let first = output_on(alloc, graphs.first(), code)?;
        let second = output_on(alloc, graphs.second(), moved_code(table, code))?;
        if (first != second) != sign {
            return Ok(false);
        }
    }
    Ok(true)
}

/// Whether a match is guessed of a drawn circuit and of what a drawn matching makes of it.
fn finds_moved(alloc: Global, number: u64) -> Result<bool, Fail> {
    let both = moved_pair(alloc, number)?;
    let graphs = both.graphs();
    match guessed(alloc, &graphs, number)? {
        Some(table) => is_right(alloc, &graphs, &table),
        None => Ok(false),
    }
}

#[test]
fn finds_what_a_table_moved(rt: HostRuntime) -> Result<(), Fail> {
    for number in 0..24u64 {
        assert_eq!(rt; (number, finds_moved(rt.alloc(), number)?), (number, true));
    }
    Ok(())
}

/// Whether something is guessed of drawn circuits by either of two seeds.
fn by_two_seeds(alloc: Global, number: u64) -> Result<(bool, bool), Fail> {
    let both = moved_pair(alloc, number)?;
    let graphs = both.graphs();
    let one = guessed(alloc, &graphs, 1)?.is_some();
    let other = guessed(alloc, &graphs, 2)?.is_some();
    Ok((one, other))
}

#[test]
fn two_seeds_draw_other_words_and_find_the_same(rt: HostRuntime) -> Result<(), Fail> {
    assert!(rt; Draws::new(1).word() != Draws::new(2).word());
    for number in 0..8u64 {
        assert_eq!(rt; by_two_seeds(rt.alloc(), number)?, (true, true));
    }
    Ok(())
}
