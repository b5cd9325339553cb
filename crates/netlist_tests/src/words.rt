//! A multiplexer and a parity, worked out by hand, and an exclusive or on as many words as fill blocks of eight or
//! don't.

use net_core::Graph;
use rand_core::Rng;
use rand_pcg::Lcg64Xsh32;
use samples::{SampleFault, graph};
use std::alloc::{AllocError, Global};
use std::simd::prelude::*;
use std::test::Fail;
use word_sim::Tri::{One, X, Zero};
use word_sim::{Rails, Tri, Words, and_lanes, rails_eval, simulate, tri_eval};

/// Of inputs a, b and s: `if s { a } else { b }`, the parity of a and b, and the constant 1.
fn sample(alloc: Global) -> Result<Graph, SampleFault> {
    let gates = [(2, 6), (4, 7), (9, 11), (2, 5), (3, 4), (15, 17)];
    graph(alloc, 3, gates.as_slice(), &[13, 19, 1])
}

// Writes a row of three columns at a word. Whether the table has room for it.
fn write_row(row: &[u64; 3], word: usize, words: &mut Words) -> bool {
    for column in 0..3u32 {
        if word >= words.words() || column as usize >= words.columns() {
            return false;
        }
        words.set(column, word, row[column as usize]);
    }
    true
}

// Writes the rows of three columns, a row for each word. Whether the table has room for them.
fn write_rows(rows: &[[u64; 3]], words: &mut Words) -> bool {
    for (word, row) in rows.iter().enumerate() {
        if !write_row(row, word, words) {
            return false;
        }
    }
    true
}

/// The words of a row.
fn row(words: &Words, word: usize) -> Option<[u64; 3]> {
    if words.columns() != 3 || word >= words.words() {
        return None;
    }
    Some([words.get(0, word), words.get(1, word), words.get(2, word)])
}

fn has_rows(words: &Words, rows: &[[u64; 3]]) -> bool {
    for (word, expected) in rows.iter().enumerate() {
        if row(words, word) != Some(*expected) {
            return false;
        }
    }
    words.words() == rows.len()
}

// Whether the rows of the outputs are these where those of the inputs are these.
fn simulates_to(
    alloc: Global,
    circuit: &Graph,
    inputs: &Words,
    outputs: &[[u64; 3]],
) -> Result<bool, AllocError> {
    if inputs.columns() != circuit.inputs() as usize {
        return Ok(false);
    }
    let found = simulate(alloc, circuit, inputs)?;
    Ok(has_rows(&found, outputs))
}

#[test]
fn simulates_words(rt: HostRuntime) -> Result<(), Fail> {
    let circuit = sample(rt.alloc())?;
    let (a, b, s) = (0xaaaa, 0xcccc, 0xf0f0_0000_0000_f0f0);
    let mut words = Words::new(rt.alloc(), 3, 3)?;
    let inputs = [[0, 0, 0], [a, b, s], [u64::MAX, 0, u64::MAX]];
    let has_room = write_rows(inputs.as_slice(), &mut words);
    let outputs = [
        [0, 0, u64::MAX],
        [0xacac, 0x6666, u64::MAX],
        [u64::MAX, u64::MAX, u64::MAX],
    ];
    let are_outputs = simulates_to(rt.alloc(), &circuit, &words, outputs.as_slice())?;
    assert_eq!(rt; (has_room, are_outputs), (true, true));
    Ok(())
}

/// The exclusive or of two inputs.
fn exclusive_or(alloc: Global) -> Result<Graph, SampleFault> {
    let gates = [(2, 5), (3, 4), (7, 9)];
    graph(alloc, 2, gates.as_slice(), &[11])
}

// Gives each word of two columns another value.
fn draw(words: &mut Words) {
    let mut generator = Lcg64Xsh32::new(3, 54);
    for word in 0..words.words() {
        if words.columns() == 2 && word < words.words() {
            words.set(0, word, generator.next_u64());
            words.set(1, word, generator.next_u64());
        }
    }
}

// Whether each word of the only output is the exclusive or of the two inputs' words.
fn are_exclusive_ors(inputs: &Words, outputs: &Words) -> bool {
    if inputs.columns() != 2 || outputs.columns() != 1 || outputs.words() != inputs.words() {
        return false;
    }
    for word in 0..inputs.words() {
        if inputs.get(0, word) ^ inputs.get(1, word) != outputs.get(0, word) {
            return false;
        }
    }
    true
}

// Whether the outputs of an exclusive or are right on drawn words.
fn simulates_exclusive_or(
    alloc: Global,
    circuit: &Graph,
    words: usize,
) -> Result<bool, AllocError> {
    let mut inputs = Words::new(alloc, 2, words)?;
    draw(&mut inputs);
    if inputs.columns() != circuit.inputs() as usize {
        return Ok(false);
    }
    let outputs = simulate(alloc, circuit, &inputs)?;
    Ok(are_exclusive_ors(&inputs, &outputs))
}

// No word, less than a block, a block, and one or two with a rest.
static COUNTS: [usize; 6] = [0, 1, 7, 8, 9, 17];

#[test]
fn simulates_blocks_and_the_rest(rt: HostRuntime) -> Result<(), Fail> {
    let circuit = exclusive_or(rt.alloc())?;
    for words in COUNTS.iter() {
        assert!(rt;
            simulates_exclusive_or(rt.alloc(), &circuit, *words)?,
            "at {words}"
        );
    }
    Ok(())
}

#[test]
fn ands_each_lane(rt: HostRuntime) -> Result<(), Fail> {
    let places = u64x8::from_array([0, 1, 2, 3, 4, 5, 6, 7]);
    let inverted = [
        18_446_744_073_709_551_615,
        18_446_744_073_709_551_614,
        18_446_744_073_709_551_613,
        18_446_744_073_709_551_612,
        18_446_744_073_709_551_611,
        18_446_744_073_709_551_610,
        18_446_744_073_709_551_609,
        18_446_744_073_709_551_608,
    ];
    let found = and_lanes(places, true, u64x8::splat(u64::MAX), false).to_array();
    assert_eq!(rt; found.as_slice(), inverted.as_slice());
    Ok(())
}

fn evaluates_to(
    alloc: Global,
    circuit: &Graph,
    inputs: &[Tri],
    outputs: &[Tri],
) -> Result<bool, AllocError> {
    if inputs.len() != circuit.inputs() as usize {
        return Ok(false);
    }
    let values = tri_eval(alloc, circuit, inputs)?;
    Ok(values.as_slice() == outputs)
}

// Values of the inputs, and the outputs by them.
static VALUES: [(&[Tri], &[Tri]); 5] = [
    (&[One, One, X], &[X, Zero, One]),
    (&[One, X, One], &[One, X, One]),
    (&[Zero, X, One], &[Zero, X, One]),
    (&[X, Zero, Zero], &[Zero, X, One]),
    (&[Zero, One, Zero], &[One, One, One]),
];

#[test]
fn evaluates_by_three_values(rt: HostRuntime) -> Result<(), Fail> {
    let circuit = sample(rt.alloc())?;
    for (inputs, outputs) in VALUES.iter() {
        assert!(rt;
            evaluates_to(rt.alloc(), &circuit, inputs, outputs)?,
            "at {inputs:?}"
        );
    }
    Ok(())
}

fn has_rails(outputs: &[Rails], expected: &[(u64x8, u64x8)]) -> bool {
    for (rails, (ones, zeros)) in outputs.iter().zip(expected.iter()) {
        if rails.ones != *ones || rails.zeros != *zeros {
            return false;
        }
    }
    outputs.len() == expected.len()
}

// Whether the outputs have these rails where the inputs have those.
fn evaluates_rails_to(
    alloc: Global,
    circuit: &Graph,
    inputs: &[Rails],
    expected: &[(u64x8, u64x8)],
) -> Result<bool, AllocError> {
    if inputs.len() != circuit.inputs() as usize {
        return Ok(false);
    }
    let outputs = rails_eval(alloc, circuit, inputs)?;
    Ok(has_rails(&outputs, expected))
}

#[test]
fn evaluates_three_values_on_blocks(rt: HostRuntime) -> Result<(), Fail> {
    let circuit = sample(rt.alloc())?;
    let a = u64x8::from_array([0, 1, 2, 3, 4, 5, 6, u64::MAX]);
    let (none, all) = (u64x8::splat(0), u64x8::splat(u64::MAX));
    let inputs = [Rails::known(a), Rails::unknown(), Rails::known(all)];
    // a is chosen, its parity with an unknown bit is unknown, and the constant is known
    let expected = [(a, !a), (none, none), (all, none)];
    let is_right = evaluates_rails_to(
        rt.alloc(),
        &circuit,
        inputs.as_slice(),
        expected.as_slice(),
    )?;
    assert!(rt; is_right);
    Ok(())
}
