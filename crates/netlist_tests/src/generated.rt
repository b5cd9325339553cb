//! The pair of the number 7, against a model that was written in another language from the generator's description
//! alone: its texts, by their lengths and a digest of their bytes, and the ends of its match.

use gen_pair::{GenPair, make};
use net_core::Matching;
use net_print::{put_aig, put_blif};
use std::alloc::{AllocError, Global};
use std::test::Fail;

// A digest of bytes in their order: a polynomial at 31, modulo 2^32.
fn digest(bytes: &[u8]) -> u32 {
    let mut digest: u32 = 0;
    for byte in bytes.iter() {
        digest = digest.wrapping_mul(31).wrapping_add(u32::from(*byte));
    }
    digest
}

fn binary_of_first(alloc: Global, pair: &GenPair) -> Result<(usize, u32), AllocError> {
    let mut out = Vec::new(alloc);
    put_aig(&pair.first, &mut out)?;
    Ok((out.len(), digest(&out)))
}

fn blif_of_second(alloc: Global, pair: &GenPair) -> Result<(usize, u32), AllocError> {
    let mut out = Vec::new(alloc);
    put_blif(&pair.second, &mut out)?;
    Ok((out.len(), digest(&out)))
}

fn sizes(pair: &GenPair) -> (u32, usize, usize) {
    let graph = &pair.second.graph;
    (graph.inputs(), graph.outputs().len(), graph.gates().len())
}

// Whether a matching begins and ends with the entries of the table that 7 gives.
fn is_table_of_seven(matching: &Matching) -> bool {
    let inputs = matching.inputs.as_slice();
    let outputs = matching.outputs.as_slice();
    inputs.starts_with(&[(56, true), (18, false), (21, true), (16, true)])
        & inputs.ends_with(&[(36, true), (0, false), (62, true)])
        & outputs.starts_with(&[(28, false), (26, true), (30, false), (16, false)])
}

#[test]
fn a_number_gives_its_pair(rt: HostRuntime) -> Result<(), Fail> {
    let pair = make(rt.alloc(), 7)?;
    let written = (
        binary_of_first(rt.alloc(), &pair)?,
        blif_of_second(rt.alloc(), &pair)?,
    );
    assert_eq!(rt;
        (written, sizes(&pair), is_table_of_seven(&pair.hidden)),
        (
            ((5671, 507290980), (55965, 1118943907)),
            (64, 32, 2000),
            true
        )
    );
    Ok(())
}
