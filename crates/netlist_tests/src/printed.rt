//! Netlists that are printed: the texts, as worked out by hand, and that they are read again.

use aiger_reader::read;
use net_file::Named;
use net_print::{AagParts, AigParts, BlifParts, put_aag, put_aig, put_blif};
use std::alloc::{AllocError, Global};
use std::test::Fail;
use text_core::Parts;

// Whether the three texts of a netlist are these, each after a byte that stands there before.
fn are_texts(
    alloc: Global,
    named: &Named,
    ascii: &[u8],
    binary: &[u8],
    blif: &[u8],
) -> Result<bool, AllocError> {
    Ok(
        is_ascii(alloc, named, ascii)?
            & is_binary(alloc, named, binary)?
            & is_blif(alloc, named, blif)?,
    )
}

fn is_ascii(alloc: Global, named: &Named, text: &[u8]) -> Result<bool, AllocError> {
    let mut out = b">".to_vec(alloc)?;
    put_aag(named, &mut out)?;
    Ok(out.as_slice() == text)
}

fn is_binary(alloc: Global, named: &Named, text: &[u8]) -> Result<bool, AllocError> {
    let mut out = b">".to_vec(alloc)?;
    put_aig(named, &mut out)?;
    Ok(out.as_slice() == text)
}

fn is_blif(alloc: Global, named: &Named, text: &[u8]) -> Result<bool, AllocError> {
    let mut out = b">".to_vec(alloc)?;
    put_blif(named, &mut out)?;
    Ok(out.as_slice() == text)
}

/// An AND and its first input, as BLIF.
const AND_AS_BLIF: &str = "\
>.model npnp
.inputs i0 i1
.outputs o0 o1
.names z
.names i0 i1 g0
11 1
.names g0 o0
1 1
.names i0 o1
1 1
.end
";

/// Netlists as they are read, and the three texts of each: ASCII, binary and BLIF. Ports without names are called by
/// their positions.
static PRINTED: [(&[u8], &[u8], &[u8], &str); 3] = [
    (
        b"aag 3 2 0 2 1\n2\n4\n6\n2\n6 2 4\ni1 b c\n",
        b">aag 3 2 0 2 1\n2\n4\n6\n2\n6 2 4\ni0 i0\ni1 b c\no0 o0\no1 o1\n",
        b">aig 3 2 0 2 1\n6\n2\n\x02\x02i0 i0\ni1 b c\no0 o0\no1 o1\n",
        AND_AS_BLIF,
    ),
    (
        b"aag 3 2 0 2 1\n2\n4\n6\n2\n6 2 4\n",
        b">aag 3 2 0 2 1\n2\n4\n6\n2\n6 2 4\ni0 i0\ni1 i1\no0 o0\no1 o1\n",
        b">aig 3 2 0 2 1\n6\n2\n\x02\x02i0 i0\ni1 i1\no0 o0\no1 o1\n",
        AND_AS_BLIF,
    ),
    (
        b"aag 1 1 0 1 0\n2\n2\n",
        b">aag 1 1 0 1 0\n2\n2\ni0 i0\no0 o0\n",
        b">aig 1 1 0 1 0\n2\ni0 i0\no0 o0\n",
        ">.model npnp\n.inputs i0\n.outputs o0\n.names z\n.names i0 o0\n1 1\n.end\n",
    ),
];

#[test]
fn prints_each_form(rt: HostRuntime) -> Result<(), Fail> {
    for (netlist, ascii, binary, blif) in PRINTED.iter() {
        let named = read(rt.alloc(), netlist)?;
        assert!(rt; are_texts(rt.alloc(), &named, ascii, binary, blif.as_bytes())?);
    }
    Ok(())
}

// How many bytes the longest part of a text has.
fn longest_part<P: Parts + Drop>(alloc: Global, parts: P) -> Result<usize, AllocError> {
    let mut rest = parts;
    let mut part = Vec::new(alloc);
    let mut longest = 0;
    while !rest.is_done() {
        part.clear();
        rest.put_next(&mut part)?;
        longest = longest.max(part.len());
    }
    Ok(longest)
}

fn longest_parts(alloc: Global, named: &Named) -> Result<(usize, usize, usize), AllocError> {
    Ok((
        longest_part(alloc, AagParts::new(named))?,
        longest_part(alloc, AigParts::new(named))?,
        longest_part(alloc, BlifParts::new(&named.graph))?,
    ))
}

#[test]
fn prints_a_line_or_a_cover_at_a_time(rt: HostRuntime) -> Result<(), Fail> {
    let named = read(rt.alloc(), b"aag 3 2 0 2 1\n2\n4\n6\n2\n6 2 4\ni1 b c\n")?;
    let header = b"aag 3 2 0 2 1\n".len();
    let cover = b".names i0 i1 g0\n11 1\n".len();
    assert_eq!(rt; longest_parts(rt.alloc(), &named)?, (header, header, cover));
    Ok(())
}
