//! Netlists and accounts that several tests read.

/// Output 0 is the AND of the two inputs, output 1 the first input.
pub(crate) const A: &[u8] = b"aag 3 2 0 2 1\n2\n4\n6\n2\n6 2 4\n";

/// Output 0 is NOT input 1, output 1 is NOT (NOT input 1 AND input 0).
pub(crate) const B: &[u8] = b"aag 3 2 0 2 1\n2\n4\n5\n7\n6 5 2\n";

/// Neither inputs nor outputs.
pub(crate) const EMPTY: &[u8] = b"aag 0 0 0 0 0\n";

/// A match of A and B, with a refutation for either value of each output.
pub(crate) const TABLE: &[u8] =
    b"npnp 1\nmatch i0-1 i1+0 o0-1 o1+0\nl : 7 8 1 2 6\nl : 7 8 4 5 3\nl : 7 8\nl : 7 8\nend\n";

/// The AND of two inputs.
pub(crate) const AND: &[u8] = b"aag 3 2 0 1 1\n2\n4\n6\n6 2 4\n";

/// The OR of two inputs.
pub(crate) const OR: &[u8] = b"aag 3 2 0 1 1\n2\n4\n7\n6 3 5\n";

/// One input that is the output.
pub(crate) const WIRE: &[u8] = b"aag 1 1 0 1 0\n2\n2\n";

/// One input, which the output doesn't depend on.
pub(crate) const ZERO: &[u8] = b"aag 1 1 0 1 0\n2\n0\n";

/// The AND is the OR with each port inverted.
pub(crate) const AND_OR: &[u8] =
    b"npnp 1\nmatch i0-0 i1-1 o0-0\nl : 7 8 1 2 6\nl : 7 8 4 5 3\nend\n";

/// The ISCAS-85 circuit c17: six NAND gates, written as covers of the off-set.
pub(crate) const C17: &[u8] =
    b".model c17\n.inputs 1 2 3 6 7\n.outputs 22 23\n.names 1 3 10\n11 0\n.names 3 6 11\n11 0\n.names 2 11 16\n\
      11 0\n.names 11 7 19\n11 0\n.names 10 16 22\n11 0\n.names 16 19 23\n11 0\n.end\n";

/// The same function with its ports in another order and one input inverted, as binary AIGER.
pub(crate) const C17_MOVED: &[u8] =
    b"aig 11 5 0 2 6\n23\n21\n\x04\x03\x08\x01\x03\x03\x05\x0b\x03\x02\x03\x02";

/// The AND of two inputs, and the AND of it and an input, which is the same.
pub(crate) const SAME_TWICE: &[u8] = b"aag 4 2 0 2 2\n2\n4\n6\n8\n6 2 4\n8 6 2\n";

/// The exclusive or of two inputs.
pub(crate) const XOR: &[u8] = b"aag 5 2 0 1 3\n2\n4\n10\n6 2 4\n8 3 5\n10 7 9\n";

/// Three inputs and nothing else.
pub(crate) const THREE: &[u8] = b"aag 3 3 0 0 0\n2\n4\n6\n";

/// Two inputs and nothing else.
pub(crate) const TWO: &[u8] = b"aag 2 2 0 0 0\n2\n4\n";

/// The exclusive or falls and rises with either input, and the AND never falls where its first input rises.
pub(crate) const AND_XOR: &[u8] = b"npnp 1\n\
      fails b 0 up 0 =01\n\
      fails b 0 down 0 =10\n\
      fails b 0 up 1 =10\n\
      fails b 0 down 1 =01\n\
      holds a 0 up 0\n\
      l : 0 7 1\n\
      ban o0+0 : tally binate 0 1 2 3 / 4\n\
      ban o0-0 : tally binate 0 1 2 3 / 4\n\
      ban : cover out 0 / 0 / 0 1\n\
      none ban 2\n\
      end\n";

/// That the netlists have other numbers of ports.
pub(crate) const NONE_PORTS: &[u8] = b"npnp 1\nnone ports\nend\n";

/// The wire rises with its input, and constant 0 doesn't: each way to pair the inputs and the outputs is excluded.
pub(crate) const ZERO_WIRE: &[u8] =
    b"npnp 1\nfails b 0 down 0 =1\nholds a 0 down 0\nl : 0 1\nban i0+0 o0+0 : mismatch 0 1\n\
      ban i0-0 o0+0 : vector 0 =0\nban i0+0 o0-0 : vector 0 =0\nban i0-0 o0-0 : mismatch 0 1\n\
      ban o0+0 : cover in 0 / 0 / 0 1\nban o0-0 : cover in 0 / 0 / 2 3\nban : cover out 0 / 0 / 4 5\nnone ban 6\n\
      end\n";
