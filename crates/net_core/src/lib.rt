//! Netlists in any order and in order, their evaluation, and matchings.
#![tactic(auto)]

mod cones;
mod counting;
mod evaluating;
mod expanding;
mod graph;
mod graphs;
mod levels;
mod limits;
mod matching;
mod order_fault;
mod ordering;
mod plain_net;
mod values;

pub use circuits::{Def, Gate, Lit, Pair, PortKind, Trit};
pub use evaluating::{eval_gates, eval_outputs, gate_value, literal_value, put_inputs};
pub use graph::{Graph, lit_value};
pub use graphs::{Graphs, Side};
pub use limits::{MAX_GATES, MAX_PORTS, MAX_VARIABLES};
pub use matching::Matching;
pub use order_fault::OrderFault;
pub use ordering::order;
pub use plain_net::PlainNet;
pub use values::SignalValue;
