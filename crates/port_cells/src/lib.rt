//! Cells of ports that may correspond, and what splits them. An error comes only when out of memory.
#![tactic(auto)]

mod cells;
mod counts;
mod draws;
mod fanout;
mod lanes;
mod links;
mod mixing;
mod profiles;
mod simulator;

pub use cells::{Cells, literal_of, port_at};
pub use counts::{Counter, Counts, Influence};
pub use draws::Draws;
pub use lanes::{
    Lanes, VECTORS, all_lanes, bit_of, blocks_of_all, ones_in, replicated, with_bit, word_of_all,
};
pub use links::{cell_at, input_keys, output_keys};
pub use mixing::mix_lanes;
pub use profiles::{Profile, Slack, input_profiles, near_keys, output_profiles};
pub use simulator::FlipSim;
