//! Evaluation by three values on 512 vectors at once.

ghost use Rattle.std.specs.Prelude.{◌≡◌, ◌<◌, ℕ, IfOk, List, bit_or, length, map};
ghost use Rattle.net_core.specs.Values.{each_lane};
ghost use Rattle.word_sim.specs.declared.tri.Tri.{Tri as AnyTri};
ghost use Rattle.word_sim.specs.declared.tri.Tri.TheVariants.{X};
ghost use Rattle.word_sim.specs.Columns.{word_bit, word_of};
ghost use Rattle.word_sim.specs.Rails.{rail_at, rail_of, rails_at};
ghost use Rattle.word_sim.specs.ThreeValues.{of_bit, tri_outputs};

use crate::blocks::signed_lanes;
use net_core::{Graph, SignalValue, eval_outputs};
use std::alloc::{AllocError, Global};
use std::simd::prelude::*;

/// A signal's values 0, 1 and X on 512 vectors, in two blocks of a bit for each vector. Where neither has the bit, the
/// value is X.
#[derive(Clone, Copy, Drop)]
pub struct Rails {
    /// The vectors on which the signal is 1.
    pub ones: u64x8,
    /// The vectors on which the signal is 0.
    pub zeros: u64x8,
}

impl Rails {
    /// X on each vector.
    pub fn unknown() -> Rails
        ensures { (w v : ℕ) → w < 8 → v < 64 → rail_at w v result ≡ rail_of X }
    {
        Rails {
            ones: u64x8::splat(0),
            zeros: u64x8::splat(0),
        }
    }

    /// The bits of a block.
    pub fn known(block: u64x8) -> Rails
        ensures { (w v : ℕ) → w < 8 → v < 64 → rail_at w v result ≡ rail_of (of_bit (word_bit v (word_of w block))) }
    {
        Rails {
            ones: block,
            zeros: signed_lanes(block, true),
        }
    }
}

impl SignalValue for Rails {
    ghost use Rattle.word_sim.specs.Rails.{rails};

    ghost operations = { rails };

    #[inline(always)]
    fn signed(self, flip: bool) -> Rails {
        if flip {
            Rails {
                ones: self.zeros,
                zeros: self.ones,
            }
        } else {
            self
        }
    }

    #[inline(always)]
    fn and(self, other: Rails) -> Rails {
        Rails {
            ones: self.ones.and(other.ones),
            zeros: or_lanes(self.zeros, other.zeros),
        }
    }
}

/// The OR of each two lanes.
#[inline(always)]
fn or_lanes(a: u64x8, b: u64x8) -> u64x8
    ensures { result ≡ each_lane 8 bit_or a b }
{
    a | b
}

/// Each output's rails where the inputs have these: on each vector on which the inputs' rails are those of values 0, 1
/// and X, the outputs' are those of the three-valued evaluation.
pub fn rails_eval(alloc: Global, graph: &Graph, inputs: &[Rails]) -> Result<Vec<Rails>, AllocError>
    requires { length inputs.now ≡ graph.now.inputs }
    ensures outputs { IfOk result (λ outputs. length outputs.items ≡ length graph.now.outputs) }
    ensures values { IfOk result (λ outputs. (w v : ℕ) (values : List AnyTri) → w < 8 → v < 64
        → rails_at w v inputs.now ≡ map rail_of values
        → rails_at w v outputs.items ≡ map rail_of (tri_outputs graph.now values)) }
{
    let constant = Rails::known(u64x8::splat(0));
    eval_outputs(alloc, graph, constant, inputs)
}
