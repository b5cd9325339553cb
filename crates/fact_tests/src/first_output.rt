//! An output of the first of two circuits: which inputs it reaches, and whether its claims hold.

ghost use Rattle.std.specs.Prelude.{◌≡◌, ◌<◌, IfOk, length};
ghost use Rattle.std.specs.Bool.{Decides};
ghost use Rattle.oracle_core.specs.Oracles.{Serves};
ghost use Rattle.claim_core.specs.Claims.{IsPlaced, ShapeHolds};
ghost use Rattle.fact_tests.specs.Outputs.{MayAsk};
ghost use Rattle.sim_signature.specs.Supports.{output_reaches};

use crate::readers::Readers;
use claim_core::{Claim, Shape};
use cnf_core::Stop;
use net_core::{Graphs, Side};
use oracle_core::Oracle;
use query_core::Ledger;
use sim_signature::Supports;
use std::alloc::Global;

/// An output of the first of two circuits, with what is kept of that circuit, and where memory is taken from.
#[derive(Clone, Copy)]
pub(crate) struct FirstOutput<'a> {
    pub alloc: Global,
    pub graphs: &'a Graphs<'a>,
    /// What the outputs of the first circuit reach.
    pub supports: &'a Supports<'a>,
    /// Where the signals of the first circuit are read.
    pub readers: &'a Readers<'a>,
    pub number: u32,
}

impl<'a> FirstOutput<'a> {
    /// Whether the output reaches an input through gates. Where it doesn't, it doesn't depend on it.
    pub(crate) fn reaches(&self, input: u32) -> bool
        requires supports { self.now.supports.now ≡ self.now.graphs.now.first }
        requires there { self.now.number < length self.now.graphs.now.first.outputs }
        requires input { input < self.now.graphs.now.first.inputs }
        ensures { result ≡ output_reaches self.now.graphs.now.first self.now.number input }
    {
        self.supports.reaches(self.number, input)
    }

    /// Whether the claim of a shape holds at the output: what the oracle's fact says.
    pub(crate) fn holds<O: Oracle>(
        &self,
        shape: Shape,
        oracle: &mut O,
        ledger: &mut Ledger,
    ) -> Result<bool, Stop>
        requires may { MayAsk self.now.graphs.now (O.known oracle.old) ledger.old }
        requires there { self.now.number < length self.now.graphs.now.first.outputs }
        requires placed { IsPlaced self.now.graphs.now.first.inputs shape }
        ensures serves { Serves (O.known oracle.old) (O.known oracle.new) ledger.old ledger.new result }
        ensures told { IfOk result (λ holds. Decides holds
            (ShapeHolds self.now.graphs.now.first self.now.number shape)) }
    {
        let claim = Claim {
            side: Side::First,
            output: self.number,
            shape,
        };
        let number = oracle.claim(self.alloc, claim, ledger)?;
        let fact = &oracle.facts()[number as usize];
        Ok(fact.holds())
    }
}
