//! All signals in order, each replaced by the first one that computes the same or the complement.

ghost use Rattle.std.specs.Prelude.{◌≡◌, ◌+◌, ◌<◌, ◌≤◌, IfOk, IfErr, OnOk, length};
ghost use Rattle.circuits.specs.Literals.{differ};
ghost use Rattle.circuits.specs.Netlists.{signals_of};
ghost use Rattle.sweep.specs.Classes.{AreClasses, member_at};
ghost use Rattle.sweep.specs.Comparing.{HasCompared, IsPair, IsStopped};
ghost use Rattle.sweep.specs.Exposed.{IsExposed};
ghost use Rattle.sweep.specs.Merging.{AreReplacements};
ghost use Rattle.sweep.specs.Sweeping.{Finds, IsEqualTo, IsSweeping, Tells};

use crate::classes::{Member, drawn_classes, split};
use crate::comparing::{Comparison, SignalPair, compare, literal_of};
use crate::drawing::near;
use crate::exposing::plain_literals;
use crate::leaders::Leaders;
use cnf_core::Stop;
use items::Items;
use net_core::{Graph, Lit};
use query_core::Ledger;
use rand_pcg::Pcg32;
use std::alloc::{AllocError, Global};

/// What is known of a graph's signals.
pub(crate) struct Sweep {
    /// Which may compute the same.
    members: Vec<Member>,
    /// Those that aren't replaced, of the signals that were gone over.
    leaders: Leaders,
    /// What replaces each signal: at first each is replaced by itself.
    replacements: Vec<Lit>,
}

// By hand, so that each exit of a function has one call for it (docs/IDIOMS.md).
impl Drop for Sweep {
    fn drop(self) {
        let Sweep {
            members: _members,
            leaders: _leaders,
            replacements: _replacements,
        } = self;
    }
}

impl Sweep {
    /// No signal was gone over. Each signal of the graph is an output.
    ///
    /// # Errors
    ///
    /// Only when out of memory.
    pub(crate) fn new(
        alloc: Global,
        exposed: &Graph,
        generator: &mut Pcg32,
    ) -> Result<Sweep, AllocError>
        requires { IsExposed exposed.now }
        ensures { IfOk result (λ sweep. IsSweeping exposed.now sweep 0) }
    {
        let members = drawn_classes(alloc, exposed, generator)?;
        let replacements = plain_literals(alloc, exposed.signals() as u32)?;
        let leaders = Leaders::of(alloc, &members, &replacements, 0)?;
        Ok(Sweep {
            members,
            leaders,
            replacements,
        })
    }

    /// What replaces each signal.
    pub(crate) fn into_replacements(self) -> Vec<Lit>
        ensures { result.items ≡ self.replacements.items }
    {
        let Sweep {
            members: _members,
            leaders: _leaders,
            replacements,
        } = self;
        replacements
    }

    /// Goes over all signals, in order.
    ///
    /// # Errors
    ///
    /// `Spent` where the ledger's budget was spent: then each signal that was gone over is replaced, and the others are
    /// replaced by themselves. `Memory` when out of memory.
    pub(crate) fn run(
        &mut self,
        alloc: Global,
        exposed: &Graph,
        ledger: &mut Ledger,
        generator: &mut Pcg32,
    ) -> Result<(), Stop>
        requires exposed { IsExposed exposed.now }
        requires sweeping { IsSweeping exposed.now self.old 0 }
        requires compared { HasCompared exposed.now 0 0 ledger.old }
        ensures swept { OnOk result (IsSweeping exposed.now self.new (signals_of exposed.now)) }
        ensures replaced { AreReplacements exposed.now self.new.replacements.items }
        ensures stopped { IfErr result (IsStopped exposed.now ledger.old.budget ledger.new) }
    {
        for signal in 0..exposed.signals() as u32 {
            self.take(alloc, exposed, signal, ledger, generator)?;
        }
        Ok(())
    }

    /// Goes over one signal more.
    fn take(
        &mut self,
        alloc: Global,
        exposed: &Graph,
        signal: u32,
        ledger: &mut Ledger,
        generator: &mut Pcg32,
    ) -> Result<(), Stop>
        requires exposed { IsExposed exposed.now }
        requires there { signal < signals_of exposed.now }
        requires sweeping { IsSweeping exposed.now self.old signal }
        requires compared { HasCompared exposed.now signal signal ledger.old }
        ensures swept { OnOk result (IsSweeping exposed.now self.new (signal + 1)) }
        ensures compared { OnOk result (HasCompared exposed.now (signal + 1) (signal + 1) ledger.new) }
        ensures budget { OnOk result (ledger.new.budget ≡ ledger.old.budget) }
        ensures replaced { AreReplacements exposed.now self.new.replacements.items }
        ensures stopped { IfErr result (IsStopped exposed.now ledger.old.budget ledger.new) }
    {
        // it brings in that the signals can be counted
        let _signals = exposed.signals();
        let mut vectors = Vec::new(alloc);
        let equal = self.equal_to(alloc, exposed, signal, ledger, &mut vectors)?;
        self.settle(exposed, signal, equal);
        self.refine(alloc, exposed, signal + 1, &vectors, generator)?;
        Ok(())
    }

    /// A literal of the signal before this one that computes the same or the complement and isn't replaced, if there is
    /// one. The signals of its class are compared with it, the latest first. Vectors on which two were different are
    /// added to `vectors`.
    fn equal_to(
        &self,
        alloc: Global,
        exposed: &Graph,
        signal: u32,
        ledger: &mut Ledger,
        vectors: &mut Vec<Items<bool>>,
    ) -> Result<Option<Lit>, Stop>
        requires exposed { IsExposed exposed.now }
        requires there { signal < signals_of exposed.now }
        requires sweeping { IsSweeping exposed.now self.now signal }
        requires compared { HasCompared exposed.now signal signal ledger.old }
        ensures { Finds exposed.now self.now.replacements.items signal ledger.old ledger.new result }
    {
        // it brings in that the signals can be counted
        let _signals = exposed.signals();
        let mut next = self.leaders.last_of(self.members[signal as usize].class);
        while let Some(one) = next {
            let pair = self.pair_of(one, signal);
            if self.is_same(alloc, exposed, pair, ledger, vectors)? {
                return Ok(Some(literal_of(pair)));
            }
            next = self.leaders.before(one);
        }
        Ok(None)
    }

    /// Two signals, which may be opposite where one of them is true when all inputs are false.
    fn pair_of(&self, one: u32, other: u32) -> SignalPair
        requires one { one < length self.now.members.items }
        requires other { other < length self.now.members.items }
        ensures { result ≡ record {
          one = one;
          other = other;
          opposite = differ (member_at self.now.members.items one).flip (member_at self.now.members.items other).flip;
        } }
    {
        SignalPair {
            one,
            other,
            opposite: self.members[one as usize].flip != self.members[other as usize].flip,
        }
    }

    /// Whether two signals are as they may be. A vector on which they aren't is added to `vectors`.
    fn is_same(
        &self,
        alloc: Global,
        exposed: &Graph,
        pair: SignalPair,
        ledger: &mut Ledger,
        vectors: &mut Vec<Items<bool>>,
    ) -> Result<bool, Stop>
        requires exposed { IsExposed exposed.now }
        requires pair { IsPair exposed.now pair }
        requires classes { AreClasses exposed.now self.now.members.items }
        requires sign { pair.opposite ≡ differ (member_at self.now.members.items pair.one).flip
            (member_at self.now.members.items pair.other).flip }
        requires compared { HasCompared exposed.now pair.other (pair.one + 1) ledger.old }
        ensures { Tells exposed.now pair ledger.old ledger.new result }
    {
        match compare(alloc, exposed, pair, ledger)? {
            Comparison::Same => Ok(true),
            Comparison::Differs(vector) => {
                vectors.push(vector)?;
                Ok(false)
            }
        }
    }

    /// Replaces a signal, or adds it to those that aren't replaced.
    fn settle(&mut self, exposed: &Graph, signal: u32, equal: Option<Lit>)
        requires there { signal < signals_of exposed.now }
        requires sweeping { IsSweeping exposed.now self.old signal }
        requires equal { IsEqualTo exposed.now self.old.replacements.items signal equal }
        ensures { IsSweeping exposed.now self.new (signal + 1) }
    {
        let _ = exposed;
        match equal {
            Some(literal) => self.replacements[signal as usize] = literal,
            None => self
                .leaders
                .add(signal, self.members[signal as usize].class),
        }
    }

    /// Splits the classes by vectors near some, after the first signals were gone over.
    fn refine(
        &mut self,
        alloc: Global,
        exposed: &Graph,
        count: u32,
        vectors: &[Items<bool>],
        generator: &mut Pcg32,
    ) -> Result<(), AllocError>
        requires exposed { IsExposed exposed.now }
        requires count { count ≤ signals_of exposed.now }
        requires sweeping { IsSweeping exposed.now self.old count }
        ensures swept { OnOk result (IsSweeping exposed.now self.new count) }
        ensures replaced { self.new.replacements.items ≡ self.old.replacements.items }
    {
        if vectors.is_empty() {
            return Ok(());
        }
        let inputs = near(alloc, generator, exposed.inputs(), vectors)?;
        split(alloc, exposed, &inputs, &mut self.members)?;
        self.leaders = Leaders::of(alloc, &self.members, &self.replacements, count)?;
        Ok(())
    }
}
