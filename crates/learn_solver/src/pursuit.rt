//! Parts of the question, one after another, and the whole of it.

ghost use Rattle.std.specs.Prelude.{IfOk, IfErr};
ghost use Rattle.learn_solver.specs.Searches.{CanGo, HasEnded, HasGone};
ghost use Rattle.learn_solver.specs.Solvers.{IsStopped};

use crate::candidate::{Agenda, Candidate, QuestionGuide};
use crate::search::Search;
use crate::solver::Solver;
use crate::verdict::Finding;
use cnf_core::{Base, Charge, Stop};
use std::alloc::Global;

/// How many lines the question itself gets before its candidates. Those of adders of 64 bits need no more, and would
/// take half as many again with candidates.
const LINES_BEFORE: u64 = 100;

/// How many lines a candidate gets. With 200 a resynthesized checksum of 32 bits takes 264,000 lines over all its
/// questions, with 500 it takes 187,000, and with 1,000 no fewer.
const LINES_A_CANDIDATE: u64 = 500;

impl<'a, B: Base> Solver<'a, B> {
    /// Searches for a while, then looks at each candidate. None: the question itself is left, from level 0 on.
    pub(crate) fn prepare<G: QuestionGuide, L: Charge>(
        &mut self,
        alloc: Global,
        search: &mut Search,
        guide: &mut G,
        ledger: &mut L,
    ) -> Result<Option<Finding>, Stop>
        requires { CanGo self.old (L.charging ledger.old) search.old }
        ensures gone { IfOk result
            (HasGone self.old self.new (L.charging ledger.old) (L.charging ledger.new) search.new) }
        ensures stop { IfErr result (IsStopped self.old self.new (L.charging ledger.old) (L.charging ledger.new)) }
    {
        if let Some(soon) = self.pursue(alloc, search, LINES_BEFORE, ledger)? {
            return Ok(Some(soon));
        }
        let Agenda {
            gates,
            parts,
            candidates,
            leading,
        } = guide.agenda(alloc)?;
        search.heed(gates, parts);
        if let Some(found) = self.follow(alloc, search, guide, &candidates, ledger)? {
            return Ok(Some(found));
        }
        search.widen(leading);
        Ok(None)
    }

    // Looks for each candidate whether its literals can be true together, and reports to the guide.
    fn follow<G: QuestionGuide, L: Charge>(
        &mut self,
        alloc: Global,
        search: &mut Search,
        guide: &mut G,
        candidates: &[Candidate],
        ledger: &mut L,
    ) -> Result<Option<Finding>, Stop>
        requires { CanGo self.old (L.charging ledger.old) search.old }
        ensures gone { IfOk result
            (HasGone self.old self.new (L.charging ledger.old) (L.charging ledger.new) search.new) }
        ensures stop { IfErr result (IsStopped self.old self.new (L.charging ledger.old) (L.charging ledger.new)) }
    {
        for candidate in candidates.iter() {
            search.narrow(*candidate);
            if let Some(found) = self.pursue(alloc, search, LINES_A_CANDIDATE, ledger)? {
                return Ok(Some(found));
            }
            guide.done_with(*candidate, self.count())?;
        }
        Ok(None)
    }

    // Searches until the goal is settled, for n lines at most.
    fn pursue<L: Charge>(
        &mut self,
        alloc: Global,
        search: &mut Search,
        most: u64,
        ledger: &mut L,
    ) -> Result<Option<Finding>, Stop>
        requires { CanGo self.old (L.charging ledger.old) search.old }
        ensures gone { IfOk result
            (HasGone self.old self.new (L.charging ledger.old) (L.charging ledger.new) search.new) }
        ensures stop { IfErr result (IsStopped self.old self.new (L.charging ledger.old) (L.charging ledger.new)) }
    {
        let end = self.count().saturating_add(most);
        while !search.is_settled() & (self.count() < end) {
            if let Some(found) = self.advance(alloc, search, ledger)? {
                return Ok(Some(found));
            }
        }
        Ok(None)
    }

    /// Searches until there is an answer, and reports to the guide how many lines there are.
    pub(crate) fn finish<G: QuestionGuide, L: Charge>(
        &mut self,
        alloc: Global,
        search: &mut Search,
        guide: &mut G,
        ledger: &mut L,
    ) -> Result<Finding, Stop>
        requires { CanGo self.old (L.charging ledger.old) search.old }
        ensures ended { IfOk result (HasEnded self.old self.new (L.charging ledger.old) (L.charging ledger.new)) }
        ensures stop { IfErr result (IsStopped self.old self.new (L.charging ledger.old) (L.charging ledger.new)) }
    {
        loop {
            if let Some(found) = self.advance(alloc, search, ledger)? {
                return Ok(found);
            }
            guide.learned(self.count());
        }
    }
}
