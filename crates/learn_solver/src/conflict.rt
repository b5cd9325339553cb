//! Analysis of a conflict: the clause that is learned from it.

ghost use Rattle.std.specs.Prelude.{◌≡◌, ◌+◌, ◌<◌, ◌≤◌, ◌==◌, false, All, IfOk, OnOk, length, map, replicate, ℕ};
ghost use Rattle.std.specs.Prelude.{if◌then◌else◌};
ghost use Rattle.cnf_core.specs.Clauses.{opposite, AreKnown};
ghost use Rattle.cnf_core.specs.Derivations.{is_empty};
ghost use Rattle.trail_core.specs.Trails.{IsPlace, IsTrail, entry_at};
ghost use Rattle.watch_lists.specs.Propagations.{IsSound};
ghost use Rattle.learn_solver.specs.Analyses.{AreBefore, AreMarked, AreOnTrail, CanAnalyse, HasPlace, IsAnalysis};
ghost use Rattle.learn_solver.specs.Analyses.{IsBackLevel, IsLearned, IsMinimized, IsReducing, StayFrom, StayMarked};
ghost use Rattle.learn_solver.specs.Analyses.{here_in, is_lower, kept_literals, kept_here};

use cnf_core::{ClauseStore, SatLit};
use items::Items;
use std::alloc::{AllocError, Global};
use trail_core::Trail;

/// What is learned from a conflict: a clause that follows, the numbers of the clauses that derive it in the order in
/// which they are used, and the level to go back to, at which the clause leaves a single literal.
#[derive(Drop)]
pub(crate) struct LearnedClause {
    pub(crate) clause: Items<SatLit>,
    pub(crate) steps: Vec<u64>,
    pub(crate) level: u64,
}

/// How far an analysis has come, from the end of the trail down. Beside it there are marks: the marked variables are
/// those of the clause that is resolved so far. Those whose literals stand before `below` are left.
#[derive(Drop)]
struct Analysis {
    below: u64,
    /// How many marked literals before `below` are of the present level.
    here: u64,
    /// The clauses that were resolved, the last one to be used first.
    steps: Vec<u64>,
}

/// Learns from a clause all of whose literals are false. The clause is resolved with reasons, from the last literal of
/// the trail down, up to the first literal of the level through which all of the conflict goes (the first unique
/// implication point; Marques-Silva and Sakallah, GRASP, 1999). At level 0 everything is resolved. There is a mark for
/// each variable; none of them is set before and after. The work grows with the trail and the clauses, not with the
/// variables.
pub(crate) fn analyse(
    alloc: Global,
    clauses: &ClauseStore,
    trail: &Trail,
    marked: &mut [bool],
    conflict: u64,
) -> Result<LearnedClause, AllocError>
    requires { CanAnalyse clauses.now.clauses trail.now marked.old conflict }
    ensures learned { IfOk result (IsLearned clauses.now.clauses trail.now) }
    ensures clear { marked.new ≡ replicate trail.now.variables false }
{
    let learned = resolved(alloc, clauses, trail, marked, conflict);
    clear(marked, trail);
    learned
}

// Learns from the conflict, and leaves marks of variables whose literals are on the trail.
fn resolved(
    alloc: Global,
    clauses: &ClauseStore,
    trail: &Trail,
    marked: &mut [bool],
    conflict: u64,
) -> Result<LearnedClause, AllocError>
    requires { CanAnalyse clauses.now.clauses trail.now marked.old conflict }
    ensures learned { IfOk result (IsLearned clauses.now.clauses trail.now) }
    ensures size { length marked.new ≡ trail.now.variables }
    ensures on_trail { AreOnTrail trail.now.entries marked.new }
{
    let mut analysis = Analysis::start(alloc, clauses, trail, marked, conflict)?;
    let kept = kept_here(trail.level());
    while analysis.here > kept {
        analysis.step(clauses, trail, marked)?;
    }
    analysis.minimize(alloc, clauses, trail, marked)?;
    analysis.finish(alloc, clauses, trail, marked)
}

// Takes all marks away, which are of variables on the trail.
fn clear(marked: &mut [bool], trail: &Trail)
    requires size { length marked.old ≡ trail.now.variables }
    requires on_trail { AreOnTrail trail.now.entries marked.old }
    ensures { marked.new ≡ replicate trail.now.variables false }
{
    for place in 0..trail.len() {
        marked[trail.lit_at(place).variable() as usize] = false;
    }
}

// How many literals of the present level a learned clause keeps.
fn kept_here(level: u64) -> u64
    ensures { result ≡ kept_here level }
{
    if level == 0 { 0 } else { 1 }
}

impl Analysis {
    // The literals of the conflict are marked.
    fn start(
        alloc: Global,
        clauses: &ClauseStore,
        trail: &Trail,
        marked: &mut [bool],
        conflict: u64,
    ) -> Result<Analysis, AllocError>
        requires { CanAnalyse clauses.now.clauses trail.now marked.old conflict }
        ensures analysis { IfOk result (IsAnalysis clauses.now.clauses trail.now marked.new) }
        ensures size { length marked.new ≡ trail.now.variables }
        ensures on_trail { AreOnTrail trail.now.entries marked.new }
    {
        let below = trail.len();
        let here = mark(marked, trail, clauses.get(conflict));
        let mut steps = Vec::new(alloc);
        steps.push(conflict)?;
        Ok(Analysis { below, here, steps })
    }

    // Looks at the next literal down the trail. A marked one gives way to the other literals of its reason.
    fn step(
        &mut self,
        clauses: &ClauseStore,
        trail: &Trail,
        marked: &mut [bool],
    ) -> Result<(), AllocError>
        requires trail { IsTrail trail.now }
        requires sound { IsSound clauses.now.clauses trail.now }
        requires analysis { IsAnalysis clauses.now.clauses trail.now marked.old self.old }
        requires on_trail { AreOnTrail trail.now.entries marked.old }
        requires more { kept_here trail.now.level < self.old.here }
        ensures analysis { OnOk result (IsAnalysis clauses.now.clauses trail.now marked.new self.new) }
        ensures on_trail { AreOnTrail trail.now.entries marked.new }
        ensures below { OnOk result (self.new.below + 1 ≡ self.old.below) }
    {
        let place = self.below - 1;
        if marked[trail.lit_at(place).variable() as usize] {
            let Some(reason) = trail.reason_at(place) else {
                unreachable!()
            };
            let more = mark(marked, trail, clauses.get(reason));
            self.here = self.here + more - 1;
            self.steps.push(reason)?;
        }
        self.below = place;
        Ok(())
    }

    // Takes the marked literals out that the others imply, from the last one down: each gives way to the other literals
    // of its reason, which are marked or implied themselves (Sörensson and Biere, SAT 2009). One literal of the present
    // level is left, and stays.
    fn minimize(
        &mut self,
        alloc: Global,
        clauses: &ClauseStore,
        trail: &Trail,
        marked: &mut [bool],
    ) -> Result<(), AllocError>
        requires trail { IsTrail trail.now }
        requires known { All (AreKnown trail.now.variables) clauses.now.clauses }
        requires sound { IsSound clauses.now.clauses trail.now }
        requires analysis { IsAnalysis clauses.now.clauses trail.now marked.old self.old }
        requires done { self.old.here ≤ kept_here trail.now.level }
        requires on_trail { AreOnTrail trail.now.entries marked.old }
        ensures minimized { OnOk result (IsMinimized clauses.now.clauses trail.now marked.new self.new) }
        ensures on_trail { AreOnTrail trail.now.entries marked.new }
        ensures size { length marked.new ≡ trail.now.variables }
    {
        let implied = implied(alloc, clauses, trail, marked, self.below)?;
        let mut place = self.below;
        while place > 0 {
            place -= 1;
            if implied[place as usize] {
                self.give_way(clauses, trail, marked, place)?;
            }
        }
        Ok(())
    }

    // Lets a marked literal of a lower level give way to the other literals of its reason.
    fn give_way(
        &mut self,
        clauses: &ClauseStore,
        trail: &Trail,
        marked: &mut [bool],
        place: u64,
    ) -> Result<(), AllocError>
        requires trail { IsTrail trail.now }
        requires sound { IsSound clauses.now.clauses trail.now }
        requires reducing { IsReducing clauses.now.clauses trail.now marked.old self.old (place + 1) }
        requires on_trail { AreOnTrail trail.now.entries marked.old }
        ensures reducing { OnOk result (IsReducing clauses.now.clauses trail.now marked.new self.new place) }
        ensures on_trail { AreOnTrail trail.now.entries marked.new }
        ensures size { length marked.new ≡ length marked.old }
        ensures below { self.new.below ≡ self.old.below }
    {
        let variable = trail.lit_at(place).variable() as usize;
        let Some(id) = trail.reason_at(place) else {
            return Ok(());
        };
        if !marked[variable] | (trail.level_at(place) >= trail.level()) {
            return Ok(());
        }
        // its literals are of lower levels, so that none counts
        let _ = mark(marked, trail, clauses.get(id));
        self.steps.push(id)?;
        marked[variable] = false;
        Ok(())
    }

    // What is learned once the marked literals that are left are those of the clause.
    fn finish(
        self,
        alloc: Global,
        clauses: &ClauseStore,
        trail: &Trail,
        marked: &[bool],
    ) -> Result<LearnedClause, AllocError>
        requires trail { IsTrail trail.now }
        requires filled { All (λ clause. is_empty clause ≡ false) clauses.now.clauses }
        requires sound { IsSound clauses.now.clauses trail.now }
        requires minimized { IsMinimized clauses.now.clauses trail.now marked.now self }
        ensures { IfOk result (IsLearned clauses.now.clauses trail.now) }
    {
        let clause = negated(alloc, trail, marked, self.below)?;
        let level = back_level(trail, marked, self.below);
        let mut steps = self.steps;
        steps.reverse();
        Ok(LearnedClause {
            clause,
            steps,
            level,
        })
    }
}

/// No variable of n is marked.
pub(crate) fn no_marks(alloc: Global, count: usize) -> Result<Vec<bool>, AllocError>
    ensures { IfOk result (λ marked. marked.items ≡ replicate count false) }
{
    vec![in alloc; false; count]
}

// Marks the variables of a clause, and counts those of the present level that weren't marked before.
fn mark(marked: &mut [bool], trail: &Trail, clause: &[SatLit]) -> u64
    requires size { length marked.old ≡ trail.now.variables }
    requires trail { IsTrail trail.now }
    requires places { AreBefore trail.now.entries (length trail.now.entries) clause.now }
    ensures stay { StayMarked marked.old marked.new }
    ensures marked { AreMarked marked.new clause.now }
    ensures on_trail { AreOnTrail trail.now.entries marked.old → AreOnTrail trail.now.entries marked.new }
    ensures later { (place : ℕ) → AreBefore trail.now.entries place clause.now
        → StayFrom trail.now.entries place marked.old marked.new }
    ensures here { (place : ℕ) → AreBefore trail.now.entries place clause.now
        → here_in trail.now marked.new place ≡ here_in trail.now marked.old place + result }
{
    let mut here = 0;
    for literal in clause.iter() {
        let variable = literal.variable();
        if !marked[variable as usize] {
            marked[variable as usize] = true;
            here += present(trail, variable);
        }
    }
    here
}

// 1 where the literal of a variable is of the present level, else 0.
fn present(trail: &Trail, variable: u64) -> u64
    requires { HasPlace trail.now.entries (length trail.now.entries) variable }
    ensures { (place : ℕ) → IsPlace trail.now.entries variable place
        → result ≡ (if (entry_at trail.now.entries place).level == trail.now.level then 1 else 0) }
{
    let Some(place) = trail.place(variable) else {
        unreachable!()
    };
    u64::from(trail.level_at(place) == trail.level())
}

// Which of the first n literals the marked ones imply, by any number of steps. A literal that isn't marked is looked at
// only where one of its level is covered before it, since its reason has one more of that level; and not at level 0,
// where chains of reasons take more words of a log than the literals that they save.
fn implied(
    alloc: Global,
    clauses: &ClauseStore,
    trail: &Trail,
    marked: &[bool],
    below: u64,
) -> Result<Vec<bool>, AllocError>
    requires trail { IsTrail trail.now }
    requires size { length marked.now ≡ trail.now.variables }
    requires known { All (AreKnown trail.now.variables) clauses.now.clauses }
    requires sound { IsSound clauses.now.clauses trail.now }
    requires within { below ≤ length trail.now.entries }
    ensures { IfOk result (λ implied. length implied.items ≡ below) }
{
    let mut implied = Vec::with_capacity(alloc, below as usize)?;
    let mut covered = 0;
    for place in 0..below {
        let level = trail.level_at(place);
        let is_kept = marked[trail.lit_at(place).variable() as usize];
        let is_near = is_kept | ((level == covered) & (level > 0));
        let next = is_near && is_implied(clauses, trail, marked, &implied, place);
        if is_kept | next {
            covered = level;
        }
        implied.push(next)?;
    }
    Ok(implied)
}

// Whether a literal has a reason whose other literals are covered: marked, or implied.
fn is_implied(
    clauses: &ClauseStore,
    trail: &Trail,
    marked: &[bool],
    implied: &[bool],
    place: u64,
) -> bool
    requires size { length marked.now ≡ trail.now.variables }
    requires known { All (AreKnown trail.now.variables) clauses.now.clauses }
    requires sound { IsSound clauses.now.clauses trail.now }
    requires there { place < length trail.now.entries }
{
    let Some(reason) = trail.reason_at(place) else {
        return false;
    };
    for literal in clauses.get(reason).iter() {
        let variable = literal.variable();
        if !marked[variable as usize] & !is_among(trail, implied, place, variable) {
            return false;
        }
    }
    true
}

// Whether a variable's literal is the one at a place, or an implied one before it.
fn is_among(trail: &Trail, implied: &[bool], place: u64, variable: u64) -> bool {
    match trail.place(variable) {
        Some(at) => (at == place) || (at < implied.len() as u64 && implied[at as usize]),
        None => false,
    }
}

// The opposites of the marked literals before a place.
fn negated(
    alloc: Global,
    trail: &Trail,
    marked: &[bool],
    below: u64,
) -> Result<Items<SatLit>, AllocError>
    requires trail { IsTrail trail.now }
    requires size { length marked.now ≡ trail.now.variables }
    requires within { below ≤ length trail.now.entries }
    ensures { IfOk result (λ clause. clause ≡ map opposite (kept_literals trail.now.entries marked.now below)) }
{
    let mut clause = Items::new(alloc);
    for place in 0..below {
        let literal = trail.lit_at(place);
        if marked[literal.variable() as usize] {
            clause.push(literal.opposite())?;
        }
    }
    Ok(clause)
}

// The greatest level below the present one among the marked literals before a place: that of the last one of them,
// since levels ascend.
fn back_level(trail: &Trail, marked: &[bool], below: u64) -> u64
    requires trail { IsTrail trail.now }
    requires size { length marked.now ≡ trail.now.variables }
    requires within { below ≤ length trail.now.entries }
    ensures { IsBackLevel trail.now marked.now below result }
{
    let mut place = below;
    while place > 0 {
        place -= 1;
        if is_lower(trail, marked, place) {
            return trail.level_at(place);
        }
    }
    0
}

// Whether the literal at a place is marked and of a lower level than the present one.
fn is_lower(trail: &Trail, marked: &[bool], place: u64) -> bool
    requires trail { IsTrail trail.now }
    requires size { length marked.now ≡ trail.now.variables }
    requires within { place < length trail.now.entries }
    ensures { result ≡ is_lower trail.now marked.now place }
{
    marked[trail.lit_at(place).variable() as usize] & (trail.level_at(place) < trail.level())
}
