//! The signals that aren't replaced, by their classes.

ghost use Rattle.std.specs.Prelude.{ℕ, ◌≡◌, ◌<◌, ◌≤◌, ◌^◌, Some, None, IfOk, length, replicate, slice_set};
ghost use Rattle.sweep.specs.Classes.{member_at};
ghost use Rattle.sweep.specs.Leaders.{AreChained, some_at};

use crate::classes::Member;
use net_core::Lit;
use std::alloc::{AllocError, Global};

/// For each class the last signal of it that isn't replaced, and for each such signal the one before it. In practice a
/// class has one: where two signals of a class turn out to differ, the vector on which they do splits it.
pub(crate) struct Leaders {
    /// By class.
    last: Vec<Option<u32>>,
    /// By signal.
    before: Vec<Option<u32>>,
}

// By hand, so that each exit of a function has one call for it (docs/IDIOMS.md).
impl Drop for Leaders {
    fn drop(self) {
        let Leaders {
            last: _last,
            before: _before,
        } = self;
    }
}

impl Leaders {
    /// Of no signal.
    fn none(alloc: Global, signals: usize) -> Result<Leaders, AllocError>
        ensures last { IfOk result (λ leaders. leaders.last.items ≡ replicate signals None) }
        ensures before { IfOk result (λ leaders. leaders.before.items ≡ replicate signals None) }
    {
        Ok(Leaders {
            last: vec![in alloc; None; signals]?,
            before: vec![in alloc; None; signals]?,
        })
    }

    /// Of the first signals, those that replace themselves.
    ///
    /// # Errors
    ///
    /// Only when out of memory.
    pub(crate) fn of(
        alloc: Global,
        members: &[Member],
        replacements: &[Lit],
        count: u32,
    ) -> Result<Leaders, AllocError>
        requires members { count ≤ length members.now }
        requires replacements { count ≤ length replacements.now }
        requires few { length members.now < 2 ^ 31 }
        requires classes { (s : ℕ) → s < length members.now → (member_at members.now s).class < length members.now }
        ensures { IfOk result (λ leaders.
            AreChained members.now replacements.now count leaders.last.items leaders.before.items) }
    {
        let mut leaders = Leaders::none(alloc, members.len())?;
        for signal in 0..count {
            if replacements[signal as usize].0 == 2 * signal {
                leaders.add(signal, members[signal as usize].class);
            }
        }
        Ok(leaders)
    }

    /// Adds a signal of a class, after those before it.
    pub(crate) fn add(&mut self, signal: u32, class: u32)
        requires signal { signal < length self.old.before.items }
        requires class { class < length self.old.last.items }
        ensures before { self.new.before.items
            ≡ slice_set self.old.before.items signal (some_at self.old.last.items class) }
        ensures last { self.new.last.items ≡ slice_set self.old.last.items class (Some signal) }
    {
        self.before[signal as usize] = self.last[class as usize];
        self.last[class as usize] = Some(signal);
    }

    /// The last signal of a class, if it has one.
    pub(crate) fn last_of(&self, class: u32) -> Option<u32>
        requires { class < length self.now.last.items }
        ensures { result ≡ some_at self.now.last.items class }
    {
        self.last[class as usize]
    }

    /// The one before it in its class, if there is one.
    pub(crate) fn before(&self, signal: u32) -> Option<u32>
        requires { signal < length self.now.before.items }
        ensures { result ≡ some_at self.now.before.items signal }
    {
        self.before[signal as usize]
    }
}
