//! What a long run is at, printed on standard error.

use crate::asked::is_asked;
use std::cell::Cell;
use std::io;
use std::rt::Clock;
use std::time::{Duration, Instant};
use watch_core::{Stage, Watch};

/// The variable of the environment that asks for it, by the value 1, or forbids it by 0.
const VARIABLE: &str = "NPNP_PROGRESS";

/// Nothing is printed before a run has taken this many seconds, since most runs are over then.
const SECONDS_BEFORE: u64 = 2;

/// So many seconds lie between two lines, few enough that a reader sees that the run goes on.
const SECONDS_BETWEEN: u64 = 1;

/// A watcher that prints on standard error now and then what a run is at.
#[derive(Drop)]
pub(crate) struct Progress<R> {
    rt: R,
    /// When the run began; None where nothing is to be printed.
    start: Option<Instant>,
    /// The time since then from which on the next line is printed.
    due: Cell<Duration>,
    /// The last stage, except that clauses were learned for it.
    stage: Cell<Stage>,
    /// How many clauses were learned in the run.
    learned: Cell<u64>,
}

impl Progress<HostRuntime> {
    /// It prints where standard error is a terminal, or the environment asks for it.
    pub(crate) fn new(rt: &HostRuntime) -> io::Result<Progress<HostRuntime>> {
        let start = if is_asked(rt, VARIABLE) {
            Instant::now(rt).ok()
        } else {
            None
        };
        Ok(Progress {
            rt: rt.clone()?,
            start,
            due: Cell::new(Duration::from_secs(SECONDS_BEFORE)),
            stage: Cell::new(Stage::Reading { file: 1 }),
            learned: Cell::new(0),
        })
    }
}

impl<R: Clock + Eprint + Drop> Watch for Progress<R> {
    fn at(&self, stage: Stage) {
        let Some(start) = self.start else {
            return;
        };
        self.note(stage);
        let Ok(passed) = start.elapsed(&self.rt) else {
            return;
        };
        if passed < self.due.get() {
            return;
        }
        self.due.set(passed.saturating_add(Duration::from_secs(SECONDS_BETWEEN)));
        // a line that can't be written is left out
        let _ = self.write_line(passed.as_secs());
    }
}

impl<R: Eprint> Progress<R> {
    /// Keeps what a stage says.
    fn note(&self, stage: Stage) {
        match stage {
            Stage::Learning { learned, budget: _ } => self.learned.set(learned),
            stage => self.stage.set(stage),
        }
    }

    /// Writes a line on standard error.
    fn write_line(&self, seconds: u64) -> io::Result<()> {
        let stage = self.stage.get();
        let learned = self.learned.get();
        eprintln!(self.rt; "npnp: {seconds} s: {stage}; {learned} clauses learned")
    }
}
