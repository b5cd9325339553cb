//! What people are told beside the report.

use crate::asked::is_asked;
use crate::folders::warn;
use explain::{EndedRun, FailedFile, explain, files_read_again};
use npnp::outcome::Outcome;
use shelf_core::{DiskShelf, FileError};
use std::rt::{Files, Runtime};
use std::{fs, io};

/// The variable of the environment that asks for it, by the value 1, or forbids it by 0.
const VARIABLE: &str = "NPNP_EXPLAIN";

/// People who read standard error, if any.
#[derive(Drop)]
pub(crate) struct People {
    rt: HostRuntime,
    listen: bool,
}

impl People {
    pub(crate) fn new(rt: HostRuntime) -> People {
        let listen = is_asked(&rt, VARIABLE);
        People { rt, listen }
    }

    /// Says to them before a run what can't be written.
    pub(crate) fn warn(&self, words: &[String]) {
        if self.listen {
            warn(&self.rt, words);
        }
    }

    /// Says to them what the end of a run means, and why the last call on a file failed, where one did.
    pub(crate) fn explain(
        &self,
        words: &[String],
        outcome: &Outcome,
        error: Option<FileError<'_>>,
    ) {
        if self.listen {
            // what can't be said is left out
            let _ = match error {
                Some(error) => self.write_with_reason(words, outcome, error),
                None => self.write(words, outcome, None),
            };
        }
    }

    fn write_with_reason(
        &self,
        words: &[String],
        outcome: &Outcome,
        error: FileError<'_>,
    ) -> io::Result<()> {
        let reason = format!(in self.rt.alloc(); "{error}")?;
        let fault = FailedFile {
            name: error.name,
            reason: reason.as_str(),
        };
        self.write(words, outcome, Some(fault))
    }

    fn write(
        &self,
        words: &[String],
        outcome: &Outcome,
        fault: Option<FailedFile<'_>>,
    ) -> io::Result<()> {
        let ended = EndedRun {
            words,
            outcome,
            fault,
            readable: are_regular(&self.rt, &files_read_again(words, outcome)),
        };
        // another shelf: that of the run may stand in the middle of a file
        let mut shelf = DiskShelf::new(self.rt.clone()?);
        let text = explain(self.rt.alloc(), &ended, &mut shelf);
        eprint!(self.rt; "{text}")
    }
}

/// Whether names lead to regular files, which can be read once more.
fn are_regular<R: Files>(rt: &R, names: &[Option<&str>]) -> bool {
    names.iter().flatten().all(|name| is_regular(rt, name))
}

fn is_regular<R: Files>(rt: &R, name: &str) -> bool {
    match fs::metadata(rt, name) {
        Ok(metadata) => metadata.is_file(),
        Err(_) => false,
    }
}
