ghost use Rattle.std.specs.Prelude.{◌≡◌, ◌∷◌, ◌++◌, [], IfOk, OnErr, OnOk, length, map};

use cnf_core::LogLine;
use std::alloc::{AllocError, Global};
use std::fmt;
use std::marker::Model;
use std::snapshot::Snapshot;

/// The lines of a question. Contracts see it as the list of the lines; when the program runs it is how many there are,
/// since a snapshot has no bytes. Those that were charged can be read from the ledger's arena.
pub struct Lines {
    inside: Vec<Snapshot<LogLine>>,
}

impl Model for Lines {
    ghost use Rattle.std.specs.Prelude.{List, map};
    ghost use Rattle.cnf_core.specs.declared.log.LogLine.{LogLine as AnyLine};

    ghost Value = { List AnyLine };

    ghost view = { λ a. map (λ line. line.value) a.inside.items };
}

// By hand, so that each exit of a function has one call for it (docs/IDIOMS.md).
impl Drop for Lines {
    fn drop(self) {
        let Lines { inside: _inside } = self;
    }
}

impl Lines {
    /// No lines.
    pub fn new(alloc: Global) -> Lines
        ensures { result ≡ [] }
    {
        Lines {
            inside: Vec::new(alloc),
        }
    }

    /// These lines.
    ///
    /// # Errors
    ///
    /// Only when out of memory.
    pub fn of(alloc: Global, lines: &[LogLine]) -> Result<Lines, AllocError>
        ensures { IfOk result (λ noted. noted ≡ lines.now) }
    {
        let mut noted = Vec::with_capacity(alloc, lines.len())?;
        note_all(lines, &mut noted)?;
        Ok(Lines { inside: noted })
    }

    /// Adds a line at the end. A refusal changes nothing.
    pub fn push(&mut self, line: &LogLine) -> Result<(), AllocError>
        ensures pushed { OnOk result (self.new ≡ self.old ++ line.now ∷ []) }
        ensures refused { OnErr result (self.new ≡ self.old) }
    {
        note(line, &mut self.inside)
    }

    /// How many lines there are.
    pub fn len(&self) -> usize
        ensures { result ≡ length self.now }
    {
        self.inside.len()
    }
}

impl fmt::Debug for Lines {
    fn fmt<W: fmt::Write>(&self, f: &mut fmt::Formatter<W>) -> fmt::Result {
        let count = self.len();
        write!(f, "{count} lines")
    }
}

// Adds these lines.
fn note_all(lines: &[LogLine], noted: &mut Vec<Snapshot<LogLine>>) -> Result<(), AllocError>
    ensures { OnOk result (map (λ line. line.value) noted.new.items
        ≡ map (λ line. line.value) noted.old.items ++ lines.now) }
{
    for line in lines.iter() {
        note(line, noted)?;
    }
    Ok(())
}

// Adds a line. A refusal changes nothing.
fn note(line: &LogLine, noted: &mut Vec<Snapshot<LogLine>>) -> Result<(), AllocError>
    ensures noted { OnOk result (map (λ line. line.value) noted.new.items
        ≡ map (λ line. line.value) noted.old.items ++ line.now ∷ []) }
    ensures refused { OnErr result (noted.new.items ≡ noted.old.items) }
{
    noted.push(Snapshot::of(line))?;
    Ok(())
}
