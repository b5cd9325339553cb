//! Logs that are taken line by line.

use cnf_core::{Base, Log, LogLine};
use query_core::ChargedLines;
use refute_check::Refuter;
use std::alloc::{AllocError, Global};

/// Whether a refuter takes each line of a log and is closed then.
pub fn is_refutation<B: Base + Drop>(
    alloc: Global,
    base: B,
    log: &Log,
) -> Result<bool, AllocError> {
    let mut refuter = Refuter::new(alloc, base)?;
    takes(&mut refuter, log)
}

fn takes<B: Base + Drop>(refuter: &mut Refuter<B>, log: &Log) -> Result<bool, AllocError> {
    if !takes_lines(refuter, &log.lines)? {
        return Ok(false);
    }
    Ok(refuter.closed())
}

pub fn takes_lines<B: Base + Drop>(
    refuter: &mut Refuter<B>,
    lines: &[LogLine],
) -> Result<bool, AllocError> {
    for line in lines.iter() {
        if !takes_line(refuter, line)? {
            return Ok(false);
        }
    }
    Ok(true)
}

/// How many lines are left, where a refuter takes each of them and there are fewer than a thousand.
pub fn count_taken<B: Base + Drop>(
    alloc: Global,
    refuter: &mut Refuter<B>,
    lines: &mut ChargedLines<'_>,
) -> Result<Option<u64>, AllocError> {
    for taken in 0..1_000 {
        let Some(line) = lines.next_line(alloc)? else {
            return Ok(Some(taken));
        };
        if !takes_line(refuter, &line)? {
            return Ok(None);
        }
    }
    Ok(None)
}

/// Whether a refuter takes a line.
fn takes_line<B: Base + Drop>(
    refuter: &mut Refuter<B>,
    line: &LogLine,
) -> Result<bool, AllocError> {
    refuter.reserve(line.clause.len())?;
    Ok(refuter.line(line).is_ok())
}
