//! The limit that the system sets to the size of a file.

use std::alloc::Alloc;
use std::fs;
use std::rt::Files;

/// The table of the process's own limits, which Linux gives as a text.
const LIMITS: &str = "/proc/self/limits";

/// What the line of the limit on the size of a file begins with.
const FILE_SIZE: &str = "Max file size";

/// How many bytes a file may have that this process writes, by the soft limit (`ulimit -f`, RLIMIT_FSIZE); `u64::MAX`
/// where there is none, or the system doesn't say it. A write past it ends the process by a signal.
pub(crate) fn file_size_limit<R: Files + Alloc>(rt: &R) -> u64 {
    match fs::read_to_string(rt, LIMITS) {
        Ok(limits) => size_in(limits.as_str()).unwrap_or(u64::MAX),
        Err(_) => u64::MAX,
    }
}

/// The soft limit on the size of a file, in bytes, of a table of limits as `/proc/self/limits`; `None` where the table
/// has none, or says `unlimited`.
pub fn size_in(limits: &str) -> Option<u64> {
    limits.lines().find_map(size_of_line)
}

/// The soft limit of the line on the size of a file; `None` of any other line, and of `unlimited`.
fn size_of_line(line: &str) -> Option<u64> {
    let columns = line.strip_prefix(FILE_SIZE)?;
    let soft = columns.split_ascii_whitespace().next()?;
    soft.parse().ok()
}
