//! The lines that marked ones rest on.

ghost use Rattle.std.specs.Prelude.{◌≡◌, length};

use cnf_core::LogLine;

/// Marks the lines that marked ones rest on, from the last line to the first: when a line's turn comes, all that may
/// name it had theirs. A formula has n clauses, and the lines are numbered after these.
pub fn mark_hinted(count: u64, lines: &[LogLine], marked: &mut [bool])
    ensures { length marked.new ≡ length marked.old }
{
    for (place, line) in lines.iter().enumerate().rev() {
        mark_hints(count, line, place, marked);
    }
}

// Marks the lines that the line of a place names, where it is marked.
fn mark_hints(count: u64, line: &LogLine, place: usize, marked: &mut [bool])
    ensures { length marked.new ≡ length marked.old }
{
    if !is_marked(marked, place) {
        return;
    }
    for hint in line.hints.iter() {
        mark(count, *hint, marked);
    }
}

fn is_marked(marked: &[bool], place: usize) -> bool {
    place < marked.len() && marked[place]
}

// Marks the line of a number, if it is one.
fn mark(count: u64, number: u64, marked: &mut [bool])
    ensures { length marked.new ≡ length marked.old }
{
    if number < count {
        return;
    }
    let place = number - count;
    if place < marked.len() as u64 {
        marked[place as usize] = true;
    }
}
