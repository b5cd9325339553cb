//! The records that are left, written again.

ghost use Rattle.std.specs.Prelude.{◌≡◌, ◌++◌, [], true, All, IfOk, OnOk, cond, length};
ghost use Rattle.std.specs.List.{flat_map};
ghost use Rattle.account_file.specs.Spelling.{HasLine, IsWritable, record_line};
ghost use Rattle.account_trim.specs.Lowered.{HaveLines, left_by, lowered_record};

use crate::links::Links;
use crate::lowering::{Lower, lower_record};
use account_file::{Record, put_record};
use std::alloc::AllocError;

/// Writes the records that are marked, with their new numbers. Answers how many there are.
pub(crate) fn put_left(
    lower: &Lower,
    marks: &[bool],
    links: &[Links],
    records: &mut Vec<Record>,
    out: &mut Vec<u8>,
) -> Result<u64, AllocError>
    requires links { length links.now ≡ length records.old.items }
    requires marks { length marks.now ≡ length records.old.items }
    requires lines { HaveLines marks.now records.old.items }
    ensures text { OnOk result (out.new.items
        ≡ out.old.items ++ flat_map record_line (left_by lower.now marks.now links.now records.old.items)) }
    ensures writable { OnOk result (All IsWritable (left_by lower.now marks.now links.now records.old.items)) }
    ensures count { IfOk result (λ count. count ≡ length (left_by lower.now marks.now links.now records.old.items)) }
{
    let mut count = 0;
    for place in 0..records.len() {
        count += put_marked(lower, marks[place], &links[place], &mut records[place], out)?;
    }
    Ok(count)
}

// Writes a record with the new numbers, if it is marked. Answers how many were written.
fn put_marked(
    lower: &Lower,
    mark: bool,
    link: &Links,
    entry: &mut Record,
    out: &mut Vec<u8>,
) -> Result<u64, AllocError>
    requires { mark ≡ true → HasLine entry.old }
    ensures text { OnOk result (out.new.items
        ≡ out.old.items ++ cond mark (record_line (lowered_record lower.now link.now entry.old)) []) }
    ensures writable { OnOk result (mark ≡ true → IsWritable (lowered_record lower.now link.now entry.old)) }
    ensures count { IfOk result (λ count. count ≡ cond mark 1 0) }
{
    if !mark {
        return Ok(0);
    }
    lower_record(lower, link, entry);
    put_record(entry, out)?;
    Ok(1)
}
