ghost use Rattle.std.specs.Prelude.{◌≡◌, ◌+◌, ◌<◌, ◌≤◌, cond, length, vec_len};
ghost use Rattle.std.specs.List.{swap};
ghost use Rattle.refusal_core.specs.Trims.{kept};

/// Keeps those of a list that are marked, in their order. They stay in the list's memory: a copy of the bans of a long
/// search would take as much as the search.
pub(crate) fn keep_marked<T: Drop>(list: &mut Vec<T>, marks: &[bool])
    requires { length marks.now ≡ vec_len list.old }
    ensures { list.new.items ≡ kept marks.now list.old.items }
{
    let mut count = 0;
    for (place, mark) in marks.iter().enumerate() {
        count = keep_one(list, count, place, *mark);
    }
    list.truncate(count);
}

// Moves the element at a place after those that are kept so far, if it is marked. Answers how many are kept then.
fn keep_one<T>(list: &mut Vec<T>, count: usize, place: usize, mark: bool) -> usize
    requires later { count ≤ place }
    requires there { place < vec_len list.old }
    ensures len { vec_len list.new ≡ vec_len list.old }
    ensures list { list.new.items ≡ cond mark (swap list.old.items count place) list.old.items }
    ensures count { result ≡ count + cond mark 1 0 }
{
    if mark {
        list.swap(count, place);
        count + 1
    } else {
        count
    }
}
