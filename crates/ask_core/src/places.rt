//! The dense variables of a formula's variables: their places among those that occur, which are called names here.

ghost use Rattle.std.specs.Prelude.{◌≡◌, ◌<◌, ◌^◌, All, Contains, IfOk, length, slice_index_or};
ghost use Rattle.std.specs.List.Sorted.{IsNonDecreasing};
ghost use Rattle.ask_core.specs.Renamings.{AreNames, ArePlaces, ArePlacesOf};

use std::alloc::{AllocError, Global};

/// A table costs a word for each variable, which is zeroed at once, and a bisection some ten comparisons for each of
/// the two or three literals of a clause. With this many variables for a clause both are reckoned to cost the same.
const VARIABLES_A_CLAUSE: usize = 32;

/// How a variable's dense variable is found.
#[derive(Drop)]
pub(crate) enum Places {
    /// By a table: the dense variable of each variable that occurs.
    Table(Vec<u64>),
    /// By bisection of the variables that occur.
    Bisected,
}

/// How dense variables are found where this many clauses are written over them: by a table where the clauses are many
/// beside the formula's variables, and else by bisection. The names are the variables that occur.
pub(crate) fn places_for(
    alloc: Global,
    clauses: usize,
    names: &[u64],
    variables: u64,
) -> Result<Places, AllocError>
    requires names { AreNames variables names.now }
    requires ascending { IsNonDecreasing names.now }
    ensures { IfOk result (ArePlacesOf names.now) }
{
    if variables as usize / VARIABLES_A_CLAUSE > clauses {
        return Ok(Places::Bisected);
    }
    let table = table_of(alloc, names, variables)?;
    Ok(Places::Table(table))
}

impl Places {
    /// The dense variable of a variable that occurs.
    pub(crate) fn of(&self, names: &[u64], name: u64) -> usize
        requires named { Contains names.now name }
        requires places { ArePlacesOf names.now self.now }
        ensures there { result < length names.now }
        ensures is { slice_index_or names.now result 0 ≡ name }
    {
        match self {
            Places::Table(table) => table[name as usize] as usize,
            Places::Bisected => bisected(names, name),
        }
    }
}

// The dense variable that bisection finds.
fn bisected(names: &[u64], name: u64) -> usize
    requires named { Contains names.now name }
    requires ascending { IsNonDecreasing names.now }
    ensures there { result < length names.now }
    ensures is { slice_index_or names.now result 0 ≡ name }
{
    let Ok(place) = names.binary_search(&name) else {
        unreachable!()
    };
    place
}

// The dense variable of each variable that occurs.
fn table_of(alloc: Global, names: &[u64], variables: u64) -> Result<Vec<u64>, AllocError>
    requires names { AreNames variables names.now }
    ensures { IfOk result (λ places. ArePlaces variables names.now places.items) }
{
    let mut places = vec![in alloc; 0; variables as usize]?;
    for (place, name) in names.iter().enumerate() {
        places[*name as usize] = place as u64;
    }
    Ok(places)
}
