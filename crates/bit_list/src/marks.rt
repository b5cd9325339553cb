//! Marks of numbers.

ghost use Rattle.std.specs.Prelude.{◌≡◌, ◌<◌, true, false, All, IfOk, IfSome, OnOk, OnErr, length, replicate};
ghost use Rattle.std.specs.Prelude.{slice_index_or, slice_set, if◌then◌else◌};
ghost use Rattle.bit_list.specs.Marking.{AreBelow, listed_marks, marks_in};

use indexmap::IndexSet;
use std::alloc::{AllocError, Global};
use std::marker::Model;

/// A table costs a byte for each number, all zeroed at once, and a set a hash and some 40 bytes for each mark. With one
/// mark for this many numbers both are reckoned, not measured, to cost as much.
const NUMBERS_A_MARK: usize = 1024;

/// Which of the numbers below a count are marked. Contracts see a list with a bit for each of these numbers.
///
/// While few are marked, it takes a step and some bytes for each mark, whatever the count is.
pub struct Marks {
    form: Form,
}

/// How marks are kept.
#[derive(Drop)]
enum Form {
    /// The numbers that are marked, in any order.
    Few {
        count: usize,
        numbers: IndexSet<usize>,
    },
    /// Whether each number is marked.
    Table(Vec<bool>),
}

impl Model for Marks {
    ghost use Rattle.std.specs.Prelude.{List, Bool};
    ghost use Rattle.bit_list.specs.Marking.{AreBelow, marks_in};

    ghost Value = { List Bool };

    ghost view = { λ a. marks_in a.form };

    ghost invariant = { λ a. AreBelow a.form };
}

// By hand, so that each exit of a function has one call for it (docs/IDIOMS.md).
impl Drop for Marks {
    fn drop(self) {
        let Marks { form: _form } = self;
    }
}

impl Marks {
    /// No marks of the numbers below a count. It takes no memory until one is marked.
    pub fn none(alloc: Global, count: usize) -> Marks
        ensures { result ≡ replicate count false }
    {
        Marks {
            form: Form::Few {
                count,
                numbers: IndexSet::new(alloc),
            },
        }
    }

    /// The marks that stand in a table.
    pub fn from_table(table: Vec<bool>) -> Marks
        ensures { result ≡ table.items }
    {
        Marks {
            form: Form::Table(table),
        }
    }

    /// How many numbers could be marked.
    pub fn len(&self) -> usize
        ensures { result ≡ length self.now }
    {
        count_of(&self.form)
    }

    /// Whether a number is marked.
    pub fn has(&self, number: usize) -> bool
        requires { number < length self.now }
        ensures { result ≡ slice_index_or self.now number false }
    {
        is_marked(&self.form, number)
    }

    /// Marks a number. When out of memory, nothing changes.
    pub fn mark(&mut self, alloc: Global, number: usize) -> Result<(), AllocError>
        requires { number < length self.old }
        ensures marked { OnOk result (self.new ≡ slice_set self.old number true) }
        ensures refused { OnErr result (self.new ≡ self.old) }
    {
        self.spread(alloc)?;
        put(&mut self.form, number)
    }

    /// Marks a number where a test says so. When out of memory, nothing changes.
    pub fn mark_where(
        &mut self,
        alloc: Global,
        number: usize,
        is_so: bool,
    ) -> Result<(), AllocError>
        requires { number < length self.old }
        ensures marked { OnOk result (self.new ≡ (if is_so then slice_set self.old number true else self.old)) }
        ensures refused { OnErr result (self.new ≡ self.old) }
    {
        if is_so {
            return self.mark(alloc, number);
        }
        Ok(())
    }

    /// Keeps the marks in a table from here on, where these are many beside the numbers.
    fn spread(&mut self, alloc: Global) -> Result<(), AllocError>
        ensures { self.new ≡ self.old }
    {
        let table = table_for(alloc, &self.form)?;
        if let Some(table) = table {
            self.form = Form::Table(table);
        }
        Ok(())
    }
}

// How many numbers could be marked.
fn count_of(form: &Form) -> usize
    ensures { result ≡ length (marks_in form.now) }
{
    match form {
        Form::Few { count, .. } => *count,
        Form::Table(table) => table.len(),
    }
}

// Whether a number is marked.
fn is_marked(form: &Form, number: usize) -> bool
    requires { number < length (marks_in form.now) }
    ensures { result ≡ slice_index_or (marks_in form.now) number false }
{
    match form {
        Form::Few { numbers, .. } => numbers.contains(&number),
        Form::Table(table) => table[number],
    }
}

// Marks a number.
fn put(form: &mut Form, number: usize) -> Result<(), AllocError>
    requires there { number < length (marks_in form.old) }
    requires below { AreBelow form.old }
    ensures marked { OnOk result (marks_in form.new ≡ slice_set (marks_in form.old) number true) }
    ensures refused { OnErr result (marks_in form.new ≡ marks_in form.old) }
    ensures below { AreBelow form.new }
{
    match form {
        Form::Few { numbers, .. } => {
            numbers.insert(number)?;
            Ok(())
        }
        Form::Table(table) => {
            table[number] = true;
            Ok(())
        }
    }
}

// A table of the marks, where these are many beside the numbers and stand in none.
fn table_for(alloc: Global, form: &Form) -> Result<Option<Vec<bool>>, AllocError>
    requires { AreBelow form.now }
    ensures { IfOk result (λ table. IfSome table (λ marks. marks.items ≡ marks_in form.now)) }
{
    match form {
        Form::Few { count, numbers } => {
            if numbers.len() < *count / NUMBERS_A_MARK {
                return Ok(None);
            }
            let table = table_of(alloc, *count, numbers.as_slice())?;
            Ok(Some(table))
        }
        Form::Table(_) => Ok(None),
    }
}

// A table that has these numbers marked.
fn table_of(alloc: Global, count: usize, numbers: &[usize]) -> Result<Vec<bool>, AllocError>
    requires { All (λ number. number < count) numbers.now }
    ensures { IfOk result (λ table. table.items ≡ listed_marks count numbers.now) }
{
    let mut table = unmarked(alloc, count)?;
    for number in numbers.iter() {
        table[*number] = true;
    }
    Ok(table)
}

fn unmarked(alloc: Global, count: usize) -> Result<Vec<bool>, AllocError>
    ensures { IfOk result (λ table. table.items ≡ replicate count false) }
{
    vec![in alloc; false; count]
}
