ghost use Rattle.std.specs.Prelude.{◌≡◌, IfOk, OnOk, length};
ghost use Rattle.claim_core.specs.Formulas.{formula_of, query_clauses};
ghost use Rattle.shared_lemmas.specs.Parts.{ArePlaced, AreWritten, MayGoOn};
ghost use Rattle.shared_lemmas.specs.Shared.{PaysFor};

use crate::choosing::chosen;
use crate::stock::{Stock, Twins};
use crate::{Common, note, take_marked, unplaced};
use cnf_core::LogLine;
use joint_hash::merge;
use query_core::{ConeClauses, QueryBase};
use std::alloc::{AllocError, Global};

/// The lemmas of a question, and the numbers that lines of a stock have among them.
#[derive(Drop)]
pub(crate) struct Lemmas {
    pub(crate) lines: Vec<LogLine>,
    pub(crate) numbers: Vec<Option<u64>>,
}

/// The lemmas by which gates of one structure are one, and after them the lines of a stock that are over the variables
/// of the cones, with what these lines rest on.
pub(crate) fn lemmas_for(
    alloc: Global,
    cones: &ConeClauses<'_>,
    base: &QueryBase<'_>,
    stock: &Stock,
) -> Result<Lemmas, AllocError>
    requires { MayGoOn (formula_of cones.now.graphs cones.now.query) stock.now.lines.items }
    ensures go_on { IfOk result (λ lemmas. MayGoOn (formula_of cones.now.graphs cones.now.query) lemmas.lines.items) }
    ensures paid { IfOk result (λ lemmas.
        PaysFor cones.now.graphs cones.now.query stock.now.lines.items lemmas.lines.items) }
{
    let mut lines = merge(alloc, cones)?;
    let marked = chosen(alloc, base, cones.ids(), &stock.lines)?;
    let numbers = add_chosen(alloc, cones, stock, &marked, &mut lines)?;
    Ok(Lemmas { lines, numbers })
}

// Adds the lines of a stock that are marked to lemmas. Answers the numbers that they have there.
fn add_chosen(
    alloc: Global,
    cones: &ConeClauses<'_>,
    stock: &Stock,
    marked: &[bool],
    lines: &mut Vec<LogLine>,
) -> Result<Vec<Option<u64>>, AllocError>
    requires marks { length marked.now ≡ length stock.now.lines.items }
    requires stock { MayGoOn (formula_of cones.now.graphs cones.now.query) stock.now.lines.items }
    requires lemmas { MayGoOn (formula_of cones.now.graphs cones.now.query) lines.old.items }
    ensures goes_on { OnOk result (MayGoOn (formula_of cones.now.graphs cones.now.query) lines.new.items) }
    ensures written { OnOk result (AreWritten (length (query_clauses cones.now.graphs cones.now.query))
        stock.now.lines.items lines.old.items lines.new.items) }
{
    let count = cones.count();
    let common = Common { count, same: count };
    let mut numbers = unplaced(alloc, stock.lines.len())?;
    note_twins(count, &stock.lines, &stock.twins, lines, &mut numbers);
    take_marked(alloc, common, &stock.lines, marked, &mut numbers, lines)?;
    Ok(numbers)
}

// Lists the lines of a stock that are among lemmas.
fn note_twins(
    count: u64,
    stock: &[LogLine],
    twins: &Twins,
    lemmas: &[LogLine],
    numbers: &mut Vec<Option<u64>>,
)
    requires placed { ArePlaced count stock.now lemmas.now numbers.old.items }
    ensures size { length numbers.new.items ≡ length numbers.old.items }
    ensures placed { ArePlaced count stock.now lemmas.now numbers.new.items }
{
    for (place, line) in lemmas.iter().enumerate() {
        let number = count.saturating_add(place as u64);
        note_twin(
            count,
            stock,
            twins.place_of(&line.clause),
            lemmas,
            number,
            numbers,
        );
    }
}

// Lists that a line of a stock, given by its place, stands among the lemmas under a number, if that lemma has its
// clause.
fn note_twin(
    count: u64,
    stock: &[LogLine],
    place: Option<usize>,
    lemmas: &[LogLine],
    number: u64,
    numbers: &mut Vec<Option<u64>>,
)
    requires placed { ArePlaced count stock.now lemmas.now numbers.old.items }
    ensures size { length numbers.new.items ≡ length numbers.old.items }
    ensures placed { ArePlaced count stock.now lemmas.now numbers.new.items }
{
    if let Some(own) = place {
        note(count, stock, lemmas, own, number, numbers);
    }
}
