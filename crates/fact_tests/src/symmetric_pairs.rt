//! The symmetries of an output.

ghost use Rattle.std.specs.Prelude.{◌≡◌, ◌+◌, ◌<◌, ◌++◌, ℕ, Bool, List, IfOk, OnOk, length};
ghost use Rattle.oracle_core.specs.Oracles.{Serves};
ghost use Rattle.claim_core.specs.Rows.{ListsPairs, ListsSupport};
ghost use Rattle.fact_tests.specs.Exchanges.{AreClasses, IsPlace, Sorts, both_by, sym_by};
ghost use Rattle.fact_tests.specs.Outputs.{IsOutput, IsSymmetry, MayAsk, arity, function, input_at, pair_of};

use crate::exchange_classes::{Class, ClassPlace, ExchangeClasses, OtherInputs, sort};
use crate::first_output::FirstOutput;
use claim_core::{Sym, Unate};
use cnf_core::Stop;
use items::Items;
use oracle_core::Oracle;
use query_core::Ledger;
use std::alloc::AllocError;

/// The pairs of inputs of the output's support that may be exchanged, ascending, and how.
pub(crate) fn symmetries<O: Oracle>(
    output: &FirstOutput<'_>,
    support: &[(u32, Unate)],
    oracle: &mut O,
    ledger: &mut Ledger,
) -> Result<Items<(u32, u32, Sym)>, Stop>
    requires may { MayAsk output.now.graphs.now (O.known oracle.old) ledger.old }
    requires output { IsOutput output.now }
    requires support { ListsSupport (arity output.now) (function output.now) 0 (arity output.now) support.now }
    ensures serves { Serves (O.known oracle.old) (O.known oracle.new) ledger.old ledger.new result }
    ensures pairs { IfOk result (ListsPairs (arity output.now) (function output.now) (arity output.now) 0) }
{
    let sorted = sort(output, support, oracle, ledger)?;
    Ok(pairs_in(output, support, &sorted)?)
}

/// The pairs, once the inputs are sorted.
fn pairs_in(
    output: &FirstOutput<'_>,
    support: &[(u32, Unate)],
    sorted: &ExchangeClasses,
) -> Result<Items<(u32, u32, Sym)>, AllocError>
    requires support { ListsSupport (arity output.now) (function output.now) 0 (arity output.now) support.now }
    requires sorts { Sorts (arity output.now) (function output.now) support.now (length support.now) sorted.now }
    ensures { IfOk result (ListsPairs (arity output.now) (function output.now) (arity output.now) 0) }
{
    let mut pairs = Items::new(output.alloc);
    for place in 0..support.len() {
        add_pairs(output, support, sorted, place, &mut pairs)?;
    }
    Ok(pairs)
}

/// Adds the pairs whose lesser input is at a place of the support.
fn add_pairs(
    output: &FirstOutput<'_>,
    support: &[(u32, Unate)],
    sorted: &ExchangeClasses,
    place: usize,
    pairs: &mut Items<(u32, u32, Sym)>,
) -> Result<(), AllocError>
    requires place { place < length support.now }
    requires support { ListsSupport (arity output.now) (function output.now) 0 (arity output.now) support.now }
    requires sorts { Sorts (arity output.now) (function output.now) support.now (length support.now) sorted.now }
    requires pairs { ListsPairs (arity output.now) (function output.now)
        (input_at (arity output.now) support.now place) 0 pairs.old }
    ensures { OnOk result
        (ListsPairs (arity output.now) (function output.now)
        (input_at (arity output.now) support.now (place + 1)) 0 pairs.new) }
{
    // contracts alone read the output
    let _ = output;
    for other in place + 1..support.len() {
        let sym = sym_of(&sorted.classes, sorted.places[place], sorted.places[other]);
        note(support[place].0, support[other].0, sym, pairs)?;
    }
    Ok(())
}

/// Adds the entry of two inputs that may be exchanged.
fn note(
    first: u32,
    second: u32,
    sym: Option<Sym>,
    pairs: &mut Items<(u32, u32, Sym)>,
) -> Result<(), AllocError>
    ensures { OnOk result (pairs.new ≡ pairs.old ++ pair_of first second sym) }
{
    if let Some(sym) = sym {
        pairs.push((first, second, sym))?;
    }
    Ok(())
}

/// In which ways two inputs may be exchanged, by where they belong: None where they may not.
fn sym_of(classes: &[Class], one: ClassPlace, other: ClassPlace) -> Option<Sym>
    requires there { one.class < length classes.now }
    ensures { (n : ℕ) (f : List Bool → Bool) (end i j : ℕ)
        → AreClasses n f end classes.now
        → IsPlace n f classes.now i one
        → IsPlace n f classes.now j other
        → i < j
        → IsSymmetry n f i j result }
{
    if one.class != other.class {
        return None;
    }
    let both = is_both(classes[one.class].others);
    Some(sym_by(both, one.inverted ^ other.inverted))
}

/// Whether any two inputs of a class may be exchanged both ways.
fn is_both(others: Option<OtherInputs>) -> bool
    ensures { result ≡ both_by others }
{
    match others {
        Some(others) => others.both,
        None => false,
    }
}

/// The way of two inputs of one class, by whether one goes with the other inverted.
fn sym_by(both: bool, inverted: bool) -> Sym
    ensures { result ≡ sym_by both inverted }
{
    match (both, inverted) {
        (true, _) => Sym::Both,
        (false, false) => Sym::Symmetric,
        (false, true) => Sym::Skew,
    }
}
