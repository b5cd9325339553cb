//! The inputs of an output's support, sorted by which of them may be exchanged.

ghost use Rattle.std.specs.Prelude.{◌≡◌, ◌<◌, ◌++◌, ◌∷◌, [], IfOk, IfSome, OnOk, length};
ghost use Rattle.oracle_core.specs.Oracles.{Serves};
ghost use Rattle.claim_core.specs.Rows.{IsEntry, ListsSupport};
ghost use Rattle.fact_tests.specs.Outputs.{IsOutput, MayAsk, arity, function};
ghost use Rattle.fact_tests.specs.Exchanges.{Adds, AreClasses, IsClass, IsFound, IsJoined, IsNext, IsSecond, IsTried};
ghost use Rattle.fact_tests.specs.Exchanges.{IsWay, Sorts, classes_with, found_by, next_by, place_in, second_by};
ghost use Rattle.fact_tests.specs.Exchanges.{skew_by};

use crate::first_output::FirstOutput;
use crate::symmetry_test::{InputExchange, are_alike};
use claim_core::Unate;
use cnf_core::Stop;
use items::Items;
use oracle_core::Oracle;
use query_core::Ledger;
use std::alloc::AllocError;

/// Inputs of a support, sorted into classes: of one class any two may be exchanged, of two classes none. So n inputs of
/// one class take n - 1 tests, each of an input with one of the class, and not one for each two inputs.
#[derive(Drop)]
pub(crate) struct ExchangeClasses {
    pub classes: Items<Class>,
    /// Where each input of the support belongs, in the order of the support.
    pub places: Items<ClassPlace>,
}

/// Inputs of which any two may be exchanged.
#[derive(Clone, Copy, Drop)]
pub(crate) struct Class {
    /// The least of them, and how the output depends on it.
    pub first: (u32, Unate),
    /// What is known of the others, where there are some.
    pub others: Option<OtherInputs>,
}

/// The inputs of a class beside its first one.
#[derive(Clone, Copy, Drop)]
pub(crate) struct OtherInputs {
    /// The greatest of them, with which the next input is tried: inputs that follow one another are often side by side
    /// in the circuit, and what is asked of such inputs is answered sooner.
    pub last: (u32, Unate),
    /// Whether it may be exchanged with the first one inverted, else as it is.
    pub inverted: bool,
    /// Whether any two inputs of the class may be exchanged both ways.
    pub both: bool,
}

/// Where an input belongs.
#[derive(Clone, Copy, Drop)]
pub(crate) struct ClassPlace {
    /// The number of its class.
    pub class: usize,
    /// Whether it may be exchanged with the first input of its class inverted, else as it is.
    pub inverted: bool,
}

/// The class to which the next input belongs.
#[derive(Clone, Copy, Drop)]
pub(crate) struct FoundClass {
    pub number: usize,
    pub first: (u32, Unate),
    /// What is known of the others, of which the input is the last one.
    pub others: OtherInputs,
}

/// What is tried next with an input. No answer depends on it.
#[derive(Drop)]
struct Tries {
    /// The swap that is asked first (`are_alike`).
    start: bool,
    /// The class that is tried: at first the one after that to which the last input belongs. Where the inputs of an
    /// operand come one after another, those of the next operand belong to the same classes in the same order.
    class: usize,
}

/// Sorts the inputs of the output's support.
pub(crate) fn sort<O: Oracle>(
    output: &FirstOutput<'_>,
    support: &[(u32, Unate)],
    oracle: &mut O,
    ledger: &mut Ledger,
) -> Result<ExchangeClasses, Stop>
    requires may { MayAsk output.now.graphs.now (O.known oracle.old) ledger.old }
    requires output { IsOutput output.now }
    requires support { ListsSupport (arity output.now) (function output.now) 0 (arity output.now) support.now }
    ensures serves { Serves (O.known oracle.old) (O.known oracle.new) ledger.old ledger.new result }
    ensures sorts { IfOk result (Sorts (arity output.now) (function output.now) support.now (length support.now)) }
{
    let mut sorted = ExchangeClasses {
        classes: Items::new(output.alloc),
        places: Items::new(output.alloc),
    };
    add_all(output, support, &mut sorted, oracle, ledger)?;
    Ok(sorted)
}

/// Adds all inputs of the output's support to an empty list.
fn add_all<O: Oracle>(
    output: &FirstOutput<'_>,
    support: &[(u32, Unate)],
    sorted: &mut ExchangeClasses,
    oracle: &mut O,
    ledger: &mut Ledger,
) -> Result<(), Stop>
    requires may { MayAsk output.now.graphs.now (O.known oracle.old) ledger.old }
    requires output { IsOutput output.now }
    requires support { ListsSupport (arity output.now) (function output.now) 0 (arity output.now) support.now }
    requires classes { sorted.old.classes ≡ [] }
    requires places { sorted.old.places ≡ [] }
    ensures serves { Serves (O.known oracle.old) (O.known oracle.new) ledger.old ledger.new result }
    ensures sorts { OnOk result
        (Sorts (arity output.now) (function output.now) support.now (length support.now) sorted.new) }
{
    let mut tries = Tries {
        start: false,
        class: 0,
    };
    for entry in support.iter() {
        add(output, *entry, sorted, &mut tries, oracle, ledger)?;
    }
    Ok(())
}

/// Adds the next input to the class to which it belongs, or to a new one.
fn add<O: Oracle>(
    output: &FirstOutput<'_>,
    entry: (u32, Unate),
    sorted: &mut ExchangeClasses,
    tries: &mut Tries,
    oracle: &mut O,
    ledger: &mut Ledger,
) -> Result<(), Stop>
    requires may { MayAsk output.now.graphs.now (O.known oracle.old) ledger.old }
    requires output { IsOutput output.now }
    requires entry { IsEntry (arity output.now) (function output.now) entry }
    requires classes { AreClasses (arity output.now) (function output.now) entry.0 sorted.old.classes }
    ensures serves { Serves (O.known oracle.old) (O.known oracle.new) ledger.old ledger.new result }
    ensures adds { OnOk result (Adds (arity output.now) (function output.now) entry.0 sorted.old sorted.new) }
{
    let found = find(output, entry, &sorted.classes, tries, oracle, ledger)?;
    let place = put(entry, found, sorted)?;
    tries.class = place.class.wrapping_add(1);
    Ok(())
}

/// Puts the next input into the class that was found, else into a new one. Answers where it belongs.
fn put(
    entry: (u32, Unate),
    found: Option<FoundClass>,
    sorted: &mut ExchangeClasses,
) -> Result<ClassPlace, AllocError>
    requires found { IfSome found (λ found. found.number < length sorted.old.classes) }
    ensures classes { OnOk result (sorted.new.classes ≡ classes_with entry found sorted.old.classes) }
    ensures places { OnOk result (sorted.new.places ≡ sorted.old.places ++ place_in found sorted.old.classes ∷ []) }
{
    let place = put_class(entry, found, &mut sorted.classes)?;
    sorted.places.push(place)?;
    Ok(place)
}

/// Puts the next input into the classes alone, not among the places.
fn put_class(
    entry: (u32, Unate),
    found: Option<FoundClass>,
    classes: &mut Items<Class>,
) -> Result<ClassPlace, AllocError>
    requires found { IfSome found (λ found. found.number < length classes.old) }
    ensures classes { OnOk result (classes.new ≡ classes_with entry found classes.old) }
    ensures place { IfOk result (λ place. place ≡ place_in found classes.old) }
{
    match found {
        Some(found) => {
            let FoundClass {
                number,
                first,
                others,
            } = found;
            let grown = Class {
                first,
                others: Some(others),
            };
            classes.set(number, grown);
            Ok(ClassPlace {
                class: number,
                inverted: others.inverted,
            })
        }
        None => {
            let class = classes.len();
            classes.push(Class {
                first: entry,
                others: None,
            })?;
            Ok(ClassPlace {
                class,
                inverted: false,
            })
        }
    }
}

/// The class to which an input after those of all classes belongs; None where it may be exchanged with none of their
/// inputs.
fn find<O: Oracle>(
    output: &FirstOutput<'_>,
    entry: (u32, Unate),
    classes: &[Class],
    tries: &mut Tries,
    oracle: &mut O,
    ledger: &mut Ledger,
) -> Result<Option<FoundClass>, Stop>
    requires may { MayAsk output.now.graphs.now (O.known oracle.old) ledger.old }
    requires output { IsOutput output.now }
    requires entry { IsEntry (arity output.now) (function output.now) entry }
    requires classes { AreClasses (arity output.now) (function output.now) entry.0 classes.now }
    ensures serves { Serves (O.known oracle.old) (O.known oracle.new) ledger.old ledger.new result }
    ensures found { IfOk result (IsFound (arity output.now) (function output.now) classes.now entry) }
{
    match try_class(output, entry, classes, tries, oracle, ledger)? {
        Some(found) => Ok(Some(found)),
        None => find_among(output, entry, classes, tries, oracle, ledger),
    }
}

/// The first class to which the input belongs.
fn find_among<O: Oracle>(
    output: &FirstOutput<'_>,
    entry: (u32, Unate),
    classes: &[Class],
    tries: &mut Tries,
    oracle: &mut O,
    ledger: &mut Ledger,
) -> Result<Option<FoundClass>, Stop>
    requires may { MayAsk output.now.graphs.now (O.known oracle.old) ledger.old }
    requires output { IsOutput output.now }
    requires entry { IsEntry (arity output.now) (function output.now) entry }
    requires classes { AreClasses (arity output.now) (function output.now) entry.0 classes.now }
    ensures serves { Serves (O.known oracle.old) (O.known oracle.new) ledger.old ledger.new result }
    ensures found { IfOk result (IsFound (arity output.now) (function output.now) classes.now entry) }
{
    for number in 0..classes.len() {
        tries.class = number;
        let found = try_class(output, entry, classes, tries, oracle, ledger)?;
        match found {
            Some(found) => return Ok(Some(found)),
            None => {}
        }
    }
    Ok(None)
}

/// The class that is tried next, where there is one and the input belongs to it.
fn try_class<O: Oracle>(
    output: &FirstOutput<'_>,
    entry: (u32, Unate),
    classes: &[Class],
    tries: &mut Tries,
    oracle: &mut O,
    ledger: &mut Ledger,
) -> Result<Option<FoundClass>, Stop>
    requires may { MayAsk output.now.graphs.now (O.known oracle.old) ledger.old }
    requires output { IsOutput output.now }
    requires entry { IsEntry (arity output.now) (function output.now) entry }
    requires classes { AreClasses (arity output.now) (function output.now) entry.0 classes.now }
    ensures serves { Serves (O.known oracle.old) (O.known oracle.new) ledger.old ledger.new result }
    ensures tried { IfOk result (IsTried (arity output.now) (function output.now) classes.now entry tries.old.class) }
{
    let number = tries.class;
    if number >= classes.len() {
        return Ok(None);
    }
    let class = classes[number];
    let start = &mut tries.start;
    let others = admit(output, entry, class, start, oracle, ledger)?;
    Ok(found_by(number, class, others))
}

/// The class that was found, once the input is the last of its others; None where it doesn't belong to the class.
fn found_by(number: usize, class: Class, others: Option<OtherInputs>) -> Option<FoundClass>
    ensures { result ≡ found_by number class others }
{
    let others = others?;
    Some(FoundClass {
        number,
        first: class.first,
        others,
    })
}

/// The others of a class with the input as the last of them; None where it doesn't belong to the class.
fn admit<O: Oracle>(
    output: &FirstOutput<'_>,
    entry: (u32, Unate),
    class: Class,
    start: &mut bool,
    oracle: &mut O,
    ledger: &mut Ledger,
) -> Result<Option<OtherInputs>, Stop>
    requires may { MayAsk output.now.graphs.now (O.known oracle.old) ledger.old }
    requires output { IsOutput output.now }
    requires entry { IsEntry (arity output.now) (function output.now) entry }
    requires class { IsClass (arity output.now) (function output.now) entry.0 class }
    ensures serves { Serves (O.known oracle.old) (O.known oracle.new) ledger.old ledger.new result }
    ensures joined { IfOk result (IsJoined (arity output.now) (function output.now) class entry) }
{
    match class.others {
        Some(others) => follow(output, others, entry, start, oracle, ledger),
        None => pair_up(output, class.first, entry, start, oracle, ledger),
    }
}

/// The second input of a class.
fn pair_up<O: Oracle>(
    output: &FirstOutput<'_>,
    first: (u32, Unate),
    entry: (u32, Unate),
    start: &mut bool,
    oracle: &mut O,
    ledger: &mut Ledger,
) -> Result<Option<OtherInputs>, Stop>
    requires may { MayAsk output.now.graphs.now (O.known oracle.old) ledger.old }
    requires output { IsOutput output.now }
    requires order { first.0 < entry.0 }
    requires first { IsEntry (arity output.now) (function output.now) first }
    requires entry { IsEntry (arity output.now) (function output.now) entry }
    ensures serves { Serves (O.known oracle.old) (O.known oracle.new) ledger.old ledger.new result }
    ensures pair { IfOk result (IsSecond (arity output.now) (function output.now) first entry) }
{
    let plain = InputExchange {
        first,
        second: entry,
        inverted: false,
    };
    let symmetric = are_alike(output, plain, start, oracle, ledger)?;
    let inverted = InputExchange {
        first,
        second: entry,
        inverted: true,
    };
    let skew = are_alike(output, inverted, start, oracle, ledger)?;
    Ok(second_by(entry, symmetric, skew))
}

/// The second input of a class, by whether it and the first one are symmetric, and whether they are skew symmetric.
fn second_by(entry: (u32, Unate), symmetric: bool, skew: bool) -> Option<OtherInputs>
    ensures { result ≡ second_by entry symmetric skew }
{
    if !symmetric & !skew {
        return None;
    }
    Some(OtherInputs {
        last: entry,
        inverted: !symmetric,
        both: symmetric & skew,
    })
}

/// An input more of a class of two or more.
fn follow<O: Oracle>(
    output: &FirstOutput<'_>,
    others: OtherInputs,
    entry: (u32, Unate),
    start: &mut bool,
    oracle: &mut O,
    ledger: &mut Ledger,
) -> Result<Option<OtherInputs>, Stop>
    requires may { MayAsk output.now.graphs.now (O.known oracle.old) ledger.old }
    requires output { IsOutput output.now }
    requires order { others.last.0 < entry.0 }
    requires last { IsEntry (arity output.now) (function output.now) others.last }
    requires entry { IsEntry (arity output.now) (function output.now) entry }
    ensures serves { Serves (O.known oracle.old) (O.known oracle.new) ledger.old ledger.new result }
    ensures follows { IfOk result (IsNext (arity output.now) (function output.now) others entry) }
{
    let way = way_of(output, others.last, entry, start, oracle, ledger)?;
    Ok(next_by(others, entry, way))
}

/// The others of a class with an input more, which may be exchanged with the last one in this way.
fn next_by(others: OtherInputs, entry: (u32, Unate), way: Option<bool>) -> Option<OtherInputs>
    ensures { result ≡ next_by others entry way }
{
    let inverted = way?;
    Some(OtherInputs {
        last: entry,
        inverted: others.inverted ^ inverted,
        both: others.both,
    })
}

/// Whether two inputs may be exchanged each inverted, or as they are; None where neither is so.
fn way_of<O: Oracle>(
    output: &FirstOutput<'_>,
    first: (u32, Unate),
    second: (u32, Unate),
    start: &mut bool,
    oracle: &mut O,
    ledger: &mut Ledger,
) -> Result<Option<bool>, Stop>
    requires may { MayAsk output.now.graphs.now (O.known oracle.old) ledger.old }
    requires output { IsOutput output.now }
    requires order { first.0 < second.0 }
    requires first { IsEntry (arity output.now) (function output.now) first }
    requires second { IsEntry (arity output.now) (function output.now) second }
    ensures serves { Serves (O.known oracle.old) (O.known oracle.new) ledger.old ledger.new result }
    ensures way { IfOk result (IsWay (arity output.now) (function output.now) first.0 second.0) }
{
    let plain = InputExchange {
        first,
        second,
        inverted: false,
    };
    let symmetric = are_alike(output, plain, start, oracle, ledger)?;
    if symmetric {
        return Ok(Some(false));
    }
    let inverted = InputExchange {
        first,
        second,
        inverted: true,
    };
    let skew = are_alike(output, inverted, start, oracle, ledger)?;
    Ok(skew_by(skew))
}

/// The way of two inputs that aren't symmetric.
fn skew_by(skew: bool) -> Option<bool>
    ensures { result ≡ skew_by skew }
{
    if skew { Some(true) } else { None }
}
