//! What was found over dense variables, translated into terms of the formula.

ghost use Rattle.std.specs.Prelude.{◌≡◌, ◌+◌, ◌<◌, ◌^◌, ◌++◌, All, IfOk, IfErr, OnOk, true, false, length, map};
ghost use Rattle.cnf_core.specs.Derivations.{clauses_of};
ghost use Rattle.cnf_core.specs.Clauses.{AreKnown};
ghost use Rattle.ask_core.specs.Renamings.{AreNames, IsSpread, translated};
ghost use Rattle.ask_core.specs.Solved.{AreCharged, AreRefused, HaveNamed, IsTranslated};

use crate::base::DenseBase;
use crate::charging::charge_all;
use crate::lines::translated;
use crate::verdict::DenseVerdict;
use bit_list::Marks;
use cnf_core::{Charge, Log, LogLine, Stop};
use items::Items;
use learn_solver::Finding;
use std::alloc::{AllocError, Global};

/// Charges lines over dense variables as lines of the formula, and answers these.
pub(crate) fn charge_translated<L: Charge>(
    alloc: Global,
    dense: &DenseBase,
    next: u64,
    lines: &[LogLine],
    ledger: &mut L,
) -> Result<Vec<LogLine>, Stop>
    requires known { All (AreKnown (length dense.now.names)) (clauses_of lines.now) }
    requires few { All (λ line. All (λ hint. next + hint < 2 ^ 64) line.hints) lines.now }
    requires opened { (L.charging ledger.old).opened ≡ true }
    requires not_spent { (L.charging ledger.old).spent ≡ false }
    ensures lines { IfOk result
        (λ copies. copies.items ≡ map (translated dense.now.names dense.now.numbers next) lines.now) }
    ensures charged { OnOk result (AreCharged (L.charging ledger.old)
        (map (translated dense.now.names dense.now.numbers next) lines.now) (L.charging ledger.new)) }
    ensures refused { IfErr result (AreRefused (L.charging ledger.old)
        (map (translated dense.now.names dense.now.numbers next) lines.now) (L.charging ledger.new)) }
{
    let copies = translated_all(alloc, dense, next, lines)?;
    charge_all(&copies, ledger)?;
    Ok(copies)
}

// Lines over dense variables as lines of the formula.
fn translated_all(
    alloc: Global,
    dense: &DenseBase,
    next: u64,
    lines: &[LogLine],
) -> Result<Vec<LogLine>, AllocError>
    requires known { All (AreKnown (length dense.now.names)) (clauses_of lines.now) }
    requires few { All (λ line. All (λ hint. next + hint < 2 ^ 64) line.hints) lines.now }
    ensures { IfOk result (λ copies. copies.items ≡ map (translated dense.now.names dense.now.numbers next) lines.now) }
{
    let mut copies = Vec::new(alloc);
    for line in lines.iter() {
        copies.push(translated(alloc, dense, next, line)?)?;
    }
    Ok(copies)
}

/// An answer over dense variables, over n variables of the formula. A log has the lemmas and then the lines.
pub(crate) fn verdict_of(
    alloc: Global,
    dense: &DenseBase,
    variables: u64,
    lemmas: &[LogLine],
    lines: Vec<LogLine>,
    own: Finding,
) -> Result<DenseVerdict, AllocError>
    requires names { AreNames variables dense.now.names }
    requires named { HaveNamed (length dense.now.names) own }
    ensures { IfOk result (IsTranslated dense.now.names variables (lemmas.now ++ lines.items) own) }
{
    match own {
        Finding::Model(values) => {
            let full = spread(alloc, dense.names(), &values, variables)?;
            Ok(DenseVerdict::Model(full))
        }
        Finding::Refuted => {
            let log = joined(alloc, lemmas, lines)?;
            Ok(DenseVerdict::Refuted(log))
        }
    }
}

// The formula's variables that are true: those whose dense variables are.
fn spread(
    alloc: Global,
    names: &[u64],
    values: &[bool],
    variables: u64,
) -> Result<Marks, AllocError>
    requires names { AreNames variables names.now }
    requires values { length values.now ≡ length names.now }
    ensures { IfOk result (IsSpread names.now values.now variables) }
{
    let mut full = Marks::none(alloc, variables as usize);
    for (place, name) in names.iter().enumerate() {
        full.mark_where(alloc, *name as usize, values[place])?;
    }
    Ok(full)
}

// The log of lemmas and of lines after them.
fn joined(alloc: Global, lemmas: &[LogLine], lines: Vec<LogLine>) -> Result<Log, AllocError>
    ensures { IfOk result (λ log. log.lines ≡ lemmas.now ++ lines.items) }
{
    let mut whole = copied(alloc, lemmas)?;
    for line in lines {
        whole.push(line)?;
    }
    Ok(Log {
        lines: Items::from_vec(whole),
    })
}

// Equal lines.
fn copied(alloc: Global, lines: &[LogLine]) -> Result<Vec<LogLine>, AllocError>
    ensures { IfOk result (λ copies. copies.items ≡ lines.now) }
{
    lines.to_vec(alloc)
}
