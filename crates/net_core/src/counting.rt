//! How many gates a netlist's definitions have when they are expanded, counted without making them.

ghost use Rattle.std.specs.Prelude.{◌≡◌, ◌-◌, ◌^◌, count_by, if◌then◌else◌, min};
ghost use Rattle.std.specs.List.{sum_by};
ghost use Rattle.circuits.specs.Expansion.{def_gates, gates_in, gives_literal, row_gates};

use crate::plain_net::PlainNet;
use circuits::{Def, Trit};
use items::Items;

/// How many gates a netlist has. A count that fits no `usize` is given as the greatest one.
pub(crate) fn gate_count(net: &PlainNet) -> usize
    ensures { result ≡ min (gates_in net.now) (2 ^ 64 - 1) }
{
    let mut count: usize = 0;
    for def in net.defs().iter() {
        count = count.saturating_add(def_count(def));
    }
    count
}

fn def_count(def: &Def) -> usize
    ensures { result ≡ min (def_gates def.now) (2 ^ 64 - 1) }
{
    match def {
        Def::And { .. } => 1,
        Def::Cover { rows, .. } => rows_count(rows).saturating_add(rows.len().saturating_sub(1)),
    }
}

/// How many gates the rows of a cover have, without those that join them.
fn rows_count(rows: &[Items<Trit>]) -> usize
    ensures { result ≡ min (sum_by row_gates rows.now) (2 ^ 64 - 1) }
{
    let mut count: usize = 0;
    for row in rows.iter() {
        count = count.saturating_add(literal_count(row).saturating_sub(1));
    }
    count
}

/// How many literals a row has.
fn literal_count(row: &[Trit]) -> usize
    ensures { result ≡ count_by gives_literal row.now }
{
    let mut count = 0;
    for trit in row.iter() {
        count += literals_at(*trit);
    }
    count
}

/// How many literals a position of a row gives.
fn literals_at(trit: Trit) -> usize
    ensures { result ≡ (if gives_literal trit then 1 else 0) }
{
    match trit {
        Trit::Zero | Trit::One => 1,
        Trit::Dash => 0,
    }
}
