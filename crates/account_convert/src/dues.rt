//! What is due to be dropped after which record.

ghost use Rattle.std.specs.Prelude.{◌≡◌, ◌<◌, ◌∷◌, [], IfOk, IfNone, IfSome, length};
ghost use Rattle.account_convert.specs.Tables.{AreDues, listed};
ghost use Rattle.account_convert.specs.Writing.{after_at, first_at};

use crate::mentions::Mentions;
use std::alloc::{AllocError, Global};
use std::marker::Model;

/// The number of a fact or of a ban, and the number of the last record that gives or names it, after which it is due to
/// be dropped.
#[derive(Drop)]
pub(crate) struct Due {
    pub(crate) record_number: u64,
    pub(crate) number: u64,
}

/// The facts and the bans of an account, by the records after which they are due to be dropped.
#[derive(Drop)]
pub(crate) struct Dues {
    pub(crate) facts: Vec<Due>,
    pub(crate) bans: Vec<Due>,
}

/// What is due to be dropped, by what was mentioned last where.
pub(crate) fn dues_by(alloc: Global, mentions: &Mentions) -> Result<Dues, AllocError>
    ensures facts { IfOk result (λ dues. AreDues mentions.now.facts dues.facts.items) }
    ensures bans { IfOk result (λ dues. AreDues mentions.now.bans dues.bans.items) }
{
    Ok(Dues {
        facts: dues_in(alloc, &mentions.facts)?,
        bans: dues_in(alloc, &mentions.bans)?,
    })
}

// What a table says, in the order of the records, and of one record ascending. It is sorted once: to look through the
// table at each record would take its length times as long.
fn dues_in(alloc: Global, table: &[u64]) -> Result<Vec<Due>, AllocError>
    ensures { IfOk result (λ dues. AreDues table.now dues.items) }
{
    let mut dues = list(alloc, table)?;
    dues.sort_by_key(|due| due.record_number)?;
    Ok(dues)
}

// For each number, the record after which it is due.
fn list(alloc: Global, table: &[u64]) -> Result<Vec<Due>, AllocError>
    ensures { IfOk result (λ dues. dues.items ≡ listed table.now) }
{
    let mut dues = Vec::new(alloc);
    for place in 0..table.len() {
        dues.push(Due {
            record_number: table[place],
            number: place as u64,
        })?;
    }
    Ok(dues)
}

/// What is still due, in turn.
#[derive(Drop)]
pub(crate) struct DueLeft<'a> {
    dues: &'a [Due],
}

impl<'a> Model for DueLeft<'a> {
    ghost use Rattle.std.specs.Prelude.{List};
    ghost use Rattle.account_convert.specs.declared.dues.Due.{Due as AnyDue};

    ghost Value = { List AnyDue };

    ghost view = { λ a. a.dues.now };
}

impl<'a> DueLeft<'a> {
    /// All of it.
    pub(crate) fn new(dues: &'a [Due]) -> DueLeft<'a>
        ensures { result ≡ dues.now }
    {
        DueLeft { dues }
    }

    /// Takes the next number, if it is due after this record.
    pub(crate) fn next_at(&mut self, record_number: u64) -> Option<u64>
        ensures first { IfSome result (λ number. first_at record_number self.old
            ≡ number ∷ first_at record_number self.new) }
        ensures after { IfSome result (λ number. after_at record_number self.old ≡ after_at record_number self.new) }
        ensures fewer { IfSome result (λ number. length self.new < length self.old) }
        ensures none { IfNone result (first_at record_number self.old ≡ []) }
        ensures left { IfNone result (after_at record_number self.old ≡ self.new) }
    {
        let [due, rest @ ..] = self.dues else {
            return None;
        };
        if due.record_number != record_number {
            return None;
        }
        self.dues = rest;
        Some(due.number)
    }
}
