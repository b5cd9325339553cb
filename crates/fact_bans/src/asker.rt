use broken_claims::BrokenClaims;
use oracle_core::Oracle;
use query_core::Ledger;
use std::alloc::Global;

/// What functions are lent that have claims decided: an oracle that decides them, what vectors showed of them and which
/// facts were noted, and the ledger that is charged for what is learned.
#[derive(Drop)]
pub struct Asker<'a, O: Oracle> {
    pub alloc: Global,
    pub oracle: &'a mut O,
    pub broken: &'a mut BrokenClaims,
    pub ledger: &'a mut Ledger,
}
