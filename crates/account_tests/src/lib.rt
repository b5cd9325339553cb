//! Tests of accounts: their lines, the steps of bans, what is accepted, and what is written.
#![tactic(auto)]

#[cfg(test)]
mod accounts;
#[cfg(test)]
mod binary_accounts;
#[cfg(test)]
mod conversions;
#[cfg(test)]
mod entries;
#[cfg(test)]
mod graphs;
#[cfg(test)]
mod records;
#[cfg(test)]
mod steps;
#[cfg(test)]
mod trimmed_accounts;
#[cfg(test)]
mod written_accounts;
