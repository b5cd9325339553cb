//! Tests of facts, bans, guesses and refining, and of the search over two oracles.
#![tactic(auto)]

#[cfg(test)]
mod bans;
#[cfg(test)]
mod budgets;
#[cfg(test)]
mod claims;
#[cfg(test)]
mod comparisons;
#[cfg(test)]
mod guesses;
#[cfg(test)]
mod refinings;
#[cfg(test)]
mod sample_circuits;
#[cfg(test)]
mod searches;
#[cfg(test)]
mod supports;
#[cfg(test)]
mod tables;
