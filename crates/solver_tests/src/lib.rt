//! Tests of clauses and their refutation, of queries, of the solver, of netlists that are reduced, and of the vectors
//! that are simulated.
#![tactic(auto)]

#[cfg(test)]
mod answers;
#[cfg(test)]
mod clauses;
#[cfg(test)]
mod cover_sums;
#[cfg(test)]
mod lemmas;
#[cfg(test)]
mod queries;
#[cfg(test)]
mod refutation;
#[cfg(test)]
mod refuters;
#[cfg(test)]
mod sightings;
#[cfg(test)]
mod solvers;
#[cfg(test)]
mod swept;
#[cfg(test)]
mod trails;
#[cfg(test)]
mod truth_tables;
