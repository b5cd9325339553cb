//! Tests of runs of the program over files in memory: what is printed, how it ends, and what is written.
#![tactic(auto)]

#[cfg(test)]
mod alterations;
#[cfg(test)]
mod checks;
#[cfg(test)]
mod explaining;
#[cfg(test)]
mod faults;
#[cfg(test)]
mod files;
#[cfg(test)]
mod matches;
#[cfg(test)]
mod pairs;
#[cfg(test)]
mod refusals;
#[cfg(test)]
mod restores;
#[cfg(test)]
mod rewrites;
#[cfg(test)]
mod runs;
#[cfg(test)]
mod watching;
