//! Tests of netlists: their order and evaluation, the readers of both formats, and the reports about ports.
#![tactic(auto)]

#[cfg(test)]
mod aiger_files;
#[cfg(test)]
mod blif_files;
#[cfg(test)]
mod compared;
#[cfg(test)]
mod generated;
#[cfg(test)]
mod graphs;
#[cfg(test)]
mod hier_files;
#[cfg(test)]
mod named_circuits;
#[cfg(test)]
mod printed;
#[cfg(test)]
mod reports;
#[cfg(test)]
mod words;
