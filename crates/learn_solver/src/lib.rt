//! A search for a model of clauses that learns from each conflict and writes down how (conflict-driven clause learning:
//! Marques-Silva and Sakallah, GRASP, 1999; Eén and Sörensson, MiniSat, 2003; the hints are those of LRAT, Cruz-Filipe
//! and others, 2017).
#![tactic(auto)]

mod candidate;
mod conflict;
mod decision;
mod focus;
mod heap;
mod order;
mod pursuit;
mod restarts;
mod search;
mod solver;
mod verdict;

pub use candidate::{Agenda, Candidate, Clash, Operands, Part, QuestionGuide, Unguided};
pub use solver::{Solver, solve, solve_guided};
pub use verdict::{Finding, Verdict};
