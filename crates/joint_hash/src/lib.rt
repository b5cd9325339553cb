//! Lemmas for the two cones of a query by their structure alone: gates that unfold to the same tree are one (structural
//! hashing), and where polarity excludes what is asked, gates of the one cone imply their copies in the other. Where
//! both outputs unfold to the same tree and are to differ, a refutation, with the lemmas that it needs.
#![tactic(auto)]

mod classes;
mod gates;
mod hinting;
mod lemmas;
mod made;
mod merging;
mod needed;
mod polarity;
mod twins;

pub use gates::ConeGate;
pub use merging::merge;
pub use needed::{Refutation, refute};
