//! How a long run goes on: what it is at, reported to whoever watches it, and for how long a search in it goes on
//! before it starts over. No answer depends on either.
#![tactic(auto)]

mod reluctant_doubling;
mod stage;
mod watch;

pub use reluctant_doubling::ReluctantDoubling;
pub use stage::Stage;
pub use watch::{Silent, Watch};
