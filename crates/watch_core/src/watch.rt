use crate::stage::Stage;

/// Gets what a run is at, whenever that may be of interest. Nothing is promised of what a watcher does with it, and
/// no answer depends on it: it is lent as `&`, and can't change what the contracts of a run speak of.
pub trait Watch: Drop {
    /// The run is at this stage from now on.
    fn at(&self, stage: Stage);
}

/// Watches nothing.
#[derive(Clone, Copy, Debug)]
pub struct Silent;

impl Watch for Silent {
    fn at(&self, _stage: Stage) {}
}
