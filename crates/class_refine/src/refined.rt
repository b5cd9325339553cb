/// What refining comes to.
#[derive(Clone, Copy, Debug, Drop, PartialEq, Eq)]
pub enum Refined {
    /// Nothing excludes the assigned pairs, nor beside them any pair that is not deleted, and each port has such a
    /// pair.
    Stable,
    /// The ban of this number is within the assigned pairs, so that no match has them all.
    Dead(u64),
}
