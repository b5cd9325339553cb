//! What a file of models comes to.

use net_file::Named;

/// A circuit of models as one netlist, with the names of the top's ports.
#[derive(Debug, Drop)]
pub struct Hier {
    pub net: Named,
    /// How many models the file has.
    pub models: u64,
    /// How many instances the netlist is made of, the top among them.
    pub instances: u64,
}
