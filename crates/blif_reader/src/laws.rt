//! The law of the definitions. The function does nothing; its contract is the law.

ghost use Rattle.net_file.specs.Formats.{IsFormat};
ghost use Rattle.blif_reader.specs.Blif.{IsBlif, IsBlifFault};

/// A file is one netlist at most, with one name for each port, or it has one first fault, at one place: one of them,
/// and never both. The netlist is closed, has no cycle, and at most 4,096 inputs and 4,096 outputs.
pub fn blif_is_a_format()
    ensures { IsFormat IsBlif IsBlifFault }
{}
