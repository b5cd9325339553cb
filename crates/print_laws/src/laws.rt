ghost use Rattle.std.specs.Prelude.{◌≤◌, All, length};
ghost use Rattle.circuits.specs.Functions.{Computes, as_circuit};
ghost use Rattle.circuits.specs.Netlists.{Net};
ghost use Rattle.net_core.specs.Limits.{most_bytes};
ghost use Rattle.net_file.specs.declared.named.Named.{Named};
ghost use Rattle.net_print.specs.BlifLines.{blif_text};
ghost use Rattle.net_print.specs.Files.{aag_text, aig_text};
ghost use Rattle.aiger_reader.specs.Aiger.{IsAiger};
ghost use Rattle.blif_reader.specs.Blif.{IsBlif};
ghost use Rattle.print_laws.specs.Ordered.{with_greater_first};
ghost use Rattle.print_laws.specs.Printable.{HasFewGates, IsPrintable, IsShortName, IsWithinLimits};
ghost use Rattle.print_laws.specs.PrintedCircuits.{printed_circuit, printed_inputs, printed_outputs};

/// What is printed in the ASCII form of AIGER is a file of the same netlist, gate by gate, with the same names.
#[tactic(auto, using(crate::proofs::Aag::aag_is))]
pub fn aag_reads_back()
    ensures { (named : Named)
        → IsPrintable named
        → IsAiger (aag_text named) (as_circuit named.graph) named.input_names named.output_names }
{}

/// What is printed in the binary form of AIGER is a file of the same netlist, gate by gate with the greater operand
/// first, with the same names; and the netlist computes what the file means.
#[tactic(auto, using(crate::proofs::Aig::aig_is, crate::proofs::OperandOrder::computes_too))]
pub fn aig_reads_back()
    ensures file { (named : Named)
        → IsPrintable named
        → IsAiger (aig_text named) (as_circuit (with_greater_first named.graph)) named.input_names named.output_names }
    ensures computes { (named : Named)
        → IsPrintable named
        → Computes named.graph (as_circuit (with_greater_first named.graph)) }
{}

/// What is printed as BLIF is a file with a cover for the constant, for each gate and for each output, whose ports are
/// called by their positions; and the netlist computes what the file means.
#[tactic(auto, using(crate::proofs::BlifReads::printed_blif, crate::proofs::PrintedMeaning::printed_computes))]
pub fn blif_reads_back()
    ensures file { (net : Net)
        → IsWithinLimits net
        → IsBlif (blif_text net) (printed_circuit net) (printed_inputs net) (printed_outputs net) }
    ensures computes { (net : Net)
        → IsWithinLimits net
        → Computes net (printed_circuit net) }
{}

/// What is printed is no longer than what is read: a netlist within the limits as BLIF where it has at most 1,000,000
/// gates, and in the binary form of AIGER where no name has more than 3,000 bytes.
#[tactic(auto, using(crate::proofs::SizeLemmas::aig_short, crate::proofs::SizeLemmas::blif_short))]
pub fn printed_is_short()
    ensures blif { (net : Net)
        → IsWithinLimits net
        → HasFewGates net
        → length (blif_text net) ≤ most_bytes }
    ensures aig { (named : Named)
        → IsPrintable named
        → All IsShortName named.input_names
        → All IsShortName named.output_names
        → length (aig_text named) ≤ most_bytes }
{}
