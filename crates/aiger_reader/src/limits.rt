//! What a header announces that keeps the limits.

ghost use Rattle.std.specs.Prelude.{◌≤◌};
ghost use Rattle.net_core.specs.Limits.{most_ports, most_gates, most_variables};

/// What a file announces in a header that is accepted: its form, the greatest variable, and how many inputs,
/// outputs and gates follow. There are no latches and no properties.
#[derive(Clone, Copy)]
pub(crate) struct Header {
    pub(crate) binary: bool,
    pub(crate) variables: u32,
    pub(crate) inputs: u32,
    pub(crate) outputs: u32,
    pub(crate) gates: u32,
    ghost few_variables: { variables ≤ most_variables },
    ghost few_inputs: { inputs ≤ most_ports },
    ghost few_outputs: { outputs ≤ most_ports },
    ghost few_gates: { gates ≤ most_gates },
}
