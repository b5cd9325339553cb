//! What the environment asks for beside the report.

use std::env;
use std::io::IsTerminal;
use std::rt::Env;

/// Whether something is to be said on standard error: where a variable of the environment is 1, and not where it is 0;
/// else where standard error is a terminal.
pub(crate) fn is_asked(rt: &HostRuntime, variable: &str) -> bool {
    match switch(rt, variable) {
        Some(on) => on,
        None => rt.stderr().is_terminal(),
    }
}

/// What a variable of the environment says, where it is 0 or 1.
fn switch<R: Env + AllocGlobal>(rt: &R, variable: &str) -> Option<bool> {
    match env::var(rt, variable).ok()?.as_str() {
        "0" => Some(false),
        "1" => Some(true),
        _ => None,
    }
}
