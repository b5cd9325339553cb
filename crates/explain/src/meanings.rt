//! What is wrong with a record of an account, in a line.

use account_check::{Reject, Why};
use check_steps::ReadStop;

/// Writes what is wrong with a record.
pub(crate) fn put_meaning(why: Why, text: &mut String) -> Result<(), ReadStop> {
    match why {
        Why::Form(fault) => writeln!(text, "{fault}")?,
        Why::Record(reject) => writeln!(text, "{}", meaning_of(reject))?,
    }
    Ok(())
}

fn meaning_of(reject: Reject) -> &'static str {
    match reject {
        Reject::UnknownId => "it names a port, a fact or a ban that is not there",
        Reject::VectorFails => "the vector does not show what it is given for",
        Reject::Refutation(_) => "the clause is not derived by its hints",
        Reject::Rule => "the step does not keep its rule",
        Reject::Conclusion => "the conclusion does not fit the circuits or what was given",
    }
}
