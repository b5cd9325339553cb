use std::fmt;

/// What a run is at.
#[derive(Clone, Copy, Debug, PartialEq, Eq)]
pub enum Stage {
    /// A netlist is read and parsed: its place among the files of the words, from 1.
    Reading { file: u32 },
    /// An account is read and checked: how many of its bytes are left, and how many it has.
    Checking { left: u64, bytes: u64 },
    /// A matching is guessed and compared: how many were before.
    Guessing { guesses: u32 },
    /// An output of the first circuit is compared with its partner: its number, and how many outputs there are.
    Proving { output: u32, outputs: u32 },
    /// A claim about an output is decided: how many were before.
    Deciding { claims: u64 },
    /// Pairs of ports are searched: how many bans, lists of pairs that no match has all of, are kept.
    Banning { bans: u64 },
    /// A clause is learned: how many were before in the run, and how many may be.
    Learning { learned: u64, budget: u64 },
}

/// In words, as after "The run is".
impl fmt::Display for Stage {
    fn fmt<W: fmt::Write>(&self, f: &mut fmt::Formatter<W>) -> fmt::Result {
        match self {
            Stage::Reading { file } => write!(f, "reading file {file}"),
            Stage::Checking { left, bytes } => {
                write!(f, "checking the account, {left} of {bytes} bytes left")
            }
            Stage::Guessing { guesses } => write!(f, "guessing a matching, {guesses} tried"),
            Stage::Proving { output, outputs } => write!(f, "proving output {output} of {outputs}"),
            Stage::Deciding { claims } => write!(f, "deciding claims, {claims} decided"),
            Stage::Banning { bans } => write!(f, "searching pairs, {bans} bans kept"),
            Stage::Learning { learned, budget } => {
                write!(f, "learning clauses, {learned} of {budget} learned")
            }
        }
    }
}
