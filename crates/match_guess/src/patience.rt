/// How many guesses that fail at once count as one. With half as many the adder and subtractor of 24 bits takes a
/// second longer; with twice as many none of 29 pairs changes.
const SHARES_A_POINT: u32 = 8;

/// How many more guesses may fail, in shares.
#[derive(Clone, Copy, Debug, Drop)]
pub(crate) struct Patience {
    left: u32,
    /// How many shares a choice point takes all of whose guesses failed.
    of_point: u32,
}

impl Patience {
    /// In an odd round `failures` guesses may fail: so a wrong first guess is soon taken back. In an even round as many
    /// choice points may fail, each by all of its guesses, and eight guesses that fail at once count as one point. That
    /// serves where each sign has to be guessed by itself, as of two numbers that are added or subtracted: there every
    /// other guess fails at once, and the next one is right.
    pub(crate) fn of_round(round: u32, failures: u32) -> Patience {
        if round % 2 == 1 {
            return Patience {
                left: failures,
                of_point: 0,
            };
        }
        Patience {
            left: failures.saturating_mul(SHARES_A_POINT),
            of_point: SHARES_A_POINT,
        }
    }

    /// A guess failed.
    pub(crate) fn fail(&mut self) {
        self.left = self.left.saturating_sub(1);
    }

    /// Counts choice points that were left, all of whose guesses failed.
    pub(crate) fn leave(&mut self, points: usize) {
        let shares = (points as u64).min(u64::from(u32::MAX)) as u32;
        self.left = self
            .left
            .saturating_sub(shares.saturating_mul(self.of_point));
    }

    /// Whether no more may fail.
    pub(crate) fn is_over(&self) -> bool {
        self.left == 0
    }
}
