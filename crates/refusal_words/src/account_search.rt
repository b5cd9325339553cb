//! What an account's conclusion rests on, found in the account's text.

ghost use Rattle.std.specs.Prelude.{◌≡◌, false};

use crate::pieces::{Need, Seek};
use account_core::{Ban, Conclusion, FactHead, Step};
use account_file::{FileStop, Reader, Record};
use check_steps::ReadStop;
use claim_core::Claim;
use std::alloc::Global;

/// Takes an account's records, one after another.
pub(crate) trait RecordSearch {
    /// Takes the next record, and says whether those after it are needed too.
    fn next(&mut self, record: Record) -> Need;
}

/// Goes over an account's records as its bytes come.
#[derive(Drop)]
pub(crate) struct Records<T: RecordSearch + Drop> {
    text: Text,
    search: T,
}

impl<T: RecordSearch + Drop> Records<T> {
    pub(crate) fn new(alloc: Global, search: T) -> Records<T> {
        Records {
            text: Text::new(alloc),
            search,
        }
    }

    /// What was looked for, as far as it was found.
    pub(crate) fn search(&self) -> &T {
        &self.search
    }
}

impl<T: RecordSearch + Drop> Seek for Records<T> {
    fn take(&mut self, alloc: Global, piece: &[u8]) -> Result<Need, ReadStop> {
        if self.text.feed(piece)? == Need::Nothing {
            return Ok(Need::Nothing);
        }
        // no piece has as many records
        for _ in 0..u64::MAX {
            let Some(record) = self.text.next(alloc)? else {
                return Ok(Need::More);
            };
            if self.search.next(record) == Need::Nothing {
                return Ok(Need::Nothing);
            }
        }
        Ok(Need::Nothing)
    }
}

/// An account's text, of which more may come.
#[derive(Drop)]
struct Text {
    reader: Reader,
    /// How many bytes came.
    fed: u64,
    ghost unfinished: { reader.finished ≡ false },
    ghost counted: { reader.total ≡ fed },
}

impl Text {
    fn new(alloc: Global) -> Text {
        Text {
            reader: Reader::new(alloc),
            fed: 0,
        }
    }

    /// Takes the next bytes, but for those of an account that is too long to be counted.
    fn feed(&mut self, piece: &[u8]) -> Result<Need, ReadStop> {
        let Some(fed) = self.fed.checked_add(piece.len() as u64) else {
            return Ok(Need::Nothing);
        };
        self.reader.feed(piece)?;
        self.fed = fed;
        Ok(Need::More)
    }

    /// The next record; None where more bytes are needed first, or a record isn't good.
    fn next(&mut self, alloc: Global) -> Result<Option<Record>, ReadStop> {
        match self.reader.next(alloc) {
            Ok(record) => Ok(record),
            Err(FileStop::Fault(_)) => Ok(None),
            Err(FileStop::Memory) => Err(ReadStop::Memory),
        }
    }
}

/// Looks for the ban that the conclusion names.
#[derive(Drop)]
pub(crate) struct ConclusionSearch {
    /// How many bans came.
    bans: u64,
    /// The last ban without pairs, and its number.
    last: Option<(u64, Record)>,
    found: bool,
}

impl ConclusionSearch {
    pub(crate) fn new() -> ConclusionSearch {
        ConclusionSearch {
            bans: 0,
            last: None,
            found: false,
        }
    }

    /// The step of the ban that the conclusion names.
    pub(crate) fn step(&self) -> Option<&Step> {
        match &self.last {
            Some((_, Record::Ban(ban))) if self.found => Some(&ban.step),
            _ => None,
        }
    }

    /// Counts a ban, and keeps one without pairs.
    fn note_ban(&mut self, record: Record) {
        let Record::Ban(ban) = &record else {
            return;
        };
        let number = self.bans;
        self.bans = number.saturating_add(1);
        let refuses = ban.pairs.is_empty();
        if refuses {
            self.last = Some((number, record));
        }
    }

    fn note_conclusion(&mut self, conclusion: &Conclusion) {
        if let Conclusion::NoneBan(number) = conclusion {
            self.found = self.is_last(*number);
        }
    }

    fn is_last(&self, number: u64) -> bool {
        match &self.last {
            Some((last, _)) => *last == number,
            None => false,
        }
    }
}

impl RecordSearch for ConclusionSearch {
    fn next(&mut self, record: Record) -> Need {
        if let Record::Conclusion(conclusion) = &record {
            self.note_conclusion(conclusion);
            return Need::Nothing;
        }
        self.note_ban(record);
        Need::More
    }
}

/// Looks for the ban of a number.
#[derive(Drop)]
pub(crate) struct BanSearch {
    /// How many bans come before it.
    before: u64,
    /// The ban, once it came.
    found: Option<Record>,
}

impl BanSearch {
    pub(crate) fn new(number: u64) -> BanSearch {
        BanSearch {
            before: number,
            found: None,
        }
    }

    /// The ban, if it was found.
    pub(crate) fn ban(&self) -> Option<&Ban> {
        match &self.found {
            Some(Record::Ban(ban)) => Some(ban),
            _ => None,
        }
    }
}

impl RecordSearch for BanSearch {
    fn next(&mut self, record: Record) -> Need {
        let Record::Ban(_) = &record else {
            return Need::More;
        };
        if self.before == 0 {
            self.found = Some(record);
            return Need::Nothing;
        }
        self.before -= 1;
        Need::More
    }
}

/// Looks for the claims of two facts.
#[derive(Drop)]
pub(crate) struct ClaimSearch {
    /// The facts' numbers.
    numbers: (u64, u64),
    /// How many facts came.
    facts: u64,
    claims: (Option<Claim>, Option<Claim>),
}

impl ClaimSearch {
    pub(crate) fn new(numbers: (u64, u64)) -> ClaimSearch {
        ClaimSearch {
            numbers,
            facts: 0,
            claims: (None, None),
        }
    }

    /// The claims, if both were found.
    pub(crate) fn claims(&self) -> Option<(Claim, Claim)> {
        self.claims.0.zip(self.claims.1)
    }
}

impl RecordSearch for ClaimSearch {
    fn next(&mut self, record: Record) -> Need {
        let Record::Fact(head) = &record else {
            return Need::More;
        };
        let claim = claim_of(head);
        if self.facts == self.numbers.0 {
            self.claims.0 = Some(claim);
        }
        if self.facts == self.numbers.1 {
            self.claims.1 = Some(claim);
        }
        self.facts = self.facts.saturating_add(1);
        if self.claims.0.is_some() & self.claims.1.is_some() {
            return Need::Nothing;
        }
        Need::More
    }
}

fn claim_of(head: &FactHead) -> Claim {
    match head {
        FactHead::Fails { claim, .. } => *claim,
        FactHead::Holds { claim } => *claim,
    }
}
