//! Why there is no match.

ghost use Rattle.std.specs.Prelude.{◌≡◌, OnOk};
ghost use Rattle.refusal_words.specs.Files.{SameFiles};
ghost use Rattle.shelf_core.specs.State.{Closed};

use crate::account_search::{BanSearch, ClaimSearch, ConclusionSearch, Records};
use crate::cover::{Cover, Way};
use crate::exclusion::WhyExcluded;
use crate::netlists::{Count, NamedNetlist, Netlists};
use crate::pieces::seek_in;
use crate::terminal_text::TerminalText;
use account_core::{Ban, Step};
use check_steps::{Match, ReadStop, Which, read_netlist};
use circuits::PortKind;
use claim_core::Claim;
use net_file::Named;
use shelf_core::Shelf;
use std::alloc::Global;
use std::fmt;
use watch_core::Silent;

/// Says of a refusal why there is no match: the numbers of ports, or what the last exclusion of the account is about.
pub fn put_refusal<S: Shelf>(
    alloc: Global,
    asked: &Match<'_>,
    shelf: &mut S,
    text: &mut String,
) -> Result<(), ReadStop>
    requires { (S.state shelf.old).mode ≡ Closed }
    ensures { SameFiles (S.state shelf.old) (S.state shelf.new) }
{
    let first = source_again(alloc, shelf, Which::First, asked.first)?;
    let second = source_again(alloc, shelf, Which::Second, asked.second)?;
    let netlists = Netlists { first, second };
    if !netlists.have_as_many() {
        return Ok(writeln!(text, "{}", OtherPortCounts(&netlists))?);
    }
    put_last_exclusion(alloc, asked.account, &netlists, shelf, text)
}

fn source_again<'a, S: Shelf>(
    alloc: Global,
    shelf: &mut S,
    which: Which,
    file: &'a str,
) -> Result<NamedNetlist<'a>, ReadStop>
    requires { (S.state shelf.old).mode ≡ Closed }
    ensures files { SameFiles (S.state shelf.old) (S.state shelf.new) }
    ensures closed { OnOk result ((S.state shelf.new).mode ≡ Closed) }
{
    let named = netlist_again(alloc, shelf, which, file)?;
    Ok(NamedNetlist { file, named })
}

/// The netlist of a file that a run has read. Where it can't be read as one again, that is a read fault.
pub fn netlist_again<S: Shelf>(
    alloc: Global,
    shelf: &mut S,
    which: Which,
    file: &str,
) -> Result<Named, ReadStop>
    requires { (S.state shelf.old).mode ≡ Closed }
    ensures files { SameFiles (S.state shelf.old) (S.state shelf.new) }
    ensures closed { OnOk result ((S.state shelf.new).mode ≡ Closed) }
{
    match read_netlist(alloc, shelf, which, file, &Silent) {
        Ok(named) => Ok(named),
        Err(_) => Err(ReadStop::ReadFault),
    }
}

/// That two netlists have other numbers of ports.
#[derive(Clone, Copy)]
struct OtherPortCounts<'a>(&'a Netlists<'a>);

impl fmt::Display for OtherPortCounts<'_> {
    fn fmt<W: fmt::Write>(&self, f: &mut fmt::Formatter<W>) -> fmt::Result {
        let OtherPortCounts(netlists) = self;
        let (first, second) = (Ports(&netlists.first), Ports(&netlists.second));
        write!(f, "{first}, {second}: a match has a partner for each port")
    }
}

/// How many ports a netlist has.
#[derive(Clone, Copy)]
struct Ports<'a>(&'a NamedNetlist<'a>);

impl fmt::Display for Ports<'_> {
    fn fmt<W: fmt::Write>(&self, f: &mut fmt::Formatter<W>) -> fmt::Result {
        let Ports(source) = self;
        let inputs = count(source, PortKind::Input);
        let outputs = count(source, PortKind::Output);
        write!(
            f,
            "{} has {inputs} and {outputs}",
            TerminalText::name(source.file)
        )
    }
}

fn count(source: &NamedNetlist<'_>, kind: PortKind) -> Count {
    Count {
        ports: source.count(kind),
        kind,
    }
}

/// Says what the ban is about that the account's conclusion names.
fn put_last_exclusion<S: Shelf>(
    alloc: Global,
    account: &str,
    netlists: &Netlists<'_>,
    shelf: &mut S,
    text: &mut String,
) -> Result<(), ReadStop>
    requires { (S.state shelf.old).mode ≡ Closed }
    ensures { SameFiles (S.state shelf.old) (S.state shelf.new) }
{
    let mut records = Records::new(alloc, ConclusionSearch::new());
    seek_in(alloc, shelf, account, &mut records)?;
    match records.search().step() {
        Some(step) => put_step(alloc, account, netlists, step, shelf, text),
        None => Ok(()),
    }
}

/// Says what a ban without pairs is about: a cover, since no other step goes without.
fn put_step<S: Shelf>(
    alloc: Global,
    account: &str,
    netlists: &Netlists<'_>,
    step: &Step,
    shelf: &mut S,
    text: &mut String,
) -> Result<(), ReadStop>
    requires { (S.state shelf.old).mode ≡ Closed }
    ensures { SameFiles (S.state shelf.old) (S.state shelf.new) }
{
    let Step::Cover {
        kind,
        from,
        to,
        refs,
    } = step
    else {
        return Ok(());
    };
    let cover = Cover {
        netlists,
        kind: *kind,
        from,
        to,
    };
    write!(text, "{cover}")?;
    match cover.last_way(refs) {
        Some(way) => put_way(alloc, account, netlists, way, shelf, text)?,
        None => {}
    }
    Ok(text.push_str("\n")?)
}

/// Says why two ports can't be paired, by the ban that says it.
fn put_way<S: Shelf>(
    alloc: Global,
    account: &str,
    netlists: &Netlists<'_>,
    way: Way<'_>,
    shelf: &mut S,
    text: &mut String,
) -> Result<(), ReadStop>
    requires { (S.state shelf.old).mode ≡ Closed }
    ensures { SameFiles (S.state shelf.old) (S.state shelf.new) }
{
    let mut records = Records::new(alloc, BanSearch::new(way.ban));
    seek_in(alloc, shelf, account, &mut records)?;
    let Some(ban) = records.search().ban() else {
        return Ok(());
    };
    match exclusion_of(alloc, account, netlists, ban, shelf)? {
        Some(exclusion) => Ok(write!(text, "; the last way, {way}, since {exclusion}")?),
        None => Ok(()),
    }
}

/// What a ban is about, by the facts that it names.
fn exclusion_of<'a, S: Shelf>(
    alloc: Global,
    account: &str,
    netlists: &'a Netlists<'_>,
    ban: &Ban,
    shelf: &mut S,
) -> Result<Option<WhyExcluded<'a>>, ReadStop>
    requires { (S.state shelf.old).mode ≡ Closed }
    ensures { SameFiles (S.state shelf.old) (S.state shelf.new) }
{
    match &ban.step {
        Step::Vector { output, .. } => {
            Ok(WhyExcluded::vector(netlists, *output, ban.pairs.as_slice()))
        }
        Step::Cover { kind, from, to, .. } => {
            Ok(WhyExcluded::none_left(netlists, *kind, from, to))
        }
        Step::Mismatch { fails, holds } => {
            let claims = claims_of(alloc, account, (*fails, *holds), shelf)?;
            Ok(claims.map(|claims| WhyExcluded::mismatch(netlists, claims)))
        }
        Step::Tally { kind, have, lack } => {
            let Some(facts) = have.first().copied().zip(lack.first().copied()) else {
                return Ok(None);
            };
            let claims = claims_of(alloc, account, facts, shelf)?;
            let counts = (have.len(), lack.len());
            Ok(claims.map(|claims| WhyExcluded::tally(netlists, *kind, counts, claims)))
        }
    }
}

/// The claims of two facts of an account, by their numbers.
fn claims_of<S: Shelf>(
    alloc: Global,
    account: &str,
    facts: (u64, u64),
    shelf: &mut S,
) -> Result<Option<(Claim, Claim)>, ReadStop>
    requires { (S.state shelf.old).mode ≡ Closed }
    ensures { SameFiles (S.state shelf.old) (S.state shelf.new) }
{
    let mut records = Records::new(alloc, ClaimSearch::new(facts));
    seek_in(alloc, shelf, account, &mut records)?;
    Ok(records.search().claims())
}
