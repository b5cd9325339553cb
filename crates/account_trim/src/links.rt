//! The records of an account that each record rests on.

ghost use Rattle.std.specs.Prelude.{◌≡◌, ◌<◌, [], ◌∷◌, ◌++◌, ◌^◌, IfOk, OnOk, slice_index_or};
ghost use Rattle.std.specs.Prelude.{option_to_list};
ghost use Rattle.std.specs.List.{flat_map};
ghost use Rattle.account_trim.specs.Links.{conclusion_names, hinted, is_root, line_names, link, links_of};
ghost use Rattle.account_trim.specs.Links.{listed, names as named_by, step_names};
ghost use Rattle.account_trim.specs.Places.{places_of, with_one};

use crate::places::Places;
use account_core::{Conclusion, Step};
use account_file::Record;
use cnf_core::LogLine;
use items::Items;
use net_core::Graphs;
use std::alloc::{AllocError, Global};

/// What a record rests on.
#[derive(Drop)]
pub struct Links {
    /// Whether the record is reached whatever the others are.
    pub(crate) is_root: bool,
    /// The places of the records that it names.
    pub(crate) names: Items<u64>,
    /// Where the log begins that it is in, and the number that the log's first line has in hints.
    pub(crate) start: u64,
    pub(crate) base: u64,
}

/// The links of an account's records, and what stands where in it.
#[derive(Drop)]
pub struct Linked {
    pub(crate) links: Items<Links>,
    pub(crate) places: Places,
}

/// What each record rests on.
pub(crate) fn link_all(
    alloc: Global,
    graphs: &Graphs<'_>,
    records: &[Record],
) -> Result<Linked, AllocError>
    ensures links { IfOk result (λ linked. linked.links ≡ links_of graphs.now records.now) }
    ensures places { IfOk result (λ linked. linked.places ≡ places_of graphs.now records.now) }
{
    let mut links = Items::new(alloc);
    let mut places = Places::new(alloc);
    for (place, entry) in records.iter().enumerate() {
        add(alloc, graphs, place as u64, entry, &mut links, &mut places)?;
    }
    Ok(Linked { links, places })
}

// Adds the record of a place.
fn add(
    alloc: Global,
    graphs: &Graphs<'_>,
    place: u64,
    entry: &Record,
    links: &mut Items<Links>,
    places: &mut Places,
) -> Result<(), AllocError>
    requires { place < 2 ^ 63 }
    ensures links { OnOk result (links.new ≡ links.old ++ link places.old place entry.now ∷ []) }
    ensures places { OnOk result (places.new ≡ with_one graphs.now places.old place entry.now) }
{
    links.push(link_of(alloc, places, place, entry)?)?;
    places.add(graphs, place, entry)
}

// What the record of a place rests on.
fn link_of(alloc: Global, places: &Places, place: u64, entry: &Record) -> Result<Links, AllocError>
    ensures { IfOk result (λ found. found ≡ link places.now place entry.now) }
{
    let mut names = Items::new(alloc);
    add_names(places, place, entry, &mut names)?;
    Ok(Links {
        is_root: is_root(places.owner, entry),
        names,
        start: places.start,
        base: places.base,
    })
}

// Whether a record is reached whatever the others are.
fn is_root(owner: Option<u64>, entry: &Record) -> bool
    ensures { result ≡ is_root owner entry.now }
{
    match entry {
        Record::Header => true,
        Record::Fact(_) => false,
        Record::Line(line) => line.clause.is_empty() & owner.is_none(),
        Record::Ban(_) => false,
        Record::Conclusion(_) => true,
        Record::DropFact(_) => false,
        Record::DropBan(_) => false,
        Record::End => true,
    }
}

// Adds the places of what the record of a place names.
fn add_names(
    places: &Places,
    place: u64,
    entry: &Record,
    names: &mut Items<u64>,
) -> Result<(), AllocError>
    ensures { OnOk result (names.new ≡ names.old ++ named_by places.now place entry.now) }
{
    match entry {
        Record::Header => Ok(()),
        Record::Fact(_) => Ok(()),
        Record::Line(line) => add_line_names(places, place, line, names),
        Record::Ban(ban) => add_step_names(places, place, &ban.step, names),
        Record::Conclusion(conclusion) => add_conclusion_names(places, place, conclusion, names),
        Record::DropFact(_) => Ok(()),
        Record::DropBan(_) => Ok(()),
        Record::End => Ok(()),
    }
}

fn add_line_names(
    places: &Places,
    place: u64,
    line: &LogLine,
    names: &mut Items<u64>,
) -> Result<(), AllocError>
    ensures { OnOk result (names.new ≡ names.old ++ line_names places.now place line.now) }
{
    for hint in line.hints.iter() {
        add_hinted(places, place, *hint, names)?;
    }
    add_owner(places.owner, names)
}

fn add_owner(owner: Option<u64>, names: &mut Items<u64>) -> Result<(), AllocError>
    ensures { OnOk result (names.new ≡ names.old ++ option_to_list owner) }
{
    if let Some(owner) = owner {
        names.push(owner)?;
    }
    Ok(())
}

fn add_hinted(
    places: &Places,
    place: u64,
    hint: u64,
    names: &mut Items<u64>,
) -> Result<(), AllocError>
    ensures { OnOk result (names.new ≡ names.old ++ hinted places.now place hint) }
{
    if hint < places.base {
        return Ok(());
    }
    let count = hint - places.base;
    if count < place.saturating_sub(places.start) {
        names.push(places.start + count)?;
    }
    Ok(())
}

fn add_step_names(
    places: &Places,
    place: u64,
    step: &Step,
    names: &mut Items<u64>,
) -> Result<(), AllocError>
    ensures { OnOk result (names.new ≡ names.old ++ step_names places.now place step.now) }
{
    match step {
        Step::Vector { output: _, bits: _ } => Ok(()),
        Step::Mismatch { fails, holds } => {
            add_all_listed(place, &places.facts, &[*fails, *holds], names)
        }
        Step::Tally {
            kind: _,
            have,
            lack,
        } => {
            add_all_listed(place, &places.facts, have, names)?;
            add_all_listed(place, &places.facts, lack, names)
        }
        Step::Cover {
            kind: _,
            from: _,
            to: _,
            refs,
        } => add_all_referred(place, &places.bans, refs, names),
    }
}

fn add_conclusion_names(
    places: &Places,
    place: u64,
    conclusion: &Conclusion,
    names: &mut Items<u64>,
) -> Result<(), AllocError>
    ensures { OnOk result (names.new ≡ names.old ++ conclusion_names places.now place conclusion.now) }
{
    if let Conclusion::NoneBan(ban) = conclusion {
        add_listed(place, &places.bans, *ban, names)?;
    }
    Ok(())
}

// Adds where these numbers of a list stand.
fn add_all_listed(
    place: u64,
    places: &[u64],
    numbers: &[u64],
    names: &mut Items<u64>,
) -> Result<(), AllocError>
    ensures { OnOk result (names.new ≡ names.old ++ flat_map (listed place places.now) numbers.now) }
{
    for number in numbers.iter() {
        add_listed(place, places, *number, names)?;
    }
    Ok(())
}

fn add_all_referred(
    place: u64,
    places: &[u64],
    references: &[Option<u64>],
    names: &mut Items<u64>,
) -> Result<(), AllocError>
    ensures { OnOk result (names.new
        ≡ names.old ++ flat_map (listed place places.now) (flat_map option_to_list references.now)) }
{
    for reference in references.iter() {
        add_referred(place, places, *reference, names)?;
    }
    Ok(())
}

fn add_referred(
    place: u64,
    places: &[u64],
    reference: Option<u64>,
    names: &mut Items<u64>,
) -> Result<(), AllocError>
    ensures { OnOk result (names.new
        ≡ names.old ++ flat_map (listed place places.now) (option_to_list reference)) }
{
    match reference {
        Some(number) => add_listed(place, places, number, names),
        None => Ok(()),
    }
}

// Adds where a number of a list stands, if that is before a place.
fn add_listed(
    place: u64,
    places: &[u64],
    number: u64,
    names: &mut Items<u64>,
) -> Result<(), AllocError>
    ensures { OnOk result (names.new ≡ names.old ++ listed place places.now number) }
{
    let named = number_at(places, number, place);
    if named < place {
        names.push(named)?;
    }
    Ok(())
}

/// The number at a place of a list, or another one past its end.
pub(crate) fn number_at(list: &[u64], place: u64, other: u64) -> u64
    ensures { result ≡ slice_index_or list.now place other }
{
    if place < list.len() as u64 {
        return list[place as usize];
    }
    other
}
