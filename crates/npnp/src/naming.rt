//! Ports of two netlists that have one name.

use indexmap::IndexSet;
use items::Items;
use net_core::Matching;
use net_file::{Name, Named};
use std::alloc::{AllocError, Global};

/// The matching that pairs ports of equal names, none of them inverted, where the names of the first netlist's inputs
/// are those of the second one's, each once, and those of the outputs too; else nothing. An answer doesn't rest on it:
/// a search compares it first.
pub(crate) fn paired_by_names(
    alloc: Global,
    first: &Named,
    second: &Named,
) -> Result<Vec<Matching>, AllocError> {
    let mut paired = Vec::new(alloc);
    let inputs = partners(alloc, &first.input_names, &second.input_names)?;
    let outputs = partners(alloc, &first.output_names, &second.output_names)?;
    if let (Some(inputs), Some(outputs)) = (inputs, outputs) {
        paired.push(Matching { inputs, outputs })?;
    }
    Ok(paired)
}

// Where the port of each name goes, unless one is missing or two of the others are the same.
fn partners(
    alloc: Global,
    names: &[Name],
    others: &[Name],
) -> Result<Option<Items<(u32, bool)>>, AllocError> {
    let Some(places) = places_of(alloc, others)? else {
        return Ok(None);
    };
    let mut partners = Items::new(alloc);
    for name in names.iter() {
        let Some(place) = place_of(&places, name) else {
            return Ok(None);
        };
        partners.push((place, false))?;
    }
    Ok(Some(partners))
}

// Names by their places, unless two are the same.
fn places_of<'a>(
    alloc: Global,
    names: &'a [Name],
) -> Result<Option<IndexSet<&'a [u8]>>, AllocError> {
    let mut places = IndexSet::new(alloc);
    for name in names.iter() {
        if !add_name(&mut places, name)? {
            return Ok(None);
        }
    }
    Ok(Some(places))
}

// Adds a name, and answers whether it is a new one.
fn add_name<'a>(places: &mut IndexSet<&'a [u8]>, name: &'a [u8]) -> Result<bool, AllocError> {
    Ok(places.insert(name)?)
}

// The place of a name.
fn place_of(places: &IndexSet<&[u8]>, name: &[u8]) -> Option<u32> {
    let place = places.get_index_of(name)?;
    u32::try_from(place).ok()
}
