use items::{Few, Items};
use std::alloc::{AllocError, Global};
use std::collections::HashMap;

/// A clause with its name: a struct of lists and a text that is compared, hashed and cloned by derives.
#[derive(Debug, Clone, PartialEq, Eq, Hash, Drop)]
struct Clause {
    name: String,
    literals: Items<Items<u32>>,
    sources: Few<u8, 1>,
}

fn make_clause(rt: &HostRuntime, name: &str, literals: &[u32]) -> Result<Clause, AllocError> {
    let alloc = rt.alloc();
    let mut rows = Items::with_capacity(alloc, 1)?;
    rows.push(Items::from_slice(alloc, literals)?)?;
    Ok(Clause {
        name: String::from_str(alloc, name)?,
        literals: rows,
        sources: Few::from_slice(alloc, &[8, 9])?,
    })
}

/// The clause is filed under its place.
fn filed(
    rt: &HostRuntime,
    clause: &Clause,
    place: u32,
) -> Result<HashMap<Clause, u32>, AllocError> {
    let mut places = HashMap::new(rt.alloc());
    places.insert(clause.clone()?, place)?;
    Ok(places)
}

fn place_of(
    rt: &HostRuntime,
    places: &HashMap<Clause, u32>,
    name: &str,
    literals: &[u32],
) -> Result<Option<u32>, AllocError> {
    let asked = make_clause(rt, name, literals)?;
    Ok(places.get(&asked).copied())
}

#[test]
fn keys_by_content(rt: HostRuntime) -> Result<(), AllocError> {
    let places = filed(&rt, &make_clause(&rt, "one", &[1, 2])?, 7)?;
    for (name, literals, place) in [
        ("one", &[1, 2], Some(7)),
        ("one", &[2, 1], None),
        ("two", &[1, 2], None),
    ] {
        let found = place_of(&rt, &places, name, literals)?;
        assert_eq!(rt; found, place, "{name} {literals:?}");
    }
    Ok(())
}

fn list_of(alloc: Global, items: &[u32]) -> Result<Items<u32>, AllocError> {
    let mut list = Items::new(alloc);
    list.extend_from_slice(items)?;
    Ok(list)
}

fn last_of_reversed(list: &mut Items<u32>) -> Option<u32> {
    if list.len() == 3 {
        list.set(1, 60);
    }
    list.as_mut_slice().reverse();
    list.pop()
}

fn sum(list: Items<u32>) -> u32 {
    let mut total = 0u32;
    for item in list {
        total = total.wrapping_add(item);
    }
    total
}

#[test]
fn lists_edit_in_place(rt: HostRuntime) -> Result<(), AllocError> {
    let mut list = list_of(rt.alloc(), &[5, 6, 7])?;
    let last = last_of_reversed(&mut list);
    assert_eq!(rt; (last, list.as_slice()), (Some(5), [7, 60].as_slice()));
    list.truncate(1);
    assert_eq!(rt; list.as_slice(), [7].as_slice());
    list.clear();
    assert!(rt; list.is_empty());
    assert_eq!(rt; sum(list_of(rt.alloc(), &[7, 60])?), 67);
    Ok(())
}

fn short_list(alloc: Global) -> Result<Few<u32, 2>, AllocError> {
    let mut few = Few::new(alloc);
    for item in [3, 4, 5] {
        few.push(item)?;
    }
    Ok(few)
}

fn equals_its_copy(few: &Few<u32, 2>) -> Result<bool, AllocError> {
    Ok(few.clone()? == *few)
}

#[test]
fn short_lists_grow(rt: HostRuntime) -> Result<(), AllocError> {
    let few = short_list(rt.alloc())?;
    assert_eq!(rt; few.as_slice(), [3, 4, 5].as_slice());
    assert!(rt; equals_its_copy(&few)?);
    Ok(())
}
