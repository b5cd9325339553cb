//! Names of ports, as symbols can have them.

ghost use Rattle.std.specs.Prelude.{◌≡◌, ◌-◌, ◌<◌, ◌==◌, IsTrue, IfOk, length, map, slice_index_or};
ghost use Rattle.print_laws.specs.Printable.{symbol_name};

use items::Items;
use net_file::Name;
use std::alloc::{AllocError, Global};

/// The names as their symbols are printed.
pub fn symbol_names(alloc: Global, names: &[Name]) -> Result<Items<Name>, AllocError>
    ensures { IfOk result (λ printed. printed ≡ map symbol_name names.now) }
{
    let mut printed = Items::new(alloc);
    for name in names.iter() {
        let one = symbol_name(alloc, name)?;
        printed.push(one)?;
    }
    Ok(printed)
}

// The name, with `_` for a carriage return at its end, which a symbol can't have.
fn symbol_name(alloc: Global, name: &Name) -> Result<Name, AllocError>
    ensures { IfOk result (λ printed. printed ≡ symbol_name name.now) }
{
    if !ends_with_return(name.as_slice()) {
        return Items::from_slice(alloc, name.as_slice());
    }
    let mut printed = Items::from_slice(alloc, name.as_slice())?;
    printed.set(name.len() - 1, b'_');
    Ok(printed)
}

fn ends_with_return(name: &[u8]) -> bool
    ensures test { result ≡ (slice_index_or name.now (length name.now - 1) 0 == 13) }
    ensures some { IsTrue result → 0 < length name.now }
{
    if name.is_empty() {
        return false;
    }
    name[name.len() - 1] == b'\r'
}
