//! Where the ports go: a permutation by the shuffle of Fisher and Yates, and a sign for each port.

ghost use Rattle.std.specs.Prelude.{◌≡◌, ◌<◌, ◌-◌, ◌^◌, IfOk, IsPermutation, length, map};
ghost use Rattle.std.specs.List.{range_with_len};
ghost use Rattle.circuits.specs.Bijections.{IsSignedBijection};
ghost use Rattle.gen_pair.specs.Shuffles.{shuffled, signed_places, hidden_ports};

use crate::drawing::{draw, draw_bit};
use items::Items;
use rand_pcg::Lcg64Xsh32;
use std::alloc::{AllocError, Global};

/// A place and a sign for each of n ports: the places first, then the signs.
#[tactic(auto, using(crate::proofs::Shuffled::shuffled_ports))]
pub(crate) fn hidden_ports(
    alloc: Global,
    random: &mut Lcg64Xsh32,
    count: u32,
) -> Result<Items<(u32, bool)>, AllocError>
    ensures bijection { IfOk result (IsSignedBijection count) }
    ensures drawn { IfOk result (λ ports. (ports, random.new) ≡ hidden_ports count random.old) }
{
    let mut places = numbers(alloc, count)?;
    shuffle(random, &mut places);
    with_signs(alloc, random, &places)
}

// The numbers below `count`.
fn numbers(alloc: Global, count: u32) -> Result<Vec<u32>, AllocError>
    ensures { IfOk result (λ numbers. numbers.items ≡ range_with_len 0 count) }
{
    let mut numbers = Vec::new(alloc);
    for number in 0..count {
        numbers.push(number)?;
    }
    Ok(numbers)
}

// Exchanges each place, from the last on, with one that is drawn from those up to it.
fn shuffle(random: &mut Lcg64Xsh32, places: &mut [u32])
    requires { length places.old < 2 ^ 32 }
    ensures permutation { IsPermutation places.old places.new }
    ensures drawn { (places.new, random.new) ≡ shuffled (length places.old - 1) places.old random.old }
{
    let mut left = places.len();
    while left > 1 {
        let drawn = draw(random, left as u32) as usize;
        left -= 1;
        places.swap(left, drawn);
    }
}

// Each place with a sign.
fn with_signs(
    alloc: Global,
    random: &mut Lcg64Xsh32,
    places: &[u32],
) -> Result<Items<(u32, bool)>, AllocError>
    ensures places { IfOk result (λ ports. map (λ port. port.0) ports ≡ places.now) }
    ensures drawn { IfOk result (λ ports. (ports, random.new)
        ≡ signed_places places.now (length places.now) random.old) }
{
    let mut ports = Items::new(alloc);
    for place in places.iter() {
        let inverted = draw_bit(random);
        ports.push((*place, inverted))?;
    }
    Ok(ports)
}
