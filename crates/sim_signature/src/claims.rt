//! The claims that are hunted.

ghost use Rattle.std.specs.Prelude.{ℕ, ◌≡◌, ◌<◌, ◌^◌, [], length, IfOk, OnOk};
ghost use Rattle.claim_core.specs.Claims.{IsPlaced};
ghost use Rattle.sim_signature.specs.Sightings.{Added, IsHunted, first_of, last_of};

use claim_core::Shape;
use std::alloc::{AllocError, Global};

/// All claims about the inputs that are marked. Those that invert the same inputs stand side by side.
///
/// # Errors
///
/// Only when out of memory.
pub(crate) fn claims(alloc: Global, hunted: &[bool]) -> Result<Vec<Shape>, AllocError>
    requires { length hunted.now < 2 ^ 32 }
    ensures { IfOk result (λ shapes. Added (length hunted.now) (IsHunted hunted.now) [] shapes.items) }
{
    let mut shapes = Vec::new(alloc);
    for i in 0..hunted.len() {
        if hunted[i] {
            add_claims(i as u32, hunted, &mut shapes)?;
        }
    }
    Ok(shapes)
}

/// Adds the claims about an input that is marked, and about it and a marked one after it.
fn add_claims(i: u32, hunted: &[bool], shapes: &mut Vec<Shape>) -> Result<(), AllocError>
    requires count { length hunted.now < 2 ^ 32 }
    requires input { i < length hunted.now }
    ensures { OnOk result (Added (length hunted.now) (λ shape. IsHunted hunted.now shape × (first_of shape ≡ i))
        shapes.old.items shapes.new.items) }
{
    shapes.extend_from_slice(&[Shape::Up(i), Shape::Down(i)])?;
    for j in i as usize + 1..hunted.len() {
        if hunted[j] {
            add_swaps(i, j as u32, shapes)?;
        }
    }
    Ok(())
}

/// Adds the four claims about two inputs.
fn add_swaps(i: u32, j: u32, shapes: &mut Vec<Shape>) -> Result<(), AllocError>
    requires { i < j }
    ensures { OnOk result ((n : ℕ) → j < n
        → Added n (λ shape. IsPlaced n shape × (first_of shape ≡ i) × (last_of shape ≡ j))
        shapes.old.items shapes.new.items) }
{
    shapes.extend_from_slice(&[
        Shape::Swap {
            i,
            j,
            a: false,
            b: false,
        },
        Shape::Swap {
            i,
            j,
            a: false,
            b: true,
        },
        Shape::Swap {
            i,
            j,
            a: true,
            b: false,
        },
        Shape::Swap {
            i,
            j,
            a: true,
            b: true,
        },
    ])?;
    Ok(())
}
