//! What simulation saw.

use bit_list::Bits;
use claim_core::Shape;

/// A vector that breaks the claim of a shape: it has the shape's values and gives 1, and with the shape's
/// inputs inverted it gives 0.
#[derive(Debug, Drop)]
pub struct Sighting {
    pub shape: Shape,
    /// A bit for each input.
    pub vector: Bits,
}
