//! What claims say together of an output: its support, unateness and symmetry. Each function does nothing; its
//! contract is the law.

ghost use Rattle.std.specs.Prelude.{◌↔◌, ◌⊎◌, ◌<◌, ℕ, false, true};
ghost use Rattle.circuits.specs.Netlists.{Net};
ghost use Rattle.claim_core.specs.declared.claims.Shape.{Shape};
ghost use Rattle.claim_core.specs.declared.claims.Shape.TheVariants.{Up, Down, Swap};
ghost use Rattle.claim_core.specs.Claims.{output_bit, IsPlaced, ShapeHolds, ShapeFails};
ghost use Rattle.claim_core.specs.Facts.{InSupport, OutsideSupport, IsPositive, IsNegative, IsBinate, IsSymmetric};
ghost use Rattle.claim_core.specs.Facts.{IsSkew};

/// Each well-placed claim holds, or a vector breaks it; never both.
pub fn broken_or_holding()
    ensures decided { (net : Net) (k : ℕ) (shape : Shape)
        → IsPlaced net.inputs shape
        → ShapeHolds net k shape ⊎ ShapeFails net k shape }
    ensures apart { (net : Net) (k : ℕ) (shape : Shape)
        → IsPlaced net.inputs shape
        → ShapeHolds net k shape
        → ShapeFails net k shape
        → ⊥ }
{}

/// An input is outside the support exactly where it changes the output in neither direction.
pub fn support_by_claims()
    ensures outside { (net : Net) (k i : ℕ)
        → i < net.inputs
        → (OutsideSupport net.inputs (output_bit net k) i ↔ (ShapeHolds net k (Up i) × ShapeHolds net k (Down i))) }
    ensures inside { (net : Net) (k i : ℕ)
        → i < net.inputs
        → (InSupport net.inputs (output_bit net k) i ↔ (ShapeFails net k (Up i) ⊎ ShapeFails net k (Down i))) }
{}

/// An output is positive or negative unate in an input where one claim holds, and binate exactly where both fail.
pub fn unateness_by_claims()
    ensures positive { (net : Net) (k i : ℕ) → (IsPositive net.inputs (output_bit net k) i ↔ ShapeHolds net k (Up i)) }
    ensures negative { (net : Net) (k i : ℕ)
        → (IsNegative net.inputs (output_bit net k) i ↔ ShapeHolds net k (Down i)) }
    ensures binate { (net : Net) (k i : ℕ)
        → i < net.inputs
        → (IsBinate net.inputs (output_bit net k) i ↔ (ShapeFails net k (Up i) × ShapeFails net k (Down i))) }
{}

/// Two inputs are symmetric, or skew symmetric, exactly where two swaps hold.
pub fn symmetry_by_claims()
    ensures symmetric { (net : Net) (k i j : ℕ)
        → (IsSymmetric net.inputs (output_bit net k) i j
        ↔ (ShapeHolds net k (Swap i j false true) × ShapeHolds net k (Swap i j true false))) }
    ensures skew { (net : Net) (k i j : ℕ)
        → (IsSkew net.inputs (output_bit net k) i j
        ↔ (ShapeHolds net k (Swap i j false false) × ShapeHolds net k (Swap i j true true))) }
{}
