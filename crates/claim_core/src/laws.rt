//! What a query's clauses say together. Each function does nothing; its contract is the law.

ghost use Rattle.std.specs.Prelude.{ℕ, ◌≡◌, ◌↔◌, ◌<◌, Bool, List, Some, length};
ghost use Rattle.circuits.specs.Matches.{HavePorts, IsMatchOfFunctions};
ghost use Rattle.cnf_core.specs.Clauses.{Meets};
ghost use Rattle.net_core.specs.Sides.{Graphs as TwoGraphs};
ghost use Rattle.net_core.specs.declared.matching.Matching.{Matching as AnyMatching};
ghost use Rattle.net_core.specs.Graph.{IsGraph};
ghost use Rattle.claim_core.specs.declared.query.Query.{Query as Question};
ghost use Rattle.claim_core.specs.Queries.{IsQuery, IsUnmet, MeetsQuery, bits_in, vector_in};
ghost use Rattle.net_core.specs.Sides.{graph_of};
ghost use Rattle.claim_core.specs.declared.claims.Claim.{Claim as AnyClaim};
ghost use Rattle.claim_core.specs.Claims.{Breaks, Holds, IsClaim, with_values};
ghost use Rattle.claim_core.specs.ClaimQueries.{claim_query};
ghost use Rattle.claim_core.specs.Images.{Extends, image_of};
ghost use Rattle.circuits.specs.declared.port.Pair.{Pair as AnyPair};
ghost use Rattle.net_core.specs.declared.graphs.Side.TheVariants.{First};
ghost use Rattle.claim_core.specs.ConeClauses.{MeetsCones};
ghost use Rattle.claim_core.specs.Formulas.{IsRefuted, query_clauses};
ghost use Rattle.claim_core.specs.MatchQueries.{match_query, moved_feed, IsMovedFeed};
ghost use Rattle.claim_core.specs.declared.query.Feed.{Feed as Entry};
ghost use Rattle.circuits.specs.Bijections.{IsSignedBijection};

/// The input variables of an assignment that meets a query's clauses are a vector that is asked for.
pub fn assignment_is_a_vector()
    ensures { (graphs : TwoGraphs) (query : Question) (assignment : List Bool)
        → IsGraph graphs.first → IsGraph graphs.second → IsQuery graphs query
        → Meets assignment (query_clauses graphs query)
        → MeetsQuery graphs query (vector_in (bits_in graphs query) assignment) }
{}

/// The clauses of the cones are enough for it: each signal that an output reaches has its bit.
pub fn cone_assignment_is_a_vector()
    ensures { (graphs : TwoGraphs) (query : Question) (assignment : List Bool)
        → IsGraph graphs.first → IsGraph graphs.second → IsQuery graphs query
        → MeetsCones graphs query assignment
        → MeetsQuery graphs query (vector_in (bits_in graphs query) assignment) }
{}

/// Each vector that is asked for is that of an assignment that meets a query's clauses.
#[tactic(auto, using(crate::proofs::AssignmentLemmas::assignment_there))]
pub fn vector_has_an_assignment()
    ensures { (graphs : TwoGraphs) (query : Question) (x : List Bool)
        → IsGraph graphs.first → IsGraph graphs.second → IsQuery graphs query → length x ≡ bits_in graphs query
        → MeetsQuery graphs query x
        → (assignment : List Bool) × Meets assignment (query_clauses graphs query)
        × (vector_in (bits_in graphs query) assignment ≡ x) }
{}

/// The place that each input of a signed bijection goes to gets the input's bit, inverted where the sign says so; no
/// other feed is like this.
pub fn wires_of_a_bijection()
    ensures wires { (entries : List (ℕ × Bool)) → IsSignedBijection (length entries) entries
        → IsMovedFeed entries (moved_feed entries) }
    ensures only { (entries : List (ℕ × Bool)) (feed : List Entry) → IsSignedBijection (length entries) entries
        → IsMovedFeed entries feed → feed ≡ moved_feed entries }
{}

/// Signed bijections of the ports are a match exactly where no vector meets the queries of a matching: of each output,
/// for either of its values.
pub fn match_by_queries()
    ensures matches { (graphs : TwoGraphs) (matching : AnyMatching) → IsGraph graphs.first → IsGraph graphs.second
        → HavePorts graphs.first graphs.second matching.inputs matching.outputs
        → ((k : ℕ) (value : Bool) → k < length graphs.first.outputs
        → IsUnmet graphs (match_query graphs.first.inputs matching k value))
        → IsMatchOfFunctions graphs.first graphs.second matching.inputs matching.outputs }
    ensures unmet { (graphs : TwoGraphs) (matching : AnyMatching) → IsGraph graphs.first → IsGraph graphs.second
        → IsMatchOfFunctions graphs.first graphs.second matching.inputs matching.outputs
        → (k : ℕ) (value : Bool) → k < length graphs.first.outputs
        → IsUnmet graphs (match_query graphs.first.inputs matching k value) }
{}

/// Signed bijections of the ports are a match where logs refute the queries of a matching: of each output, for either
/// of its values.
#[tactic(auto, using(crate::proofs::RefutedLemmas::match_of_refuted))]
pub fn refuted_queries_are_a_match()
    ensures { (graphs : TwoGraphs) (matching : AnyMatching) → IsGraph graphs.first → IsGraph graphs.second
        → HavePorts graphs.first graphs.second matching.inputs matching.outputs
        → ((k : ℕ) (value : Bool) → k < length graphs.first.outputs
        → IsRefuted graphs (match_query graphs.first.inputs matching k value))
        → IsMatchOfFunctions graphs.first graphs.second matching.inputs matching.outputs }
{}

/// A claim holds exactly where no vector meets its query, and a vector that meets it breaks the claim once the shape's
/// inputs have the shape's values.
pub fn claims_by_queries()
    ensures holds { (graphs : TwoGraphs) (claim : AnyClaim)
        → (Holds graphs claim ↔ IsUnmet graphs (claim_query graphs claim)) }
    ensures breaks { (graphs : TwoGraphs) (claim : AnyClaim) (x : List Bool)
        → IsClaim graphs claim
        → length x ≡ (graph_of graphs claim.side).inputs
        → MeetsQuery graphs (claim_query graphs claim) x
        → Breaks graphs claim (with_values claim.shape x) }
{}

/// Where a match has all pairs of a list, a claim of the first circuit holds exactly where its image holds; and the
/// image is well placed where the claim is.
pub fn images_by_matches()
    ensures holds { (graphs : TwoGraphs) (p q : List (ℕ × Bool)) (pairs : List AnyPair) (claim image : AnyClaim)
        → IsMatchOfFunctions graphs.first graphs.second p q
        → Extends pairs p q
        → claim.side ≡ First
        → IsClaim graphs claim
        → image_of pairs claim ≡ Some image
        → (Holds graphs claim ↔ Holds graphs image) }
    ensures placed { (graphs : TwoGraphs) (p q : List (ℕ × Bool)) (pairs : List AnyPair) (claim image : AnyClaim)
        → IsMatchOfFunctions graphs.first graphs.second p q
        → Extends pairs p q
        → claim.side ≡ First
        → IsClaim graphs claim
        → image_of pairs claim ≡ Some image
        → IsClaim graphs image }
{}
