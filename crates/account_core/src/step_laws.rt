//! Bans with valid steps are right: no match has all pairs of one. Each function does nothing; its contract is the law.

ghost use Rattle.std.specs.Prelude.{ℕ, ◌≡◌, ◌<◌, List, [], All, Option};
ghost use Rattle.circuits.specs.declared.port.Pair.{Pair as AnyPair};
ghost use Rattle.circuits.specs.declared.port.PortKind.{PortKind as AnyKind};
ghost use Rattle.circuits.specs.declared.port.PortKind.TheVariants.{Input};
ghost use Rattle.circuits.specs.Matches.{HaveNpnpEqualFunctions};
ghost use Rattle.circuits.specs.Netlists.{Net};
ghost use Rattle.net_core.specs.Graph.{IsGraph};
ghost use Rattle.net_core.specs.Sides.{Graphs as TwoGraphs};
ghost use Rattle.claim_core.specs.Images.{Agree};
ghost use Rattle.word_sim.specs.declared.tri.Tri.{Tri as AnyTri};
ghost use Rattle.account_core.specs.declared.step.Ban.{Ban as AnyBan};
ghost use Rattle.account_core.specs.declared.step.Tallied.{Tallied as AnyTallied};
ghost use Rattle.account_core.specs.Covers.{AreCoverNames, IsCover};
ghost use Rattle.account_core.specs.Exclusions.{Excludes, AreRight};
ghost use Rattle.account_core.specs.Given.{Decided, Given, IsFactGiven, IsTrueFact, pairs_of, with_more};
ghost use Rattle.account_core.specs.Mismatches.{IsMismatch};
ghost use Rattle.account_core.specs.Ports.{AreOrdered, HaveAsMany};
ghost use Rattle.account_core.specs.Steps.{AreValidBans, IsValidBan};
ghost use Rattle.account_core.specs.Tallies.{IsTally};
ghost use Rattle.account_core.specs.Vectors.{ShowsDifference, AreSent, values_sent};

/// Where an output and its partner are both definite on some values, and differ by the sign of their pair, no match has
/// the pairs: under one the two outputs would agree on each vector that fills the X in.
pub fn vector_excludes()
    ensures { (graphs : TwoGraphs) (pairs : List AnyPair) (output : ℕ) (values : List AnyTri)
        → IsGraph graphs.first
        → IsGraph graphs.second
        → ShowsDifference graphs pairs output values
        → Excludes graphs pairs }
{}

/// Where a claim fails, and the claim of the other circuit that the pairs carry it to holds, no match has the pairs:
/// under one both would hold, or neither.
pub fn mismatch_excludes()
    ensures { (graphs : TwoGraphs) (given : Given) (pairs : List AnyPair) (fails holds : ℕ)
        → All (IsTrueFact graphs) given.facts
        → IsFactGiven given fails
        → IsFactGiven given holds
        → IsMismatch given pairs fails holds
        → Excludes graphs pairs }
{}

/// Where the inputs that an output has and those that its partner lacks are together more than a circuit has, no match
/// has the pairs: under one some input that the output has would go to an input that the partner lacks.
pub fn tally_excludes()
    ensures { (graphs : TwoGraphs) (given : Given) (pairs : List AnyPair) (kind : AnyTallied) (have lack : List ℕ)
        → All (IsTrueFact graphs) given.facts
        → All (IsFactGiven given) have
        → All (IsFactGiven given) lack
        → IsTally graphs given pairs kind have lack
        → Excludes graphs pairs }
{}

/// Where some port of `from` must go to some port of `to`, and each way to pair two of them is impossible or excluded
/// by an earlier ban, no match has the pairs: it would take one of the ways.
pub fn cover_excludes()
    ensures { (graphs : TwoGraphs) (given : Given) (pairs : List AnyPair) (kind : AnyKind) (from to : List ℕ)
        (refs : List (Option ℕ))
        → All (Excludes graphs) given.bans
        → AreCoverNames graphs given kind from to refs
        → IsCover graphs given pairs kind from to refs
        → Excludes graphs pairs }
{}

/// No match has all pairs of a ban that is valid by true facts and by bans of which no match has all pairs.
pub fn valid_ban_excludes()
    ensures { (graphs : TwoGraphs) (given : Given) (ban : AnyBan)
        → IsGraph graphs.first
        → IsGraph graphs.second
        → AreRight graphs given
        → IsValidBan graphs given ban
        → Excludes graphs ban.pairs }
{}

/// No match has all pairs of any of these bans, where each is valid by true facts and by the bans before it.
pub fn bans_exclude()
    ensures { (graphs : TwoGraphs) (facts : List Decided) (bans : List AnyBan)
        → IsGraph graphs.first
        → IsGraph graphs.second
        → All (IsTrueFact graphs) facts
        → AreValidBans graphs facts bans
        → All (Excludes graphs) (pairs_of bans) }
{}

/// Where no match has all pairs of the empty list, there is no match.
pub fn empty_ban_refuses()
    ensures { (graphs : TwoGraphs)
        → Excludes graphs []
        → HaveNpnpEqualFunctions graphs.first graphs.second
        → ⊥ }
{}

/// Circuits that differ in their numbers of ports have no match.
pub fn other_counts_refuse()
    ensures { (first second : Net)
        → (HaveAsMany first second → ⊥)
        → HaveNpnpEqualFunctions first second
        → ⊥ }
{}

/// A valid ban stays valid when more facts and bans are given after those that it was valid by.
pub fn valid_ban_stays()
    ensures { (graphs : TwoGraphs) (given : Given) (facts : List Decided) (bans : List (List AnyPair)) (ban : AnyBan)
        → IsValidBan graphs given ban
        → IsValidBan graphs (with_more given facts bans) ban }
{}

/// Pairs in order agree with one another.
pub fn ordered_pairs_agree()
    ensures { (pairs : List AnyPair)
        → AreOrdered pairs
        → Agree pairs }
{}

/// The values that pairs in order send to the second circuit's inputs: a paired input has its partner's value, by the
/// sign, and every other one has X; no other values are so.
pub fn sent_values()
    ensures are { (pairs : List AnyPair) (n : ℕ) (values : List AnyTri)
        → AreOrdered pairs
        → All (λ pair. pair.kind ≡ Input → pair.to < n) pairs
        → AreSent pairs n values (values_sent pairs n values) }
    ensures only { (pairs : List AnyPair) (n : ℕ) (values sent : List AnyTri)
        → AreSent pairs n values sent
        → sent ≡ values_sent pairs n values }
{}
