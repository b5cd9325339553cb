//! Why ports can't be paired, in words.

use crate::netlists::{NamedNetlist, NamedPort, Netlists};
use account_core::Tallied;
use circuits::{Pair, PortKind};
use claim_core::{Claim, Shape};
use std::fmt;

/// Why no match has all pairs of a ban.
#[derive(Clone, Copy)]
pub(crate) enum WhyExcluded<'a> {
    /// Of two outputs one has at least so many such inputs, and the other one has at most so many.
    Tally {
        kind: Tallied,
        having: NamedPort<'a>,
        have: usize,
        lacking: NamedPort<'a>,
        most: usize,
    },
    /// An output falls on some vector, and its partner on none.
    Mismatch {
        falls: Fall<'a>,
        never: Fall<'a>,
    },
    /// Two outputs differ on some vector.
    Vector {
        output: NamedPort<'a>,
        partner: NamedPort<'a>,
    },
    /// This port, or a port among those of which this is the first, has no partner left.
    NoneLeft(NamedPort<'a>),
}

/// An output, and a change of one or two inputs of its netlist.
#[derive(Clone, Copy)]
pub(crate) struct Fall<'a> {
    output: NamedPort<'a>,
    change: ClaimChange<'a>,
}

/// A change of one or two inputs.
#[derive(Clone, Copy)]
enum ClaimChange<'a> {
    Rises(NamedPort<'a>),
    Falls(NamedPort<'a>),
    /// Both inputs go from these values to the opposite ones.
    Both {
        one: NamedPort<'a>,
        other: NamedPort<'a>,
        from: (bool, bool),
    },
}

impl<'a> Fall<'a> {
    fn of(netlists: &'a Netlists<'_>, claim: Claim) -> Fall<'a> {
        let source = netlists.on(claim.side);
        Fall {
            output: source.port(PortKind::Output, claim.output),
            change: change_of(source, claim.shape),
        }
    }
}

fn change_of<'a>(source: &'a NamedNetlist<'_>, shape: Shape) -> ClaimChange<'a> {
    match shape {
        Shape::Up(i) => ClaimChange::Rises(source.port(PortKind::Input, i)),
        Shape::Down(i) => ClaimChange::Falls(source.port(PortKind::Input, i)),
        Shape::Swap { i, j, a, b } => ClaimChange::Both {
            one: source.port(PortKind::Input, i),
            other: source.port(PortKind::Input, j),
            from: (a, b),
        },
    }
}

impl<'a> WhyExcluded<'a> {
    /// What a tally says, by a claim of the output that has the inputs and one of the output that lacks them.
    pub(crate) fn tally(
        netlists: &'a Netlists<'_>,
        kind: Tallied,
        counts: (usize, usize),
        claims: (Claim, Claim),
    ) -> WhyExcluded<'a> {
        let lacking = netlists.on(claims.1.side);
        let (have, lack) = match kind {
            Tallied::Support => (counts.0, counts.1 / 2),
            Tallied::Binate => (counts.0 / 2, counts.1),
        };
        WhyExcluded::Tally {
            kind,
            having: netlists
                .on(claims.0.side)
                .port(PortKind::Output, claims.0.output),
            have,
            lacking: lacking.port(PortKind::Output, claims.1.output),
            most: lacking.count(PortKind::Input).saturating_sub(lack),
        }
    }

    /// What a mismatch says, by the claim that fails and the one that holds.
    pub(crate) fn mismatch(netlists: &'a Netlists<'_>, claims: (Claim, Claim)) -> WhyExcluded<'a> {
        WhyExcluded::Mismatch {
            falls: Fall::of(netlists, claims.0),
            never: Fall::of(netlists, claims.1),
        }
    }

    /// What a vector says of an output and the one that it is paired with.
    pub(crate) fn vector(
        netlists: &'a Netlists<'_>,
        output: u32,
        pairs: &[Pair],
    ) -> Option<WhyExcluded<'a>> {
        let pair = pairs.iter().find(|pair| (pair.kind == PortKind::Output)
            & (pair.from == output))?;
        Some(WhyExcluded::Vector {
            output: netlists.first.port(PortKind::Output, output),
            partner: netlists.second.port(PortKind::Output, pair.to),
        })
    }

    /// What a cover says beside the pairs of its ban.
    pub(crate) fn none_left(
        netlists: &'a Netlists<'_>,
        kind: PortKind,
        from: &[u32],
        to: &[u32],
    ) -> Option<WhyExcluded<'a>> {
        let (source, ports) = if to.len() == 1 {
            (&netlists.second, to)
        } else {
            (&netlists.first, from)
        };
        Some(WhyExcluded::NoneLeft(source.port(kind, *ports.first()?)))
    }
}

/// As the end of a sentence, after `since`.
impl fmt::Display for WhyExcluded<'_> {
    fn fmt<W: fmt::Write>(&self, f: &mut fmt::Formatter<W>) -> fmt::Result {
        match self {
            WhyExcluded::Tally {
                kind,
                having,
                have,
                lacking,
                most,
            } => {
                let (verb, preposition) = match kind {
                    Tallied::Support => ("depends on", "on"),
                    Tallied::Binate => ("is binate in", "in"),
                };
                write!(
                    f,
                    "{having} {verb} {have} inputs or more, {lacking} {preposition} {most} at most"
                )
            }
            WhyExcluded::Mismatch { falls, never } => write!(
                f,
                "{} falls on some vector as {}, {} on none as {}",
                falls.output, falls.change, never.output, never.change
            ),
            WhyExcluded::Vector { output, partner } => {
                write!(f, "{output} and {partner} differ on some vector")
            }
            WhyExcluded::NoneLeft(port) => write!(f, "{port} has no partner then"),
        }
    }
}

impl fmt::Display for ClaimChange<'_> {
    fn fmt<W: fmt::Write>(&self, f: &mut fmt::Formatter<W>) -> fmt::Result {
        match self {
            ClaimChange::Rises(input) => write!(f, "input {} rises", input.name()),
            ClaimChange::Falls(input) => write!(f, "input {} falls", input.name()),
            ClaimChange::Both {
                one,
                other,
                from: (a, b),
            } => {
                let (a, b) = (u8::from(*a), u8::from(*b));
                let (one, other) = (one.name(), other.name());
                write!(
                    f,
                    "inputs {one} and {other} leave {a}{b} for the opposite values"
                )
            }
        }
    }
}
