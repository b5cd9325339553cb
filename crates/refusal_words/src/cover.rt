//! Ports that have too few partners, in words.

use crate::netlists::{Count, Netlists};
use crate::terminal_text::TerminalText;
use circuits::PortKind;
use std::fmt;

/// Ports of the first netlist, none of which goes to any of these ports of the second.
#[derive(Clone, Copy)]
pub(crate) struct Cover<'a> {
    pub(crate) netlists: &'a Netlists<'a>,
    pub(crate) kind: PortKind,
    pub(crate) from: &'a [u32],
    pub(crate) to: &'a [u32],
}

/// A way to pair two ports that an account excludes, and the number of the ban that does.
#[derive(Clone, Copy)]
pub(crate) struct Way<'a> {
    from: TerminalText<'a>,
    to: TerminalText<'a>,
    flip: bool,
    pub(crate) ban: u64,
}

/// As the report says where a port goes.
impl fmt::Display for Way<'_> {
    fn fmt<W: fmt::Write>(&self, f: &mut fmt::Formatter<W>) -> fmt::Result {
        let Way {
            from,
            to,
            flip,
            ban: _ban,
        } = *self;
        let sign = if flip { "not " } else { "" };
        write!(f, "{from} = {sign}{to}")
    }
}

impl<'a> Cover<'a> {
    /// The last way that a ban excludes, by the references of a cover: two for each port of the first netlist and each
    /// of the second, in order.
    pub(crate) fn last_way(&self, refs: &[Option<u64>]) -> Option<Way<'a>> {
        let place = refs.iter().rposition(|ban| ban.is_some())?;
        let ban = (*refs.get(place)?)?;
        let pair = place / 2;
        let from = self.from.get(pair.checked_div(self.to.len())?)?;
        let to = self.to.get(pair.checked_rem(self.to.len())?)?;
        Some(Way {
            from: self.netlists.first.port(self.kind, *from).name(),
            to: self.netlists.second.port(self.kind, *to).name(),
            flip: place % 2 == 1,
            ban,
        })
    }

    fn count(&self, ports: usize) -> Count {
        Count {
            ports,
            kind: self.kind,
        }
    }
}

/// As the beginning of a sentence.
impl fmt::Display for Cover<'_> {
    fn fmt<W: fmt::Write>(&self, f: &mut fmt::Formatter<W>) -> fmt::Result {
        let Cover {
            netlists,
            kind,
            from,
            to,
        } = *self;
        let (first, second) = (&netlists.first, &netlists.second);
        match (from, to) {
            ([port], _) => write!(
                f,
                "{} has no partner: {} of {} can't be it, plain or inverted",
                first.port(kind, *port),
                self.count(to.len()),
                TerminalText::name(second.file)
            ),
            (_, [port]) => write!(
                f,
                "{} is no port's partner: {} of {} can't go there, plain or inverted",
                second.port(kind, *port),
                self.count(from.len()),
                TerminalText::name(first.file)
            ),
            _ => write!(
                f,
                "{} of {} have too few partners: none of them goes to any of {} of {}",
                self.count(from.len()),
                TerminalText::name(first.file),
                self.count(to.len()),
                TerminalText::name(second.file)
            ),
        }
    }
}
