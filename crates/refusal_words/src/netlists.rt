//! The two netlists of a run, and their ports by name.

use crate::terminal_text::TerminalText;
use circuits::PortKind;
use net_core::Side;
use net_file::{Name, Named};
use std::fmt;

/// A netlist, and the name of its file.
#[derive(Drop)]
pub(crate) struct NamedNetlist<'a> {
    pub(crate) file: &'a str,
    pub(crate) named: Named,
}

impl NamedNetlist<'_> {
    /// The names of its ports of a kind.
    fn names(&self, kind: PortKind) -> &[Name] {
        match kind {
            PortKind::Input => &self.named.input_names,
            PortKind::Output => &self.named.output_names,
        }
    }

    pub(crate) fn count(&self, kind: PortKind) -> usize {
        self.names(kind).len()
    }

    /// The port of a number.
    pub(crate) fn port(&self, kind: PortKind, number: u32) -> NamedPort<'_> {
        NamedPort {
            file: self.file,
            kind,
            name: match self.names(kind).get(number as usize) {
                Some(name) => name.as_slice(),
                None => b"",
            },
        }
    }
}

/// The two netlists.
#[derive(Drop)]
pub(crate) struct Netlists<'a> {
    pub(crate) first: NamedNetlist<'a>,
    pub(crate) second: NamedNetlist<'a>,
}

impl<'a> Netlists<'a> {
    pub(crate) fn on(&self, side: Side) -> &NamedNetlist<'a> {
        match side {
            Side::First => &self.first,
            Side::Second => &self.second,
        }
    }

    /// Whether they have as many inputs, and as many outputs.
    pub(crate) fn have_as_many(&self) -> bool {
        (self.first.count(PortKind::Input) == self.second.count(PortKind::Input))
            & (self.first.count(PortKind::Output) == self.second.count(PortKind::Output))
    }
}

/// A port of a netlist.
#[derive(Clone, Copy)]
pub(crate) struct NamedPort<'a> {
    file: &'a str,
    kind: PortKind,
    name: &'a [u8],
}

impl<'a> NamedPort<'a> {
    pub(crate) fn name(&self) -> TerminalText<'a> {
        TerminalText(self.name)
    }
}

/// As `output y of FILE`.
impl fmt::Display for NamedPort<'_> {
    fn fmt<W: fmt::Write>(&self, f: &mut fmt::Formatter<W>) -> fmt::Result {
        let NamedPort { file, kind, name } = *self;
        let kind = Kind(kind);
        write!(
            f,
            "{kind} {} of {}",
            TerminalText(name),
            TerminalText::name(file)
        )
    }
}

/// The word for a kind of ports.
#[derive(Clone, Copy)]
pub(crate) struct Kind(pub(crate) PortKind);

impl fmt::Display for Kind {
    fn fmt<W: fmt::Write>(&self, f: &mut fmt::Formatter<W>) -> fmt::Result {
        f.write_str(match self.0 {
            PortKind::Input => "input",
            PortKind::Output => "output",
        })
    }
}

/// A number of ports of a kind, as `1 output` or `3 inputs`.
#[derive(Clone, Copy)]
pub(crate) struct Count {
    pub(crate) ports: usize,
    pub(crate) kind: PortKind,
}

impl fmt::Display for Count {
    fn fmt<W: fmt::Write>(&self, f: &mut fmt::Formatter<W>) -> fmt::Result {
        let Count { ports, kind } = *self;
        let kind = Kind(kind);
        let ending = if ports == 1 { "" } else { "s" };
        write!(f, "{ports} {kind}{ending}")
    }
}
