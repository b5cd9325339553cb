//! The ports of a circuit, and pairs of ports of two circuits.

ghost use Rattle.std.specs.Prelude.{◌≡◌, ◌≢◌, IfNone, IfSome};
ghost use Rattle.circuits.specs.declared.port.PortKind.{PortKind as AnyKind};
ghost use Rattle.circuits.specs.Ports.{kind_of_letter, letter_of};

/// An input or an output.
#[derive(Clone, Copy, Debug, Default, PartialEq, Eq, Hash)]
pub enum PortKind {
    #[default]
    Input,
    Output,
}

impl PortKind {
    /// The letter of such ports: `i` or `o` (the symbols of AIGER).
    pub fn letter(self) -> u8
        ensures { result ≡ letter_of self }
    {
        match self {
            PortKind::Input => b'i',
            PortKind::Output => b'o',
        }
    }

    /// The kind of the ports with this letter.
    pub fn from_letter(letter: u8) -> Option<PortKind>
        ensures value { result ≡ kind_of_letter letter }
        ensures kind { IfSome result (λ kind. letter ≡ letter_of kind) }
        ensures none { IfNone result ((kind : AnyKind) → letter ≢ letter_of kind) }
    {
        match letter {
            b'i' => Some(PortKind::Input),
            b'o' => Some(PortKind::Output),
            _ => None,
        }
    }
}

/// A port of the first circuit goes to a port of the second, of the same kind, plain or inverted.
#[derive(Clone, Copy, Debug, Default, PartialEq, Eq, Hash)]
pub struct Pair {
    pub kind: PortKind,
    /// The first circuit's port: its position, from 0, in the file.
    pub from: u32,
    /// The second circuit's port.
    pub to: u32,
    /// Whether the second port has the inverse of the first.
    pub flip: bool,
}
