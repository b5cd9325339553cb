//! What the first word of a line says.

ghost use Rattle.std.specs.Prelude.{◌≡◌};
ghost use Rattle.std.specs.List.{list_any};
ghost use Rattle.std.specs.Str.{bytes_eq};
ghost use Rattle.blif_reader.specs.Directives.{from_word, passed_over};

/// What a joined line of a BLIF file is.
#[derive(Clone, Copy)]
pub enum Directive {
    /// `.model`, with a name that isn't read.
    Model,
    /// `.inputs`: names of inputs.
    Inputs,
    /// `.outputs`: names of outputs.
    Outputs,
    /// `.names`: operands, and the name of a signal that the rows of a cover define by them.
    Names,
    /// `.subckt`: an instance of a model, with what its ports are bound to.
    Subckt,
    /// `.end`, after which nothing may stand.
    End,
    /// `.latch`, which is refused.
    Latch,
    /// `.exdc`, which is refused.
    DontCares,
    /// A directive that says nothing of the function: areas, delays, loads, attributes.
    PassedOver,
    /// Any other word that begins with a full stop.
    Unknown,
    /// A row of a cover.
    Row,
}

impl Directive {
    /// What a line is, by its first word.
    pub fn from_word(word: &[u8]) -> Directive
        ensures { result ≡ from_word word.now }
    {
        if word == b".model".as_slice() {
            return Directive::Model;
        }
        if word == b".inputs".as_slice() {
            return Directive::Inputs;
        }
        if word == b".outputs".as_slice() {
            return Directive::Outputs;
        }
        if word == b".names".as_slice() {
            return Directive::Names;
        }
        if word == b".subckt".as_slice() {
            return Directive::Subckt;
        }
        if word == b".end".as_slice() {
            return Directive::End;
        }
        if word == b".latch".as_slice() {
            return Directive::Latch;
        }
        if word == b".exdc".as_slice() {
            return Directive::DontCares;
        }
        if is_passed_over(word) {
            return Directive::PassedOver;
        }
        match word {
            [b'.', ..] => Directive::Unknown,
            _ => Directive::Row,
        }
    }
}

/// Delays, areas and drives of the BLIF document, and three words of other writers.
const PASSED_OVER: [&[u8]; 18] = [
    b".area",
    b".delay",
    b".wire_load_slope",
    b".wire",
    b".input_arrival",
    b".default_input_arrival",
    b".output_required",
    b".default_output_required",
    b".input_drive",
    b".default_input_drive",
    b".max_input_load",
    b".default_max_input_load",
    b".output_load",
    b".default_output_load",
    b".clock",
    b".attr",
    b".cname",
    b".param",
];

// Whether a directive says nothing of the function.
fn is_passed_over(word: &[u8]) -> bool
    ensures { result ≡ list_any (bytes_eq word.now) passed_over }
{
    is_among(word, PASSED_OVER.as_slice())
}

fn is_among(word: &[u8], words: &[&[u8]]) -> bool
    ensures { result ≡ list_any (λ known. bytes_eq word.now known.now) words.now }
{
    words.iter().any(|known| word == *known)
}
