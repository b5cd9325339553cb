//! Models as a file gives them, line by line.

use circuits::Trit;
use items::Items;
use text_core::Span;

/// A `.names` line, and the rows after it.
#[derive(Drop)]
pub struct CoverLine<'a> {
    /// Where the line stands.
    pub at: u64,
    /// The names that it reads, in the order of the rows' places.
    pub operands: Items<Span<'a>>,
    /// The name that it defines.
    pub defined: Span<'a>,
    pub rows: Items<Items<Trit>>,
    /// Whether the rows list the on-set, which is so where there are none.
    pub on: bool,
}

/// A `.subckt` line: an instance of a model.
#[derive(Drop)]
pub struct InstanceLine<'a> {
    /// Where the line stands.
    pub at: u64,
    /// The name of the model.
    pub model: Span<'a>,
    /// The words that bind ports: a port of that model (the formal), `=`, and a name of the model in which the line
    /// stands (the actual).
    pub bindings: Items<Span<'a>>,
}

/// What a line of a model says.
#[derive(Drop)]
pub enum ModelLine<'a> {
    /// `.inputs`: names of inputs.
    Inputs(Items<Span<'a>>),
    /// `.outputs`: names of outputs.
    Outputs(Items<Span<'a>>),
    Cover(CoverLine<'a>),
    Instance(InstanceLine<'a>),
}

/// A model of a file.
#[derive(Drop)]
pub struct BlifModel<'a> {
    /// Where its `.model` line stands, and 0 where it has none.
    pub at: u64,
    /// The model's name, which is empty where it has no `.model` line.
    pub name: Span<'a>,
    /// The lines that say something of the model's function, in the order of the text.
    pub lines: Items<ModelLine<'a>>,
}
