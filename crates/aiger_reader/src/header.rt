//! The first line of a file in either form.

ghost use Rattle.std.specs.Prelude.{◌≡◌, ℕ, ◌≤◌, ◌↔◌, Bool, List, length, map, take, IsTrue, Some, None, IfOk, IfErr};
ghost use Rattle.std.specs.Prelude.{IfSome, IfNone, nat_lt};
ghost use Rattle.std.specs.List.{list_any};
ghost use Rattle.aiger_reader.specs.Words.{numbers_on, AreSmall};
ghost use Rattle.aiger_reader.specs.Headers.{AigerHeader, keyword, line_after, WritesHeader, HasHeader, Begins};
ghost use Rattle.aiger_reader.specs.Headers.{header_fault};
ghost use Rattle.aiger_reader.specs.Numbers.{header_of, header_from, WritesNumbers, HasNumbers, IsCounted};
ghost use Rattle.aiger_reader.specs.Numbers.{IsHeaderFault};

pub(crate) use crate::limits::Header;
use crate::words::{has_no_word, small_number};
use net_core::{MAX_GATES, MAX_PORTS, MAX_VARIABLES};
use net_file::NetKind;
use text_core::{Cursor, Span, next_word};

/// The numbers after the keyword, M I L O A, and whether one of the others, B C J F, is above 0.
#[derive(Clone, Copy)]
struct HeaderNumbers {
    variables: u32,
    inputs: u32,
    latches: u32,
    outputs: u32,
    gates: u32,
    has_property: bool,
}

impl HeaderNumbers {
    // Whether there are enough variables for the inputs, latches and gates, and in the binary form no more.
    fn is_counted(&self, binary: bool) -> bool
        ensures { IsTrue result ↔ IsCounted binary self.now }
    {
        let defined = u64::from(self.inputs) + u64::from(self.latches) + u64::from(self.gates);
        let variables = u64::from(self.variables);
        if binary {
            defined == variables
        } else {
            defined <= variables
        }
    }

    // The header of a form with these numbers, or what it asks for that isn't accepted.
    fn accept(&self, binary: bool) -> Result<Header, NetKind>
        ensures header { IfOk result (λ header. (properties : List ℕ)
            → header_of header properties ≡ header_from binary self.now properties) }
        ensures accepted { IfOk result (λ header. (properties : List ℕ)
            → self.now.has_property ≡ list_any (nat_lt 0) properties
            → header_fault (header_from binary self.now properties) ≡ None) }
        ensures fault { IfErr result (λ fault. (properties : List ℕ)
            → self.now.has_property ≡ list_any (nat_lt 0) properties
            → header_fault (header_from binary self.now properties) ≡ Some fault) }
    {
        // what sort of circuit it is comes before how large it is, as the kinds of faults are numbered
        if self.latches > 0 {
            return Err(NetKind::Sequential);
        }
        if self.has_property {
            return Err(NetKind::Property);
        }
        if self.inputs > MAX_PORTS {
            return Err(NetKind::TooManyInputs);
        }
        if self.outputs > MAX_PORTS {
            return Err(NetKind::TooManyOutputs);
        }
        if self.gates > MAX_GATES {
            return Err(NetKind::TooManyGates);
        }
        if self.variables > MAX_VARIABLES {
            return Err(NetKind::TooManyGates);
        }
        Ok(Header {
            binary,
            variables: self.variables,
            inputs: self.inputs,
            outputs: self.outputs,
            gates: self.gates,
        })
    }
}

/// The header that a file of either form begins with: `aag` or `aig` and a space, and after them on the first
/// line five to nine numbers below 2^32, the greatest variable, the inputs, latches, outputs and gates, and the
/// bad states, constraints, justice and fairness properties (AIGER 1.9).
///
/// # Errors
///
/// [`NetKind::Header`] exactly where the file has no such header, or one whose greatest variable is below the
/// number of inputs, latches and gates, or in the binary form above it. Else, and in this order,
/// [`NetKind::Sequential`] where there are latches, [`NetKind::Property`] where there is one of the properties,
/// and [`NetKind::TooManyInputs`], [`NetKind::TooManyOutputs`] and [`NetKind::TooManyGates`] where there are more
/// than [`MAX_PORTS`] inputs, [`MAX_PORTS`] outputs, or [`MAX_GATES`] gates or [`MAX_VARIABLES`] variables.
pub(crate) fn read_header(input: &[u8]) -> Result<Header, NetKind>
    ensures begins { IfOk result (λ header. (properties : List ℕ)
        × Begins input.now (header_of header properties)) }
    ensures fault { IfErr result (IsHeaderFault input.now) }
{
    let Some((binary, numbers)) = announced(input) else {
        return Err(NetKind::Header);
    };
    numbers.accept(binary)
}

// The form of a file and the numbers of its header, where it has one.
fn announced(input: &[u8]) -> Option<(bool, HeaderNumbers)>
    ensures header { IfSome result (λ found. HasNumbers input.now found.0 found.1) }
    ensures none { IfNone result ((h : AigerHeader) → HasHeader input.now h → ⊥) }
{
    let binary = form_of(input)?;
    let numbers = read_numbers(input)?;
    if !numbers.is_counted(binary) {
        return None;
    }
    Some((binary, numbers))
}

// Whether a file begins as one of the binary form: `None` where it begins as one of neither form.
fn form_of(input: &[u8]) -> Option<bool>
    ensures form { IfSome result (λ binary. take 4 input.now ≡ keyword binary) }
    ensures neither { IfNone result ((binary : Bool) → take 4 input.now ≡ keyword binary → ⊥) }
{
    if input.starts_with(b"aag ") {
        return Some(false);
    }
    if input.starts_with(b"aig ") {
        return Some(true);
    }
    None
}

// The first line after the keyword.
#[tactic(auto, using(crate::proofs::HeaderLemmas::first_after, crate::proofs::HeaderLemmas::none_after))]
fn line_after_keyword(input: &[u8]) -> Option<Span<'_>>
    requires { 4 ≤ length input.now }
    ensures line { IfSome result (λ line. line_after input.now ≡ line.bytes) }
    ensures none { IfNone result ((h : AigerHeader) → WritesHeader (line_after input.now) h → ⊥) }
{
    Cursor::new(&input[4..]).next_line()
}

// The numbers on the first line after the keyword, where these are five to nine of 32 bits.
fn read_numbers(input: &[u8]) -> Option<HeaderNumbers>
    requires { 4 ≤ length input.now }
    ensures numbers { IfSome result (WritesNumbers (line_after input.now)) }
    ensures none { IfNone result ((h : AigerHeader) → WritesHeader (line_after input.now) h → ⊥) }
{
    let mut line = line_after_keyword(input)?;
    let mut row = [0; 9];
    let count = fill(&mut line, &mut row)?;
    if count < 5 {
        return None;
    }
    let [variables, inputs, latches, outputs, gates, ..] = row;
    Some(HeaderNumbers {
        variables,
        inputs,
        latches,
        outputs,
        gates,
        has_property: is_any_above_zero(&row[5..count]),
    })
}

// Whether one of the numbers is above 0.
fn is_any_above_zero(numbers: &[u32]) -> bool
    ensures { result ≡ list_any (nat_lt 0) numbers.now }
{
    numbers.iter().any(|number| *number > 0)
}

// Writes the numbers on a line to the front of the row, and says how many they are.
// `None` where they are more than the row has room for, or a word is no number of 32 bits.
fn fill(line: &mut Span<'_>, row: &mut [u32]) -> Option<usize>
    ensures numbers { IfSome result (λ count.
        numbers_on line.old.bytes ≡ map Some (take count row.new)) }
    ensures within { IfSome result (λ count. count ≤ length row.new) }
    ensures small { IfSome result (λ count. AreSmall (take count row.new)) }
    ensures none { IfNone result ((numbers : List ℕ) → length numbers ≤ length row.old
        → AreSmall numbers → numbers_on line.old.bytes ≡ map Some numbers → ⊥) }
{
    for (count, number) in row.iter_mut().enumerate() {
        let Some(word) = next_word(line) else {
            return Some(count);
        };
        *number = small_number(word)?;
    }
    if !has_no_word(line) {
        return None;
    }
    Some(row.len())
}
