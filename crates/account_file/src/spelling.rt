//! The lines that records are written as.

ghost use Rattle.std.specs.Prelude.{◌≡◌, ℕ, List, [], ◌∷◌, ◌++◌, codes, All, OnOk, OnErr, map};
ghost use Rattle.std.specs.Fmt.{decimal as digits_of_number};
ghost use Rattle.circuits.specs.Ports.{letter_of};
ghost use Rattle.account_bytes.specs.Bodies.{ClaimHasPorts, HasPorts, IsNumber, IsPort, IsReference, ShapeHasPorts};
ghost use Rattle.account_file.specs.Spelling.{BanHasNumbers, HasLine, HasNumbers};
ghost use Rattle.account_file.specs.Spelling.{IsWritable, StepHasNumbers};
ghost use Rattle.account_file.specs.Spelling.{bit_digit, bits_word, claim_words, kind_word, line_text};
ghost use Rattle.account_file.specs.Spelling.{pair_word, record_line, reference_word, shape_words, side_word, sign_of};
ghost use Rattle.account_file.specs.Spelling.{spaced, step_words, tallied_word, tri_digit, tris_word};

use crate::record::Record;
use account_core::{Ban, Conclusion, FactHead, Step, Tallied};
use bit_list::Bits;
use circuits::{Pair, PortKind};
use claim_core::{Claim, Shape};
use cnf_core::{LogLine, SatLit};
use net_core::Side;
use std::alloc::AllocError;
use text_core::put_decimal;
use word_sim::Tri;

/// Writes the one line of a record at the end of `out`: its words with one space between two, and a line feed. The
/// header is `npnp 1`. A fact is `fails` or `holds`, the claim, and the bits of the vector that breaks it, as in
/// `fails b 0 swap 1 4 01 =01101`. A line of a log is `l`, the literals, `:` and the hints. A ban is `ban`, its pairs,
/// `:` and its step. A conclusion is `none ports`, `none ban` and a ban's number, or `match` and the pairs of ports.
/// The last line is `end`. A pair is `i3+5` where input 3 goes to input 5, and `o0-1` where output 0 goes to output 1
/// inverted. Numbers have no leading zeros. A drop has no line. Running out of memory leaves `out` as it was.
pub fn put_record(entry: &Record, out: &mut Vec<u8>) -> Result<(), AllocError>
    requires { HasLine entry.now }
    ensures line { OnOk result (out.new.items ≡ out.old.items ++ record_line entry.now) }
    ensures writable { OnOk result (IsWritable entry.now) }
    ensures refused { OnErr result (out.new.items ≡ out.old.items) }
{
    let mut line = Vec::new(*out.allocator());
    put_text(entry, &mut line)?;
    line.extend_from_slice(b"\n")?;
    out.extend_from_slice(&line)
}

/// Writes the line of a claim that fails, and of the bits that break it. Where memory runs out, a first part may stand
/// in `out`, here and below.
pub fn put_fails(claim: Claim, bits: &Bits, out: &mut Vec<u8>) -> Result<(), AllocError>
    ensures line { OnOk result (out.new.items
        ≡ out.old.items ++ record_line (Record.Fact (FactHead.Fails claim bits.now))) }
    ensures writable { OnOk result (IsWritable (Record.Fact (FactHead.Fails claim bits.now))) }
{
    put_fails_text(claim, bits, out)?;
    out.extend_from_slice(b"\n")
}

/// Writes the line of a claim that holds, which the lines of its log follow.
pub fn put_holds(claim: Claim, out: &mut Vec<u8>) -> Result<(), AllocError>
    ensures line { OnOk result (out.new.items ≡ out.old.items ++ record_line (Record.Fact (FactHead.Holds claim))) }
    ensures writable { OnOk result (IsWritable (Record.Fact (FactHead.Holds claim))) }
{
    put_holds_text(claim, out)?;
    out.extend_from_slice(b"\n")
}

/// Writes a line of a log.
pub fn put_log_line(line: &LogLine, out: &mut Vec<u8>) -> Result<(), AllocError>
    ensures line { OnOk result (out.new.items ≡ out.old.items ++ record_line (Record.Line line.now)) }
    ensures writable { OnOk result (IsWritable (Record.Line line.now)) }
{
    put_log_text(line, out)?;
    out.extend_from_slice(b"\n")
}

/// Writes the line of a ban.
pub fn put_ban(ban: &Ban, out: &mut Vec<u8>) -> Result<(), AllocError>
    ensures line { OnOk result (out.new.items ≡ out.old.items ++ record_line (Record.Ban ban.now)) }
    ensures writable { OnOk result (IsWritable (Record.Ban ban.now)) }
{
    put_ban_text(ban, out)?;
    out.extend_from_slice(b"\n")
}

// Writes the line of a record without its line feed.
fn put_text(entry: &Record, out: &mut Vec<u8>) -> Result<(), AllocError>
    requires { HasLine entry.now }
    ensures text { OnOk result (out.new.items ≡ out.old.items ++ line_text entry.now) }
    ensures writable { OnOk result (IsWritable entry.now) }
{
    match entry {
        Record::Header => out.extend_from_slice(b"npnp 1"),
        Record::Fact(FactHead::Fails { claim, bits }) => put_fails_text(*claim, bits, out),
        Record::Fact(FactHead::Holds { claim }) => put_holds_text(*claim, out),
        Record::Line(line) => put_log_text(line, out),
        Record::Ban(ban) => put_ban_text(ban, out),
        Record::Conclusion(conclusion) => put_conclusion(conclusion, out),
        Record::DropFact(_) | Record::DropBan(_) => unreachable!(),
        Record::End => out.extend_from_slice(b"end"),
    }
}

fn put_fails_text(claim: Claim, bits: &Bits, out: &mut Vec<u8>) -> Result<(), AllocError>
    ensures text { OnOk result (out.new.items
        ≡ out.old.items ++ line_text (Record.Fact (FactHead.Fails claim bits.now))) }
    ensures ports { OnOk result (ClaimHasPorts claim) }
{
    out.extend_from_slice(b"fails")?;
    put_claim(claim, out)?;
    put_bits(bits, out)
}

fn put_holds_text(claim: Claim, out: &mut Vec<u8>) -> Result<(), AllocError>
    ensures text { OnOk result (out.new.items ≡ out.old.items ++ line_text (Record.Fact (FactHead.Holds claim))) }
    ensures ports { OnOk result (ClaimHasPorts claim) }
{
    out.extend_from_slice(b"holds")?;
    put_claim(claim, out)
}

fn put_claim(claim: Claim, out: &mut Vec<u8>) -> Result<(), AllocError>
    ensures text { OnOk result (out.new.items ≡ out.old.items ++ spaced (claim_words claim)) }
    ensures ports { OnOk result (ClaimHasPorts claim) }
{
    put_side(claim.side, out)?;
    put_number(u64::from(claim.output), out)?;
    put_shape(claim.shape, out)
}

fn put_side(side: Side, out: &mut Vec<u8>) -> Result<(), AllocError>
    ensures { OnOk result (out.new.items ≡ out.old.items ++ 32 ∷ side_word side) }
{
    match side {
        Side::First => out.extend_from_slice(b" a"),
        Side::Second => out.extend_from_slice(b" b"),
    }
}

fn put_shape(shape: Shape, out: &mut Vec<u8>) -> Result<(), AllocError>
    ensures ports { OnOk result (ShapeHasPorts shape) }
    ensures text { OnOk result (out.new.items ≡ out.old.items ++ spaced (shape_words shape)) }
{
    match shape {
        Shape::Up(i) => {
            out.extend_from_slice(b" up")?;
            put_number(u64::from(i), out)
        }
        Shape::Down(i) => {
            out.extend_from_slice(b" down")?;
            put_number(u64::from(i), out)
        }
        Shape::Swap { i, j, a, b } => {
            out.extend_from_slice(b" swap")?;
            put_number(u64::from(i), out)?;
            put_number(u64::from(j), out)?;
            out.extend_from_slice(&[b' ', bit_digit(a), bit_digit(b)])
        }
    }
}

fn bit_digit(bit: bool) -> u8
    ensures { result ≡ bit_digit bit }
{
    if bit { b'1' } else { b'0' }
}

fn tri_digit(tri: Tri) -> u8
    ensures { result ≡ tri_digit tri }
{
    match tri {
        Tri::Zero => b'0',
        Tri::One => b'1',
        Tri::X => b'x',
    }
}

fn put_bits(bits: &Bits, out: &mut Vec<u8>) -> Result<(), AllocError>
    ensures { OnOk result (out.new.items ≡ out.old.items ++ 32 ∷ bits_word bits.now) }
{
    out.extend_from_slice(b" =")?;
    for k in 0..bits.len() {
        out.push(bit_digit(bits.get(k)))?;
    }
    Ok(())
}

fn put_tris(tris: &[Tri], out: &mut Vec<u8>) -> Result<(), AllocError>
    ensures { OnOk result (out.new.items ≡ out.old.items ++ 32 ∷ tris_word tris.now) }
{
    out.extend_from_slice(b" =")?;
    for tri in tris.iter() {
        out.push(tri_digit(*tri))?;
    }
    Ok(())
}

// What is written as one word of a list.
trait Spell {
    // The word.
    ghost word: { Self → List ℕ };

    // What is known of all that is written so.
    ghost fits: { Self → Type 0 };

    fn put(&self, out: &mut Vec<u8>) -> Result<(), AllocError>
        ensures fits { OnOk result (fits self.now) }
        ensures text { OnOk result (out.new.items ≡ out.old.items ++ 32 ∷ word self.now) };
}

impl Spell for SatLit {
    ghost word = { λ literal. digits_of_number literal.0 };

    ghost fits = { λ literal. IsNumber literal.0 };

    fn put(&self, out: &mut Vec<u8>) -> Result<(), AllocError> {
        put_number(self.0, out)
    }
}

impl Spell for u64 {
    ghost word = { digits_of_number };

    ghost fits = { IsNumber };

    fn put(&self, out: &mut Vec<u8>) -> Result<(), AllocError> {
        put_number(*self, out)
    }
}

impl Spell for u32 {
    ghost word = { digits_of_number };

    ghost fits = { IsPort };

    fn put(&self, out: &mut Vec<u8>) -> Result<(), AllocError> {
        put_number(u64::from(*self), out)
    }
}

impl Spell for Option<u64> {
    ghost word = { reference_word };

    ghost fits = { IsReference };

    fn put(&self, out: &mut Vec<u8>) -> Result<(), AllocError> {
        match self {
            Some(ban) => put_number(*ban, out),
            None => out.extend_from_slice(b" -"),
        }
    }
}

impl Spell for Pair {
    ghost word = { pair_word };

    ghost fits = { HasPorts };

    fn put(&self, out: &mut Vec<u8>) -> Result<(), AllocError> {
        out.extend_from_slice(b" ")?;
        put_kind(self.kind, out)?;
        put_decimal(u64::from(self.from), out)?;
        put_sign(self.flip, out)?;
        put_decimal(u64::from(self.to), out)
    }
}

fn put_list<T: Spell>(list: &[T], out: &mut Vec<u8>) -> Result<(), AllocError>
    ensures fits { OnOk result (All T.fits list.now) }
    ensures text { OnOk result (out.new.items ≡ out.old.items ++ spaced (map T.word list.now)) }
{
    for item in list.iter() {
        item.put(out)?;
    }
    Ok(())
}

fn put_log_text(line: &LogLine, out: &mut Vec<u8>) -> Result<(), AllocError>
    ensures text { OnOk result (out.new.items ≡ out.old.items ++ line_text (Record.Line line.now)) }
    ensures numbers { OnOk result (HasNumbers line.now) }
{
    out.extend_from_slice(b"l")?;
    put_list(&line.clause, out)?;
    out.extend_from_slice(b" :")?;
    put_list(&line.hints, out)
}

fn put_number(number: u64, out: &mut Vec<u8>) -> Result<(), AllocError>
    ensures number { IsNumber number }
    ensures text { OnOk result (out.new.items ≡ out.old.items ++ 32 ∷ digits_of_number number) }
{
    out.extend_from_slice(b" ")?;
    put_decimal(number, out)
}

fn put_ban_text(ban: &Ban, out: &mut Vec<u8>) -> Result<(), AllocError>
    ensures text { OnOk result (out.new.items ≡ out.old.items ++ line_text (Record.Ban ban.now)) }
    ensures numbers { OnOk result (BanHasNumbers ban.now) }
{
    out.extend_from_slice(b"ban")?;
    put_list(&ban.pairs, out)?;
    out.extend_from_slice(b" :")?;
    put_step(&ban.step, out)
}

fn put_step(step: &Step, out: &mut Vec<u8>) -> Result<(), AllocError>
    ensures numbers { OnOk result (StepHasNumbers step.now) }
    ensures text { OnOk result (out.new.items ≡ out.old.items ++ spaced (step_words step.now)) }
{
    match step {
        Step::Vector { output, bits } => {
            out.extend_from_slice(b" vector")?;
            put_number(u64::from(*output), out)?;
            put_tris(bits, out)
        }
        Step::Mismatch { fails, holds } => {
            out.extend_from_slice(b" mismatch")?;
            put_number(*fails, out)?;
            put_number(*holds, out)
        }
        Step::Tally { kind, have, lack } => put_tally(*kind, have, lack, out),
        Step::Cover {
            kind,
            from,
            to,
            refs,
        } => put_cover(*kind, from, to, refs, out),
    }
}

fn put_tally(kind: Tallied, have: &[u64], lack: &[u64], out: &mut Vec<u8>) -> Result<(), AllocError>
    ensures numbers { OnOk result (StepHasNumbers (Step.Tally kind have.now lack.now)) }
    ensures text { OnOk result (out.new.items ≡ out.old.items
        ++ spaced (step_words (Step.Tally kind have.now lack.now))) }
{
    out.extend_from_slice(b" tally")?;
    put_tallied(kind, out)?;
    put_list(have, out)?;
    out.extend_from_slice(b" /")?;
    put_list(lack, out)
}

fn put_cover(
    kind: PortKind,
    from: &[u32],
    to: &[u32],
    refs: &[Option<u64>],
    out: &mut Vec<u8>,
) -> Result<(), AllocError>
    ensures numbers { OnOk result (StepHasNumbers (Step.Cover kind from.now to.now refs.now)) }
    ensures text { OnOk result (out.new.items ≡ out.old.items
        ++ spaced (step_words (Step.Cover kind from.now to.now refs.now))) }
{
    out.extend_from_slice(b" cover")?;
    put_port_kind(kind, out)?;
    put_list(from, out)?;
    out.extend_from_slice(b" /")?;
    put_list(to, out)?;
    out.extend_from_slice(b" /")?;
    put_list(refs, out)
}

fn put_tallied(kind: Tallied, out: &mut Vec<u8>) -> Result<(), AllocError>
    ensures { OnOk result (out.new.items ≡ out.old.items ++ 32 ∷ tallied_word kind) }
{
    match kind {
        Tallied::Support => out.extend_from_slice(b" support"),
        Tallied::Binate => out.extend_from_slice(b" binate"),
    }
}

fn put_port_kind(kind: PortKind, out: &mut Vec<u8>) -> Result<(), AllocError>
    ensures { OnOk result (out.new.items ≡ out.old.items ++ 32 ∷ kind_word kind) }
{
    match kind {
        PortKind::Input => out.extend_from_slice(b" in"),
        PortKind::Output => out.extend_from_slice(b" out"),
    }
}

fn put_conclusion(conclusion: &Conclusion, out: &mut Vec<u8>) -> Result<(), AllocError>
    ensures writable { OnOk result (IsWritable (Record.Conclusion conclusion.now)) }
    ensures text { OnOk result (out.new.items ≡ out.old.items ++ line_text (Record.Conclusion conclusion.now)) }
{
    match conclusion {
        Conclusion::NonePorts => out.extend_from_slice(b"none ports"),
        Conclusion::NoneBan(ban) => {
            out.extend_from_slice(b"none ban")?;
            put_number(*ban, out)
        }
        Conclusion::Match(pairs) => {
            out.extend_from_slice(b"match")?;
            put_list(pairs, out)
        }
    }
}

fn put_kind(kind: PortKind, out: &mut Vec<u8>) -> Result<(), AllocError>
    ensures { OnOk result (out.new.items ≡ out.old.items ++ letter_of kind ∷ []) }
{
    out.push(kind.letter())?;
    Ok(())
}

fn put_sign(flip: bool, out: &mut Vec<u8>) -> Result<(), AllocError>
    ensures { OnOk result (out.new.items ≡ out.old.items ++ sign_of flip ∷ []) }
{
    if flip {
        out.extend_from_slice(b"-")
    } else {
        out.extend_from_slice(b"+")
    }
}
