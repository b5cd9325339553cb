//! What people are told of the end of a run.

ghost use Rattle.std.specs.Prelude.{◌≡◌, ◌≤◌, IfOk};
ghost use Rattle.shelf_core.specs.State.{Closed};

use crate::files::{A, AND, AND_XOR, B, C17, C17_MOVED, EMPTY, SAME_TWICE, TABLE, THREE, TWO, XOR};
use crate::runs::{CHECK, MATCH, files_of, words_of};
use explain::{
    EndedRun, FailedFile, FolderFault, Notice, Warning, explain, fault_of_words, folder_of,
};
use npnp::outcome::Outcome;
use npnp::run::run;
use shelf_core::{MemShelf, SafeShelf, SafeSink, Shelf};
use std::alloc::{AllocError, Global};
use std::process::Abort;
use std::test::Fail;

/// The words of `info`.
const INFO: &[&str] = &["info", "A"];

/// What is told of an outcome by the files of a shelf.
fn told_over<S: Shelf>(
    alloc: Global,
    words: &[&str],
    outcome: &Outcome,
    fault: Option<FailedFile<'_>>,
    shelf: &mut S,
) -> Result<String, AllocError>
    requires { (S.state shelf.old).mode ≡ Closed }
{
    let words = words_of(alloc, words)?;
    let ended = EndedRun {
        words: words.as_slice(),
        outcome,
        fault,
        readable: true,
    };
    Ok(explain(alloc, &ended, shelf))
}

/// How a run on these files ends.
fn outcome_of(
    alloc: Global,
    words: &[&str],
    netlists: [&[u8]; 2],
    account: Option<&[u8]>,
) -> Result<Outcome, AllocError> {
    let words = words_of(alloc, words)?;
    let mut shelf = SafeShelf::new(alloc, files_of(alloc, netlists, account)?, 65_536)?;
    let mut sink = SafeSink::new(alloc);
    Ok(run(alloc, words.as_slice(), &mut shelf, &mut sink))
}

/// What is told of an outcome by these files, which are read in pieces of 16 bytes.
fn told_of(
    alloc: Global,
    words: &[&str],
    outcome: &Outcome,
    netlists: [&[u8]; 2],
    account: Option<&[u8]>,
) -> Result<String, AllocError> {
    let mut shelf = SafeShelf::new(alloc, files_of(alloc, netlists, account)?, 16)?;
    told_over(alloc, words, outcome, None, &mut shelf)
}

/// What is told of a run on these files.
fn told_of_run(
    alloc: Global,
    words: &[&str],
    netlists: [&[u8]; 2],
    account: Option<&[u8]>,
) -> Result<String, AllocError> {
    let outcome = outcome_of(alloc, words, netlists, account)?;
    told_of(alloc, words, &outcome, netlists, account)
}

/// A malformed netlist `A`, and what is told of it.
static MALFORMED: [(&[u8], &str); 15] = [
    (
        b".model x\n.inputs a b\n.outputs y\n.names a b y\n111 1\n.end\n",
        "A:5:1: a row of another width than the operands of its cover\n  111 1\n",
    ),
    (
        b".inputs a\n.outputs y\n  .foo\x1b[31m\x07 b\n",
        "A:3:3: a directive that is not known or out of place\n    .foo?[31m? b\n",
    ),
    (
        b".inputs a\n.outputs y\n",
        "A:2:10: a name that is neither an input nor defined\n  .outputs y\n",
    ),
    (
        b".inputs a\n",
        "A:2:1: the file ends, and there is no .inputs line or no .outputs line\n",
    ),
    (
        b"aag 3 2 0 1 1\n2\n4\n6\n6 2 9\n",
        "A:5:1: a literal out of range, or one that may not be defined\n  6 2 9\n",
    ),
    (
        b"aig 3 2 0 1 1\n6\n\x02",
        "A: byte 17: a delta that is cut off, too long or out of range\n",
    ),
    (
        b".inputs a\n.outputs y\n.gate inv a=a O=y\n",
        "A:3:1: a directive that is not known or out of place\n  .gate inv a=a O=y\n\
         A: replace the cells by what they compute, by their library: `abc -c 'read_genlib LIBRARY; read_blif F; \
         unmap; write_blif G'`, or of Liberty `yosys -p 'read_liberty LIBRARY; read_blif F; hierarchy -auto-top; \
         flatten; techmap; write_blif G'`\n",
    ),
    (
        b".inputs a\n.outputs y\n.subckt m x=a z=y\n",
        "A:3:1: a directive that is not known or out of place\n  .subckt m x=a z=y\n\
         A: flatten it to one model: `npnp flatten F G`\n",
    ),
    (
        b".model m\n.inputs a\n.outputs a\n.end\n.model n\n",
        "A:5:1: a second model: one is read\n  .model n\n\
         A: flatten it to one model: `npnp flatten F G`\n",
    ),
    (
        b".inputs a\n.outputs q\n.latch a q re c 0\n",
        "A:3:1: a latch: only combinational netlists are read\n  .latch a q re c 0\n\
         A: cut it at the registers, so that their outputs are inputs: `abc -c 'read_blif F; comb; write_blif G'`\n",
    ),
    (
        b"aig 3 1 1 1 1\n6\n6\n\x02\x02",
        "A:1:1: latches: only combinational netlists are read\n  aig 3 1 1 1 1\n\
         A: cut it at the registers, so that their outputs are inputs: `abc -c 'read_aiger F; comb; write_aiger \
         G'`\n",
    ),
    (
        b"",
        "A:1:1: the file ends, and there is no .inputs line or no .outputs line\nA: the file is empty\n",
    ),
    (
        b"\x1f\x8b\x08\x00\x00",
        "A:1:1: a row outside a cover\nA: this looks like a file compressed by gzip: `gzip -dc F > G`\n",
    ),
    (
        b"// a half adder\n/* of\nours */ module m(a, y);\n",
        "A:1:1: a row outside a cover\n  // a half adder\n\
         A: this looks like Verilog: `yosys -p 'read_verilog F; synth -flatten; write_blif G'`\n",
    ),
    (
        b"library (cells) {\n",
        "A:1:1: a row outside a cover\n  library (cells) {\n\
         A: this looks like a Liberty library, not a netlist: of a cell, `yosys -p 'read_liberty F; prep -top CELL; \
         techmap; write_blif G'`\n",
    ),
];

#[test]
fn says_where_a_netlist_is_malformed(rt: HostRuntime) -> Result<(), Fail> {
    for (netlist, text) in MALFORMED.iter() {
        let told = told_of_run(rt.alloc(), INFO, [netlist, EMPTY], None)?;
        assert_eq!(rt; told.as_str(), *text);
    }
    Ok(())
}

/// A refusal of the AND and the exclusive or, with another second line.
const BAD_LINE: &[u8] = b"npnp 1\nfails b 0 up 0 =11\nfails b 0 down 0 =10\nnone ban 2\nend\n";

/// Accounts of the AND and the exclusive or, and what is told of them.
static REJECTED: [(Option<&[u8]>, &str); 4] = [
    (
        Some(BAD_LINE),
        "t:2: the vector does not show what it is given for\n  fails b 0 up 0 =11\n",
    ),
    (
        Some(b"npnp 1\n"),
        "t:2: the account ends before its last record\n",
    ),
    (
        Some(b"npnp 2\n"),
        "t:1: the account does not begin with the line `npnp 1`\n  npnp 2\n",
    ),
    (None, "t: there is no such file\n"),
];

#[test]
fn says_which_line_is_wrong(rt: HostRuntime) -> Result<(), Fail> {
    for (account, text) in REJECTED.iter() {
        let told = told_of_run(rt.alloc(), CHECK, [AND, XOR], *account)?;
        assert_eq!(rt; told.as_str(), *text);
    }
    Ok(())
}

/// An account that is only read for what its last exclusions say: a cover of inputs, whose ways a mismatch excludes.
const BY_MISMATCH: &[u8] = b"npnp 1\n\
      fails b 0 up 1 =10\n\
      holds a 0 up 0\n\
      l : 0 7 1\n\
      ban i0+1 o0+0 : mismatch 0 1\n\
      ban : cover in 0 1 / 1 / 0 0 0 -\n\
      none ban 1\n\
      end\n";

/// Another such account: its last exclusion is a cover of an output, whose way a vector excludes.
const BY_VECTOR: &[u8] =
    b"npnp 1\nban o0-0 : vector 0 =11\nban : cover out 0 / 0 / 0 0\nnone ban 1\nend\n";

/// Two netlists without a match, the account that says so, and what is told of it.
static REFUSED: [(&[u8], &[u8], &[u8], &str); 5] = [
    (
        THREE,
        TWO,
        b"npnp 1\nnone ports\nend\n",
        "A has 3 inputs and 0 outputs, B has 2 inputs and 0 outputs: a match has a partner for each port\n",
    ),
    (
        AND,
        XOR,
        AND_XOR,
        "output o0 of A has no partner: 1 output of B can't be it, plain or inverted; the last way, o0 = not o0, \
         since output o0 of B is binate in 2 inputs or more, output o0 of A in 1 at most\n",
    ),
    (
        AND,
        XOR,
        BY_MISMATCH,
        "input i1 of B is no port's partner: 2 inputs of A can't go there, plain or inverted; the last way, i1 = \
         i1, since output o0 of B falls on some vector as input i1 rises, output o0 of A on none as input i0 rises\n",
    ),
    (
        AND,
        XOR,
        BY_VECTOR,
        "output o0 of A has no partner: 1 output of B can't be it, plain or inverted; the last way, o0 = not o0, \
         since output o0 of A and output o0 of B differ on some vector\n",
    ),
    (AND, XOR, b"npnp 1\nnone ban 0\nend\n", ""),
];

#[test]
fn says_why_there_is_no_match(rt: HostRuntime) -> Result<(), Fail> {
    for (first, second, account, text) in REFUSED.iter() {
        let files = [*first, *second];
        let told = told_of(
            rt.alloc(),
            MATCH,
            &Outcome::NoMatching,
            files,
            Some(account),
        )?;
        assert_eq!(rt; told.as_str(), *text);
    }
    Ok(())
}

/// Words, netlists and an account, and what is told of the run: of a budget that is spent, of names that can be given
/// back, and nothing where the report says it all.
static TOLD: [(&[&str], [&[u8]; 2], Option<&[u8]>, &str); 8] = [
    (
        &["info", "A", "0"],
        [AND, EMPTY],
        None,
        "npnp: the budget of 0 learned clauses was spent\n\
         npnp: lines by how many literals they have, with the refused one: 1 of 0, 0 of 1, 0 of 2, 0 of 3 or 4, 0 \
         of 5 to 8, 0 of more\n\
         npnp: 174960 are enough for these circuits\n",
    ),
    (
        &["match", "A", "B", "t", "0"],
        [A, B],
        None,
        "npnp: the budget of 0 learned clauses was spent\n\
         npnp: lines by how many literals they have, with the refused one: 1 of 0, 0 of 1, 0 of 2, 0 of 3 or 4, 0 \
         of 5 to 8, 0 of more\n\
         npnp: 629856 are enough for these circuits\n",
    ),
    (
        &["match", "A", "B", "t", "0"],
        [C17, C17_MOVED],
        None,
        "npnp: the budget of 0 learned clauses was spent\n\
         npnp: lines by how many literals they have, with the refused one: 1 of 0, 0 of 1, 0 of 2, 0 of 3 or 4, 0 \
         of 5 to 8, 0 of more\n\
         npnp: 10^23 are known to be enough for these circuits; fewer are likely to be\n",
    ),
    (
        MATCH,
        [A, B],
        None,
        "npnp: `npnp restore A B t NEW` gives the names back: NEW is B with the ports of A\n",
    ),
    (CHECK, [A, B], Some(TABLE), ""),
    (
        &["flatten", "A", "n"],
        [b".inputs a\n.outputs y\n.subckt m x=a y=y\n", EMPTY],
        None,
        "A:3:9: an instance of no BLIF model\n  .subckt m x=a y=y\n",
    ),
    (
        &["sweep", "A", "n", "0"],
        [SAME_TWICE, EMPTY],
        None,
        "npnp: the allowance of 0 learned clauses was spent: signals that weren't compared by then stay as they are\n\
         npnp: lines by how many literals they have, with the refused one: 1 of 0, 0 of 1, 0 of 2, 0 of 3 or 4, 0 \
         of 5 to 8, 0 of more\n",
    ),
    (&["sweep", "A", "n"], [SAME_TWICE, EMPTY], None, ""),
];

#[test]
fn says_what_a_run_came_to(rt: HostRuntime) -> Result<(), Fail> {
    for (words, netlists, account, text) in TOLD.iter() {
        let told = told_of_run(rt.alloc(), words, *netlists, *account)?;
        assert_eq!(rt; told.as_str(), *text);
    }
    Ok(())
}

fn failing_shelf(alloc: Global, call: u64) -> Result<MemShelf, AllocError>
    ensures { IfOk result (λ shelf. (⟦<MemShelf as Shelf>⟧.state shelf).mode ≡ Closed) }
{
    let files = files_of(alloc, [AND, XOR], Some(AND_XOR))?;
    MemShelf::new(alloc, files, 64, vec![in alloc; call; 1]?)
}

/// The first call opens a netlist; the account is read three times, in pieces of 64 bytes.
#[test]
fn says_less_where_files_cannot_be_read_again(rt: HostRuntime) -> Result<(), Fail> {
    let refused = Outcome::NoMatching;
    let whole = told_of(rt.alloc(), MATCH, &refused, [AND, XOR], Some(AND_XOR))?;
    for call in 0..20 {
        let mut shelf = failing_shelf(rt.alloc(), call)?;
        let told = told_over(rt.alloc(), MATCH, &refused, None, &mut shelf)?;
        assert!(rt; whole.as_str().starts_with(told.as_str()));
    }
    Ok(())
}

#[test]
fn changes_no_file(rt: HostRuntime) -> Result<(), Fail> {
    let files = files_of(rt.alloc(), [AND, XOR], Some(AND_XOR))?;
    let mut shelf = SafeShelf::new(rt.alloc(), files, 16)?;
    let _told = told_over(rt.alloc(), MATCH, &Outcome::NoMatching, None, &mut shelf)?;
    assert_eq!(rt;
        (shelf.file("A"), shelf.file("B"), shelf.file("t")),
        (Some(AND), Some(XOR), Some(AND_XOR))
    );
    Ok(())
}

/// Words of no form, and what is told of them before the forms.
static USAGE: [(&[&str], &str); 26] = [
    (&[], "no command is given"),
    (&["mach", "A", "B", "t"], "`mach` is no command"),
    (&["ma\x1btch"], "`ma?tch` is no command"),
    (&["--help", "x"], "`--help` stands alone"),
    (&["match", "A", "B"], "ACCOUNT is missing"),
    (&["info"], "FILE is missing"),
    (&["check", "A", "B", "t", "5"], "`5` is a word too many"),
    (&["check", "A", "", "t"], "SECOND is an empty word"),
    (&["info", "A", "-1"], "BUDGET is no number: `-1`"),
    (
        &["match", "A", "B", "t", "1", "18446744073709551616"],
        "SEED is too large: `18446744073709551616`",
    ),
    (
        &["trial", "000000000000000000001"],
        "NUMBER is too large: `000000000000000000001`",
    ),
    (
        &["match", "A", "B", "A"],
        "ACCOUNT is the same word as FIRST, and would be written over it",
    ),
    (
        &["match", "A", "B", "B", "7"],
        "ACCOUNT is the same word as SECOND, and would be written over it",
    ),
    (
        &["make", "7", "A", "A"],
        "SECOND is the same word as FIRST, and would be written over it",
    ),
    (&["restore", "A", "B", "t"], "NEW is missing"),
    (
        &["restore", "A", "B", "t", "t"],
        "NEW is the same word as ACCOUNT, and would be written over it",
    ),
    (&["trim", "A", "B", "t"], "NEW is missing"),
    (
        &["trim", "A", "B", "t", "t"],
        "NEW is the same word as OLD, and would be written over it",
    ),
    (&["convert"], "OLD is missing"),
    (
        &["convert", "t", "t"],
        "NEW is the same word as OLD, and would be written over it",
    ),
    (&["flatten", "A"], "NEW is missing"),
    (
        &["flatten", "A", "A"],
        "NEW is the same word as FILE, and would be written over it",
    ),
    (&["sweep", "A"], "NEW is missing"),
    (
        &["sweep", "A", "A", "7"],
        "NEW is the same word as FILE, and would be written over it",
    ),
    (&["sweep", "A", "n", "x"], "ALLOWANCE is no number: `x`"),
    (&["sweep", "A", "n", "7", "8"], "`8` is a word too many"),
];

#[test]
fn says_which_word_is_of_no_form(rt: HostRuntime) -> Result<(), Fail> {
    for (words, text) in USAGE.iter() {
        expect_fault(&rt, rt.alloc(), words, text)?;
        let told = told_of_run(rt.alloc(), words, [A, B], None)?;
        let line = format!(in rt.alloc();
            "npnp: {text}\nnpnp match FIRST SECOND ACCOUNT [BUDGET [SEED]]\n"
        )?;
        assert!(rt; told.as_str().starts_with(line.as_str()));
    }
    Ok(())
}

fn expect_fault(rt: &impl Abort, alloc: Global, words: &[&str], text: &str) -> Result<(), Fail> {
    let words = words_of(alloc, words)?;
    let fault = match fault_of_words(words.as_slice()) {
        Some(fault) => fault.to_string(alloc)?,
        None => String::new(alloc),
    };
    assert_eq!(rt; fault.as_str(), text);
    Ok(())
}

/// The file of a fault, and what is told where the outcome is a failed read and a failed write.
#[test]
fn says_which_file_failed(rt: HostRuntime) -> Result<(), Fail> {
    let mut shelf = SafeShelf::new(rt.alloc(), Vec::new(rt.alloc()), 16)?;
    let fault = FailedFile {
        name: "a\nb",
        reason: "permission denied",
    };
    let read = told_over(
        rt.alloc(),
        INFO,
        &Outcome::ReadFault,
        Some(fault),
        &mut shelf,
    )?;
    assert_eq!(rt; read.as_str(), "a?b: permission denied\n");
    Ok(())
}

#[test]
fn says_that_the_report_failed(rt: HostRuntime) -> Result<(), Fail> {
    let told = told_of(rt.alloc(), INFO, &Outcome::WriteFault, [A, B], None)?;
    assert_eq!(rt; told.as_str(), "npnp: the report couldn't be written\n");
    Ok(())
}

/// A word that asks for a notice, the notice, and what it begins with and has.
static NOTICES: [(&str, Notice, &str, &str); 2] = [
    (
        "--version",
        Notice::Version,
        "npnp 0.4.0 (rattle-kit-13f logic dac8208d650f15bf)\n",
        "",
    ),
    (
        "-h",
        Notice::Help,
        "npnp match FIRST SECOND ACCOUNT [BUDGET [SEED]]\n",
        "\n7       `out of memory`\n",
    ),
];

#[test]
fn says_its_version_and_forms(rt: HostRuntime) -> Result<(), Fail> {
    for (word, notice, front, part) in NOTICES.iter() {
        let words = words_of(rt.alloc(), &[*word])?;
        assert_eq!(rt; Notice::asked(words.as_slice()), Some(*notice));
        let told = notice.to_string(rt.alloc())?;
        assert!(rt; told.as_str().starts_with(*front) & told.as_str().contains(*part));
    }
    Ok(())
}

/// Names, the folders in which they stand, and what is told where there is none.
static FOLDERS: [(&str, &str, &str); 3] = [
    ("t", ".", "t can't be written: there is no folder ."),
    ("/t", "/", "/t can't be written: there is no folder /"),
    (
        "a/b/t",
        "a/b",
        "a/b/t can't be written: there is no folder a/b",
    ),
];

#[test]
fn says_of_folders(rt: HostRuntime) -> Result<(), Fail> {
    for (name, folder, text) in FOLDERS.iter() {
        let warning = Warning {
            name,
            fault: FolderFault::NoFolder,
        };
        let told = warning.to_string(rt.alloc())?;
        assert_eq!(rt; (folder_of(name), told.as_str()), (*folder, *text));
    }
    Ok(())
}
