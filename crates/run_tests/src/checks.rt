//! Checks of accounts and reports of netlists: what they print and how they end.

ghost use Rattle.std.specs.Prelude.{◌≡◌, ◌-◌, false, None, [], cond};
ghost use Rattle.shelf_core.specs.State.{Closed, Reading, Writing};

use crate::alterations::{Altered, check_altered};
use crate::files::{A, AND, AND_OR, B, C17, C17_MOVED, EMPTY, OR, TABLE, WIRE, XOR};
use crate::runs::{CHECK, MATCH, Row, check_rows, expect, line, run_on, status_of};
use shelf_core::{SafeSink, Shelf, ShelfStop};
use std::alloc::Global;
use std::process::Abort;
use std::test::Fail;

/// Thirteen inputs and nothing else.
const THIRTEEN: &[u8] = b"aag 13 13 0 0 0\n2\n4\n6\n8\n10\n12\n14\n16\n18\n20\n22\n24\n26\n";

/// Two gates, of which the first line names the other.
const REVERSED: &[u8] = b"aag 4 2 0 1 2\n2\n4\n8\n8 6 2\n6 2 4\n";

/// One input and one output, with symbols and a comment.
const NAMED: &[u8] = b"aag 1 1 0 1 0\n2\n2\ni0 in put\no0 q\nc\nx";

/// Accounts of netlists in AIGER that are accepted or rejected, or of which a file is refused.
static OF_AIGER: [Row; 9] = [
    Row {
        files: [A, B, TABLE],
        status: 0,
        report: b"accepted match\n\
                  input 0 i0 = not input 1 i1\n\
                  input 1 i1 = input 0 i0\n\
                  output 0 o0 = not output 1 o1\n\
                  output 1 o1 = output 0 o0\n",
    },
    Row {
        files: [AND, OR, AND_OR],
        status: 0,
        report: b"accepted match\n\
                  input 0 i0 = not input 0 i0\n\
                  input 1 i1 = not input 1 i1\n\
                  output 0 o0 = not output 0 o0\n",
    },
    Row {
        files: [
            b"aag 0 0 0 1 0\n0\n",
            b"aag 0 0 0 1 0\n1\n",
            b"npnp 1\nmatch o0-0\nl : 0 1\nl : 0 2\nend\n",
        ],
        status: 0,
        report: b"accepted match\noutput 0 o0 = not output 0 o0\n",
    },
    Row {
        files: [EMPTY, EMPTY, b"npnp 1\nmatch\nend\n"],
        status: 0,
        report: b"accepted match\n",
    },
    Row {
        files: [
            REVERSED,
            REVERSED,
            b"npnp 1\nmatch i0+0 i1+1 o0+0\nl : 13 14 4 1 2 9 12\nl : 13 14 10 7 8 3 6\nend\n",
        ],
        status: 0,
        report: b"accepted match\ninput 0 i0 = input 0 i0\ninput 1 i1 = input 1 i1\noutput 0 o0 = output 0 o0\n",
    },
    Row {
        files: [
            NAMED,
            NAMED,
            b"npnp 1\nmatch i0+0 o0+0\nl : 1 2\nl : 1 2\nend\n",
        ],
        status: 0,
        report: b"accepted match\ninput 0 in put = input 0 in put\noutput 0 q = output 0 q\n",
    },
    // more inputs than could be tried on every vector
    Row {
        files: [
            THIRTEEN,
            THIRTEEN,
            b"npnp 1\nmatch i0+0 i1+1 i2+2 i3+3 i4+4 i5+5 i6+6 i7+7 i8+8 i9+9 i10+10 i11+11 i12+12\nend\n",
        ],
        status: 0,
        report: b"accepted match\ninput 0 i0 = input 0 i0\ninput 1 i1 = input 1 i1\ninput 2 i2 = input 2 i2\n\
                  input 3 i3 = input 3 i3\ninput 4 i4 = input 4 i4\ninput 5 i5 = input 5 i5\n\
                  input 6 i6 = input 6 i6\ninput 7 i7 = input 7 i7\ninput 8 i8 = input 8 i8\n\
                  input 9 i9 = input 9 i9\ninput 10 i10 = input 10 i10\ninput 11 i11 = input 11 i11\n\
                  input 12 i12 = input 12 i12\n",
    },
    // an account of other netlists, and a second netlist that is none
    Row {
        files: [AND, WIRE, AND_OR],
        status: 2,
        report: b"rejected line 2 conclusion\n",
    },
    Row {
        files: [A, b"aag 0 0 0 1 0\nx\n", TABLE],
        status: 5,
        report: b"malformed second 7 14\n",
    },
];

/// Alterations of the account of the AND and the OR.
static BAD_ACCOUNTS: [Altered; 16] = [
    // their form
    (0, b"", b"1 truncated"),
    (0, b"npnp 9\n", b"1 header"),
    (1, b"match i0-0 i1-1  o0-0\n", b"2 word"),
    (1, b"npnp 1\n", b"2 order"),
    (2, b"l : 07 8\n", b"3 number"),
    // cut after each line
    (1, b"", b"2 truncated"),
    (2, b"", b"3 truncated"),
    (3, b"", b"4 truncated"),
    (4, b"", b"5 truncated"),
    // more than the account
    (5, b"\n", b"6 trailing"),
    // logs that are missing, and one that is none
    (2, b"end\n", b"3 order"),
    (3, b"end\n", b"4 order"),
    (2, b"l : 7 8 1 2\nl : 7 8 4 5 3\nend\n", b"3 refutation"),
    // matchings that are none, and one that is no match
    (1, b"match i0-0 i1-0 o0-0\n", b"2 conclusion"),
    (1, b"match i5+0 i1-1 o0-0\n", b"2 id"),
    (
        1,
        b"match i0+0 i1-1 o0-0\nl : 7 8 1 2 6\nl : 7 8 4 5 3\nend\n",
        b"3 refutation",
    ),
];

#[test]
fn rejects_accounts_at_their_first_bad_line(rt: HostRuntime) -> Result<(), Fail> {
    check_altered(&rt, rt.alloc(), [AND, OR, AND_OR], &BAD_ACCOUNTS)
}

/// A match of the two: the lines of a log derive that gates are equal, up to the last one, which is empty.
const C17_ACCOUNT: &[u8] =
    b"npnp 1\nmatch i0+2 i1+4 i2-1 i3+3 i4+0 o0+1 o1+0\nl 14 25 : 19 20 6\nl 13 26 : 1 2 24\nl 17 28 : 7 8 27 39\n\
      l 20 33 : 31 32 40 41 15\nl : 37 38 42\nl 15 24 : 4 5 21\nl 12 27 : 22 23 3\nl 16 29 : 25 26 39 9\n\
      l 21 32 : 13 14 40 41 33\nl : 37 38 42\nl 14 25 : 19 20 6\nl 17 28 : 7 8 27 39\nl 19 30 : 10 11 30 39\n\
      l 22 35 : 34 35 40 41 18\nl : 37 38 42\nl 15 24 : 4 5 21\nl 16 29 : 25 26 39 9\nl 18 31 : 28 29 39 12\n\
      l 23 34 : 16 17 40 41 36\nl : 37 38 42\nend\n";

/// The NAND of two inputs.
const NAND: &[u8] = b".inputs a b\n.outputs y\n.names a b y\n11 0\n";

/// Pairs the ports of two NANDs in their order.
const TWO_TO_ONE: &[u8] = b"npnp 1\nmatch i0+0 i1+1 o0+0\nl : 7 8 4 5 3\nl : 7 8 1 2 6\nend\n";

/// Covers in front of the ports, a continued line, and both constants.
const MIXED: &[u8] =
    b".names a b y\n11 0\n.names one\n1\n.names zero\n.inputs a \\ # more\nb\n.outputs y one zero\n";

/// Accounts of netlists of which one at least is in BLIF.
static OF_BOTH_FORMATS: [Row; 5] = [
    Row {
        files: [C17, C17_MOVED, C17_ACCOUNT],
        status: 0,
        report: b"accepted match\n\
                  input 0 1 = input 2 i2\n\
                  input 1 2 = input 4 i4\n\
                  input 2 3 = not input 1 i1\n\
                  input 3 6 = input 3 i3\n\
                  input 4 7 = input 0 i0\n\
                  output 0 22 = output 1 o1\n\
                  output 1 23 = output 0 o0\n",
    },
    Row {
        files: [
            NAND,
            b".inputs a b\n.outputs y\n.names a b y\n0- 1\n-0 1\n",
            TWO_TO_ONE,
        ],
        status: 0,
        report: b"accepted match\ninput 0 a = input 0 a\ninput 1 b = input 1 b\noutput 0 y = output 0 y\n",
    },
    Row {
        files: [
            NAND,
            b".inputs a b\n.outputs y\n.names a b y\n11 1\n",
            TWO_TO_ONE,
        ],
        status: 2,
        report: b"rejected line 3 refutation\n",
    },
    Row {
        files: [
            MIXED,
            MIXED,
            b"npnp 1\n\
              match i0+0 i1+1 o0+0 o1+1 o2+2\n\
              l : 7 8 4 5 3\n\
              l : 7 8 1 2 6\n\
              l : 0 8\n\
              l : 0 7\n\
              l : 0 7\n\
              l : 0 8\n\
              end\n",
        ],
        status: 0,
        report: b"accepted match\n\
                  input 0 a = input 0 a\n\
                  input 1 b = input 1 b\n\
                  output 0 y = output 0 y\n\
                  output 1 one = output 1 one\n\
                  output 2 zero = output 2 zero\n",
    },
    Row {
        files: [
            b".inputs a\n.outputs y\n.names $false\n.names a y\n1 1\n.cname n\n.end\n",
            WIRE,
            b"npnp 1\nmatch i0+0 o0+0\nl : 1 2\nl : 1 2\nend\n",
        ],
        status: 0,
        report: b"accepted match\ninput 0 a = input 0 i0\noutput 0 y = output 0 o0\n",
    },
];

#[test]
fn checks_accounts_of_either_format(rt: HostRuntime) -> Result<(), Fail> {
    check_rows(&rt, rt.alloc(), &OF_AIGER)?;
    check_rows(&rt, rt.alloc(), &OF_BOTH_FORMATS)
}

/// Names of files that aren't there, with the report.
static MISSING: [(&[&str], &[u8]); 3] = [
    (&["check", "z", "y", "x"], b"absent first\n"),
    (&["check", "A", "z", "x"], b"absent second\n"),
    (&["check", "A", "B", "z"], b"absent account\n"),
];

#[test]
fn names_what_is_missing(rt: HostRuntime) -> Result<(), Fail> {
    for (words, report) in MISSING.iter() {
        expect(&rt, rt.alloc(), *words, [A, B, TABLE], 5, *report)?;
    }
    Ok(())
}

/// Words that ask what is known of a netlist, named `A`, with the netlist, the status and the report.
static INFOS: [(&[&str], &[u8], u8, &[u8]); 9] = [
    // a budget that is enough for all that can be asked of it
    (
        &["info", "A", "174960"],
        AND,
        0,
        b"inputs 2\n\
          outputs 1\n\
          gates 1\n\
          output 0 o0 support 2\n\
          input 0 i0 positive\n\
          input 1 i1 positive\n\
          pair 0 1 symmetric\n",
    ),
    (
        &["info", "A"],
        MIXED,
        0,
        b"inputs 2\n\
          outputs 3\n\
          gates 1\n\
          output 0 y support 2\n\
          input 0 a negative\n\
          input 1 b negative\n\
          pair 0 1 symmetric\n\
          output 1 one support 0\n\
          output 2 zero support 0\n",
    ),
    (
        &["info", "A", "18446744073709551615"],
        XOR,
        0,
        b"inputs 2\noutputs 1\ngates 3\noutput 0 o0 support 2\ninput 0 i0 binate\ninput 1 i1 binate\npair 0 1 both\n",
    ),
    // the first input without the second
    (
        &["info", "A", "00000000000000001000"],
        b"aag 3 2 0 1 1\n2\n4\n6\n6 2 5\n",
        0,
        b"inputs 2\n\
          outputs 1\n\
          gates 1\n\
          output 0 o0 support 2\n\
          input 0 i0 positive\n\
          input 1 i1 negative\n\
          pair 0 1 skew\n",
    ),
    // an input that is read by gates, and that the output doesn't depend on
    (
        &["info", "A"],
        b"aag 5 2 0 1 3\n2\n4\n11\n6 2 4\n8 2 5\n10 7 9\n",
        0,
        b"inputs 2\noutputs 1\ngates 3\noutput 0 o0 support 1\ninput 0 i0 positive\n",
    ),
    (&["info", "A", "0"], MIXED, 3, b"spent 0\n"),
    (
        &["info", "A", "00000000000000000000"],
        MIXED,
        3,
        b"spent 0\n",
    ),
    (&["info", "z"], MIXED, 5, b"absent first\n"),
    (
        &["info", "A"],
        b"aag 1 1 0 1 0\n2\n",
        5,
        b"malformed first 14 16\n",
    ),
];

#[test]
fn reports_what_is_known_of_a_netlist(rt: HostRuntime) -> Result<(), Fail> {
    for (words, netlist, status, report) in INFOS.iter() {
        expect(
            &rt,
            rt.alloc(),
            *words,
            [*netlist, B, TABLE],
            *status,
            *report,
        )?;
    }
    Ok(())
}

/// Words of no form.
static NO_FORM: [&[&str]; 25] = [
    &[],
    &["match", "A", "B", "B"],
    &["check", "A", "B"],
    &["check", "A", "B", "t", "t"],
    &["check", "", "B", "t"],
    &["info"],
    &["info", ""],
    &["info", "A", ""],
    &["info", "A", "1x"],
    &["info", "A", "-1"],
    &["info", "A", "18446744073709551616"],
    &["info", "A", "000000000000000000001"],
    &["info", "A", "1", "2"],
    &["make", "7", "A"],
    &["make", "7", "A", "A"],
    &["make", "7", "", "B"],
    &["make", "7", "A", ""],
    &["make", "x", "A", "B"],
    &["make", "18446744073709551616", "A", "B"],
    &["make", "7", "A", "B", "t"],
    &["trial"],
    &["trial", ""],
    &["trial", "-1"],
    &["trial", "000000000000000000001"],
    &["trial", "7", "8"],
];

#[test]
fn refuses_words_of_no_form(rt: HostRuntime) -> Result<(), Fail> {
    for words in NO_FORM.iter() {
        expect(&rt, rt.alloc(), *words, [A, B, TABLE], 4, b"usage\n")?;
    }
    Ok(())
}

/// First netlists that are malformed, each with the number of its fault and the place.
static MALFORMED: [(&[u8], &[u8]); 32] = [
    (b"aag 4294967295 0 0 0 0\n", b"6 0"),
    (b"aag 4294967296 0 0 0 0\n", b"1 0"),
    (b"aag 1025 1025 0 0 0\n", b"14 20"),
    (b"aag 4097 4097 0 0 0\n", b"4 0"),
    (b"aag 1 0 1 0 0\n2 3\n", b"2 0"),
    (b"aag 0 0 0 1 0\nx\n", b"7 14"),
    (b"aag 1 0 0 1 0\n4\n", b"8 14"),
    (b"aag 1 1 0 0 0\n3\n", b"8 14"),
    (b"aag 2 2 0 0 0\n2\n2\n", b"9 16"),
    (b"aag 1 0 0 1 0\n2\n", b"10 14"),
    (b"aag 0 0 0 1 0\n", b"14 14"),
    (b"aag 1 1 0 1 0\n2\n", b"14 16"),
    (b"aag 4 2 0 1 2\n2\n4\n8\n8 6 2\n6 8 4\n", b"12 20"),
    (b"aag 1 1 0 1 0\n2\n2\ni1 x\n", b"13 18"),
    (b"aig 0 0 0 0 1\n", b"1 0"),
    (b"aig 1 0 0 0 1\n\x82\x82\x82\x82\x82", b"11 14"),
    (b"aig 3 2 0 1 1\n6\n\x82", b"11 16"),
    (b"aig 3 2 0 1 1\n6\n\x02", b"11 17"),
    (b"aig 3 2 0 1 1\n6\n\x07\x00", b"11 16"),
    (b"", b"28 0"),
    (b"aag", b"27 0"),
    (b".latch x y\n", b"21 0"),
    (b".gate nand2 a=x\n", b"20 0"),
    (b".model m\n.model n\n", b"23 9"),
    (b".inputs a a\n.outputs a\n", b"29 10"),
    (b".inputs a\n.outputs y\n1 1\n", b"27 21"),
    (b".inputs a\n.outputs y\n.names a y\n11 1\n", b"24 32"),
    (b".inputs a\n.outputs y\n.names a y\n2 1\n", b"25 32"),
    (b".inputs a\n.outputs y\n.names a y\n1 1\n0 0\n", b"26 36"),
    (
        b".inputs a\n.outputs y\n.names a y\n1 1\n.names a y\n1 1\n",
        b"30 45",
    ),
    (b".inputs a\n.outputs y\n.names a b y\n11 1\n", b"31 30"),
    (b".inputs a\n.outputs y\n.names a y y\n11 1\n", b"32 21"),
];

#[test]
fn refuses_malformed_netlists_at_their_place(rt: HostRuntime) -> Result<(), Fail> {
    for (first, fault) in MALFORMED.iter() {
        let report = line(rt.alloc(), b"malformed first ", *fault)?;
        let files = [*first, B, TABLE];
        expect(&rt, rt.alloc(), CHECK, files, 5, report.as_slice())?;
        let ended = run_on(rt.alloc(), MATCH, [*first, B], Some(TABLE))?;
        assert_eq!(&rt; ended.outcome(), (5, report.as_slice(), Some(TABLE)));
    }
    Ok(())
}

/// A shelf whose files are one byte longer than a netlist may be. It counts its calls, and a close may fail.
#[derive(Drop)]
struct TooLong {
    reading: bool,
    writing: bool,
    calls: u64,
    close_fails: bool,
    faults: u64,
    /// How many faults there were before the last call.
    before: u64,
}

impl Shelf for TooLong {
    ghost tells = { false };

    ghost state = { λ shelf. record {
      held = λ _. None;
      mode = cond shelf.reading Reading (cond shelf.writing Writing Closed);
      name = [];
      left = 67108865;
      unread = [];
      faults = shelf.faults;
      latest = shelf.faults - shelf.before;
    } };

    fn open(&mut self, _name: &str) -> Result<Option<u64>, ShelfStop> {
        self.calls = self.calls.saturating_add(1);
        self.before = self.faults;
        self.reading = true;
        Ok(Some(67_108_865))
    }

    fn read(&mut self, _buf: &mut [u8]) -> Result<usize, ShelfStop> {
        self.calls = self.calls.saturating_add(1);
        self.before = self.faults;
        Err(ShelfStop::Memory)
    }

    fn create(&mut self, _name: &str) -> Result<(), ShelfStop> {
        self.calls = self.calls.saturating_add(1);
        self.before = self.faults;
        self.writing = true;
        Ok(())
    }

    fn append(&mut self, _piece: &[u8]) -> Result<(), ShelfStop> {
        self.calls = self.calls.saturating_add(1);
        self.before = self.faults;
        Err(ShelfStop::Memory)
    }

    fn close(&mut self) -> Result<(), ShelfStop> {
        self.calls = self.calls.saturating_add(1);
        self.before = self.faults;
        self.reading = false;
        self.writing = false;
        if self.close_fails {
            self.faults = self.faults.saturating_add(1);
            return Err(ShelfStop::Failed);
        }
        Ok(())
    }
}

/// Checks over files that are too long: the status, what is printed, and how many calls there were.
fn expect_of_long_files(
    rt: &impl Abort,
    alloc: Global,
    close_fails: bool,
    want: (u8, &[u8], u64),
) -> Result<(), Fail> {
    let mut shelf = TooLong {
        reading: false,
        writing: false,
        calls: 0,
        close_fails,
        faults: 0,
        before: 0,
    };
    let mut sink = SafeSink::new(alloc);
    let status = status_of(alloc, CHECK, &mut shelf, &mut sink)?;
    assert_eq!(rt; (status, sink.written(), shelf.calls), want);
    Ok(())
}

/// By two calls: open and close, which may fail.
#[test]
fn closes_a_long_netlist_unread(rt: HostRuntime) -> Result<(), Fail> {
    expect_of_long_files(&rt, rt.alloc(), false, (5, b"too large first\n", 2))?;
    expect_of_long_files(&rt, rt.alloc(), true, (6, b"read fault\n", 2))
}
