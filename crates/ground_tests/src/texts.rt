use std::test::Fail;
use text_core::{Cursor, NumberFault, decimal, next_word, put_decimal};

/// Texts, and the numbers that they write.
static NUMBERS: [(&[u8], Result<u64, NumberFault>); 10] = [
    (b"", Err(NumberFault::NotDigit)),
    (b"0", Ok(0)),
    (b"00", Ok(0)),
    (b"18446744073709551615", Ok(u64::MAX)),
    (b"18446744073709551616", Err(NumberFault::TooLarge)),
    (b"18446744073709551619", Err(NumberFault::TooLarge)),
    (b"99999999999999999999", Err(NumberFault::TooLarge)),
    (b"000000000000000000000018446744073709551615", Ok(u64::MAX)),
    (b"1x", Err(NumberFault::NotDigit)),
    (b"-1", Err(NumberFault::NotDigit)),
];

#[test]
fn reads_numbers(rt: HostRuntime) {
    for (text, want) in NUMBERS.iter() {
        let word = Cursor::new(text)
            .take(text.len())
            .expect(&rt, "all of the text");
        assert_eq!(rt; decimal(word), *want, "at {text:?}");
    }
}

/// Whether the lines of a text are these, each with its offset, and no more.
fn has_lines(text: &[u8], lines: &[(u64, &[u8])]) -> bool {
    let mut cursor = Cursor::new(text);
    let mut same = true;
    for (at, want) in lines.iter() {
        let Some(line) = cursor.next_line() else {
            return false;
        };
        same = same & (line.at() == *at) & (line.bytes() == *want);
    }
    same & cursor.next_line().is_none() & (cursor.at() == text.len() as u64)
}

/// Whether the words of a text's first line are these, each with its offset, and no more.
fn has_words(text: &[u8], words: &[(u64, &[u8])]) -> bool {
    let Some(mut line) = Cursor::new(text).next_line() else {
        return false;
    };
    let mut same = true;
    for (at, want) in words.iter() {
        let Some(word) = next_word(&mut line) else {
            return false;
        };
        same = same & (word.at() == *at) & (word.bytes() == *want);
    }
    same & next_word(&mut line).is_none() & (line.at() == text.len() as u64)
}

#[test]
fn parts_lines_and_words(rt: HostRuntime) {
    let lines: [(u64, &[u8]); 4] = [(0, b" aag\t3 \r"), (9, b""), (10, b"\r"), (12, b"x\0y  z")];
    assert!(rt; has_lines(b" aag\t3 \r\n\n\r\nx\0y  z", &lines));
    let ended: [(u64, &[u8]); 1] = [(0, b"a")];
    assert!(rt; has_lines(b"a\n", &ended));
    let words: [(u64, &[u8]); 3] = [(1, b"aag"), (5, b"3"), (8, b"x\0y")];
    assert!(rt; has_words(b" aag\t3 \rx\0y\r", &words));
}

/// Whether n bytes are taken and are these, or none are and the cursor stays.
fn takes_so(cursor: &mut Cursor, count: usize, want: Option<&[u8]>) -> bool {
    let at = cursor.at();
    let Some(taken) = cursor.take(count) else {
        return want.is_none() & (cursor.at() == at);
    };
    (taken.at() == at) & (Some(taken.bytes()) == want)
}

/// How many bytes are taken of three, one after the other, and which come.
static TAKEN: [(usize, Option<&[u8]>); 5] = [
    (4, None),
    (2, Some(b"ab")),
    (1, Some(b"c")),
    (0, Some(b"")),
    (1, None),
];

#[test]
fn takes_no_more_than_is_left(rt: HostRuntime) {
    let mut cursor = Cursor::new(b"abc");
    for (count, want) in TAKEN.iter() {
        assert!(rt;
            takes_so(&mut cursor, *count, *want),
            "{count} for {want:?}"
        );
    }
}

#[test]
fn writes_numbers(rt: HostRuntime) -> Result<(), Fail> {
    let mut out = Vec::new(rt.alloc());
    put_decimal(u64::MAX, &mut out)?;
    put_decimal(0, &mut out)?;
    assert_eq!(rt; out.as_slice(), b"184467440737095516150".as_slice());
    Ok(())
}
