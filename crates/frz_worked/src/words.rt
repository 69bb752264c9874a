//! Lines, words, numbers and squares, read from texts.
ghost use Rattle.std.specs.Prelude.{◌<◌, ◌^◌, length};

use crate::expect::expect_equal;
use frz_words::{Line, Lines, read_number, read_square, read_squares};
use std::process::Abort;

/// The number of a line, how many words it has, and the second of them.
struct Known<'a>(u32, u32, Option<&'a [u8]>);

const LINES: &[Known] = &[
    Known(1, 2, Some(b"bc")),
    Known(2, 0, None),
    Known(3, 0, None),
    Known(4, 2, Some(b"x")),
];

fn check_line(rt: &impl Abort, line: &Line, known: &Known)
    requires { length line.now.text.now < 2 ^ 32 }
{
    let Known(number, count, second) = known;
    assert!(rt; line.number == *number && line.count() == *count);
    assert!(rt; line.word(2) == *second);
    assert!(rt; line.word(0).is_none() && line.word(3).is_none());
}

#[test]
fn lines_and_words(rt: HostRuntime) {
    let text = b"a bc\r\n\n \t\r\n#\0\xff x";
    let mut lines = Lines::new(text);
    for known in LINES {
        let line = lines.next().expect(&rt, "a line");
        check_line(&rt, &line, known);
    }
    assert!(rt; lines.next().is_none());
    assert!(rt; lines.next().is_none());
}

/// A word, the most that it may say, and the number that is read.
struct Number<'a>(&'a [u8], u32, Option<u32>);

const NUMBERS: &[Number] = &[
    Number(b"000000016", 16, Some(16)),
    Number(b"0000000016", 16, None),
    Number(b"999999999", 999_999_999, Some(999_999_999)),
    Number(b"17", 16, None),
    Number(b"", 16, None),
    Number(b"1x", 16, None),
];

fn check_numbers(rt: &impl Abort) {
    for Number(word, most, number) in NUMBERS {
        expect_equal(rt, &read_number(word, *most), number, "number");
    }
}

/// A word, and the bits of the set of squares that is read.
struct Squares<'a>(&'a [u8], Option<u64>);

const SQUARES: &[Squares] = &[
    Squares(b"a1", Some(1)),
    Squares(b"all", Some(u64::MAX)),
    Squares(b"a1-b2", Some(0x303)),
    Squares(b"h8,a1-a1,h8", Some(0x8000_0000_0000_0001)),
    Squares(b"", None),
    Squares(b"a1,", None),
    Squares(b",a1", None),
    Squares(b"b1-a2", None),
    Squares(b"a2-b1", None),
    Squares(b"a1-", None),
    Squares(b"a9", None),
    Squares(b"A1", None),
    Squares(b"a1--b2", None),
    Squares(b"All", None),
];

fn bits_of(word: &[u8]) -> Option<u64> {
    let set = read_squares(word)?;
    Some(set.0)
}

fn check_squares(rt: &impl Abort) {
    for Squares(word, bits) in SQUARES {
        expect_equal(rt, &bits_of(word), bits, "squares");
    }
}

#[test]
fn numbers_and_squares(rt: HostRuntime) {
    check_numbers(&rt);
    let squares = [read_square(b"h8"), read_square(b"i1")];
    expect_equal(&rt, &squares, &[Some(63), None], "squares");
    check_squares(&rt);
}

#[test]
fn line_of_sixty_thousand_words(rt: HostRuntime) {
    let mut text = [b'x'; 119_999];
    for i in 0..59_999 {
        text[2 * i + 1] = b' ';
    }
    let line = Lines::new(&text).next().expect(&rt, "a line");
    expect_equal(&rt, &line.count(), &60_000, "words");
    assert!(rt; line.word(60_000) == Some(b"x".as_slice()));
    assert!(rt; line.word(60_001).is_none());
}
