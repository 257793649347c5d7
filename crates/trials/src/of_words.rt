//! Lines, words and shapes.
use words::lines::{Lines, Words, next_line, next_word};
use words::parts::Part;
use words::shapes::{decimal, is_name, number};
use words::tokens::Word;

// Where the line from `from` on begins and ends.
fn line(text: &[u8], from: usize) -> Option<(usize, usize)> {
    let line = next_line(text, from)?;
    Some((line.start, line.end))
}

// Where the first word from `start` on and before `end` begins and ends.
fn word(text: &[u8], start: usize, end: usize) -> Option<(usize, usize)> {
    let word = next_word(text, Part { start, end })?;
    Some((word.start, word.end))
}

#[test]
fn lines_end_at_lf(rt: HostRuntime) {
    assert_eq!(rt; line(b"ab\ncd\n", 0), Some((0, 2)));
    assert_eq!(rt; line(b"ab\ncd\n", 3), Some((3, 5)));
    assert_eq!(rt; line(b"ab\ncd\n", 6), None);
    assert_eq!(rt; line(b"ab\ncd", 3), Some((3, 5)));
    assert_eq!(rt; line(b"", 0), None);
    assert_eq!(rt; line(b"\n\n", 1), Some((1, 1)));
    assert_eq!(rt; line(b"\n\n", 2), None);
}

#[test]
fn words_are_parted_by_blanks(rt: HostRuntime) {
    let text = b"  a   bc  ";
    assert_eq!(rt; word(text, 0, 10), Some((2, 3)));
    assert_eq!(rt; word(text, 3, 10), Some((6, 8)));
    assert_eq!(rt; word(text, 3, 7), Some((6, 7)));
    assert_eq!(rt; word(text, 8, 10), None);
    assert_eq!(rt; word(text, 11, 12), None);
    assert_eq!(rt; Part { start: 6, end: 20 }.of(text).len(), 4);
}

#[test]
fn lines_and_words_come_in_order(rt: HostRuntime) {
    let text = b"ab cd\n\n  e\n";
    let mut lines = Lines::of(text);
    let first = lines.next();
    assert!(rt; first.is_some());
    let Some((first, ab)) = first else {
        return;
    };
    assert_eq!(rt; (first.start, first.end), (0, 5));
    assert!(rt; ab == b"ab cd".as_slice());
    assert_eq!(rt; lines.count(), 2);
    let mut words = Words::of(ab);
    assert!(rt; matches!(words.next(), Some((Part { start: 0, end: 2 }, _))));
    assert!(rt; matches!(words.next(), Some((Part { start: 3, end: 5 }, _))));
    assert!(rt; words.next().is_none());
    assert_eq!(rt; Words::within(text, Part { start: 4, end: 10 }).count(), 2);
}

#[test]
fn names(rt: HostRuntime) {
    assert!(rt; is_name(b"a"));
    assert!(rt; is_name(b"a_2345678901234Z"));
    assert!(rt; !is_name(b"a_2345678901234Z7"));
    assert!(rt; !is_name(b"_a"));
    assert!(rt; !is_name(b"1a"));
    assert!(rt; !is_name(b"a-b"));
    assert!(rt; !is_name(b""));
}

#[test]
fn numbers(rt: HostRuntime) {
    assert_eq!(rt; number(b"007"), Some(7));
    assert_eq!(rt; number(b"999"), Some(999));
    assert_eq!(rt; number(b"1000"), None);
    assert_eq!(rt; number(b"1a"), None);
    assert_eq!(rt; number(b""), None);
    assert_eq!(rt; decimal(b"0000000000012"), Some(12));
    assert_eq!(rt; decimal(b"4294967295"), Some(4294967295));
    assert_eq!(rt; decimal(b"4294967296"), None);
    assert_eq!(rt; decimal(b"12a"), None);
    assert_eq!(rt; decimal(b""), None);
}

#[test]
fn shapes_of_words(rt: HostRuntime) {
    assert_eq!(rt; shape(b"x1"), (0, 2));
    assert_eq!(rt; shape(b"012"), (12, 3));
    assert_eq!(rt; shape(b"x1+"), (1000, 3));
}

// A number's value, 0 for a name, 1000 for any other word; and the word's length.
fn shape(word: &[u8]) -> (u16, usize) {
    match Word::of(word) {
        Word::Name(name) => (0, name.len()),
        Word::Number(digits, value) => (value, digits.len()),
        Word::Other(bytes) => (1000, bytes.len()),
    }
}
