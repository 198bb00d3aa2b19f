//! The bytes of keys. What stands more than once in a list is picked more often.

use crate::random_numbers::RandomNumbers;
use std::alloc::{AllocError, Global};

const LETTERS: &[&[u8]] = &[
    b"a", b"b", b"c", b"d", b"e", b"g", b"i", b"l", b"o", b"s", b"t", b" ", b" ", b"a", b"0", b"~",
];

/// Characters of several bytes: Han, kana, Hangul, an emoji, letters with an accent, and a letter with marks.
const WIDE: &[&[u8]] = &[
    b"\xe6\xbc\xa2",
    b"\xe5\xad\x97",
    b"\xe3\x81\x82",
    b"\xe3\x82\xab",
    b"\xed\x95\x9c",
    b"\xf0\x9f\x9a\x80",
    b"\xc3\xa9",
    b"e\xcc\x81",
    b"o\xcc\x88\xcc\xa3",
    b"\xe6\xbc\xa2\xcc\x81",
];

/// Keys as terminals send them: the arrows in their two modes, Home and End, Backspace and Delete, the keys of words,
/// Tab, the searches, the history, and sequences that mean nothing.
const COMMANDS: &[&[u8]] = &[
    b"\x1b[D",
    b"\x1b[D",
    b"\x1bOD",
    b"\x1b[C",
    b"\x1bOC",
    b"\x1b[A",
    b"\x1b[A",
    b"\x1bOA",
    b"\x1b[B",
    b"\x10",
    b"\x0e",
    b"\x1b[H",
    b"\x1b[1~",
    b"\x1b[F",
    b"\x1b[4~",
    b"\x01",
    b"\x05",
    b"\x7f",
    b"\x7f",
    b"\x08",
    b"\x1b[3~",
    b"\x17",
    b"\x0b",
    b"\x1bb",
    b"\x1bf",
    b"\x1b[1;3D",
    b"\x1b[1;3C",
    b"\t",
    b"\t",
    b"\x12",
    b"\x12",
    b"\x13",
    b"\x1b[?1;2c",
    b"\x1b[99~",
];

/// Pasted texts between their marks. A control character in them is typed as a space.
const PASTES: &[&[u8]] = &[
    b"\x1b[200~ab\x1b[201~",
    b"\x1b[200~a b c\x1b[201~",
    b"\x1b[200~log\r\nls\x1b[201~",
    b"\x1b[200~some pasted text\x1b[201~",
    b"\x1b[200~a \xe6\xbc\xa2\xe5\xad\x97 b\x1b[201~",
];

/// The keys that end a line: Enter in its two forms, the key that cancels it, and the one that ends the input where the
/// line is empty.
const ENDS: &[&[u8]] = &[b"\r", b"\r", b"\n", b"\x03", b"\x04"];

/// Returns the bytes of one key, most often of a letter.
fn keystroke(numbers: &mut RandomNumbers) -> &'static [u8] {
    match numbers.below(40) {
        0 => b"\x0c",
        1..=2 => numbers.pick(ENDS, b"\r"),
        3 => numbers.pick(PASTES, b" "),
        4..=17 => numbers.pick(COMMANDS, b"\x0b"),
        18..=23 => numbers.pick(WIDE, b" "),
        _ => numbers.pick(LETTERS, b" "),
    }
}

/// Returns the bytes of `count` keys, one after the other.
pub fn keystrokes(
    alloc: Global,
    numbers: &mut RandomNumbers,
    count: u64,
) -> Result<Vec<u8>, AllocError> {
    let mut bytes = Vec::new(alloc);
    for _ in 0..count {
        bytes.extend_from_slice(keystroke(numbers))?;
    }
    Ok(bytes)
}
