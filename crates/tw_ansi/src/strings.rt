//! Control strings: ESC ] or ESC P, and what a terminal answers there, up to BEL or ESC and a backslash.

ghost use Rattle.std.specs.Prelude.{◌≡◌, ◌+◌, ◌<◌, ◌≤◌, ◌^◌, length};
ghost use Rattle.std.specs.List.{prefix_len};
ghost use Rattle.tw_ansi.specs.KeyBytes.{is_string_byte, begins_answer, opens_string, string_of, string_at, scanned_as};
ghost use Rattle.tw_ansi.specs.Resuming.{begins_string};
ghost use Rattle.tw_ansi.specs.declared.token.Token.TheVariants.{Unknown};

use crate::decode::ESC;
use crate::token::{Scanned, Token, key};
use tw_input::{KeyCode, Modifiers};

const BEL: u8 = 0x07;

/// Returns true if a byte begins a control string after ESC.
fn opens_string(byte: u8) -> bool
    ensures { result ≡ opens_string byte }
{
    byte == b']' || byte == b'P'
}

/// Returns true if a byte stands first in a string that a terminal answers.
fn begins_answer(byte: u8) -> bool
    ensures { result ≡ begins_answer byte }
{
    (b'0'..=b'9').contains(&byte) || byte == b'!' || byte == b'>'
}

/// Returns true if the bytes begin a control string.
pub fn begins_string(bytes: &[u8]) -> bool
    ensures { result ≡ begins_string bytes.now }
{
    match bytes {
        [ESC, opening, first, ..] => opens_string(*opening) && begins_answer(*first),
        _ => false,
    }
}

/// Returns how many bytes are at the front that can stand in a string: each but a control character.
pub fn string_len(bytes: &[u8]) -> usize
    ensures value { result ≡ prefix_len is_string_byte bytes.now }
    ensures bound { result ≤ length bytes.now }
{
    for (i, byte) in bytes.iter().enumerate() {
        if *byte < 0x20 || *byte == 0x7f {
            return i;
        }
    }
    bytes.len()
}

/// Returns a string that takes `used` bytes.
fn string(used: usize) -> Option<Scanned>
    ensures { result ≡ scanned_as Unknown used }
{
    Some(Scanned {
        token: Token::Unknown,
        used,
    })
}

/// Returns a string of `used` bytes, by what stands after them: BEL ends it, and so do ESC and a backslash. No other
/// byte is taken.
pub fn string_of(used: usize, bytes: &[u8], is_last: bool) -> Option<Scanned>
    requires { used + 2 < 2 ^ 64 }
    ensures { result ≡ string_of is_last used bytes.now }
{
    match bytes {
        [] | [ESC] if !is_last => None,
        [ESC, b'\\', ..] => string(used + 2),
        [BEL, ..] => string(used + 1),
        _ => string(used),
    }
}

/// Returns what stands after ESC ] or ESC P: a string, or that character and ALT were pressed.
pub fn string_at(opening: u8, bytes: &[u8], is_last: bool) -> Option<Scanned>
    requires { opening < 127 }
    ensures { result ≡ string_at is_last opening bytes.now }
{
    let with_alt = key(KeyCode::Char(opening as char), Modifiers::ALT, 2);
    match bytes {
        [] if !is_last => None,
        [first, ..] if begins_answer(*first) => {
            let len = string_len(bytes);
            string_of(2 + len, &bytes[len..], is_last)
        }
        _ => with_alt,
    }
}
