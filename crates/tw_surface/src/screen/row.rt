//! A row of a screen, as text.

ghost use Rattle.std.specs.Prelude.{string_bytes, string_len, string_capacity, is_ok, IsOk, if◌then◌else◌, ◌++◌, ◌≡◌, ◌+◌, length, replicate, ◌<◌, ◌≤◌};
ghost use Rattle.std.specs.List.{All};
ghost use Rattle.tw_surface.specs.Pictures.{blank};

use std::alloc::AllocError;
use std::str;

const BLANKS: [u8; 64] = [b' '; 64];

// Adds characters of ASCII to a text.
#[inline]
pub fn push_ascii(shown: &mut String, characters: &[u8]) -> Result<(), AllocError>
    requires { All (λ b. b < 128) characters.now }
    ensures bytes { let before = string_bytes shown.old in
        string_bytes shown.new
        ≡ (if is_ok result then before ++ characters.now else before) }
    ensures len { string_len shown.new ≡
        (if is_ok result then string_len shown.old
        + length characters.now else string_len shown.old) }
    ensures capacity { string_capacity shown.old ≤ string_capacity shown.new }
    ensures succeeds { string_len shown.old + length characters.now ≤ string_capacity shown.old
        → IsOk result }
{
    // SAFETY: bytes below 128 are UTF-8, which is proved here.
    shown.push_str(unsafe { str::from_utf8_unchecked(characters) })
}

// Adds blanks to a text that has room for them.
pub fn push_blanks(shown: &mut String, count: usize) -> Result<(), AllocError>
    requires { string_len shown.old + count ≤ string_capacity shown.old }
    ensures bytes { string_bytes shown.new ≡ string_bytes shown.old ++ replicate count blank }
    ensures succeeds { IsOk result }
{
    let mut left = count;
    while left > 0 {
        let part = left.min(BLANKS.len());
        push_ascii(shown, &BLANKS[..part])?;
        left -= part;
    }
    Ok(())
}
