//! Printable ASCII, CR and LF.
//!
//! The loops over texts go on after a byte that is none of these: a loop that does not end early is compiled to one
//! that takes many bytes at once.

ghost use Rattle.std.specs.Prelude.{◌≡◌};
ghost use Rattle.std.specs.List.{list_all};
ghost use Rattle.tw_surface.specs.Characters.{is_plain, is_printable};

/// Returns true if a byte is a printable character of ASCII.
pub fn is_printable(byte: u8) -> bool
    ensures { result ≡ is_printable byte }
{
    matches!(byte, b' '..=b'~')
}

/// Returns true if all characters of a text are printable ASCII.
pub fn is_printable_text(text: &[u8]) -> bool
    ensures { result ≡ list_all is_printable text.now }
{
    let mut all = true;
    for byte in text {
        all &= is_printable(*byte);
    }
    all
}

/// Returns true if each character of a text is printable ASCII, CR or LF.
pub fn is_plain_text(text: &[u8]) -> bool
    ensures { result ≡ list_all is_plain text.now }
{
    let mut all = true;
    for byte in text {
        all &= *byte == b'\r' || *byte == b'\n' || is_printable(*byte);
    }
    all
}
