//! Words, whatever the case of their ASCII letters.

ghost use Rattle.std.specs.Prelude.{◌≡◌};
ghost use Rattle.sql_language.specs.SqlWords.{eq_ignore_case};

/// Returns true if two texts are the same, whatever the case of their ASCII letters.
pub(crate) fn eq_ignore_case(text: &[u8], other: &[u8]) -> bool
    ensures { result ≡ eq_ignore_case text.now other.now }
{
    text.eq_ignore_ascii_case(other)
}

/// Returns true if one of some words is this one, whatever its case.
pub fn has_word(words: &[String], word: &str) -> bool {
    words.iter().any(|known| eq_ignore_case(known.as_str().as_bytes(), word.as_bytes()))
}

/// Returns true if a word begins with a text, whatever the case of their ASCII letters.
pub(crate) fn is_start_of(text: &str, word: &str) -> bool {
    let text = text.as_bytes();
    let word = word.as_bytes();
    text.len() <= word.len() && eq_ignore_case(text, &word[..text.len()])
}
