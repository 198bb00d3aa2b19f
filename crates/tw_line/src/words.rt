//! Steps over words, by the indices of characters.

ghost use Rattle.std.specs.Prelude.{◌≡◌, ◌≤◌, length};
ghost use Rattle.tw_line.specs.Text.{chars_of};
ghost use Rattle.tw_line.specs.Words.{kind_from, word_after, word_before};

use crate::text::Text;

/// Returns the start of the word before the index.
pub fn word_before(line: &Text, index: usize) -> usize
    requires { index ≤ length (chars_of line.now) }
    ensures value { result ≡ word_before (chars_of line.now) index }
    ensures within { result ≤ length (chars_of line.now) }
{
    let mut start = index.saturating_sub(1);
    while start > 0 {
        if line.character(start - 1).is_whitespace() {
            return start;
        }
        start -= 1;
    }
    0
}

/// Returns the first character from `start` on that is whitespace, or that is none where `space` is false. Without one,
/// the end of the line.
fn find_from(line: &Text, start: usize, space: bool) -> usize
    requires { start ≤ length (chars_of line.now) }
    ensures value { result ≡ kind_from space (chars_of line.now) start }
    ensures within { result ≤ length (chars_of line.now) }
{
    let mut index = start;
    while index < line.count() {
        if line.character(index).is_whitespace() == space {
            return index;
        }
        index += 1;
    }
    index
}

/// Returns the start of the word after the index.
pub fn word_after(line: &Text, index: usize) -> usize
    requires { index ≤ length (chars_of line.now) }
    ensures value { result ≡ word_after (chars_of line.now) index }
    ensures within { result ≤ length (chars_of line.now) }
{
    let space = find_from(line, index, true);
    find_from(line, space, false)
}
