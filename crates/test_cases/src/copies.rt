//! Long texts in short ones.

use std::alloc::Global;
use std::test::Fail;

/// Appends the copies of `COUNT|TEXT`.
fn push_copies(long: &mut String, copies: &str) -> Result<(), Fail> {
    let (count, text) = copies.split_once('|').ok_or("no count")?;
    let count: usize = count.parse()?;
    for number in 0..count {
        match text.split_once('#') {
            Some((head, tail)) => write!(long, "{head}{number}{tail}")?,
            None => long.push_str(text)?,
        }
    }
    Ok(())
}

/// Appends the copies of `COUNT|TEXT}`, and the text behind them.
fn push_part(long: &mut String, part: &str) -> Result<(), Fail> {
    let (copies, after) = part.split_once('}').ok_or("no end of copies")?;
    push_copies(long, copies)?;
    Ok(long.push_str(after)?)
}

/// Returns the text with each `{COUNT|TEXT}` replaced by COUNT copies of TEXT, each with its number, counted from 0, in
/// the place of `#`.
pub fn expanded(alloc: Global, text: &str) -> Result<String, Fail> {
    let (first, rest) = text.split_once('{').unwrap_or((text, "0|}"));
    let mut long = String::from_str(alloc, first)?;
    for part in rest.split('{') {
        push_part(&mut long, part)?;
    }
    Ok(long)
}
