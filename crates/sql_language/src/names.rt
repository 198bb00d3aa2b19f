//! Names of tables and columns: those in a text, and how one is written.

ghost use Rattle.std.specs.Prelude.{◌≡◌, ◌++◌, IfOk, OnOk, string_bytes};
ghost use Rattle.sql_language.specs.Names.{doubled, quoted_name};

use crate::tokens::{Token, TokenKind, first_token};
use crate::words::{eq_ignore_case, has_word};
use std::alloc::{AllocError, Global};

/// Returns a token without the quotes in which it stands as a name.
fn bare<'a>(token: Token<'a>) -> &'a [u8] {
    let bytes = token.text.as_bytes();
    match token.kind {
        TokenKind::Name if bytes.len() >= 2 => &bytes[1..bytes.len() - 1],
        TokenKind::Name => &bytes[..0],
        _ => bytes,
    }
}

/// Returns true if one of these tokens is a name, whatever the case of its ASCII letters.
pub(crate) fn is_named(tokens: &[Token<'_>], name: &str) -> bool {
    tokens
        .iter()
        .any(|token| eq_ignore_case(bare(*token), name.as_bytes()))
}

/// Returns true if a text is one word.
fn is_one_word(text: &str) -> bool {
    let (token, rest) = first_token(text);
    token.kind == TokenKind::Word && rest.is_empty()
}

/// Appends a character of a name as it stands in quotes: a quote twice.
fn push_doubled(quoted: &mut String, character: char) -> Result<(), AllocError>
    ensures { OnOk result (string_bytes quoted.new ≡ string_bytes quoted.old ++ doubled character) }
{
    if character == '"' {
        return quoted.push_str("\"\"");
    }
    quoted.push(character)
}

/// Returns a name in quotes, each quote in it twice.
pub fn quoted_name(alloc: Global, name: &str) -> Result<String, AllocError>
    ensures { IfOk result (λ quoted. string_bytes quoted ≡ quoted_name name.now) }
{
    let mut quoted = String::from_str(alloc, "\"")?;
    for character in name.chars() {
        push_doubled(&mut quoted, character)?;
    }
    quoted.push_str("\"")?;
    Ok(quoted)
}

/// Returns a name as a statement has it: as it is if it is one word and no keyword, or else in quotes.
pub(crate) fn written_name(
    alloc: Global,
    keywords: &[String],
    name: &str,
) -> Result<String, AllocError> {
    if is_one_word(name) && !has_word(keywords, name) {
        String::from_str(alloc, name)
    } else {
        quoted_name(alloc, name)
    }
}
