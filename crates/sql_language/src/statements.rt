//! Where a statement ends.

ghost use Rattle.std.specs.Prelude.{◌≡◌, IfSome, IsCharBoundary};
ghost use Rattle.sql_language.specs.SqlWords.{eq_ignore_case};
ghost use Rattle.sql_language.specs.Statements.{is_blank, part_after, part_behind, part_behind_semicolon, statement_len};

use crate::tokens::{Token, TokenKind, first_token};
use crate::words::eq_ignore_case;

/// How far a statement is read. One that makes a trigger has semicolons of its own.
#[derive(Clone, Copy)]
enum Part {
    /// Nothing of it.
    Start,
    /// `EXPLAIN`.
    Explain,
    /// `CREATE`, and `TEMP` or `TEMPORARY`.
    Create,
    /// Words of a statement that makes no trigger.
    Other,
    /// Words of one that makes a trigger.
    Body,
    /// Such words up to a semicolon.
    Semicolon,
    /// Such words up to a semicolon, and `END`.
    End,
}

/// Returns true for white space and comments.
fn is_blank(kind: TokenKind) -> bool
    ensures { result ≡ is_blank kind }
{
    matches!(kind, TokenKind::White | TokenKind::Comment)
}

/// Returns true if a token is a word in any case.
fn is(token: &str, word: &str) -> bool
    ensures { result ≡ eq_ignore_case token.now word.now }
{
    eq_ignore_case(token.as_bytes(), word.as_bytes())
}

/// Returns the part behind a semicolon, or `None` if the statement ends there.
fn part_behind_semicolon(part: Part) -> Option<Part>
    ensures { result ≡ part_behind_semicolon part }
{
    match part {
        Part::Body | Part::Semicolon => Some(Part::Semicolon),
        _ => None,
    }
}

/// Returns the part behind a token that is no semicolon, no white space and no comment.
fn part_behind(part: Part, token: &str) -> Part
    ensures { result ≡ part_behind part token.now }
{
    match part {
        Part::Start if is(token, "EXPLAIN") => Part::Explain,
        Part::Start | Part::Explain if is(token, "CREATE") => Part::Create,
        Part::Create if is(token, "TEMP") || is(token, "TEMPORARY") => Part::Create,
        Part::Create if is(token, "TRIGGER") => Part::Body,
        Part::Semicolon if is(token, "END") => Part::End,
        Part::Body | Part::Semicolon | Part::End => Part::Body,
        _ => Part::Other,
    }
}

/// Returns the part behind a token, or `None` if the statement ends with it.
fn part_after(part: Part, token: Token<'_>) -> Option<Part>
    ensures { result ≡ part_after part token.entry.kind token.entry.text.now }
{
    if is_blank(token.kind) {
        Some(part)
    } else if token.text == ";" {
        part_behind_semicolon(part)
    } else {
        Some(part_behind(part, token.text))
    }
}

/// Returns the length of the first statement in bytes, with the semicolon that ends it, or `None` if none does. A
/// semicolon in quotes or in a comment ends nothing, and a statement that makes a trigger ends at the semicolon behind
/// the `END` of its body.
pub fn statement_len(text: &str) -> Option<usize>
    ensures value { result ≡ statement_len text.now }
    ensures boundary { IfSome result (IsCharBoundary text.now) }
{
    let mut len = 0;
    let mut part = Part::Start;
    let mut rest = text;
    for _ in 0..text.len() {
        let (token, after) = first_token(rest);
        len += token.text.len();
        match part_after(part, token) {
            Some(next) => part = next,
            None => return Some(len),
        }
        rest = after;
    }
    None
}
