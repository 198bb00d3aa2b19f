//! The tokens of a text.

ghost use Rattle.std.specs.Prelude.{◌≡◌, IfOk, IsCharBoundary, drop, map, take};
ghost use Rattle.sql_language.specs.Lexemes.{lexeme_kind, lexeme_len, lexeme_start, quoted_kind, token_kind, token_view, tokenize};

use crate::lexer::{Inside, Quote, continued, fresh};
use std::alloc::{AllocError, Global};

/// What a token is.
#[derive(Clone, Copy, Debug, PartialEq, Eq)]
pub enum TokenKind {
    /// White space.
    White,
    /// A keyword or a name without quotes: `words` tells them apart.
    Word,
    /// A number. The sign of an exponent is a mark of its own.
    Number,
    /// A text in quotes.
    Text,
    /// A name in quotes.
    Name,
    /// A comment.
    Comment,
    /// One byte that is nothing else.
    Mark,
}

/// A token of a text.
#[derive(Clone, Copy)]
pub struct Token<'a> {
    /// What it is.
    pub kind: TokenKind,
    /// Its bytes. A comment that ends with its line has no line feed.
    pub text: &'a str,
}

/// Returns what a token in quotes is.
fn quoted_kind(quote: Quote) -> TokenKind
    ensures { result ≡ quoted_kind quote }
{
    match quote {
        Quote::Single => TokenKind::Text,
        _ => TokenKind::Name,
    }
}

/// Returns what a token is, by what its first byte stands in and its length.
fn token_kind(start: Inside, len: usize) -> TokenKind
    ensures { result ≡ token_kind start len }
{
    match start {
        Inside::White => TokenKind::White,
        Inside::Word => TokenKind::Word,
        Inside::Number => TokenKind::Number,
        Inside::Mark => TokenKind::Mark,
        Inside::Dash | Inside::Slash if len == 1 => TokenKind::Mark,
        Inside::Quoted(quote) | Inside::Closed(quote) => quoted_kind(quote),
        _ => TokenKind::Comment,
    }
}

/// Returns the length of the first token, and what its first byte stands in.
fn scan(text: &str) -> (usize, Inside)
    ensures len { result.0 ≡ lexeme_len text.now }
    ensures start { result.1 ≡ lexeme_start text.now }
    ensures boundary { IsCharBoundary text.now result.0 }
{
    let bytes = text.as_bytes();
    if bytes.is_empty() {
        return (0, Inside::White);
    }
    let start = fresh(bytes[0]);
    let mut inside = start;
    for at in 1..bytes.len() {
        match continued(inside, bytes[at]) {
            Some(next) => inside = next,
            None => return (at, start),
        }
    }
    (bytes.len(), start)
}

/// Returns the first token of a text, and what follows it. That of an empty text is white space of no bytes.
pub fn first_token(text: &str) -> (Token<'_>, &str)
    ensures kind { result.0.kind ≡ lexeme_kind text.now }
    ensures token { result.0.text.now ≡ take (lexeme_len text.now) text.now }
    ensures rest { result.1.now ≡ drop (lexeme_len text.now) text.now }
    ensures boundary { IsCharBoundary text.now (lexeme_len text.now) }
{
    let (len, start) = scan(text);
    let (token, rest) = text.split_at(len);
    (
        Token {
            kind: token_kind(start, len),
            text: token,
        },
        rest,
    )
}

/// Returns the tokens of a text.
pub fn tokenize<'a>(alloc: Global, text: &'a str) -> Result<Vec<Token<'a>>, AllocError>
    ensures { IfOk result (λ found. map token_view found.items ≡ tokenize text.now) }
{
    let mut found = Vec::new(alloc);
    let mut rest = text;
    for _ in 0..text.len() {
        if rest.is_empty() {
            break;
        }
        let (token, after) = first_token(rest);
        found.push(token)?;
        rest = after;
    }
    Ok(found)
}
