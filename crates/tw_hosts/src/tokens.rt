//! How a line is cut into tokens, and how each is shown.

ghost use Rattle.std.specs.Prelude.{◌≡◌, ◌<◌, ◌++◌, IfOk, List, [], OnOk, drop, length, map, string_bytes, take};
ghost use Rattle.tw_host.specs.ElementView.{ElementView, element_view};
ghost use Rattle.tw_hosts.specs.Tokens.{text_before, is_quote, joined_elements, quote_len, styled_or_plain, style_of, styled_text, styled_line, token_len, word_len};

use crate::words::{is_known, word_end};
use std::alloc::{AllocError, Global};
use tw_host::OutputElement;
use tw_surface::CellAttributes;

/// The attributes in which keywords and quoted texts are shown.
#[derive(Clone, Copy, Debug, PartialEq, Eq)]
pub struct Styles {
    /// Those of a keyword.
    pub keyword: CellAttributes,
    /// Those of a quoted text, with its marks.
    pub quote: CellAttributes,
}

/// Returns true if a text begins with a quotation mark.
fn is_quote(text: &str) -> bool
    ensures { result ≡ is_quote text.now }
{
    text.starts_with('\'')
}

/// Returns the length of a quoted text: up to its second mark, or to the end.
fn quote_len(text: &[u8]) -> usize
    requires { 0 < length text.now }
    ensures { result ≡ quote_len text.now }
{
    let body = &text[1..];
    (word_end("'", body) + 2).min(text.len())
}

/// Returns how many bytes stand before the first space or mark, and 1 for a space.
fn word_len(text: &[u8]) -> usize
    ensures { result ≡ word_len text.now }
{
    word_end(" '", text).max(1)
}

/// Returns the length of the first token of a text in bytes.
fn token_len(text: &str) -> usize
    requires { 0 < length text.now }
    ensures { result ≡ token_len text.now }
{
    if is_quote(text) {
        quote_len(text.as_bytes())
    } else {
        word_len(text.as_bytes())
    }
}

/// Splits a text that is not empty after its first token: a text in single quotation marks, or up to the end if the
/// second mark is missing; a space; or the text before one of them.
#[tactic(auto, using(crate::proofs::TokenLemmas::token_boundary, crate::proofs::TokenLemmas::some_token))]
pub fn split_token(text: &str) -> (&str, &str)
    requires { 0 < length text.now }
    ensures token { result.0.now ≡ take (token_len text.now) text.now }
    ensures rest { result.1.now ≡ drop (token_len text.now) text.now }
    ensures shorter { length result.1.now < length text.now }
{
    text.split_at(token_len(text))
}

/// Returns a text with these attributes before it, and the default ones after it.
pub fn styled(
    alloc: Global,
    attributes: CellAttributes,
    text: &str,
) -> Result<Vec<OutputElement>, AllocError>
    ensures { IfOk result (λ elements. map element_view elements.items
        ≡ styled_text attributes text.now) }
{
    Ok(vec![in alloc;
        OutputElement::AllAttributes(attributes),
        OutputElement::text(alloc, text)?,
        OutputElement::AllAttributes(CellAttributes::default()),
    ]?)
}

/// Returns the attributes in which a token is shown, if it is a quoted text or a keyword.
fn style_of(styles: Styles, keywords: &[String], token: &str) -> Option<CellAttributes>
    ensures { result ≡ style_of styles (map string_bytes keywords.now) token.now }
{
    if is_quote(token) {
        return Some(styles.quote);
    }
    is_known(keywords, token).then_some(styles.keyword)
}

/// Appends a text as it is. The empty one is no element.
fn push_plain(elements: &mut Vec<OutputElement>, text: String) -> Result<(), AllocError>
    ensures { OnOk result (map element_view elements.new.items
        ≡ map element_view elements.old.items ++ text_before (string_bytes text) []) }
{
    if text.is_empty() {
        return Ok(());
    }
    elements.push(OutputElement::Text(text))?;
    Ok(())
}

/// Shows one more token behind elements and the plain text after them.
fn push_token(
    alloc: Global,
    style: Option<CellAttributes>,
    token: &str,
    elements: &mut Vec<OutputElement>,
    plain: &mut String,
) -> Result<(), AllocError>
    requires { 0 < length token.now }
    ensures { OnOk result ((more : List ElementView) →
        map element_view elements.new.items
        ++ text_before (string_bytes plain.new) (joined_elements more)
        ≡ map element_view elements.old.items ++ text_before (string_bytes plain.old)
        (joined_elements (styled_or_plain style token.now ++ more))) }
{
    let Some(attributes) = style else {
        plain.push_str(token)?;
        return Ok(());
    };
    push_plain(elements, std::mem::replace(plain, String::new(alloc)))?;
    elements.append(&mut styled(alloc, attributes, token)?)?;
    Ok(())
}

/// Returns the tokens of a line in their order: quoted texts and keywords in their styles, and the text between them as
/// it is, in one element.
pub fn highlight_tokens(
    alloc: Global,
    styles: Styles,
    keywords: &[String],
    line: &str,
) -> Result<Vec<OutputElement>, AllocError>
    ensures { IfOk result (λ elements. map element_view elements.items
        ≡ styled_line styles (map string_bytes keywords.now) line.now) }
{
    let mut elements = Vec::new(alloc);
    let mut plain = String::new(alloc);
    let mut rest = line;
    while !rest.is_empty() {
        let (token, after) = split_token(rest);
        let style = style_of(styles, keywords, token);
        push_token(alloc, style, token, &mut elements, &mut plain)?;
        rest = after;
    }
    push_plain(&mut elements, plain)?;
    Ok(elements)
}
