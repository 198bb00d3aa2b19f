//! Lines of several rows, as they are shown.

ghost use Rattle.std.specs.Prelude.{◌≡◌, IfOk, OnOk, IsCharBoundary, map, string_bytes};
ghost use Rattle.tw_host.specs.ElementView.{element_view};
ghost use Rattle.tw_host.specs.Faithful.{text_of_elements};
ghost use Rattle.tw_hosts.specs.Settling.{screen_view};
ghost use Rattle.tw_line.specs.Cut.{cut_at};
ghost use Rattle.tw_prompt_host.specs.Rows.{are_shown, break_elements, cursor_on, elements_in_rows, elements_of_text, elements_on, empty_first_row, last_shown, next_row, row_behind, row_break, row_columns, row_edge, row_view, row_with, rows_view};

use std::alloc::{AllocError, Global};
use tw_host::OutputElement;
use tw_hosts::{PromptScreen, settled_column};
use tw_surface::{CellAttributes, unicode_column_width};

/// How a line of several rows is shown. A line feed ends a row.
#[derive(Debug, Drop)]
pub enum Rows {
    /// As it is: right for lines without line feeds.
    One,
    /// In rows. Before each one but the first stands this continuation prompt.
    Several(String),
}

/// The row that is being shown.
#[derive(Debug, Drop)]
struct OpenRow {
    /// Whether it is the first row of its line.
    is_first: bool,
    /// Its text so far.
    text: String,
}

impl OpenRow {
    /// Returns the first row of a line.
    fn first(alloc: Global) -> Self
        ensures { row_view result ≡ empty_first_row }
    {
        OpenRow {
            is_first: true,
            text: String::new(alloc),
        }
    }
}

/// Returns what stands at the end of a row: a space if the row fills its last column.
fn row_edge(screen: &PromptScreen, continuation: &str, row: &OpenRow) -> &'static str
    ensures { result.now ≡ row_edge screen.now.cols
        (row_columns (screen_view screen.now) continuation.now (row_view row.now)) }
{
    let cols = screen.cols;
    let before = if row.is_first {
        screen.prompt.as_str()
    } else {
        continuation
    };
    let column = settled_column(cols, before, row.text.as_str(), row.text.len());
    let columns = unicode_column_width(before) as u128 + column as u128;
    if cols > 0 && columns > 0 && columns % cols as u128 == 0 {
        " "
    } else {
        ""
    }
}

/// Ends a row with a text, and begins the next one. Returns what stands between them: a space if the row is full, CR
/// LF, and the continuation prompt.
fn row_break(
    alloc: Global,
    screen: &PromptScreen,
    continuation: &str,
    row: &mut OpenRow,
    text: &str,
) -> Result<String, AllocError>
    ensures between { IfOk result (λ between. string_bytes between
        ≡ row_break (screen_view screen.now) continuation.now
        (row_with (row_view row.old) text.now)) }
    ensures row { OnOk result (row_view row.new ≡ next_row) }
{
    row.text.push_str(text)?;
    let mut between = String::from_str(alloc, row_edge(screen, continuation, row))?;
    row.is_first = false;
    row.text.clear();
    between.push_str("\r\n")?;
    between.push_str(continuation)?;
    Ok(between)
}

/// Ends a row with a text, and begins the next one. Returns the break between them, in the default attributes if the
/// line has set others.
fn break_elements(
    alloc: Global,
    screen: &PromptScreen,
    continuation: &str,
    set: Option<CellAttributes>,
    row: &mut OpenRow,
    text: &str,
) -> Result<Vec<OutputElement>, AllocError>
    ensures elements { IfOk result (λ elements. map element_view elements.items
        ≡ break_elements (screen_view screen.now) continuation.now set
        (row_with (row_view row.old) text.now)) }
    ensures row { OnOk result (row_view row.new ≡ next_row) }
{
    let text = row_break(alloc, screen, continuation, row, text)?;
    let elements = match set {
        None => vec![in alloc; OutputElement::Text(text)]?,
        Some(attributes) => vec![in alloc;
            OutputElement::AllAttributes(CellAttributes::default()),
            OutputElement::Text(text),
            OutputElement::AllAttributes(attributes),
        ]?,
    };
    Ok(elements)
}

/// Returns the elements of a text that begins in `row`, with breaks. Leaves `row` as the one in which it ends.
#[tactic(auto, using(crate::proofs::RowLemmas::elements_last, crate::proofs::RowLemmas::behind_last, std::proofs::lemmas::Grind::common_steps))]
fn elements_of_text(
    alloc: Global,
    screen: &PromptScreen,
    continuation: &str,
    set: Option<CellAttributes>,
    row: &mut OpenRow,
    text: &str,
) -> Result<Vec<OutputElement>, AllocError>
    ensures elements { IfOk result (λ elements. map element_view elements.items
        ≡ elements_of_text (screen_view screen.now) continuation.now set
        (row_view row.old) text.now) }
    ensures row { OnOk result (row_view row.new ≡ row_behind (row_view row.old) text.now) }
{
    let mut elements = Vec::new(alloc);
    let mut rest = text;
    while let Some((piece, more)) = rest.split_once('\n') {
        elements.push(OutputElement::text(alloc, piece)?)?;
        elements.append(&mut break_elements(alloc, screen, continuation, set, row, piece)?)?;
        rest = more;
    }
    row.text.push_str(rest)?;
    elements.push(OutputElement::text(alloc, rest)?)?;
    Ok(elements)
}

/// Returns the text of elements.
fn text_of(alloc: Global, elements: &[OutputElement]) -> Result<String, AllocError>
    ensures { IfOk result (λ text. string_bytes text
        ≡ text_of_elements (map element_view elements.now)) }
{
    let mut text = String::new(alloc);
    for element in elements {
        if let OutputElement::Text(more) = element {
            text.push_str(more.as_str())?;
        }
    }
    Ok(text)
}

/// Returns the elements of a line in rows.
fn elements_in_rows(
    alloc: Global,
    screen: &PromptScreen,
    continuation: &str,
    elements: &[OutputElement],
) -> Result<Vec<OutputElement>, AllocError>
    ensures { IfOk result (λ shown. map element_view shown.items
        ≡ elements_in_rows (screen_view screen.now) continuation.now
        (map element_view elements.now)) }
{
    let mut shown = Vec::new(alloc);
    let mut set = None;
    let mut row = OpenRow::first(alloc);
    for element in elements {
        match element {
            OutputElement::Attribute(change) => {
                let mut attributes = set.unwrap_or(CellAttributes::default());
                attributes.apply_change(change);
                set = Some(attributes);
                shown.push(OutputElement::Attribute(*change))?;
            }
            OutputElement::AllAttributes(attributes) => {
                set = Some(*attributes);
                shown.push(OutputElement::AllAttributes(*attributes))?;
            }
            OutputElement::Text(text) => {
                let mut more = elements_of_text(
                    alloc,
                    screen,
                    continuation,
                    set,
                    &mut row,
                    text.as_str(),
                )?;
                shown.append(&mut more)?;
            }
        }
    }
    Ok(shown)
}

impl Rows {
    /// Returns true if lines are shown in rows.
    pub fn are_shown(&self) -> bool
        ensures { result ≡ are_shown (rows_view self.now) }
    {
        matches!(self, Rows::Several(_))
    }

    /// Returns what stands before the last row of a line, and that row.
    #[tactic(auto, using(crate::proofs::RowLemmas::behind_last))]
    pub fn last_shown<'a>(&'a self, screen: &'a PromptScreen, line: &'a str) -> (&'a str, &'a str)
        ensures { (result.0.now, result.1.now)
            ≡ last_shown (screen_view screen.now) (rows_view self.now) line.now }
    {
        match self {
            Rows::One => (screen.prompt.as_str(), line),
            Rows::Several(continuation) => match line.rsplit_once('\n') {
                Some((_, row)) => (continuation.as_str(), row),
                None => (screen.prompt.as_str(), line),
            },
        }
    }

    /// Shows the elements of a line, and returns them with the column of the cursor. If the line is shown in rows, each
    /// line feed becomes CR LF and the continuation prompt. A row that fills its last column gets a space at its end, a
    /// cell for the cursor. Both have the default attributes if the line sets any.
    ///
    /// The column is that of `line`, so the texts of `elements` should be the line.
    #[tactic(auto, using(crate::proofs::RowLemmas::text_of_rows))]
    pub fn show(
        &self,
        alloc: Global,
        screen: &PromptScreen,
        elements: Vec<OutputElement>,
        line: &str,
        cursor: usize,
    ) -> Result<(Vec<OutputElement>, usize), AllocError>
        requires { IsCharBoundary line.now cursor }
        ensures elements { IfOk result (λ shown. map element_view shown.0.items
            ≡ elements_on (screen_view screen.now) (rows_view self.now)
            (map element_view elements.items)) }
        ensures column { IfOk result (λ shown. shown.1
            ≡ cursor_on (screen_view screen.now) (rows_view self.now) (cut_at line.now cursor)) }
    {
        match self {
            Rows::One => Ok((elements, screen.column(line, cursor))),
            Rows::Several(continuation) => {
                let continuation = continuation.as_str();
                let (before, rest) = line.split_at(cursor);
                let mut row = OpenRow::first(alloc);
                let before = elements_of_text(alloc, screen, continuation, None, &mut row, before)?;
                let mut text = text_of(alloc, &before)?;
                let at = text.len();
                let rest = elements_of_text(alloc, screen, continuation, None, &mut row, rest)?;
                let more = text_of(alloc, &rest)?;
                text.push_str(more.as_str())?;
                let column = screen.column(text.as_str(), at);
                let shown = elements_in_rows(alloc, screen, continuation, &elements)?;
                Ok((shown, column))
            }
        }
    }
}
