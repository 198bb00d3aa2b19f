//! Laws over whole runs: what a prompt knows of the editor, and lines of several rows, where each character and the
//! cursor stand, and what screens show of them.
//!
//! A line may hold line feeds, and a host may show them: each ends a row, and a continuation prompt stands before the
//! next one. No code of the editor is for rows, and what screens and terminals show of them is said by `laws_screens` and
//! `laws_runs`. Use this crate to prove what a prompt shows: each law is the contract of a function that does nothing.
//!
//! From `crates/laws_prompt/proofs/WorkedRows.antt`:
//!
//! ```antt
//! -- its rows; a line feed at the end begins one more
//! three_rows : rows_of_text text ≡ first ∷ (103 ∷ 104 ∷ []) ∷ (105 ∷ 106 ∷ []) ∷ []
//! three_rows = refl
//! ```
#![tactic(auto)]

ghost use Rattle.std.specs.Prelude.{Bool};
ghost use Rattle.laws_prompt.specs.MenuRuns.{ClosesAfterLines, TellsLines};
ghost use Rattle.laws_prompt.specs.SearchRuns.{BringsFound, CompletesFound, IsOffBehindLines, KnowsSearches, LeavesSearches, TellsReadings, TellsRuns};
ghost use Rattle.laws_prompt.specs.LineRuns.{LinesCloseBelow, LinesStandInRows};
ghost use Rattle.laws_prompt.specs.MeasuredRows.{MeasuredRowsAreRows, PlainRowsAreMeasured};
ghost use Rattle.laws_prompt.specs.RowCells.{RowsAnswerLine, AnswersShowLines, CellsByDivision, LastRowByDivision, ShownLinesArePlain, CursorStandsInItsRow, RowColumnIsSettled, RowColumnLeadsThere};
ghost use Rattle.laws_prompt.specs.SettledCursors.{LineIsTyped, SettledIsBefore, SettledIsBehind, SettledStandsOn, SettledStandsOnBlank};
ghost use Rattle.laws_screens.specs.Pens.{Pen};

use tw_host::LineEditorHost;
use tw_key_parts::KeyPart;

/// The settled column of the text that shows a line of printable rows leads the editor's division to the cell of the
/// cursor in its row, so the cursor of the scene stands there. There is one on every screen of up to 65,535 columns.
#[tactic(auto, using(crate::proofs::ColumnLemmas::row_column_leads_there, crate::proofs::ColumnLemmas::cursor_stands_in_its_row, crate::proofs::ColumnLemmas::row_column_is_settled))]
pub fn columns()
    ensures column { RowColumnLeadsThere }
    ensures cursor { CursorStandsInItsRow }
    ensures settled { RowColumnIsSettled }
{}

/// Lines of measured rows have rows, whatever their colours are, and printable rows are measured. So have lines that are
/// shown by the text with CR LF and a continuation prompt for each line feed, as by a host that answers the prompt, that
/// text and the settled column in it; so answers a prompt that shows in rows what a host shows of a printable line, in
/// whatever colours. In a fresh painting of them the prompts, each character and the cursor stand in the cells that
/// division gives. With nothing under the line its last row is that of the cell after the line.
pub fn row_cells<A, C>()
    ensures measured { (pen : Pen A C) → MeasuredRowsAreRows pen }
    ensures plain { PlainRowsAreMeasured }
    ensures rows { RowsAnswerLine }
    ensures answers { AnswersShowLines }
    ensures shown { (pen : Pen A C) → ShownLinesArePlain pen }
    ensures cells { CellsByDivision }
    ensures last { LastRowByDivision }
{}

/// After each painting of a run whose stations show lines in rows, on a screen of characters, the prompts, each
/// character and the cursor stand in the cells that division gives. The closing batch ends in the row below the line.
pub fn line_runs<H: LineEditorHost>()
    ensures standing { LinesStandInRows H.rules }
    ensures closing { LinesCloseBelow H.rules }
{}

/// A host that answers the settled column has its cursor before the cluster that begins the text after it, or after the
/// line; so after each painting of a run, on a screen of any kind of cells, it stands in the first cell of that cluster,
/// or in a blank.
#[tactic(auto, using(crate::proofs::SettledCursorLemmas::settled_is_before, crate::proofs::SettledCursorLemmas::settled_is_behind, crate::proofs::SettledCursorLemmas::line_is_typed))]
pub fn cursors<H: LineEditorHost, A, C>()
    ensures before { SettledIsBefore }
    ensures behind { SettledIsBehind }
    ensures cell { (pen : Pen A C) → SettledStandsOn H.rules pen }
    ensures blank { (pen : Pen A C) → SettledStandsOnBlank H.rules pen }
    ensures typed { LineIsTyped }
{}

/// A watch that follows the actions of a host says at each event of a run whether the editor searches, if it does at
/// the beginning; so it does in each reading that begins while it is off, and after a line that was accepted or
/// cancelled it is off again.
pub fn watch<H: LineEditorHost>()
    ensures runs { (watch : H.Value → Bool) → TellsRuns H.rules watch }
    ensures readings { (watch : H.Value → Bool) → TellsReadings H.rules watch }
    ensures off { (watch : H.Value → Bool) → IsOffBehindLines H.rules watch }
{}

/// A prompt knows at each event of a reading whether the editor searches, and is out of any search after a line that
/// was accepted or cancelled.
#[tactic(auto, using(crate::proofs::SearchRunLemmas::knows_searches, crate::proofs::SearchRunLemmas::leaves_searches))]
pub fn searches<H: LineEditorHost, K: KeyPart>()
    ensures known { KnowsSearches K.keys H.rules }
    ensures left { LeavesSearches K.keys H.rules }
{}

/// No action gives back the line before a search in its place: where the line is edited after one that ends a search,
/// it is the line that was found, or a completion of it, whose cursor stands as far from the end as in that line.
pub fn search_ends<H: LineEditorHost>()
    ensures brought { BringsFound H.rules }
    ensures completed { CompletesFound H.rules }
{}

/// At each event of a reading that begins at rest the line under an open menu is the line before the completion with
/// the candidate that the menu marks. After a line that was accepted or cancelled there is no menu.
#[tactic(auto, using(crate::proofs::MenuRunLemmas::tells_lines, crate::proofs::MenuRunLemmas::closes_after_lines))]
pub fn menus<H: LineEditorHost, K: KeyPart>()
    ensures told { TellsLines K.keys H.rules }
    ensures closed { ClosesAfterLines K.keys H.rules }
{}
