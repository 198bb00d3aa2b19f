//! What follows from the definitions.

ghost use Rattle.tw_host.specs.Faithful.{IsFaithful};
ghost use Rattle.tw_prompt_host.specs.MenuKeys.{MenuKeysAreDistinct};
ghost use Rattle.tw_prompt_host.specs.Nesting.{BracketedIsWhole, JoinedIsWhole, PlainIsWhole, QuotedIsWhole};
ghost use Rattle.tw_prompt_host.specs.Prepared.{prepared_rules};
ghost use Rattle.tw_prompt_host.specs.PromptRules.{AcceptsValid, BeginsNoSearch, GivesLineBack, KeepsLineOfSearch, PromptHasWatch};
ghost use Rattle.tw_prompt_host.specs.Rows.{ElementsAreSpread, OneRowIsSettled, PrintableCutIsShown, PrintableIsShown, PrintableIsSpread};

use tw_host::LineEditorHost;
use tw_key_parts::KeyPart;

/// At each event a prompt knows by the action that is done whether the editor searches, whatever its parts and its host
/// are.
pub fn watch<H: LineEditorHost, K: KeyPart>()
    ensures { PromptHasWatch K.keys H.rules }
{}

/// The line before a search is kept while the editor searches. At a key that gives the search up it is left, and that
/// line stands at the next event; at one that cancels it is the line at once. No search begins in a history without
/// lines.
#[tactic(auto, using(crate::proofs::SearchLemmas::gives_line_back, crate::proofs::SearchLemmas::begins_no_search))]
pub fn given_up<H: LineEditorHost, K: KeyPart>()
    ensures kept { KeepsLineOfSearch K.keys H.rules }
    ensures back { GivesLineBack K.keys H.rules }
    ensures empty { BeginsNoSearch K.keys H.rules }
{}

/// A line is accepted only if the validator says at that event that it is valid; but a search's line that was found is
/// not asked about.
#[tactic(auto, using(crate::proofs::AcceptLemmas::accepts_valid))]
pub fn accepted<H: LineEditorHost, K: KeyPart>()
    ensures { AcceptsValid K.keys H.rules }
{}

/// No key of an open menu stands in two rows.
pub fn menu_table()
    ensures { MenuKeysAreDistinct }
{}

/// A line of one row is shown as on a screen without rows. The text of elements that are shown in rows is their text in
/// rows. Printable rows are shown by counting their characters, and so is the cursor in them.
#[tactic(auto, using(crate::proofs::RowLemmas::one_row_is_settled, crate::proofs::RowLemmas::elements_are_spread, crate::proofs::RowLemmas::printable_is_spread, crate::proofs::RowLemmas::printable_cut_is_shown))]
pub fn rows()
    ensures one { OneRowIsSettled }
    ensures elements { ElementsAreSpread }
    ensures text { PrintableIsSpread }
    ensures cursor { PrintableCutIsShown }
    ensures shown { PrintableIsShown }
{}

/// A prepared host shows the prompt and the line themselves, whatever the ranges are.
#[tactic(auto, using(crate::proofs::PreparedLemmas::prepared_is_faithful))]
pub fn prepared()
    ensures { IsFaithful prepared_rules }
{}

/// Whole are a text without marks (`plain`), two whole texts one after the other (`joined`), a whole text between
/// brackets (`bracketed`), and a text between the marks of a quotation that has its closing mark only behind the escape
/// character (`quoted`).
#[tactic(auto, using(crate::proofs::WholeLemmas::plain_is_whole, crate::proofs::WholeLemmas::joined_is_whole, crate::proofs::WholeLemmas::bracketed_is_whole, crate::proofs::WholeLemmas::quoted_is_whole))]
pub fn whole()
    ensures plain { PlainIsWhole }
    ensures joined { JoinedIsWhole }
    ensures bracketed { BracketedIsWhole }
    ensures quoted { QuotedIsWhole }
{}
