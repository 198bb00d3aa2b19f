//! What follows from the definitions alone.

ghost use Rattle.tw_input.specs.Equality.{ComparesValues};
ghost use Rattle.tw_host.specs.Faithful.{IsFaithful};
ghost use Rattle.tw_hosts.specs.Tokens.{StyledIsText, TokensAreLine};
ghost use Rattle.tw_hosts.specs.Settling.{ColumnLeadsThere, CursorIsSettled, NoOtherColumn, PrintableIsPlain, PrintableIsUnchanged, SomeColumn, WholeIsMeasured};
ghost use Rattle.tw_hosts.specs.TableRules.{table_rules};

use crate::tokens::Styles;
use tw_host::LineEditorHost;

/// `==` is equality of values.
#[tactic(auto, using(tw_surface::proofs::EqualityLemmas::attributes_equal, std::proofs::lemmas::Bool::and_parts, std::proofs::lemmas::Bool::and_from))]
pub fn equality()
    ensures { ComparesValues ⟦<Styles as PartialEq>⟧.eq }
{}

/// The parts show the text that they are given, and a host of tables the prompt and the line themselves.
#[tactic(auto, using(crate::proofs::TokenLemmas::styled_is_text, crate::proofs::TokenLemmas::tokens_are_line, crate::proofs::TokenLemmas::tables_are_faithful))]
pub fn faithful()
    ensures styled { StyledIsText }
    ensures tokens { TokensAreLine }
    ensures tables { IsFaithful table_rules }
{}

/// The settled column leads to the cell in which the text after the cursor begins, and no other one does. There is one
/// after a text without a carriage return, no piece of which is wider than the screen. In a printable line it is the
/// plain one. Where no cluster is parted, the text before the cursor leads where the editor measures it.
#[tactic(auto, using(crate::proofs::SettlingLemmas::column_leads_there, crate::proofs::SettlingLemmas::cursor_is_settled, crate::proofs::SettlingLemmas::no_other_column, crate::proofs::SettlingLemmas::some_column, crate::proofs::SettlingLemmas::printable_is_plain, crate::proofs::SettlingLemmas::whole_is_measured))]
pub fn settling()
    ensures column { ColumnLeadsThere }
    ensures cursor { CursorIsSettled }
    ensures only { NoOtherColumn }
    ensures some { SomeColumn }
    ensures printable { PrintableIsPlain }
    ensures whole { WholeIsMeasured }
{}

/// The settled column of a printable line is that of a faithful host, whatever the screen is said to be.
#[tactic(auto, using(crate::proofs::SettlingLemmas::printable_is_unchanged))]
pub fn printable<H: LineEditorHost>()
    ensures { PrintableIsUnchanged H.rules }
{}
