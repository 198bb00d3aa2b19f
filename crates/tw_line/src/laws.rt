//! Laws over the definitions alone: each is the contract of a function that does nothing.

ghost use Rattle.std.specs.Prelude.{◌≡◌, ◌↔◌, IsTrue, ℕ, List};
ghost use Rattle.tw_line.specs.HistoryAdditions.{match_view};
ghost use Rattle.tw_line.specs.Laws.{CountsAddUp, OffsetsAreExtremes, WordsAreExtremes};
ghost use Rattle.tw_line.specs.Patterns.{first};
ghost use Rattle.tw_line.specs.SearchLaws.{FindsFirst, FindsNearest};

use crate::history::{SearchDirection, SearchResult, SearchStyle};
use crate::movements::Movement;

/// `a` steps and then `b` steps lead where `a + b` steps lead, in every cut text and for all whole
/// numbers.
pub fn counts()
    ensures backward_char { CountsAddUp Movement.BackwardChar }
    ensures backward_word { CountsAddUp Movement.BackwardWord }
    ensures forward_char { CountsAddUp Movement.ForwardChar }
    ensures forward_word { CountsAddUp Movement.ForwardWord }
{}

/// Each step leads to the least or the greatest place of its kind.
pub fn steps()
    ensures offsets { (text : List ℕ) (at : ℕ) → OffsetsAreExtremes text at }
    ensures words { (chars : List ℕ) (index : ℕ) → WordsAreExtremes chars index }
{}

/// `==` is equality of values. Answers of a search are compared by their views, so a text by its characters,
/// whether it is borrowed or owned.
pub fn equality<'a>()
    ensures search_style { (a b : SearchStyle) → IsTrue (⟦<SearchStyle as PartialEq>⟧.eq a b)
        ↔ (a ≡ b) }
    ensures search_direction { (a b : SearchDirection)
        → IsTrue (⟦<SearchDirection as PartialEq>⟧.eq a b) ↔ (a ≡ b) }
    ensures search_result { (a b : SearchResult)
        → IsTrue (⟦<SearchResult<'a> as PartialEq>⟧.eq a b) ↔ (match_view a ≡ match_view b) }
{}

/// The first offset of a pattern, and the nearest line that contains it, are the extremes that the relations
/// describe.
pub fn searches()
    ensures first { FindsFirst first }
    ensures nearest { FindsNearest }
{}
