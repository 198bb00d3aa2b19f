//! Laws of this crate's definitions: each function does nothing, and its contract is the law.

ghost use Rattle.std.specs.Prelude.{◌≡◌, ◌↔◌, IsTrue};
ghost use Rattle.tw_surface.specs.declared.cell.AttributeChange.{AttributeChange};
ghost use Rattle.tw_surface.specs.declared.cell.Blink.{Blink};
ghost use Rattle.tw_surface.specs.declared.cell.CellAttributes.{CellAttributes};
ghost use Rattle.tw_surface.specs.declared.cell.Intensity.{Intensity};
ghost use Rattle.tw_surface.specs.declared.cell.Underline.{Underline};
ghost use Rattle.tw_surface.specs.declared.change.Change.{Change};
ghost use Rattle.tw_surface.specs.declared.change.Position.{Position};
ghost use Rattle.tw_surface.specs.declared.color.ColorAttribute.{ColorAttribute};
ghost use Rattle.tw_surface.specs.declared.screen.ScreenFault.{ScreenFault};
ghost use Rattle.tw_surface.specs.declared.sequence.AddFault.{AddFault};
ghost use Rattle.tw_surface.specs.declared.size.SizeFault.{SizeFault};
ghost use Rattle.tw_surface.specs.ChangeView.{change_view};
ghost use Rattle.tw_surface.specs.ScrollingLaws.{StaysWithin, ScrollsBehindChanges};
ghost use Rattle.tw_surface.specs.Laws.{PlacesByRelation, PlacesCounted, LastPlace, HeightByExtremes};

use crate::cell::{AttributeChange, Blink, CellAttributes, Intensity, Underline};
use crate::change::{Change, Position};
use crate::color::ColorAttribute;
use crate::screen::ScreenFault;
use crate::sequence::AddFault;
use crate::size::SizeFault;

/// `==` is equality of values; texts are compared by their characters.
pub fn equality()
    ensures changes { (a b : Change) → IsTrue (⟦<Change as PartialEq>⟧.eq a b)
        ↔ (change_view a ≡ change_view b) }
    ensures positions { (a b : Position) → IsTrue (⟦<Position as PartialEq>⟧.eq a b) ↔ (a ≡ b) }
    ensures colors { (a b : ColorAttribute)
        → IsTrue (⟦<ColorAttribute as PartialEq>⟧.eq a b) ↔ (a ≡ b) }
    ensures attributes { (a b : CellAttributes)
        → IsTrue (⟦<CellAttributes as PartialEq>⟧.eq a b) ↔ (a ≡ b) }
    ensures attribute_changes { (a b : AttributeChange)
        → IsTrue (⟦<AttributeChange as PartialEq>⟧.eq a b) ↔ (a ≡ b) }
    ensures intensities { (a b : Intensity) → IsTrue (⟦<Intensity as PartialEq>⟧.eq a b) ↔ (a ≡ b) }
    ensures underlines { (a b : Underline) → IsTrue (⟦<Underline as PartialEq>⟧.eq a b) ↔ (a ≡ b) }
    ensures blinks { (a b : Blink) → IsTrue (⟦<Blink as PartialEq>⟧.eq a b) ↔ (a ≡ b) }
    ensures size_faults { (a b : SizeFault) → IsTrue (⟦<SizeFault as PartialEq>⟧.eq a b) ↔ (a ≡ b) }
    ensures add_faults { (a b : AddFault) → IsTrue (⟦<AddFault as PartialEq>⟧.eq a b) ↔ (a ≡ b) }
    ensures screen_faults { (a b : ScreenFault)
        → IsTrue (⟦<ScreenFault as PartialEq>⟧.eq a b) ↔ (a ≡ b) }
{}

/// The places of a text: each piece leads from its place to the next one by one of five rules.
#[tactic(auto, using(crate::proofs::PlaceLemmas::places_laws))]
pub fn places()
    ensures by_relation { PlacesByRelation }
    ensures counted { PlacesCounted }
    ensures last { LastPlace }
{}

/// The height of a sequence is the greatest row that it reaches minus the least one.
#[tactic(auto, using(crate::proofs::HeightLemmas::heights_laws))]
pub fn heights()
    ensures { HeightByExtremes }
{}

/// A screen of some rows stays one, and it plays each change as a screen without a bottom does, and then scrolls.
pub fn scrolling()
    ensures within { StaysWithin }
    ensures behind_changes { ScrollsBehindChanges }
{}
