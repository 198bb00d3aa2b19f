//! Laws of this crate's definitions: each function does nothing, and its contract is the law.

ghost use Rattle.std.specs.Prelude.{◌≡◌, ◌↔◌, IsTrue};
ghost use Rattle.tw_ansi.specs.EcmaLaws.{IsColor, IsAttribute};
ghost use Rattle.tw_sparing.specs.ChangedScreens.{AreByBytes, ChangedIsShown};
ghost use Rattle.tw_sparing.specs.KnownRuns.{LooksTheSame, RunsAreShown};
ghost use Rattle.tw_sparing.specs.PatientRuns.{PatientlyDoneIsSent, SettledIsSent};
ghost use Rattle.tw_sparing.specs.ShortDifferences.{NothingIsSentForNothing, TypedIsSentAlone, TypedOnIsSentAlone};
ghost use Rattle.tw_sparing.specs.Shortness.{NoBatchIsSentForNothing, TypedBatchIsSentAlone};
ghost use Rattle.tw_sparing.specs.ShownTerminals.{FirstIsKnown, KnownIsShown};
ghost use Rattle.tw_sparing.specs.declared.cell.ScreenCell.{ScreenCell};

use crate::cell::ScreenCell;
use std::io::Write;
use tw_surface::{AttributeChange, CellAttributes, ColorAttribute};

/// A terminal after ECMA-48 that shows a screen, and is sent the difference of that screen and another one, shows the
/// other one, with its cursor and its attributes, scrolled as far as its rows need.
pub fn changed()
    ensures { ChangedIsShown }
{}

/// Where nothing differs nothing is sent, and of characters of one column that were typed at the cursor, under the
/// attributes that are selected, their bytes and no others: in its row, or through the rows where the screen ends with
/// them.
pub fn short_differences()
    ensures nothing { NothingIsSentForNothing }
    ensures typed { TypedIsSentAlone }
    ensures onward { TypedOnIsSentAlone }
{}

/// A colour is by bytes.
pub fn color(color: ColorAttribute)
    ensures { IsColor color }
{
    match color {
        ColorAttribute::Default
        | ColorAttribute::PaletteIndex(_)
        | ColorAttribute::TrueColorWithDefaultFallback(_, _, _) => {}
    }
}

/// So are the colours of attributes.
pub fn colors(attributes: CellAttributes)
    ensures { AreByBytes attributes }
{
    color(attributes.foreground);
    color(attributes.background);
}

/// So is the colour of an attribute.
pub fn attribute(change: AttributeChange)
    ensures { IsAttribute change }
{
    match change {
        AttributeChange::Foreground(to) | AttributeChange::Background(to) => color(to),
        _ => {}
    }
}

/// `==` of cells is equality of values.
pub fn equality()
    ensures { (a b : ScreenCell) → IsTrue (⟦<ScreenCell as PartialEq>⟧.eq a b) ↔ (a ≡ b) }
{}

/// A terminal after ECMA-48 that shows what is known of it, and is sent what differs after a batch, shows the picture
/// on which the batch was drawn, and what is then known stands in it.
#[tactic(auto, using(crate::proofs::KnownScreens::known_is_shown))]
pub fn known()
    ensures { KnownIsShown }
{}

/// So does a terminal of which nothing was known, and that is sent a batch which empties it from column 0 on.
pub fn first()
    ensures { FirstIsKnown }
{}

/// A terminal that is sent several batches, each as what differs or as it is, shows the picture on which all of them
/// were drawn (`shown`), and looks as one that is sent all of them as they are (`same`).
#[tactic(auto, using(crate::proofs::RunLemmas::looks_the_same, crate::proofs::RunLemmas::runs_are_shown))]
pub fn runs()
    ensures shown { RunsAreShown }
    ensures same { LooksTheSame }
{}

/// Where nothing differs nothing is sent for a batch, and of characters of one column that were typed at the cursor,
/// under the attributes that are selected, their bytes alone.
pub fn shortness()
    ensures nothing { NoBatchIsSentForNothing }
    ensures typed { TypedBatchIsSentAlone }
{}

/// What a terminal that waits while more is at hand has written for steps is what is sent for groups of batches, by what
/// is known before each and after it (`done`). The batches of the groups are those that were kept back before, and those
/// that were taken since, but for those that are kept back still: if none is, neither before nor after, they are those
/// that were taken (`settled`). No failure was counted, and no event told a size.
pub fn patience<W: Write>()
    ensures done { PatientlyDoneIsSent W.contents }
    ensures settled { SettledIsSent W.contents }
{}
