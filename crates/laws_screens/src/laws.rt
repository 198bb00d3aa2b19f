//! Laws of these definitions: each function does nothing, and its contract is the law.

ghost use Rattle.laws_screens.specs.CharacterScreens.{FreshCharacters, PlaysBatches, PlaysBatchesOn};
ghost use Rattle.laws_screens.specs.CursorCells.{CursorStandsBefore, CursorStandsBehind};
ghost use Rattle.laws_screens.specs.PaintedAlike.{MeasuredIsItself};
ghost use Rattle.laws_screens.specs.Pens.{Pen};
ghost use Rattle.laws_screens.specs.PlainScreens.{Beginning, ClosingBatch, CountedRows, IncrementalEqualsFresh, LinesOfText, OneFreshPainting, PlainIsMeasured, RowsOfLine, Stacking};
ghost use Rattle.laws_screens.specs.RowScenes.{RowsAreAPreview};
ghost use Rattle.laws_screens.specs.Screens.{ClosesStations, HealsStations, ShowsStations};
ghost use Rattle.laws_screens.specs.SizedBatches.{SizedBatches};

/// After each of some stations a screen that cuts and measures texts as the editor does shows it fresh, with any kind of
/// cells: each is measured, or has rows and is painted as a measured one that has the rows after the first as its
/// preview. The screen may have some rows, or no bottom, and keep its columns or cut its rows to each station's. A
/// clearing heals it, and the closing batch of a station leaves it blank below.
pub fn stations<A, C>()
    ensures batches { SizedBatches }
    ensures measured { (pen : Pen A C) → MeasuredIsItself pen }
    ensures preview { (pen : Pen A C) → RowsAreAPreview pen }
    ensures shown { (pen : Pen A C) → ShowsStations pen }
    ensures healed { (pen : Pen A C) → HealsStations pen }
    ensures closed { (pen : Pen A C) → ClosesStations pen }
{}

/// Where a scene is fresh, the cursor stands in the first cell of the cluster before which it is placed, and in a blank
/// where it is placed after the line.
pub fn cursors<A, C>()
    ensures cell { (pen : Pen A C) → CursorStandsBefore pen }
    ensures behind { (pen : Pen A C) → CursorStandsBehind pen }
{}

/// On a screen of characters what is played is what its strokes draw, for plain texts, and what is fresh there by its
/// sheet is fresh.
pub fn characters()
    ensures without_bottom { PlaysBatches }
    ensures on_rows { PlaysBatchesOn }
    ensures fresh { FreshCharacters }
{}

/// Incremental equals fresh: after each painting of a list of plain scenes the screen shows what one fresh painting of
/// that scene would show, and a list that is closed stays above the next one. Plain scenes are among the measured ones.
pub fn incremental_equals_fresh()
    ensures painted { IncrementalEqualsFresh }
    ensures beginning { Beginning }
    ensures closed { ClosingBatch }
    ensures stacked { Stacking }
    ensures rows_counted { CountedRows }
    ensures lines { LinesOfText }
    ensures rows { RowsOfLine }
    ensures one { OneFreshPainting }
    ensures measured { PlainIsMeasured }
{}
