//! What screens show while the batches of a run of the editor are played on them, and terminals that are sent its
//! bytes.
//!
//! Clusters, also under their attributes, on a screen without a bottom, one of some rows, which scrolls, one that
//! was cleared, and one that cuts its rows to its columns. Use this crate to prove what a reading shows: each law is
//! the contract of a function that does nothing, and holds for the run from every frame; that a call took the batches
//! of its run is what `read_line` of `tw_lineedit` says.
//!
//! From `crates/laws_runs/specs/PlainRuns.antt`:
//!
//! ```antt
//! abbrev pub Paintings : Type 0
//! Paintings = (f : Frame V) → RunIsFresh rules f
//! ..
//! abbrev pub Closings : Type 0
//! Closings = (f : Frame V) → RunClosesBelow rules f
//! ```
#![tactic(auto)]

ghost use Rattle.std.specs.Prelude.{List, Option, ℕ};
ghost use Rattle.laws_runs.specs.DrawnRuns.{DrawnCallsStack, DrawnClosings, DrawnHealings, DrawnPaintings, HealedClosings};
ghost use Rattle.laws_runs.specs.PlainRuns.{CallsStack, Closings, Paintings, PaintsNothing};
ghost use Rattle.laws_screens.specs.Pens.{Pen};
ghost use Rattle.laws_runs.specs.Rests.{ResizedHeals, RestIsKept};
ghost use Rattle.laws_runs.specs.SentReadings.{ReadingsAreSent, ReadingsAreSized, SinceIsSent, SinceIsSentWhole};
ghost use Rattle.laws_runs.specs.SentRuns.{ClosingsAreShown, HealedClosingsAreShown, HealingsAreShown, PaintingsAreShown};

use std::io::Write;
use tw_host::LineEditorHost;

/// After each painting of a run of printable ASCII a screen without a bottom shows the fresh painting of its station,
/// and the closing batch ends below it.
pub fn plain_runs<H: LineEditorHost>()
    ensures painting { Paintings H.rules }
    ensures closing_batch { Closings H.rules }
{}

/// A call that took no batch breaks `shows` of `read_line`, where its run begins plainly: if it was answered, and also
/// if memory or the terminal stopped it after its first event.
pub fn shown_calls<H: LineEditorHost>()
    ensures { PaintsNothing H.rules (Option (List ℕ)) }
{}

/// Calls stack: what a second call paints, while it clears nothing, is fresh under what the first one left,
/// and changes nothing of that.
pub fn stacking<H: LineEditorHost>()
    ensures { CallsStack H.rules }
{}

/// After each painting of a run whose stations are measured, or have rows, a screen of any kind of cells that measures
/// texts as the editor does shows the fresh painting of its station: clusters, with or without their attributes, on some
/// rows or without a bottom, cut to its columns or not. The closing batch ends below its last row, calls stack, and a
/// clearing heals whatever was shown and painted before.
pub fn drawn_runs<H: LineEditorHost, A, C>()
    ensures painting { (pen : Pen A C) → DrawnPaintings H.rules pen }
    ensures closing { (pen : Pen A C) → DrawnClosings H.rules pen }
    ensures stacking { (pen : Pen A C) → DrawnCallsStack pen }
    ensures healing { (pen : Pen A C) → DrawnHealings H.rules pen }
    ensures healed_closing { (pen : Pen A C) → HealedClosings H.rules pen }
{}

/// A terminal that shows a picture, its cursor in column 0, and is sent the bytes of such a run's batches up to a
/// painting, shows that station's fresh painting, and what stood above it, moved up; and after those of the closing batch
/// its cursor is in column 0 of the row below, with blanks from there on. One that may show anything shows a fresh
/// painting after a clearing, and the row below it after the closing batch. The texts are plain, or each cluster is one
/// character and its marks.
pub fn sent_runs<H: LineEditorHost, A, C>()
    ensures paintings { (pen : Pen A C) → PaintingsAreShown H.rules pen }
    ensures closings { (pen : Pen A C) → ClosingsAreShown H.rules pen }
    ensures healings { (pen : Pen A C) → HealingsAreShown H.rules pen }
    ensures healed_closings { (pen : Pen A C) → HealedClosingsAreShown H.rules pen }
{}

/// The bytes that `read_line_from` has written, if it was answered and no event told another number of columns, are
/// those of its run's batches: so a terminal shows what `sent_runs` says of the run.
pub fn sent_readings<H: LineEditorHost, W: Write>()
    ensures { ReadingsAreSent H.rules W.contents }
{}

/// Whatever sizes the events tell, the bytes that `read_line_from` has written, if it was answered, are those of its
/// run's batches, each sent for the columns of its station. A changed size is followed from the next clearing on: the
/// bytes from there on are those of which `sent_runs` says that they show a fresh painting at the new size, whatever
/// the terminal showed, and leave the cursor in the row below, so that the next reading can begin there.
pub fn sized_readings<H: LineEditorHost, W: Write>()
    ensures sized { ReadingsAreSized H.rules W.contents }
    ensures since { SinceIsSent H.rules W.contents }
    ensures whole { SinceIsSentWhole H.rules W.contents }
{}

/// What is sent of stations of such texts and of colours by bytes leaves a terminal at rest under the attributes that are
/// known then, whatever becomes of its size, its cells and its cursor between the batches. So a terminal that was
/// at rest where a reading began, and has changed its size since, is one that the next clearing heals.
#[tactic(auto, using(crate::proofs::RestLemmas::rest_is_kept, crate::proofs::RestLemmas::resized_heals))]
pub fn rested<H: LineEditorHost, A, C>()
    ensures kept { (pen : Pen A C) → RestIsKept H.rules pen }
    ensures heals { (pen : Pen A C) → ResizedHeals H.rules pen }
{}
