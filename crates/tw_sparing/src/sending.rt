//! What a batch is sent as, by what is shown before it and after it.

ghost use Rattle.std.specs.Prelude.{◌≡◌, ◌≤◌, ◌++◌, IfOk, OnOk, string_bytes};
ghost use Rattle.tw_ansi.specs.Encoding.{terse_batch};
ghost use Rattle.tw_surface.specs.ChangeView.{batch_view};
ghost use Rattle.tw_sparing.specs.Shown.{changes_below, gone_rows, left_behind, sent_for, FitsTerminal, IsKnownAfter};

use crate::shown::{Shown, send_below};
use std::alloc::{AllocError, Global};
use tw_ansi::Encoder;
use tw_device::encode_batch;
use tw_surface::Change;
use tw_terminal::ScreenSize;

/// Returns how many of the first rows of an old screen have left a terminal of `rows` once it shows a new one: those
/// that had left it before, and those that leave it now, unless the old cursor stands in one of these.
fn gone_rows(rows: usize, old: &Shown, new: &Shown) -> usize
    ensures { result ≡ gone_rows rows old.now new.now }
{
    let gone = old.left_behind(rows);
    let leaving = new.left_behind(rows);
    let (row, _) = old.screen.cursor();
    if leaving <= row {
        gone.max(leaving)
    } else {
        gone
    }
}

/// Adds what differs of two screens in the rows that have not left a terminal of `rows` rows, and returns what is then
/// known.
pub fn send_known(
    alloc: Global,
    rows: usize,
    old: &Shown,
    new: &Shown,
    encoder: Encoder,
    out: &mut String,
) -> Result<Encoder, AllocError>
    requires width { old.now.screen.width ≡ new.now.screen.width }
    requires fits { FitsTerminal rows new.now }
    requires row { gone_rows rows old.now new.now ≤ old.now.screen.row }
    ensures bytes { let changes = changes_below (gone_rows rows old.now new.now)
        (left_behind rows new.now) old.now new.now in
        OnOk result (string_bytes out.new
        ≡ string_bytes out.old ++ (terse_batch changes encoder).bytes) }
    ensures next { let changes = changes_below (gone_rows rows old.now new.now)
        (left_behind rows new.now) old.now new.now in
        IfOk result (λ next. next ≡ (terse_batch changes encoder).next) }
{
    let old_top = gone_rows(rows, old, new);
    let top = new.left_behind(rows);
    send_below(alloc, old, old_top, new, top, encoder, out)
}

/// Adds what a batch is sent as on a terminal of a size, by what is shown before it and after it, and returns what is
/// then known.
#[tactic(auto, using(crate::proofs::PlayedBatches::known_fits, crate::proofs::PlayedBatches::known_width))]
pub fn send_for(
    alloc: Global,
    size: ScreenSize,
    changes: &[Change],
    old: &Option<Shown>,
    new: &Option<Shown>,
    encoder: Encoder,
    out: &mut String,
) -> Result<Encoder, AllocError>
    requires { IsKnownAfter size.cols size.rows (batch_view changes.now) old.now new.now }
    ensures bytes { let sent = sent_for size.rows (batch_view changes.now)
        old.now new.now encoder in
        OnOk result (string_bytes out.new ≡ string_bytes out.old ++ sent.bytes) }
    ensures next { IfOk result (λ next. next
        ≡ (sent_for size.rows (batch_view changes.now) old.now new.now encoder).next) }
{
    match (old, new) {
        (Some(old), Some(new)) => send_known(alloc, size.rows, old, new, encoder, out),
        _ => encode_batch(changes, encoder, out),
    }
}
