//! What a terminal shows, and what is drawn ahead of it.

ghost use Rattle.std.specs.Prelude.{◌≡◌, ◌++◌, [], ◌∷◌, true, false, IfOk, OnOk, None, Option, string_bytes, ◌↔◌};
ghost use Rattle.tw_ansi.specs.declared.encode.Encoder.{Encoder};
ghost use Rattle.tw_surface.specs.ChangeView.{batch_view};
ghost use Rattle.tw_sparing.specs.Ahead.{IsJoined, groups_with, joined_group, latest_known, leaves_sight, sent_ahead, settled_at};
ghost use Rattle.tw_sparing.specs.KnownRuns.{AreKnownSince, sent_for_all};
ghost use Rattle.tw_sparing.specs.Shown.{IsKnownAfter, IsStillKnown};

use crate::sending::{send_for, send_known};
use crate::shown::{Shown, is_same_above, shown_after};
use std::alloc::{AllocError, Global};
use std::marker::Model;
use tw_ansi::Encoder;
use tw_surface::Change;
use tw_terminal::{BatchLog, ScreenSize};

/// What a terminal of a size shows, as far as it is known, and what is shown once the batches that are kept back are
/// drawn on it. The log of these batches is for contracts alone.
#[derive(Drop)]
pub struct Ahead {
    size: ScreenSize,
    shown: Option<Shown>,
    drawn: Option<Shown>,
    kept: BatchLog,
}

impl Model for Ahead {
    ghost use Rattle.tw_sparing.specs.Ahead.{AheadView, AreAhead, ahead_view, all_changes};

    ghost Value = { AheadView };

    ghost view = { λ a. ahead_view a.size a.shown a.drawn (all_changes a.kept) };

    ghost invariant = { λ a. AreAhead a.size a.shown a.drawn (all_changes a.kept) };
}

/// Returns true if a batch goes out of sight of what is known, where anything is known, on a terminal of `rows` rows.
fn leaves_sight(shown: &Option<Shown>, changes: &[Change], rows: usize) -> bool
    ensures { result ≡ leaves_sight rows shown.now (batch_view changes.now) }
{
    match shown {
        Some(shown) => shown.is_left_by(changes, rows),
        None => false,
    }
}

impl Ahead {
    /// Creates a terminal of a size that shows this. Nothing is kept back.
    pub fn new(size: ScreenSize, shown: Option<Shown>) -> Self
        ensures { result ≡ settled_at size shown }
    {
        Ahead {
            size,
            shown,
            drawn: None,
            kept: BatchLog::new(),
        }
    }

    /// Returns the size.
    pub fn size(&self) -> ScreenSize
        ensures { result ≡ self.now.size }
    {
        self.size
    }

    /// Returns true if nothing is kept back.
    pub fn is_settled(&self) -> bool
        ensures { (result ≡ true) ↔ (self.now.kept ≡ []) }
    {
        self.drawn.is_none()
    }

    /// Returns what is known once a batch is drawn on the latest picture, and whether all that is kept back and the
    /// batch can be sent as one difference: where the batch does not go out of sight, and the rows that leave the
    /// terminal show what they show now.
    #[tactic(auto, using(crate::proofs::AheadLemmas::groups_ahead))]
    pub fn known_after(
        &self,
        alloc: Global,
        at_start: bool,
        changes: &[Change],
    ) -> (Option<Shown>, bool)
        ensures known { IsKnownAfter self.now.size.cols self.now.size.rows (batch_view changes.now)
            (latest_known self.now) result.0 }
        ensures joined { result.1 ≡ true → IsJoined (batch_view changes.now) self.now result.0 }
        ensures found { IsJoined (batch_view changes.now) self.now result.0 → result.1 ≡ true }
        ensures groups { (e : Encoder) → (at_start ≡ true → e.x ≡ 0)
            → (known : Option Shown) → IsStillKnown result.0 known
            → AreKnownSince self.now.size self.now.shown e
            (groups_with result.1 (batch_view changes.now) self.now result.0 known) }
    {
        let next = shown_after(alloc, self.size, self.latest(), at_start, changes);
        let is_joined = self.is_joined(changes, &next);
        (next, is_joined)
    }

    /// Returns what is known of the latest picture: what is drawn ahead, or else what is shown.
    fn latest(&self) -> &Option<Shown>
        ensures { result.now ≡ latest_known self.now }
    {
        match self.drawn {
            Some(_) => &self.drawn,
            None => &self.shown,
        }
    }

    /// Returns true if all that is kept back and a batch can be sent as one difference, by what is known after the
    /// batch.
    fn is_joined(&self, changes: &[Change], next: &Option<Shown>) -> bool
        requires { IsKnownAfter self.now.size.cols self.now.size.rows (batch_view changes.now)
            (latest_known self.now) next.now }
        ensures joined { result ≡ true → IsJoined (batch_view changes.now) self.now next.now }
        ensures found { IsJoined (batch_view changes.now) self.now next.now → result ≡ true }
    {
        let rows = self.size.rows;
        match (&self.shown, next) {
            (Some(shown), Some(next)) => {
                let top = next.left_behind(rows);
                !leaves_sight(self.latest(), changes, rows)
                    && is_same_above(&shown.screen, &next.screen, top)
            }
            _ => false,
        }
    }

    /// Keeps a batch back, by what is known after it.
    #[tactic(auto, using(crate::proofs::AheadLemmas::still_ahead, crate::proofs::AheadLemmas::still_viewed))]
    pub fn keep(&mut self, changes: &[Change], next: Option<Shown>)
        requires { IsJoined (batch_view changes.now) self.old next }
        ensures { self.new ≡ record self.old {
          kept = joined_group (batch_view changes.now) self.old next next ∷ [];
        } }
    {
        self.kept = self.kept.with_batch(changes);
        self.drawn = next;
    }

    /// Returns the terminal once what is kept back is sent.
    pub fn settled(self) -> Self
        ensures { result ≡ settled_at self.size (latest_known self) }
    {
        let Ahead {
            size,
            shown,
            drawn,
            ..
        } = self;
        Ahead::new(size, drawn.or(shown))
    }

    /// Adds what is sent for what is kept back, which is known, and returns what is then known of the terminal.
    #[tactic(auto, using(crate::proofs::AheadLemmas::kept_ahead))]
    pub fn send_kept(
        &self,
        alloc: Global,
        encoder: Encoder,
        out: &mut String,
    ) -> Result<Encoder, AllocError>
        ensures known { AreKnownSince self.now.size self.now.shown encoder self.now.kept }
        ensures bytes { OnOk result (string_bytes out.new
            ≡ string_bytes out.old ++ (sent_ahead self.now encoder).bytes) }
        ensures next { IfOk result (λ next. next ≡ (sent_ahead self.now encoder).next) }
    {
        match (&self.shown, &self.drawn) {
            (Some(shown), Some(drawn)) => {
                send_known(alloc, self.size.rows, shown, drawn, encoder, out)
            }
            _ => Ok(encoder),
        }
    }

    /// Adds what is sent with a batch: all in one, or what is kept back, and then the batch. It returns what is then
    /// known of the terminal.
    pub fn send_with(
        &self,
        alloc: Global,
        changes: &[Change],
        next: &Option<Shown>,
        is_joined: bool,
        encoder: Encoder,
        out: &mut String,
    ) -> Result<Encoder, AllocError>
        requires known { IsKnownAfter self.now.size.cols self.now.size.rows
            (batch_view changes.now) (latest_known self.now) next.now }
        requires joined { is_joined ≡ true → IsJoined (batch_view changes.now) self.now next.now }
        ensures bytes { (known : Option Shown)
            → let groups = groups_with is_joined (batch_view changes.now) self.now next.now known in
            OnOk result (string_bytes out.new
            ≡ string_bytes out.old
            ++ (sent_for_all self.now.size.rows self.now.shown groups encoder).bytes) }
        ensures next { (known : Option Shown)
            → let groups = groups_with is_joined (batch_view changes.now) self.now next.now known in
            IfOk result (λ next. next
            ≡ (sent_for_all self.now.size.rows self.now.shown groups encoder).next) }
    {
        match (&self.shown, next) {
            (Some(shown), Some(next)) if is_joined => {
                send_known(alloc, self.size.rows, shown, next, encoder, out)
            }
            _ => self.send_apart(alloc, changes, next, encoder, out),
        }
    }

    /// Adds what is sent for what is kept back, and then for a batch.
    fn send_apart(
        &self,
        alloc: Global,
        changes: &[Change],
        next: &Option<Shown>,
        encoder: Encoder,
        out: &mut String,
    ) -> Result<Encoder, AllocError>
        requires { IsKnownAfter self.now.size.cols self.now.size.rows (batch_view changes.now)
            (latest_known self.now) next.now }
        ensures bytes { (known : Option Shown)
            → let groups = groups_with false (batch_view changes.now) self.now next.now known in
            OnOk result (string_bytes out.new
            ≡ string_bytes out.old
            ++ (sent_for_all self.now.size.rows self.now.shown groups encoder).bytes) }
        ensures next { (known : Option Shown)
            → let groups = groups_with false (batch_view changes.now) self.now next.now known in
            IfOk result (λ next. next
            ≡ (sent_for_all self.now.size.rows self.now.shown groups encoder).next) }
    {
        match &self.drawn {
            Some(_) => {
                let encoder = self.send_kept(alloc, encoder, out)?;
                send_for(alloc, self.size, changes, &self.drawn, next, encoder, out)
            }
            None => send_for(alloc, self.size, changes, &self.shown, next, encoder, out),
        }
    }
}
