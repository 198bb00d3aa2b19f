//! Laws of screens of any kind of cells: drawn stroke by stroke, they show paintings as fresh ones.
//!
//! The cells hold clusters, or clusters under their attributes; the screen has some rows or no bottom, and one width or
//! changing ones. Use this crate to prove what a screen shows: each law is the contract of a function of `laws`, as this
//! one.
//!
//! From `crates/laws_screens/specs/PlainScreens.antt`:
//!
//! ```antt
//! abbrev pub IncrementalEqualsFresh : Type 0
//! IncrementalEqualsFresh = (w e : ℕ) (earlier : List SizedScene) (station : SizedScene) (before : Picture)
//!     → 2 ≤ w → before.row ≡ e → before.col ≡ 0 → All (IsPlainAt w) (earlier ++ station ∷ [])
//!     → let stations = earlier ++ station ∷ [] in
//!     let s = start_row e (scenes_of stations) in
//!     let after = play_batches w (batches (map shot_of stations)) before in
//!     IsFresh w s station.scene after × IsSameAbove w s before after
//! ```
#![tactic(auto)]

pub mod laws;
