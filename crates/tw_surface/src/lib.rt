//! Changes of a screen, how they are measured, and model screens that play them.
//!
//! A `ChangeSequence` measures a painting as it grows, and a `Screen` or a `ScrollingScreen` shows what it looks like.
//! Use this crate to make changes for a terminal, or to see in a test what they show.
//!
//! From `crates/test_prompt/src/devices/shown.rt`:
//!
//! ```
//! let mut screen = Screen::new(alloc, 4)?;
//! for change in changes {
//!     screen.apply(change)?;
//! }
//! ```
#![tactic(auto)]

mod blocks;
mod cell;
mod change;
mod characters;
mod clusters;
mod color;
pub mod laws;
mod measure;
mod screen;
mod scrolling_screen;
mod sequence;
mod size;

pub use cell::{
    AttributeChange, Blink, CellAttributes, Intensity, Underline, cluster_width,
    unicode_column_width,
};
pub use change::{Change, Position};
pub use characters::{is_plain_text, is_printable_text};
pub use clusters::split_cluster;
pub use color::ColorAttribute;
pub use measure::{Extent, Piece, measure_text};
pub use screen::{Screen, ScreenFault};
pub use scrolling_screen::ScrollingScreen;
pub use sequence::{AddFault, ChangeSequence};
pub use size::{MAX_REACH, SizeFault};
