//! Sizes that terminals tell.

ghost use Rattle.std.specs.Prelude.{◌≡◌};
ghost use Rattle.tw_prompt.specs.Sizes.{fitting, usable};

use tw_terminal::ScreenSize;

/// The most columns or rows that a screen can have here.
const MOST: usize = 65_535;

/// Returns the size to use if a terminal reports this one: 80 columns or 24 rows in place of 0, which a terminal
/// reports that does not know.
pub fn usable(size: ScreenSize) -> ScreenSize
    ensures { result ≡ usable size }
{
    ScreenSize {
        rows: if size.rows == 0 { 24 } else { size.rows },
        cols: if size.cols == 0 { 80 } else { size.cols },
    }
}

/// Returns the usable size, or `None` if it is too large for a screen.
pub fn fitting(size: ScreenSize) -> Option<ScreenSize>
    ensures { result ≡ fitting size }
{
    if size.rows > MOST || size.cols > MOST {
        return None;
    }
    Some(usable(size))
}
