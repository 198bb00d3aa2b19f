//! Colours.

ghost use Rattle.std.specs.Prelude.{◌≡◌};

/// A colour of a cell.
#[derive(Debug, Copy, Clone, PartialEq, Eq)]
pub enum ColorAttribute {
    /// The terminal's own colour.
    Default,
    /// A colour of the palette, by its number.
    PaletteIndex(u8),
    /// A colour by its red, green and blue, or the terminal's own where it has no such colours.
    TrueColorWithDefaultFallback(u8, u8, u8),
}

impl Default for ColorAttribute {
    ghost use Rattle.std.specs.Prelude.{◌≡◌};
    ghost use Rattle.tw_surface.specs.Defaults.{default_color};

    ghost is_default = { λ color. color ≡ default_color };

    fn default() -> Self {
        ColorAttribute::Default
    }
}
