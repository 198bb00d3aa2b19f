//! Attributes in one call each.

ghost use Rattle.std.specs.Prelude.{◌≡◌, true};
ghost use Rattle.tw_prompt.specs.Styles.{in_color};
ghost use Rattle.tw_surface.specs.Defaults.{default_attributes};
ghost use Rattle.tw_surface.specs.declared.cell.Intensity.TheVariants.{Bold, Half};
ghost use Rattle.tw_surface.specs.declared.cell.Underline.TheVariants.{Single};
ghost use Rattle.tw_surface.specs.declared.color.ColorAttribute.TheVariants.{PaletteIndex};

use tw_surface::{CellAttributes, ColorAttribute, Intensity, Underline};

/// How a text is shown, as `Style::red().bold()`.
#[derive(Clone, Copy, Debug, PartialEq, Eq)]
pub struct Style {
    pub attributes: CellAttributes,
}

impl Style {
    /// Returns the terminal's own style.
    pub fn plain() -> Self
        ensures { result.attributes ≡ default_attributes }
    {
        Style {
            attributes: CellAttributes::default(),
        }
    }

    /// Returns the style with this colour of the text.
    pub fn color(color: ColorAttribute) -> Self
        ensures { result.attributes ≡ in_color color }
    {
        let mut style = Style::plain();
        style.attributes.foreground = color;
        style
    }

    /// Returns a red one.
    pub fn red() -> Self
        ensures { result.attributes ≡ in_color (PaletteIndex 1) }
    {
        Style::color(ColorAttribute::PaletteIndex(1))
    }

    /// Returns a green one.
    pub fn green() -> Self
        ensures { result.attributes ≡ in_color (PaletteIndex 2) }
    {
        Style::color(ColorAttribute::PaletteIndex(2))
    }

    /// Returns a yellow one.
    pub fn yellow() -> Self
        ensures { result.attributes ≡ in_color (PaletteIndex 3) }
    {
        Style::color(ColorAttribute::PaletteIndex(3))
    }

    /// Returns a blue one.
    pub fn blue() -> Self
        ensures { result.attributes ≡ in_color (PaletteIndex 4) }
    {
        Style::color(ColorAttribute::PaletteIndex(4))
    }

    /// Returns a magenta one.
    pub fn magenta() -> Self
        ensures { result.attributes ≡ in_color (PaletteIndex 5) }
    {
        Style::color(ColorAttribute::PaletteIndex(5))
    }

    /// Returns a cyan one.
    pub fn cyan() -> Self
        ensures { result.attributes ≡ in_color (PaletteIndex 6) }
    {
        Style::color(ColorAttribute::PaletteIndex(6))
    }

    /// Returns a grey one.
    pub fn grey() -> Self
        ensures { result.attributes ≡ in_color (PaletteIndex 8) }
    {
        Style::color(ColorAttribute::PaletteIndex(8))
    }

    /// Returns it in bold.
    pub fn bold(mut self) -> Self
        ensures { result.attributes ≡ record self.attributes { intensity = Bold } }
    {
        self.attributes.intensity = Intensity::Bold;
        self
    }

    /// Returns it in half intensity.
    pub fn dim(mut self) -> Self
        ensures { result.attributes ≡ record self.attributes { intensity = Half } }
    {
        self.attributes.intensity = Intensity::Half;
        self
    }

    /// Returns it underlined.
    pub fn underlined(mut self) -> Self
        ensures { result.attributes ≡ record self.attributes { underline = Single } }
    {
        self.attributes.underline = Underline::Single;
        self
    }

    /// Returns it with its colours swapped.
    pub fn reversed(mut self) -> Self
        ensures { result.attributes ≡ record self.attributes { reverse = true } }
    {
        self.attributes.reverse = true;
        self
    }
}
