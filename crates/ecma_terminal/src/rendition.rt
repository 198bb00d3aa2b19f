//! What a terminal selects by the parameters of SGR.

ghost use Rattle.std.specs.Prelude.{◌≡◌, ◌<◌, ◌++◌, ◌∷◌, [], None, Some, length, ltb, if◌then◌else◌, true, false, MatchOption};
ghost use Rattle.tw_surface.specs.declared.cell.CellAttributes.{CellAttributes};
ghost use Rattle.tw_surface.specs.Attributes.{with_attribute};
ghost use Rattle.tw_ansi.specs.KeyBytes.{value_after};
ghost use Rattle.tw_ansi.specs.Selections.{colored, fields, select, selects, underlined, NoColor, Color};
ghost use Rattle.ecma_terminal.specs.Colors.{fits_awaited, kind_of, numbers_in, selection_of, changed_by, selected_if_fit};

use tw_ansi::{number_of, semicolon_at};
use tw_surface::{AttributeChange, Blink, CellAttributes, ColorAttribute, Intensity, Underline};

/// What a colour is for.
#[derive(Debug, Copy, Clone)]
pub(crate) enum Ground {
    /// The text.
    Text,
    /// What is after it.
    Paper,
}

impl Ground {
    /// Returns the change that sets a colour.
    fn change(self, color: ColorAttribute) -> AttributeChange
        ensures { result ≡ kind_of self color }
    {
        match self {
            Ground::Text => AttributeChange::Foreground(color),
            Ground::Paper => AttributeChange::Background(color),
        }
    }
}

/// The numbers of a colour that were read.
#[derive(Debug, Copy, Clone)]
pub(crate) enum Numbers {
    None,
    One(u8),
    Two(u8, u8),
    Three(u8, u8, u8),
}

/// Whether a colour is awaited, and what was read of it.
#[derive(Debug, Copy, Clone)]
pub(crate) enum Awaited {
    Nothing,
    Color(Ground, Numbers),
}

/// What was selected so far.
#[derive(Debug, Copy, Clone)]
pub(crate) struct Selection {
    pub(crate) attributes: CellAttributes,
    pub(crate) awaited: Awaited,
}

impl Selection {
    /// Selects these attributes, and awaits no colour.
    fn of(attributes: CellAttributes) -> Self
        ensures { selection_of result ≡ selects attributes }
    {
        Selection {
            attributes,
            awaited: Awaited::Nothing,
        }
    }

    /// Selects these attributes, and awaits a colour of which these numbers were read.
    fn awaiting(attributes: CellAttributes, ground: Ground, numbers: Numbers) -> Self
        ensures { selection_of result ≡ record {
          attributes = attributes;
          awaited = Color (kind_of ground) (numbers_in numbers);
        } }
    {
        Selection {
            attributes,
            awaited: Awaited::Color(ground, numbers),
        }
    }
}

/// Returns the attributes once one of them is set.
fn with_change(attributes: CellAttributes, change: AttributeChange) -> CellAttributes
    ensures { result ≡ with_attribute change attributes }
{
    let mut changed = attributes;
    changed.apply_change(&change);
    changed
}

/// Returns the first of some parameters, and those after its semicolon, if there is one.
fn first_field(parameters: &[u8]) -> (&[u8], Option<&[u8]>)
    ensures { MatchOption result.1 (fields parameters.now ≡ result.0.now ∷ [])
        (λ more. (fields parameters.now ≡ result.0.now ∷ fields more.now)
        × (length more.now < length parameters.now)) }
{
    let (field, rest) = parameters.split_at(semicolon_at(parameters));
    match rest.split_first() {
        Some((_, more)) => (field, Some(more)),
        None => (field, None),
    }
}

/// Returns the change that a single digit selects.
fn digit_change(digit: u8) -> Option<AttributeChange>
    ensures { (a : CellAttributes) → changed_by result a ≡ underlined (digit ∷ []) a }
{
    Some(match digit {
        b'1' => AttributeChange::Intensity(Intensity::Bold),
        b'2' => AttributeChange::Intensity(Intensity::Half),
        b'3' => AttributeChange::Italic(true),
        b'4' => AttributeChange::Underline(Underline::Single),
        b'5' => AttributeChange::Blink(Blink::Slow),
        b'6' => AttributeChange::Blink(Blink::Rapid),
        b'7' => AttributeChange::Reverse(true),
        b'8' => AttributeChange::Invisible(true),
        b'9' => AttributeChange::StrikeThrough(true),
        _ => return None,
    })
}

/// Returns the change that a 2 and a digit after it select.
fn change_in_twenties(digit: u8) -> Option<AttributeChange>
    ensures { (a : CellAttributes) → changed_by result a ≡ underlined (50 ∷ digit ∷ []) a }
{
    Some(match digit {
        b'1' => AttributeChange::Underline(Underline::Double),
        b'2' => AttributeChange::Intensity(Intensity::Normal),
        b'3' => AttributeChange::Italic(false),
        b'4' => AttributeChange::Underline(Underline::None),
        b'5' => AttributeChange::Blink(Blink::None),
        b'7' => AttributeChange::Reverse(false),
        b'8' => AttributeChange::Invisible(false),
        b'9' => AttributeChange::StrikeThrough(false),
        _ => return None,
    })
}

/// Returns the change that two bytes select.
fn two_digit_change(first: u8, second: u8) -> Option<AttributeChange>
    ensures { (a : CellAttributes) → changed_by result a ≡ underlined (first ∷ second ∷ []) a }
{
    match (first, second) {
        (b'2', digit) => change_in_twenties(digit),
        (b'3', b'9') => Some(AttributeChange::Foreground(ColorAttribute::Default)),
        (b'4', b'9') => Some(AttributeChange::Background(ColorAttribute::Default)),
        _ => None,
    }
}

/// Returns the underline that a byte selects after 4 and a colon.
fn underline_change(kind: u8) -> Option<AttributeChange>
    ensures { (a : CellAttributes) → changed_by result a ≡ underlined (52 ∷ 58 ∷ kind ∷ []) a }
{
    Some(AttributeChange::Underline(match kind {
        b'3' => Underline::Curly,
        b'4' => Underline::Dotted,
        b'5' => Underline::Dashed,
        _ => return None,
    }))
}

/// Returns the change that a parameter selects that begins no colour and is not 0.
fn change_of(field: &[u8]) -> Option<AttributeChange>
    ensures { (a : CellAttributes) → changed_by result a ≡ underlined field.now a }
{
    match field {
        [digit] => digit_change(*digit),
        [first, second] => two_digit_change(*first, *second),
        [b'4', b':', kind] => underline_change(*kind),
        _ => None,
    }
}

/// Returns the attributes after such a parameter.
fn changed(field: &[u8], attributes: CellAttributes) -> CellAttributes
    ensures { result ≡ underlined field.now attributes }
{
    match change_of(field) {
        Some(change) => with_change(attributes, change),
        None => attributes,
    }
}

/// Takes one more parameter, if no colour is awaited.
fn begun(field: &[u8], attributes: CellAttributes) -> Selection
    ensures { selection_of result ≡ select NoColor field.now attributes }
{
    if number_of(field) == 0 {
        return Selection::of(CellAttributes::default());
    }
    if field == b"38".as_slice() {
        return Selection::awaiting(attributes, Ground::Text, Numbers::None);
    }
    if field == b"48".as_slice() {
        return Selection::awaiting(attributes, Ground::Paper, Numbers::None);
    }
    Selection::of(changed(field, attributes))
}

/// Takes one more number of a colour.
fn colored(ground: Ground, numbers: Numbers, next: u8, attributes: CellAttributes) -> Selection
    ensures { selection_of result ≡ colored (kind_of ground)
        (numbers_in numbers ++ next ∷ []) attributes }
{
    match numbers {
        Numbers::None => Selection::awaiting(attributes, ground, Numbers::One(next)),
        Numbers::One(5) => {
            let color = ColorAttribute::PaletteIndex(next);
            Selection::of(with_change(attributes, ground.change(color)))
        }
        Numbers::One(kind) => Selection::awaiting(attributes, ground, Numbers::Two(kind, next)),
        Numbers::Two(kind, red) => {
            Selection::awaiting(attributes, ground, Numbers::Three(kind, red, next))
        }
        Numbers::Three(_, red, green) => {
            let color = ColorAttribute::TrueColorWithDefaultFallback(red, green, next);
            Selection::of(with_change(attributes, ground.change(color)))
        }
    }
}

/// Returns the number that digits write, or none if it is above 255.
fn byte_of(digits: &[u8]) -> Option<u8>
    ensures { let value = value_after 0 digits.now in
        result ≡ (if ltb value 256 then Some value else None) }
{
    u8::try_from(number_of(digits)).ok()
}

/// Takes one more parameter. Returns `None` if it is a number of a colour above 255.
fn select(selection: Selection, field: &[u8]) -> Option<Selection>
    ensures { let s = selection_of selection in
        MatchOption result (fits_awaited s.awaited field.now ≡ false)
        (λ next. (fits_awaited s.awaited field.now ≡ true)
        × (selection_of next ≡ select s.awaited field.now s.attributes)) }
{
    match selection.awaited {
        Awaited::Nothing => Some(begun(field, selection.attributes)),
        Awaited::Color(ground, numbers) => {
            let next = byte_of(field)?;
            Some(colored(ground, numbers, next, selection.attributes))
        }
    }
}

/// Returns the attributes after SGR with these parameters, or none where a number of a colour is above 255.
pub(crate) fn selected(parameters: &[u8], attributes: CellAttributes) -> Option<CellAttributes>
    ensures { result ≡ selected_if_fit parameters.now attributes }
{
    let mut selection = Selection::of(attributes);
    let mut rest = parameters;
    loop {
        let (field, more) = first_field(rest);
        selection = select(selection, field)?;
        match more {
            Some(more) => rest = more,
            None => return Some(selection.attributes),
        }
    }
}
