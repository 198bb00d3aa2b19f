//! Characters by the blocks in which they stand.

ghost use Rattle.std.specs.Prelude.{◌≡◌, ◌≤◌, true};
ghost use Rattle.ucd_table.specs.Rows.{in_ranges};
ghost use Rattle.tw_surface.specs.Clusters.{conjunct_blocks, flag_letters, khmer_subscripts, lone_columns, lone_ranges, mark_blocks, narrow_blocks, picture_blocks, skin_tones, syllables, wide_blocks};

/// No character before it joins what stands before.
pub const FIRST_MARK: char = '\u{300}';

/// The first character behind the blocks of one column but the last two.
const FIRST_KANA: char = '\u{3000}';

/// The first emoji of these blocks.
const FIRST_PICTURE: char = '\u{1F300}';

/// Returns true if the character stands in a block of characters of one column.
#[tactic(auto, unfolding(ucd_table::specs::Rows::in_ranges))]
fn is_in_narrow_block(c: char) -> bool
    ensures { result ≡ in_ranges narrow_blocks c }
{
    // (no block stands between those of Tamil and of Thai, nor between those of Thai and of accented Latin)
    c < FIRST_KANA
        && !matches!(c, '\u{BBA}'..='\u{E00}' | '\u{E47}'..='\u{1DFF}')
        && matches!(
        c,
        '\u{05D0}'..='\u{05FF}'
            | '\u{0620}'..='\u{064A}'
            | '\u{0676}'..='\u{06D5}'
            | '\u{0904}'..='\u{0939}'
            | '\u{0B83}'..='\u{0BB9}'
            | '\u{0E01}'..='\u{0E30}'
            | '\u{0E40}'..='\u{0E46}'
            | '\u{1E00}'..='\u{200A}'
            | '\u{2010}'..='\u{2027}'
            | '\u{2070}'..='\u{20CF}'
            | '\u{20F1}'..='\u{2319}'
            | '\u{232B}'..='\u{23E8}'
            | '\u{23F4}'..='\u{25FC}'
            | '\u{27C0}'..='\u{2B1A}'
    ) || matches!(c, '\u{E000}'..='\u{F8FF}' | '\u{FF61}'..='\u{FF9D}')
}

/// Returns true if the character stands in a block of emoji.
#[tactic(auto, unfolding(ucd_table::specs::Rows::in_ranges))]
pub fn is_in_picture_block(c: char) -> bool
    ensures { result ≡ in_ranges picture_blocks c }
{
    matches!(
        c,
        '\u{1F300}'..='\u{1F320}'
            | '\u{1F337}'..='\u{1F37C}'
            | '\u{1F3A0}'..='\u{1F3CA}'
            | '\u{1F400}'..='\u{1F43E}'
            | '\u{1F442}'..='\u{1F4FC}'
            | '\u{1F4FF}'..='\u{1F53D}'
            | '\u{1F5FB}'..='\u{1F64F}'
            | '\u{1F680}'..='\u{1F6C5}'
            | '\u{1F90C}'..='\u{1F93A}'
            | '\u{1F947}'..='\u{1F9FF}'
    )
}

/// Returns true if the character stands in a block of characters of two columns.
#[tactic(auto, unfolding(ucd_table::specs::Rows::in_ranges))]
fn is_in_wide_block(c: char) -> bool
    ensures { result ≡ in_ranges wide_blocks c }
{
    if c >= FIRST_PICTURE {
        return is_in_picture_block(c);
    }
    c >= FIRST_KANA
        && matches!(
        c,
        '\u{FF01}'..='\u{FF60}'
            | '\u{3000}'..='\u{3029}'
            | '\u{3041}'..='\u{3096}'
            | '\u{309B}'..='\u{30FF}'
            | '\u{3250}'..='\u{A48C}'
            | '\u{F900}'..='\u{FAFF}'
    )
}

/// Returns the columns of a character that is a cluster of its own before any character that does not join it, if it
/// stands in one of these blocks. Else 0.
pub fn lone_columns(c: char) -> usize
    ensures value { result ≡ lone_columns c }
    ensures bound { result ≤ 2 }
{
    if is_in_narrow_block(c) {
        1
    } else if is_in_wide_block(c) {
        2
    } else {
        0
    }
}

/// Returns true if plain marks of the character's block add their own columns, whatever stands before them.
#[tactic(auto, unfolding(ucd_table::specs::Rows::in_ranges))]
pub fn is_in_mark_block(c: char) -> bool
    ensures { result ≡ in_ranges mark_blocks c }
{
    matches!(c, FIRST_MARK..='\u{337}' | '\u{339}'..='\u{200C}' | '\u{200E}'..='\u{2CFF}')
}

/// Returns true if a linker and a consonant of the character's block add one column.
#[tactic(auto, unfolding(ucd_table::specs::Rows::in_ranges))]
pub fn is_in_conjunct_block(c: char) -> bool
    ensures { result ≡ in_ranges conjunct_blocks c }
{
    matches!(
        c,
        '\u{900}'..='\u{DFF}'
            | '\u{1000}'..='\u{109F}'
            | '\u{1783}'
            | '\u{1788}'
            | '\u{178D}'
            | '\u{1794}'
            | '\u{1799}'..='\u{179A}'
            | '\u{17A1}'
            | '\u{17D2}'
    )
}

/// Returns true if the character is a letter of Khmer that takes no column behind a linker.
#[tactic(auto, unfolding(ucd_table::specs::Rows::in_ranges))]
pub fn is_khmer_subscript(c: char) -> bool
    ensures { result ≡ in_ranges khmer_subscripts c }
{
    matches!(
        c,
        '\u{1780}'..='\u{1782}'
            | '\u{1784}'..='\u{1787}'
            | '\u{1789}'..='\u{178C}'
            | '\u{178E}'..='\u{1793}'
            | '\u{1795}'..='\u{1798}'
            | '\u{179B}'..='\u{179D}'
            | '\u{17A0}'
            | '\u{17A2}'
    )
}

/// Returns true if the character stands in a range that [`lone_len`] knows by its first byte.
#[tactic(auto, unfolding(ucd_table::specs::Rows::in_ranges))]
pub fn is_in_lone_range(c: char) -> bool
    ensures { result ≡ in_ranges lone_ranges c }
{
    matches!(c, ' '..='~' | '\u{C0}'..='\u{2FF}' | '\u{380}'..='\u{47F}' | '\u{4000}'..='\u{9FFF}')
}

/// Returns true if the character is half a flag.
#[tactic(auto, unfolding(ucd_table::specs::Rows::in_ranges))]
pub fn is_flag_letter(c: char) -> bool
    ensures { result ≡ in_ranges flag_letters c }
{
    matches!(c, '\u{1F1E6}'..='\u{1F1FF}')
}

/// Returns true if the character is a syllable of Hangul.
#[tactic(auto, unfolding(ucd_table::specs::Rows::in_ranges))]
pub fn is_syllable(c: char) -> bool
    ensures { result ≡ in_ranges syllables c }
{
    ('\u{AC00}'..='\u{D7A3}').contains(&c)
}

/// Returns true if the character is a skin tone of emoji.
#[tactic(auto, unfolding(ucd_table::specs::Rows::in_ranges))]
pub fn is_skin_tone(c: char) -> bool
    ensures { result ≡ in_ranges skin_tones c }
{
    ('\u{1F3FB}'..='\u{1F3FF}').contains(&c)
}
