//! Texts cut after their first extended grapheme cluster.

ghost use Rattle.std.specs.Prelude.{◌≡◌, eqb, ◌<◌, ◌≤◌, [], ◌∷◌, length, true, false, if◌then◌else◌, IfSome, MatchOption};
ghost use Rattle.std.specs.Str.{chars};
ghost use Rattle.ucd_table.specs.Rows.{in_ranges};
ghost use Rattle.ucd_breaks.specs.GraphemeClusterBreak.{grapheme_cluster_break};
ghost use Rattle.ucd_derived.specs.IndicConjunctBreak.{indic_conjunct_break};
ghost use Rattle.unicode_segmentation.specs.Grapheme.{graphemes, is_consonant};
ghost use Rattle.tw_surface.specs.Clusters.{is_joined, is_linker, is_picture, is_plain_extend, lone_len, mark_blocks, ends_syllable, stands_alone, starts_apart, IsFirstCluster, IsSplit};
ghost use Rattle.tw_surface.specs.Places.{IsWideSplit};
ghost use Rattle.tw_surface.specs.Openings.{AddsColumns, BeginsOpen, GoesOn, IsFront, IsPastPictograph, IsWithAdded};

use crate::blocks::{
    FIRST_MARK, is_flag_letter, is_in_conjunct_block, is_in_lone_range, is_in_mark_block,
    is_in_picture_block, is_khmer_subscript, is_skin_tone, is_syllable, lone_columns,
};
use ucd_breaks::GraphemeClusterBreak;
use ucd_derived::IndicConjunctBreak;
use ucd_emoji::{is_emoji_modifier_base, is_emoji_variation_base, is_extended_pictographic};
use unicode_segmentation::UnicodeSegmentation;
use unicode_width::UnicodeWidthChar;

/// The zero width joiner, which makes one cluster of two pictographs.
const JOINER: char = '\u{200D}';

/// The last character before those whose columns a table tells.
const LAST_ALONE: char = '\u{A0}';

/// The first linker of conjuncts that does not join what stands before it.
const FIRST_VEDIC_LINKER: char = '\u{1CF5}';

/// The linker of Khmer, which makes a subscript of the letter behind it.
const KHMER_LINKER: char = '\u{17D2}';

/// The selector by which the character before it is shown as an emoji.
const SELECTOR: char = '\u{FE0F}';

/// Returns the bytes of a character that begins with this byte, where it tells that the character is a cluster of its
/// own before another one like it: printable ASCII, Latin (U+00C0 to U+02FF), Greek and Cyrillic (U+0380 to U+047F) and
/// Han (U+4000 to U+9FFF). Else 0.
#[inline]
pub fn lone_len(lead: u8) -> usize
    ensures value { result ≡ lone_len lead }
    ensures bound { result ≤ 3 }
{
    match lead {
        b' '..=b'~' => 1,
        0xC3..=0xCB | 0xCE..=0xD1 => 2,
        0xE4..=0xE9 => 3,
        _ => 0,
    }
}

/// Returns true if the character is a base: nothing follows it in its cluster but what joins whatever stands before it.
fn stands_alone(c: char) -> bool
    ensures { result ≡ stands_alone c }
{
    if is_in_lone_range(c) {
        return true;
    }
    matches!(
        GraphemeClusterBreak::for_char(c),
        GraphemeClusterBreak::Other
    ) && (c < FIRST_VEDIC_LINKER
        || !matches!(
            IndicConjunctBreak::for_char(c),
            IndicConjunctBreak::Linker | IndicConjunctBreak::Extend
        ))
}

/// Returns true if the character links the letters of a conjunct.
fn is_linker(c: char) -> bool
    ensures { result ≡ is_linker (indic_conjunct_break c) }
{
    matches!(IndicConjunctBreak::for_char(c), IndicConjunctBreak::Linker)
}

/// Returns true if the character is a letter that a linker may stand before.
fn is_consonant(c: char) -> bool
    ensures { result ≡ is_consonant (indic_conjunct_break c) }
{
    matches!(
        IndicConjunctBreak::for_char(c),
        IndicConjunctBreak::Consonant
    )
}

/// Returns true if the character is a plain mark that may stand between a pictograph and a joiner.
fn is_plain_extend(c: char) -> bool
    ensures { result ≡ is_plain_extend c }
{
    matches!(
        GraphemeClusterBreak::for_char(c),
        GraphemeClusterBreak::Extend
    ) && !is_linker(c)
}

/// Returns true if the text is empty or begins with a character that does not join whatever stands before it.
#[tactic(auto, using(crate::proofs::OpeningLemmas::starts_low, crate::proofs::OpeningLemmas::starts_selected))]
fn starts_apart(text: &str) -> bool
    ensures { result ≡ starts_apart (chars text.now) }
{
    match text.chars().next() {
        Some(first) if first < FIRST_MARK => true,
        Some(first) if first == SELECTOR => false,
        Some(first) => !matches!(
            GraphemeClusterBreak::for_char(first),
            GraphemeClusterBreak::Extend
                | GraphemeClusterBreak::Zwj
                | GraphemeClusterBreak::SpacingMark
        ),
        None => true,
    }
}

/// Returns true if the text is empty or begins with a character that [`lone_len`] knows by its first byte.
#[inline]
fn begins_lone(text: &str) -> bool
    ensures { result ≡ true → starts_apart (chars text.now) ≡ true }
{
    match text.as_bytes().first() {
        Some(lead) => lone_len(*lead) > 0,
        None => true,
    }
}

/// Returns the bytes of the first cluster of a text that is not empty. Such a character at its start tells them, if
/// another one follows.
#[inline]
fn first_len(text: &str) -> usize
    requires { 0 < length text.now }
    ensures { IsFirstCluster text.now result }
{
    let len = lone_len(text.as_bytes()[0]);
    if len > 0 && begins_lone(text.split_at(len).1) {
        return len;
    }
    match text.as_bytes() {
        [0xF0, _, _, _, 0xE2, 0x80, 0x8D, ..] => pictures_len(text),
        _ => ruled_len(text),
    }
}

/// Returns true if the character is a pictograph and a base.
#[tactic(auto, using(crate::proofs::LoneCharacters::picture_in_block))]
fn is_picture(c: char) -> bool
    ensures { result ≡ is_picture c }
{
    is_in_picture_block(c) || (stands_alone(c) && is_extended_pictographic(c))
}

/// Returns what follows the first character, if that is a pictograph.
fn past_picture(text: &str) -> Option<&str>
    ensures { IfSome result (λ rest. IsPastPictograph text.now rest.now) }
{
    let mut chars = text.chars();
    if is_picture(chars.next()?) {
        Some(chars.as_str())
    } else {
        None
    }
}

/// Returns what follows a mark of a pictograph, or a joiner and another pictograph.
fn past_link(text: &str) -> Option<&str>
    ensures { IfSome result (λ rest. GoesOn text.now rest.now) }
{
    let mut chars = text.chars();
    let first = chars.next()?;
    if first == JOINER {
        return past_picture(chars.as_str());
    }
    if is_plain_extend(first) {
        Some(chars.as_str())
    } else {
        None
    }
}

/// Returns what follows a pictograph and others behind joiners, each with its marks.
fn past_pictures(text: &str) -> Option<&str>
    ensures { IfSome result (λ rest. BeginsOpen text.now rest.now) }
{
    let mut rest = past_picture(text)?;
    while let Some(behind) = past_link(rest) {
        rest = behind;
    }
    Some(rest)
}

/// Returns the same for a text that may begin with pictographs behind joiners.
#[tactic(auto, using(crate::proofs::OpeningLemmas::first_opened))]
#[inline(never)]
fn pictures_len(text: &str) -> usize
    requires { 0 < length text.now }
    ensures { IsFirstCluster text.now result }
{
    match past_pictures(text) {
        Some(rest) if starts_apart(rest) => text.len() - rest.len(),
        _ => ruled_len(text),
    }
}

/// Returns the same by the rules for each pair of characters. It is a function of its own, so that the one above stays
/// short.
#[inline(never)]
fn ruled_len(text: &str) -> usize
    requires { 0 < length text.now }
    ensures { IsFirstCluster text.now result }
{
    match text.graphemes(true).next() {
        Some(cluster) => cluster.len(),
        None => unreachable!(),
    }
}

/// Returns the columns of a character that begins with such a byte.
#[inline]
pub fn lone_width(len: usize) -> usize
    ensures { result ≡ (if eqb len 3 then 2 else 1) }
{
    if len == 3 { 2 } else { 1 }
}

/// Returns the columns of the first cluster of a text and what follows it, if its first characters tell them.
// Inlined in both loops, so that a letter takes one call.
#[inline(always)]
pub fn split_settled(text: &str) -> Option<(usize, &str)>
    ensures { IfSome result (λ (columns, rest). IsWideSplit text.now columns rest.now) }
{
    match split_by_byte(text) {
        Some(split) => Some(split),
        None => split_by_bytes(text),
    }
}

/// Returns the same if the first byte tells the base, and nothing but plain marks and conjuncts joins that.
#[inline]
fn split_by_byte(text: &str) -> Option<(usize, &str)>
    ensures { IfSome result (λ (columns, rest). IsWideSplit text.now columns rest.now) }
{
    let len = lone_len(*text.as_bytes().first()?);
    if len == 0 {
        return None;
    }
    let (_, rest) = text.split_at(len);
    let columns = lone_width(len);
    if begins_lone(rest) {
        Some((columns, rest))
    } else {
        split_joined(columns, rest)
    }
}

/// Returns the same if the first characters tell it: another base, with plain marks and conjuncts or none behind it, a
/// syllable of Hangul, a flag, a keycap, or an emoji with a skin tone or before U+FE0F.
#[inline(always)]
fn split_by_bytes(text: &str) -> Option<(usize, &str)>
    ensures { IfSome result (λ (columns, rest). IsWideSplit text.now columns rest.now) }
{
    match text.as_bytes() {
        [0xE2, _, _, 0xEF, 0xB8, ..] => split_pair(text),
        [0xC2 | 0xD2..=0xDF | 0xE0 | 0xE2 | 0xE3 | 0xEE | 0xEF, ..] => split_base(text),
        // (Jamo)
        [0xE1, 0x84..=0x87, ..] => None,
        [0xEA, 0xB0..=0xBF, ..] | [0xEB..=0xED, ..] => split_syllable(text),
        [0xF0, 0x9F, 0x87, ..]
        | [0xF0, _, _, _, 0xEF, 0xB8, ..]
        | [0xF0, _, _, _, 0xF0, 0x9F, 0x8F, 0xBB..=0xBF, ..] => split_pair(text),
        // (emoji before a joiner)
        [0xF0, _, _, _, 0xE2, 0x80, ..] => None,
        [0xE1 | 0xEA | 0xF0, ..] => split_base(text),
        // (keycaps)
        [b'#'..=b'9', 0xEF, 0xB8, ..] => split_pair(text),
        _ => None,
    }
}

/// Returns the columns of a base above U+00A0, or `None` for any other character.
fn base_columns(c: char) -> Option<usize>
    ensures { IfSome result (IsFront (c ∷ [])) }
{
    let columns = lone_columns(c);
    if columns > 0 {
        return Some(columns);
    }
    if c <= LAST_ALONE || !stands_alone(c) {
        return None;
    }
    match c.width() {
        Some(columns) if columns <= 2 => Some(columns),
        _ => None,
    }
}

/// Returns the same for such a base.
#[inline(never)]
fn split_base(text: &str) -> Option<(usize, &str)>
    ensures { IfSome result (λ (columns, rest). IsWideSplit text.now columns rest.now) }
{
    let mut chars = text.chars();
    let columns = base_columns(chars.next()?)?;
    split_joined(columns, chars.as_str())
}

/// Returns true if the characters are a sign that U+FE0F makes an emoji, a flag, or an emoji with a skin tone.
fn is_pair(first: char, second: char) -> bool
    ensures { result ≡ true → IsFront (first ∷ second ∷ []) 2 }
{
    if second == SELECTOR {
        return stands_alone(first) && is_emoji_variation_base(first);
    }
    if is_flag_letter(first) {
        return is_flag_letter(second);
    }
    is_in_picture_block(first) && is_emoji_modifier_base(first) && is_skin_tone(second)
}

/// Returns what [`split_base`] does, for such a pair.
#[inline(never)]
fn split_pair(text: &str) -> Option<(usize, &str)>
    ensures { IfSome result (λ (columns, rest). IsWideSplit text.now columns rest.now) }
{
    let mut chars = text.chars();
    let first = chars.next()?;
    let second = chars.next()?;
    if is_pair(first, second) {
        split_joined(2, chars.as_str())
    } else {
        None
    }
}

/// Returns the columns of a cluster and what follows it, if it begins with characters of `columns`, `behind` is what
/// stands behind them, and nothing but plain marks and conjuncts joins them.
#[tactic(auto, using(crate::proofs::OpeningLemmas::no_more))]
#[inline]
fn split_joined(columns: usize, behind: &str) -> Option<(usize, &str)>
    requires { columns ≤ 2 }
    ensures { IfSome result (λ (sum, rest). IsWithAdded columns behind.now sum rest.now) }
{
    if starts_apart(behind) {
        Some((columns, behind))
    } else {
        split_marked(columns, behind)
    }
}

/// Returns the same if something joins them.
#[inline(never)]
fn split_marked(columns: usize, behind: &str) -> Option<(usize, &str)>
    requires few { columns ≤ 2 }
    requires joined { starts_apart (chars behind.now) ≡ false }
    ensures { IfSome result (λ (sum, rest). IsWithAdded columns behind.now sum rest.now) }
{
    let mut sum = columns;
    let mut chars = behind.chars();
    while let Some(first) = chars.next() {
        if !is_in_mark_block(first) {
            return None;
        }
        sum += if is_linker(first) {
            conjunct_columns(first, chars.next()?)?
        } else {
            mark_columns(first)?
        };
        if sum > 2 {
            return None;
        }
        let rest = chars.as_str();
        if starts_apart(rest) {
            return Some((sum, rest));
        }
    }
    None
}

/// Returns the columns that a mark adds to the cluster that it joins.
#[tactic(auto, using(crate::proofs::LoneWidths::mark_is_added))]
fn mark_columns(mark: char) -> Option<usize>
    requires joined { is_joined (grapheme_cluster_break mark) ≡ true }
    requires no_linker { is_linker (indic_conjunct_break mark) ≡ false }
    requires block { in_ranges mark_blocks mark ≡ true }
    ensures added { IfSome result (AddsColumns (mark ∷ [])) }
    ensures bound { IfSome result (λ columns. columns ≤ 3) }
{
    mark.width()
}

/// Returns the columns that a linker and the letter behind it add to the cluster that they join.
#[tactic(auto, using(crate::proofs::LoneWidths::conjunct_is_added, crate::proofs::LoneWidths::subscript_is_added))]
fn conjunct_columns(linker: char, letter: char) -> Option<usize>
    requires { is_linker (indic_conjunct_break linker) ≡ true }
    ensures added { IfSome result (AddsColumns (linker ∷ letter ∷ [])) }
    ensures bound { IfSome result (λ columns. columns ≤ 1) }
{
    if linker == KHMER_LINKER && is_khmer_subscript(letter) {
        return Some(0);
    }
    if is_in_conjunct_block(linker) && is_in_conjunct_block(letter) && is_consonant(letter) {
        Some(1)
    } else {
        None
    }
}

/// Returns true if the text is empty or begins with a character that does not join a syllable.
fn ends_syllable(text: &str) -> bool
    ensures { result ≡ ends_syllable (chars text.now) }
{
    match text.chars().next() {
        Some(next) => is_syllable(next) || is_in_lone_range(next),
        None => true,
    }
}

/// Returns the same for a syllable of Hangul.
#[tactic(auto, using(crate::proofs::LoneWidths::syllable_split))]
#[inline(never)]
fn split_syllable(text: &str) -> Option<(usize, &str)>
    ensures { IfSome result (λ (columns, rest). IsWideSplit text.now columns rest.now) }
{
    let mut chars = text.chars();
    let first = chars.next()?;
    let rest = chars.as_str();
    if is_syllable(first) && ends_syllable(rest) {
        Some((2, rest))
    } else {
        None
    }
}

/// Returns the first cluster of a text and what follows it, or `None` if the text is empty.
#[tactic(auto, using(crate::proofs::ClusterCuts::no_clusters))]
#[inline]
pub fn split_cluster(text: &str) -> Option<(&str, &str)>
    ensures { MatchOption result
        (graphemes true text.now ≡ [])
        (λ (cluster, rest). IsSplit text.now cluster.now rest.now) }
{
    if text.is_empty() {
        return None;
    }
    Some(text.split_at(first_len(text)))
}
