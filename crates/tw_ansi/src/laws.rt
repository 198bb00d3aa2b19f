//! Laws of this crate's definitions: each function does nothing, and its contract is the law.

ghost use Rattle.tw_input.specs.Equality.{ComparesValues};
ghost use Rattle.tw_ansi.specs.Renditions.{AttributesByNumber};
ghost use Rattle.laws_screens.specs.Pens.{Pen};
ghost use Rattle.laws_screens.specs.StyledCells.{characters, clusters, styled};
ghost use Rattle.tw_ansi.specs.EcmaLaws.{AttributeIsSelected, AttributesAreSelected, ColumnsAreReached, AlongRowsAreReached, RowsAboveAreReached, RowsBelowAreReached, ClearsBelow, ClearsRows, ClearsAll};
ghost use Rattle.tw_ansi.specs.EcmaTexts.{JoinsMarks, TextIsShown};
ghost use Rattle.tw_ansi.specs.EcmaBatches.{CarriesAttributes, FirstIsShown, ChangeIsShown, BatchIsShown, TerseBatchIsShown};
ghost use Rattle.tw_ansi.specs.EcmaPaintings.{PaintingIsSendable, RepaintingIsSendable, ClosingIsSendable, PaintingKnowsColor, RunIsSendable, BatchesAreShown};
ghost use Rattle.tw_ansi.specs.KeyLaws.{StaysFound, TakesBytes, EndsWithToken, PrintableKeys, CharacterKeys, AltCharacterKeys, EscapeKey, EscapePair, EscapesAtTheEnd, AltLetterKeys, AltKeys, AltOpenings, ControlKeys, ControlLetters, ApplicationKeys, LetterKeys, HeldLetterKeys, NumberKeys, HeldNumberKeys, BackTab, CursorReports, SizeReports, PastedTexts, UnknownSequences, MouseReports, OpenMouseReports, EndedStrings, CutStrings, OpenStrings, LostBytes, LoneBytes, CutCharacters, WaitsForCharacter};

use crate::encode::Encoder;
use crate::resume::Progress;
use crate::token::{Scanned, Token};

/// `==` is equality of values.
pub fn equality()
    ensures tokens { ComparesValues ⟦<Token as PartialEq>⟧.eq }
    ensures scanned { ComparesValues ⟦<Scanned as PartialEq>⟧.eq }
    ensures progress { ComparesValues ⟦<Progress as PartialEq>⟧.eq }
    ensures encoders { ComparesValues ⟦<Encoder as PartialEq>⟧.eq }
{}

/// Each attribute is sent by the number that ECMA-48 gives it.
pub fn renditions()
    ensures { AttributesByNumber }
{}

/// Tokens do not depend on how the bytes come in pieces: what is found stays found, whatever follows. An ESC alone is
/// Escape, and may begin another key where bytes follow. No token takes nothing, or bytes that are not there, and where
/// the bytes are the last ones there always is one.
#[tactic(auto, using(crate::proofs::Pieces::stays_found, crate::proofs::Tokens::takes_bytes, crate::proofs::Tokens::token_ends))]
pub fn pieces()
    ensures stays { StaysFound }
    ensures takes { TakesBytes }
    ensures ends { EndsWithToken }
{}

/// A key's bytes give that key, and are taken whole, whatever bytes follow.
#[tactic(auto, using(crate::proofs::Keys::escape_key, crate::proofs::Keys::escape_pair, crate::proofs::Keys::escapes_at_the_end, crate::proofs::Keys::alt_letter_keys, crate::proofs::Keys::back_tab, crate::proofs::Keys::control_keys, crate::proofs::Keys::application_keys_typed, crate::proofs::Keys::letter_keys_typed, crate::proofs::Keys::number_keys_typed, crate::proofs::Keys::alt_keys, crate::proofs::Keys::printable_keys, crate::proofs::WideCharacters::character_keys, crate::proofs::WideCharacters::alt_character_keys, crate::proofs::Keys::control_letters, crate::proofs::Keys::held_letter_keys, crate::proofs::Keys::held_number_keys))]
pub fn keys()
    ensures escape { EscapeKey }
    ensures two_escapes { EscapePair }
    ensures last_escapes { EscapesAtTheEnd }
    ensures alt_letters { AltLetterKeys }
    ensures back_tab { BackTab }
    ensures alt { AltKeys }
    ensures alt_openings { AltOpenings }
    ensures printable { PrintableKeys }
    ensures characters { CharacterKeys }
    ensures alt_characters { AltCharacterKeys }
    ensures control { ControlKeys }
    ensures control_letters { ControlLetters }
    ensures application { ApplicationKeys }
    ensures letters { LetterKeys }
    ensures held_letters { HeldLetterKeys }
    ensures numbers { NumberKeys }
    ensures held_numbers { HeldNumberKeys }
{}

/// A report of the cursor's place is a size, and so is one that the terminal makes by itself in mode 2048. A text
/// between the marks of a paste is that text. A mouse's report in three bytes is taken whole. So it is whatever bytes
/// follow.
#[tactic(auto, using(crate::proofs::Reports::cursor_reports, crate::proofs::Reports::size_reports, crate::proofs::Reports::pasted_texts))]
pub fn reports()
    ensures cursor { CursorReports }
    ensures sizes { SizeReports }
    ensures pastes { PastedTexts }
    ensures mouse { MouseReports }
    ensures open_mouse { OpenMouseReports }
{}

/// A control string that a terminal answers is taken whole with its end, and is cut off before any other control
/// character, so that one without an end swallows no key.
pub fn strings()
    ensures ended { EndedStrings }
    ensures cut { CutStrings }
    ensures open { OpenStrings }
{}

/// Bytes that say nothing swallow no key: what is not known is one control sequence, one control string or one mouse's
/// report, and a byte that is no part of a character is U+FFFD and takes no byte but itself. More bytes are wanted for
/// a character only where those that are there can follow its first one.
#[tactic(auto, using(crate::proofs::Unknowns::unknown_sequences, crate::proofs::LostBytes::lost_bytes, crate::proofs::LostBytes::lone_bytes, crate::proofs::LostBytes::cut_characters))]
pub fn malformed()
    ensures sequences { UnknownSequences }
    ensures lost { LostBytes }
    ensures lone { LoneBytes }
    ensures cut { CutCharacters }
    ensures waits { WaitsForCharacter }
{}

/// What a terminal after ECMA-48 does at the sequences that are sent, byte by byte, with any kind of cells.
#[tactic(auto, using(crate::proofs::EcmaSequences::columns_are_reached, crate::proofs::EcmaSequences::along_rows_are_reached, crate::proofs::EcmaSequences::rows_above_are_reached, crate::proofs::EcmaSequences::rows_below_are_reached, crate::proofs::EcmaRenditions::attribute_is_selected, crate::proofs::EcmaRenditions::attributes_are_selected, crate::proofs::EcmaClearings::clears_below, crate::proofs::EcmaClearings::clears_rows, crate::proofs::EcmaClearings::clears_all))]
pub fn sequences<A, C>()
    ensures columns { (pen : Pen A C) → ColumnsAreReached pen }
    ensures along_rows { (pen : Pen A C) → AlongRowsAreReached pen }
    ensures rows_above { (pen : Pen A C) → RowsAboveAreReached pen }
    ensures rows_below { (pen : Pen A C) → RowsBelowAreReached pen }
    ensures attribute { (pen : Pen A C) → AttributeIsSelected pen }
    ensures attributes { (pen : Pen A C) → AttributesAreSelected pen }
    ensures below { (pen : Pen A C) → ClearsBelow pen }
    ensures rows { (pen : Pen A C) → ClearsRows pen }
    ensures all { (pen : Pen A C) → ClearsAll pen }
{}

/// A terminal after ECMA-48 that shows a picture of h rows, and is sent the bytes of a text, shows the picture on which
/// that text was drawn under the attributes that are set, scrolled as it needs: if each cluster is one character and its
/// marks, in as many columns as are measured.
#[tactic(auto, using(crate::proofs::EcmaTexts::text_is_shown))]
pub fn texts<A, C>()
    ensures { (pen : Pen A C) → TextIsShown pen }
{}

/// A terminal after ECMA-48 with default attributes whose cursor stands in column 0 shows its own cells to a new
/// encoder. One that shows a picture of h rows, and is sent the bytes of a change or of a batch, shows the picture on
/// which it was drawn, scrolled as it needs, where each change is one whose bytes do what it does. So it is where the
/// moves of the batch take few bytes, and none of them goes down out of sight.
#[tactic(auto, using(crate::proofs::EcmaBatches::first_is_shown, crate::proofs::EcmaBatches::change_is_shown, crate::proofs::EcmaBatches::batch_is_shown, crate::proofs::EcmaBatches::terse_batch_is_shown))]
pub fn batches<A, C>()
    ensures first { (pen : Pen A C) → FirstIsShown pen }
    ensures change { (pen : Pen A C) → ChangeIsShown pen }
    ensures batch { (pen : Pen A C) → BatchIsShown pen }
    ensures terse { (pen : Pen A C) → TerseBatchIsShown pen }
{}

/// The laws of texts and batches speak of these pens: what they keep of attributes follows their changes, and a mark
/// that joins a cell makes it that of the longer cluster.
pub fn pens()
    ensures clusters { CarriesAttributes clusters × JoinsMarks clusters }
    ensures characters { CarriesAttributes characters × JoinsMarks characters }
    ensures styled { CarriesAttributes styled × JoinsMarks styled }
{}

/// A painting of such texts and of colours by bytes is one whose bytes do what it does, alone where the cursor does not
/// stand after the last column, and else after the move to its first row; so is the closing batch. So are all
/// batches of a run that paints such scenes, and a terminal that is sent their bytes shows what they leave on the model
/// screen.
#[tactic(auto, using(crate::proofs::EcmaPaintings::painting_is_sendable, crate::proofs::EcmaPaintings::repainting_is_sendable, crate::proofs::EcmaPaintings::closing_is_sendable, crate::proofs::EcmaPaintings::painting_knows_color, crate::proofs::EcmaPaintings::run_is_sendable, crate::proofs::EcmaPaintings::batches_are_shown))]
pub fn paintings<A, C>()
    ensures first { (pen : Pen A C) → PaintingIsSendable pen }
    ensures later { (pen : Pen A C) → RepaintingIsSendable pen }
    ensures closing { (pen : Pen A C) → ClosingIsSendable pen }
    ensures color { PaintingKnowsColor }
    ensures run { (pen : Pen A C) → RunIsSendable pen }
    ensures shown { (pen : Pen A C) → BatchesAreShown pen }
{}
