//! What follows from the definitions: each function does nothing, and its contract is the law.

ghost use Rattle.tw_input.specs.Equality.{ComparesValues};
ghost use Rattle.tw_key_parts.specs.EditedLines.{LineIsKept, StepBackIsUndone};
ghost use Rattle.tw_key_parts.specs.LineKeys.{LineKeysAreDistinct};
ghost use Rattle.tw_key_parts.specs.Pairs.{OrderIsFree};
ghost use Rattle.tw_key_parts.specs.ReadlineKeys.{RowsAreDistinct, RowsAreNew};
ghost use Rattle.tw_key_parts.specs.RowKeys.{OneRowIsLeft, RowKillIsKept, StepsLeadThere};
ghost use Rattle.tw_key_parts.specs.Ring.{KillIsLatest, KillsKeepLine, YankGivesBack};
ghost use Rattle.tw_key_parts.specs.Undo.{RedoGivesBack, UndoKeepsOldest, UndosGiveOldest};

use crate::edited_lines::WalkKey;
use crate::line_keys::LineEdit;
use crate::part::KeyPart;
use crate::ring::Latest;
use crate::row_keys::RowKey;
use crate::word_keys::WordEdit;

/// `==` is equality of values.
pub fn equality()
    ensures latest { ComparesValues ⟦<Latest as PartialEq>⟧.eq }
    ensures rows { ComparesValues ⟦<RowKey as PartialEq>⟧.eq }
    ensures walks { ComparesValues ⟦<WalkKey as PartialEq>⟧.eq }
    ensures edits { ComparesValues ⟦<WordEdit as PartialEq>⟧.eq }
    ensures lines { ComparesValues ⟦<LineEdit as PartialEq>⟧.eq }
{}

/// One kill, or many in a row, each of which leaves the cursor where it killed, and a yank right after them give back
/// the line before the first.
#[tactic(auto, using(crate::proofs::RingLemmas::kills_keep_line, crate::proofs::RingLemmas::kill_is_latest, crate::proofs::RingLemmas::yank_gives_back))]
pub fn kills()
    ensures kept { KillsKeepLine }
    ensures latest { KillIsLatest }
    ensures given_back { YankGivesBack }
{}

/// As many undos as there are steps give the oldest line, and each of them keeps it. A redo gives back what an undo left.
#[tactic(auto, using(crate::proofs::UndoLemmas::undo_keeps_oldest, crate::proofs::UndoLemmas::undos_give_oldest, crate::proofs::UndoLemmas::redo_gives_back))]
pub fn undos()
    ensures kept { UndoKeepsOldest }
    ensures given { UndosGiveOldest }
    ensures back { RedoGivesBack }
{}

/// The order of two parts is free if no event at a line has an edit of both.
pub fn order<A: KeyPart, B: KeyPart>()
    ensures { OrderIsFree A.keys B.keys }
{}

/// The keys of readline are not in the key table, and none of them stands in two rows.
pub fn readline_table()
    ensures new { RowsAreNew }
    ensures distinct { RowsAreDistinct }
{}

/// No key that edits the line stands in two rows.
pub fn line_table()
    ensures { LineKeysAreDistinct }
{}

/// The keys for rows leave a line of one row to the other keys, but for the key that begins a row. The steps that they
/// count lead to the cluster boundary that is meant, and a kill ring keeps the rest of a row that they kill.
#[tactic(auto, using(crate::proofs::StepLemmas::one_row_is_left, crate::proofs::StepLemmas::steps_lead_there, crate::proofs::StepLemmas::row_kill_is_kept))]
pub fn rows()
    ensures one { OneRowIsLeft }
    ensures steps { StepsLeadThere }
    ensures kill { RowKillIsKept }
{}

/// A line that a walk leaves comes back as it was left, and all others stay. So a step to the line before, and one
/// back, show that line, whatever was made of the line before.
pub fn walks()
    ensures kept { LineIsKept }
    ensures undone { StepBackIsUndone }
{}
