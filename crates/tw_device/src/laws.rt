//! Laws of the types of this crate, each the contract of a function that does nothing.

ghost use Rattle.tw_input.specs.Equality.{ComparesValues};
ghost use Rattle.tw_device.specs.Deeds.{DeedsAreSent, DoneIsSent, FailuresAreCounted};
ghost use Rattle.tw_device.specs.Keys.{AskedIsTyped};
ghost use Rattle.tw_device.specs.Pieces.{PiecesDoNotMatter};
ghost use Rattle.tw_device.specs.Typed.{NoneIsLost};

use crate::escape::Escape;
use crate::keys::SourceState;
use crate::pasted::Pasted;
use std::io::{Read, Write};

/// `==` is equality of values.
pub fn equality()
    ensures states { ComparesValues ⟦<SourceState as PartialEq>⟧.eq }
    ensures pasted { ComparesValues ⟦<Pasted as PartialEq>⟧.eq }
    ensures escapes { ComparesValues ⟦<Escape as PartialEq>⟧.eq }
{}

/// Unread bytes plus bytes read equal bytes taken plus bytes left unread. What was read is what the reader gave, and the
/// events are those of the bytes taken.
#[tactic(auto, using(crate::proofs::TypedLemmas::none_is_lost))]
pub fn typing()
    ensures { NoneIsLost }
{}

/// Where an ESC alone waits, how bytes come makes no difference: once all that came are taken, what was told is what
/// they tell all at once.
#[tactic(auto, using(crate::proofs::PieceLemmas::pieces_do_not_matter))]
pub fn pieces()
    ensures { PiecesDoNotMatter }
{}

/// What calls of a reader of keys told is what its bytes tell, one call after the other, and no byte is lost (`typing`).
pub fn typed<R: Read>()
    ensures { AskedIsTyped R.remaining }
{}

/// What is written is what was written before, and then the bytes of the deeds one after the other, where no batch was
/// refused; none was where no failure was counted. So of steps whose events tell no other number of columns a terminal
/// has written the bytes of the batches that were taken.
pub fn deeds<W: Write>()
    ensures sent { DeedsAreSent W.contents }
    ensures counted { FailuresAreCounted W.contents }
    ensures done { DoneIsSent W.contents }
{}
