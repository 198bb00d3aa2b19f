//! The laws of what is handed out: each function does nothing, and its contract is the law.

ghost use Rattle.tw_typed.specs.PieceLaws.{InterruptEnds, InterruptStays, PiecesAreOne};
ghost use Rattle.tw_typed.specs.SieveLaws.{NoMarkIsMade, NothingMoves};

/// Bytes without a report in a pasted text are handed out as they are. Where the mark that ends a pasted text is handed
/// out behind its beginning, it was typed: none is made by what is taken out.
#[tactic(auto, using(crate::proofs::SieveLemmas::nothing_moves, crate::proofs::MarkLemmas::no_mark_is_made))]
pub fn typing()
    ensures same { NothingMoves }
    ensures marks { NoMarkIsMade }
{}

/// Where bytes are cut into pieces makes no difference. But a Ctrl-C by itself between two pauses ends a pasted text;
/// if bytes come behind it and no pause, it is one of them.
#[tactic(auto, using(crate::proofs::TypedLemmas::pieces_are_one, crate::proofs::TypedLemmas::interrupt_ends, crate::proofs::TypedLemmas::interrupt_stays))]
pub fn pieces()
    ensures one { PiecesAreOne }
    ensures ends { InterruptEnds }
    ensures stays { InterruptStays }
{}
