//! Laws over the definitions alone, for every host: each is the contract of a function that does nothing.

ghost use Rattle.tw_session.specs.CompletionLaws.{GoesRound};
ghost use Rattle.tw_session.specs.FaithfulLaws.{ShowsTheLine};
ghost use Rattle.tw_session.specs.HistoryLaws.{Enumerates, LeavesHistory, WalksBack};

use tw_host::LineEditorHost;

/// Steps back through a host's history and as many steps forth give the typed line, and leave the history: a
/// second walk begins at the last line again.
#[tactic(auto, using(crate::proofs::WalkLemmas::leaves, crate::proofs::WalkLemmas::walks))]
pub fn walk<H: LineEditorHost>()
    ensures typed { (v : H.Value) → WalksBack H.rules v }
    ensures history_left { (v : H.Value) → LeavesHistory H.rules v }
{}

/// An insertion into a pattern that some line contains, and backward searches after it, show the lines that
/// contain the pattern from the newest on, and then the oldest.
#[tactic(auto, using(crate::proofs::EnumerationLemmas::enumerates))]
pub fn enumeration<H: LineEditorHost>()
    ensures { (v : H.Value) → Enumerates H.rules v }
{}

/// Completions put in the candidates, which all fit, in turn, each on the original line.
#[tactic(auto, using(crate::proofs::CycleLemmas::goes_round))]
pub fn cycle<H: LineEditorHost>()
    ensures { (v : H.Value) → GoesRound H.rules v }
{}

/// A host whose texts are the prompt and the line is seen so: if a painting of it is fresh, each character of the
/// prompt and of the line stands in its cell, and the cursor after the columns before it.
#[tactic(auto, using(crate::proofs::FaithfulLemmas::shows_the_line))]
pub fn faithful<H: LineEditorHost>()
    ensures { ShowsTheLine H.rules }
{}
