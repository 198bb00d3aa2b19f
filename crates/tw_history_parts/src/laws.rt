//! Laws of this crate's definitions: each function does nothing, and its contract is the law.

ghost use Rattle.tw_history_parts.specs.HistoryFile.{BeginningIsRead, DamageStaysAlone, EndIsRead, ResumedAreRead, WrittenAreRead};
ghost use Rattle.tw_history_parts.specs.Recent.{StaysUnique};

/// Lines that are written are read as they were, but for empty ones. If writing was cut off, the lines before it are
/// read, and nothing else; a damaged text loses only itself; lines that are written after others are read after them, and
/// a line that was cut off is none in any later session; of the end of a file its last lines are read.
#[tactic(auto, using(crate::proofs::FileLemmas::written_are_read, crate::proofs::FileLemmas::beginning_is_read, crate::proofs::FileLemmas::damage_stays_alone, crate::proofs::FileLemmas::resumed_are_read))]
pub fn files()
    ensures written { WrittenAreRead }
    ensures beginning { BeginningIsRead }
    ensures damage { DamageStaysAlone }
    ensures resumed { ResumedAreRead }
    ensures end { EndIsRead }
{}

/// No line stands twice once a line is added, if none is to.
#[tactic(auto, using(crate::proofs::RecentLemmas::stays_unique))]
pub fn unique()
    ensures unique { StaysUnique }
{}
