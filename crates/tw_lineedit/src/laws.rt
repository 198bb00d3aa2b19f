//! Laws over the definitions alone: each is the contract of a function that does nothing.

ghost use Rattle.tw_input.specs.Equality.{ComparesValues};
ghost use Rattle.tw_lineedit.specs.Run.{StoppedRunsBegin};
ghost use Rattle.tw_lineedit.specs.ScreenRuns.{RunsTellScenes};
ghost use Rattle.tw_lineedit.specs.Stations.{BatchesByStations};

use crate::editor::LineStatus;
use tw_host::LineEditorHost;
pub use tw_host::laws::{key_table, overrides};
pub use tw_line::laws::{counts, equality, searches, steps};
pub use tw_session::laws::{cycle, enumeration, faithful, walk};

/// The batches that a run takes are a function of its stations alone: the states, the host's values and the
/// sizes at which it paints, and whether the screen was cleared just before.
#[tactic(auto, using(crate::proofs::StationLemmas::batches_by_stations))]
pub fn batches<H: LineEditorHost>()
    ensures { BatchesByStations H.rules }
{}

/// What a run takes, by its scenes: from this, and a law on lists of scenes, follows what any screen shows of a run.
pub fn tells_scenes<H: LineEditorHost>()
    ensures { RunsTellScenes H.rules }
{}

/// What was taken where memory or the terminal stops a run is a beginning of what the run takes.
#[tactic(auto, using(crate::proofs::BeginningLemmas::stopped_runs_begin))]
pub fn stopped_runs<H: LineEditorHost>()
    ensures { StoppedRunsBegin H.rules H.OVERRIDES }
{}

/// `==` of `LineStatus` is equality of values.
pub fn line_status()
    ensures { ComparesValues ⟦<LineStatus as PartialEq>⟧.eq }
{}
