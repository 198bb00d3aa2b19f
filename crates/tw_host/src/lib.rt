//! What an application tells a line editor: actions, the key table, and the trait of hosts.
//!
//! Implement `LineEditorHost` to say how a line is shown, what completes it and what a key does; `NopLineEditorHost`
//! has the default answers. docs/OWN_PARTS.md leads through a host and its proof.
//!
//! From `crates/worked_host/src/host.rt`:
//!
//! ```
//! impl LineEditorHost for CommandHost {
//!     type Hist = BasicHistory;
//! ..
//!     fn complete(
//!         &self,
//!         alloc: Global,
//!         line: &str,
//!         cursor_position: usize,
//!     ) -> Result<Vec<CompletionCandidate>, AllocError> {
//!         complete_word(alloc, self.known.as_slice(), line, cursor_position)
//!     }
//! ```
#![tactic(auto)]

mod actions;
mod host;
mod keys;
pub mod laws;

pub use actions::Action;
pub use host::{
    CompletionCandidate, LineEditorHost, NopLineEditorHost, OutputElement, Overrides,
    copy_candidates, plain_element, plain_line,
};
pub use keys::default_action;
