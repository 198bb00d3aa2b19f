//! The prompt to begin with.

ghost use Rattle.std.specs.Prelude.{◌≡◌, [], true, None, IfOk};
ghost use Rattle.tw_hosts.specs.Settling.{screen_view};
ghost use Rattle.tw_prompt_host.specs.Going.{going_at_rest};
ghost use Rattle.tw_prompt_host.specs.Plain.{with_parts};
ghost use Rattle.tw_prompt_host.specs.Rows.{rows_view};
ghost use Rattle.tw_prompt_host.specs.MenuLayout.{reverse_style};
ghost use Rattle.tw_prompt_host.specs.declared.hint.Hints.TheVariants.{Off};

use crate::going::Going;
use crate::hint::Hints;
use crate::layout::MenuStyle;
use crate::prompt::PromptHost;
use crate::rows::Rows;
use crate::validator::AllLines;
use std::alloc::{AllocError, Global};
use tw_host::NopLineEditorHost;
use tw_hosts::PromptScreen;
use tw_key_parts::{Keys, ReadlineKeys};
use tw_line::BasicHistory;

/// The rows of the menu, if an application completes.
const MENU_ROWS: usize = 4;

impl PromptHost<NopLineEditorHost, BasicHistory, Keys<ReadlineKeys>, AllLines> {
    /// Creates a prompt with the keys of readline and an empty history, on a screen of `cols` columns. It accepts no
    /// line at a search that fails, and everything else is off. Change its fields, or write the literal, for more.
    pub fn new(alloc: Global, prompt: &str, cols: usize) -> Result<Self, AllocError>
        ensures lines { IfOk result (λ it. it.history ≡ []) }
        ensures off { IfOk result (λ it. (it.completers.items ≡ []) × (it.listings.items ≡ [])
            × (it.hints ≡ Off) × (rows_view it.rows ≡ None)) }
        ensures searches { IfOk result (λ it. it.stops_failing_searches ≡ true) }
        ensures menu { IfOk result (λ it. it.menu ≡ reverse_style cols 4) }
        ensures screen { IfOk result (λ it. screen_view it.screen
            ≡ record { cols = cols; prompt = prompt.now }) }
        ensures going { IfOk result (λ it. it.going ≡ going_at_rest) }
    {
        let screen = PromptScreen {
            cols,
            prompt: String::from_str(alloc, prompt)?,
        };
        Ok(PromptHost {
            host: NopLineEditorHost::new(alloc),
            history: BasicHistory::new(alloc),
            completers: Vec::new(alloc),
            listings: Vec::new(alloc),
            keys: Keys(ReadlineKeys),
            hints: Hints::Off,
            stops_failing_searches: true,
            validator: AllLines,
            menu: MenuStyle::in_reverse(cols, MENU_ROWS),
            screen,
            rows: Rows::One,
            going: Going::new(),
        })
    }
}

/// Builds a prompt of these parts, with all else as it is in another one.
macro_rules! with_parts {
    ($host:expr, $history:expr, $keys:expr, $validator:expr, $it:expr) => {
        PromptHost {
            host: $host,
            history: $history,
            completers: $it.completers,
            listings: $it.listings,
            keys: $keys,
            hints: $it.hints,
            stops_failing_searches: $it.stops_failing_searches,
            validator: $validator,
            menu: $it.menu,
            screen: $it.screen,
            rows: $it.rows,
            going: $it.going,
        }
    };
}

impl<H: Drop, L: Drop, K: Drop, V: Drop> PromptHost<H, L, K, V> {
    /// Replaces the application's host.
    pub fn with_host<N>(self, host: N) -> PromptHost<N, L, K, V>
        ensures { result ≡ with_parts host self.history self.keys self.validator self }
    {
        with_parts!(host, self.history, self.keys, self.validator, self)
    }

    /// Replaces the history.
    pub fn with_history<N>(self, history: N) -> PromptHost<H, N, K, V>
        ensures { result ≡ with_parts self.host history self.keys self.validator self }
    {
        with_parts!(self.host, history, self.keys, self.validator, self)
    }

    /// Replaces the parts with keys.
    pub fn with_keys<N>(self, keys: N) -> PromptHost<H, L, N, V>
        ensures { result ≡ with_parts self.host self.history keys self.validator self }
    {
        with_parts!(self.host, self.history, keys, self.validator, self)
    }

    /// Replaces the validator.
    pub fn with_validator<N>(self, validator: N) -> PromptHost<H, L, K, N>
        ensures { result ≡ with_parts self.host self.history self.keys validator self }
    {
        with_parts!(self.host, self.history, self.keys, validator, self)
    }
}
