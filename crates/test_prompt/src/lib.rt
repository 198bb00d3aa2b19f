//! Tests of what stands above the editor: devices, and the parts of a prompt: keys of readline, completion, menus,
//! hints, validators, kept histories.
#![tactic(auto)]

#[cfg(test)]
mod beginnings;
#[cfg(test)]
mod completers;
#[cfg(test)]
mod devices;
#[cfg(test)]
mod edited_lines;
#[cfg(test)]
mod file;
#[cfg(test)]
mod hints;
#[cfg(test)]
mod hosts;
#[cfg(test)]
mod last_words;
#[cfg(test)]
mod letter_words;
#[cfg(test)]
mod menu;
#[cfg(test)]
mod nesting;
#[cfg(test)]
mod prefix_search;
#[cfg(test)]
mod prompt;
#[cfg(test)]
mod ranges;
#[cfg(test)]
mod readline;
#[cfg(test)]
mod recent;
#[cfg(test)]
mod redo;
#[cfg(test)]
mod row_cells;
#[cfg(test)]
mod row_keys;
#[cfg(test)]
mod rows;
#[cfg(test)]
mod searches;
#[cfg(test)]
mod settling;
#[cfg(test)]
mod tables;
#[cfg(test)]
mod validator;
#[cfg(test)]
mod without_memory;
#[cfg(test)]
mod word_keys;
#[cfg(test)]
mod word_swaps;
