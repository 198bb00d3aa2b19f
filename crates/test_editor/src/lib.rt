//! Tests of the editor: its calls to the terminal, faults, hosts, histories, previews, and the language of scripts; of
//! the layers below it; and of both with requests for memory refused.
#![tactic(auto)]

#[cfg(test)]
mod actions;
#[cfg(test)]
mod asked;
#[cfg(test)]
mod calls;
#[cfg(test)]
mod directives;
#[cfg(test)]
mod faults;
#[cfg(test)]
mod histories;
#[cfg(test)]
mod hosts;
#[cfg(test)]
mod idle;
#[cfg(test)]
mod layers;
#[cfg(test)]
mod lines;
#[cfg(test)]
mod lookups;
#[cfg(test)]
mod names;
#[cfg(test)]
mod refusals;
#[cfg(test)]
mod scale;
#[cfg(test)]
mod scripts;
#[cfg(test)]
mod streams;
#[cfg(test)]
mod support;
#[cfg(test)]
mod unkind;
