//! Calls whose requests for memory are refused, each in turn, and calls that make none. `.ci/refusals` runs these tests
//! with a request refused between their marks; by themselves they pass too.

mod buffers;
mod drawings;
mod free_steps;
mod histories;
mod read_lines;
mod scripts;
mod terminals;
