//! Tests of the editor at a device: bytes to keys, batches to bytes, and what a terminal is sent.

mod ansi;
mod application;
mod asked;
mod at_once;
mod commands;
mod device;
mod faults;
mod keys;
mod lines;
mod shown;
mod typed_bytes;
