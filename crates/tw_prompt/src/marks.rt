//! What a terminal is asked to mark and to tell.

/// What a terminal is sent at first: it is to mark pasted texts, and to tell its size by itself where that changes.
pub const BEGIN: &str = "\x1b[?2004h\x1b[?2048h";

/// What a terminal is sent in the end: it is to do neither any more.
pub const END: &str = "\x1b[?2004l\x1b[?2048l";
