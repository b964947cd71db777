//! Worked examples that no file and no command can show; the others are transcripts, in `tests/` at the top.
mod changes;
mod faults;
mod runs;
