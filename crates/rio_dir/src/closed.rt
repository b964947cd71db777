//! A closed file.
use rio_head::{DirRecord, FileHead};
use rio_key::Heads;

/// A file as the reading verbs see it: its header, its directory record, and the heads of its key list.
#[derive(Debug, Drop)]
pub struct Closed {
    pub head: FileHead,
    pub dir: DirRecord,
    pub keys: Heads,
}
