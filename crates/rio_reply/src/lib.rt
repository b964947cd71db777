//! Replies to commands as they are said. `Bytes` that a call here returns are the text of the machine's reply, which is made
//! of what a session keeps beside its file: [`refusal_reply`] of a refusal, [`class_reply`] of a class that was declared,
//! [`put_reply`] of an object that was put, [`batch_reply`] of several, [`delete_reply`] of one that was deleted, [`get_reply`] of an object's record,
//! [`get_reply_as`] of one in a version of its class, and [`listing_reply`] of the keys of all objects. Of trees there are
//! [`tree_reply`], [`fill_reply`] and [`save_reply`]; [`item_listing_reply`] lists objects and trees. A scan is put line by
//! line, by [`put_scan_start`] and [`put_row_line`], or [`put_row_line_as`] with objects in a version of their class, and
//! [`put_row_fault`] for a row that isn't read.
//! [`put_item`] and [`put_stored`] put the parts that other texts have too.
//! What the texts are stands with the machine's steps; `specs/Told.antt` has what is said of a record that may have no
//! reading, and `specs/Scanned.antt` the lines of a scan.
#![tactic(auto)]

mod fault;
mod get;
mod item;
mod laws;
mod reply;
mod scan;

pub use fault::put_stored;
pub use get::{get_reply, get_reply_as};
pub use item::put_item;
pub use laws::scans_are_lines;
pub use reply::{
    batch_reply, class_reply, delete_reply, fill_reply, item_listing_reply, listing_reply,
    put_reply, refusal_reply, save_reply, tree_reply,
};
pub use scan::{put_row_fault, put_row_line, put_row_line_as, put_scan_start, row_as};
