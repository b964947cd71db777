//! What a file reads as: by a walk, which sees its bytes as segments and the segments' records as a state, and by its key
//! list; why nothing is written to a file; what a close writes, and whether there is room for it. `specs/` has the definitions
//! that contracts cite; there are laws about them, and `close_length`, how long the records of a close are.
#![tactic(auto)]

mod closing;
mod laws;

pub use closing::{END_LIMIT, close_length, own_key_length};
pub use laws::{
    close_length_is_need, empty_is_read, garbage_goes, held_is_limited, internal_stays,
    meets_no_reason, need_falls, no_reason_is_read, one_reason, one_state, record_less,
    record_more, tree_goes,
};
