//! What the key of a record says of it.
ghost use Rattle.std.specs.Prelude.{◌≡◌, nat_le, true};
ghost use Rattle.std.specs.Option.{option_copied, option_map, option_map_or};
ghost use Rattle.rio_state.specs.KeyedRecords.{has_class, has_info_name, info_key, is_elsewhere, is_in_directory, is_info_key, is_internal, is_top_key, is_tree_key};
ghost use Rattle.rio_state.specs.Reasons.{directory_reasons};
ghost use Rattle.rio_recover.specs.Causes.{CallsNoHost, Judges};
ghost use Rattle.rio_recover.specs.Keys.{keyed_by};

use crate::RecoverFault;
use rio_head::Reason;
use rio_key::{FIRST_PLACE, KeyHead};

/// Whether the record is of this class.
pub(crate) fn has_class(head: &KeyHead, class: &[u8]) -> bool
    ensures { result ≡ has_class class.now head.now }
{
    head.class.as_slice() == class
}

// Whether the record is one that the file itself needs, or a basket.
fn is_internal(head: &KeyHead) -> bool
    ensures { result ≡ is_internal head.now }
{
    has_class(head, b"TFile") || has_class(head, b"TBasket")
}

// Whether the key is in the file's directory.
fn is_in_directory(head: &KeyHead) -> bool
    ensures { result ≡ is_in_directory head.now }
{
    head.pdir == FIRST_PLACE && !is_internal(head)
}

// Whether the key is in another directory.
fn is_elsewhere(head: &KeyHead) -> bool
    ensures { result ≡ is_elsewhere head.now }
{
    head.pdir != FIRST_PLACE && !is_internal(head)
}

fn has_info_name(head: &KeyHead) -> bool
    ensures { result ≡ has_info_name head.now }
{
    head.name.as_slice() == b"StreamerInfo".as_slice()
}

// Whether the record is a class list.
fn is_info_key(head: &KeyHead) -> bool
    ensures { result ≡ is_info_key head.now }
{
    is_in_directory(head) && has_info_name(head)
}

/// Whether the record is that of an object or a tree.
pub(crate) fn is_top_key(head: &KeyHead) -> bool
    ensures { result ≡ is_top_key head.now }
{
    is_in_directory(head) && !has_info_name(head)
}

/// Whether the record is that of a tree.
pub(crate) fn is_tree_key(head: &KeyHead) -> bool
    ensures { result ≡ is_tree_key head.now }
{
    has_class(head, b"TTree")
}

/// Refuses a file with a key of another directory.
pub(crate) fn check_directory(heads: &[KeyHead]) -> Result<(), RecoverFault>
    ensures told { Judges result (directory_reasons (keyed_by heads.now)) (λ _. Unit {0}) }
    ensures alone { CallsNoHost result }
{
    for head in heads {
        if is_elsewhere(head) {
            return Err(RecoverFault::ReadOnly {
                place: head.seek,
                reason: Reason::OtherDirectory,
            });
        }
    }
    Ok(())
}

// Whether the cycle isn't lower than that of an earlier class list, if there is one.
fn is_no_lower(cycle: u16, earlier: Option<&KeyHead>) -> bool
    ensures { result
        ≡ option_map_or (λ head. nat_le head.cycle cycle) (option_copied earlier.entry) true }
{
    match earlier {
        Some(head) => head.cycle <= cycle,
        None => true,
    }
}

/// The key of the class list that counts: that with the greatest cycle, and of equal cycles the last.
pub(crate) fn info_head(heads: &[KeyHead]) -> Option<&KeyHead>
    ensures { option_copied result ≡ option_map (λ r. r.head) (info_key (keyed_by heads.now)) }
{
    let mut info: Option<&KeyHead> = None;
    for head in heads {
        if is_info_key(head) && is_no_lower(head.cycle, info) {
            info = Some(head);
        }
    }
    info
}
