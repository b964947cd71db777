//! Whether there is room behind a state.
ghost use Rattle.std.specs.Prelude.{◌≡◌, ℕ, ◌+◌, ◌-◌, ◌<◌, ◌^◌, ◌++◌, [], length, min, nat_lt};
ghost use Rattle.std.specs.List.{All};
ghost use Rattle.rio_head.specs.declared.reason.Reason.TheVariants.{NoRoom, TooMany};
ghost use Rattle.rio_chain.specs.Found.{IsShortKey};
ghost use Rattle.rio_machine.specs.Limits.{item_limit};
ghost use Rattle.rio_state.specs.Closing.{close_need, end_limit};
ghost use Rattle.rio_state.specs.Reasons.{reason_if};
ghost use Rattle.std.specs.Option.{option_copied};
ghost use Rattle.rio_state.specs.Trees.{basket_places};
ghost use Rattle.rio_recover.specs.Causes.{CallsNoHost, Judges};
ghost use Rattle.rio_recover.specs.Recovered.{other_count};
ghost use Rattle.rio_recover.specs.Trees.{places_of};

use crate::RecoverFault;
use crate::trees::TreeAt;
use rio_dir::KeyTable;
use rio_head::Reason;
use rio_key::KeyHead;
use rio_machine::ITEM_LIMIT;
use rio_state::{END_LIMIT, close_length};
use rio_tree::TreeHead;

// So many records need more room in a free record than any file has.
const RECORD_LIMIT: u64 = 200_000_000;

// How many baskets the header names; no more are counted than a file can have.
fn count_baskets(head: &TreeHead) -> u64
    ensures { result ≡ min (length (basket_places head.now)) (2 ^ 64 - 1) }
{
    let mut count: u64 = 0;
    for branch in head.branches.as_slice() {
        count = count.saturating_add(branch.baskets.len() as u64);
    }
    count
}

fn count_all_baskets(trees: &[TreeAt]) -> u64
    ensures { result ≡ min (length (places_of trees.now)) (2 ^ 64 - 1) }
{
    let mut count: u64 = 0;
    for tree in trees {
        count = count.saturating_add(count_baskets(&tree.head));
    }
    count
}

/// How many records are kept beside those of items: the first, the class list, and the baskets of trees. No more are
/// counted than 64 bits hold.
pub(crate) fn count_others(info: Option<&KeyHead>, trees: &[TreeAt]) -> u64
    ensures { result ≡ min (other_count (option_copied info.entry) trees.now) (2 ^ 64 - 1) }
{
    let baskets = count_all_baskets(trees);
    match info {
        Some(_) => baskets.saturating_add(2),
        None => baskets.saturating_add(1),
    }
}

/// Refuses a file with too many items, and one whose END, with what a close writes behind it, is too far. `others` is how
/// many records are kept beside those of the items, of which no more are counted than 64 bits hold.
pub(crate) fn check_room(
    end: u64,
    name: &[u8],
    table: &KeyTable,
    others: u64,
) -> Result<(), RecoverFault>
    requires name { length name.now < 2 ^ 32 }
    requires short { All IsShortKey table.now.heads }
    ensures told { (count : ℕ) → others ≡ min count (2 ^ 64 - 1) → Judges result
        (reason_if (nat_lt item_limit (length table.now.heads)) 0 TooMany
        ++ reason_if (nat_lt end_limit (end + close_need (record {
          name = name.now;
          heads = table.now.heads;
          count = count + length table.now.heads;
          trees = [];
        }))) 0 NoRoom) (λ _. Unit {0}) }
    ensures alone { CallsNoHost result }
{
    if table.count() > ITEM_LIMIT {
        return Err(RecoverFault::ReadOnly {
            place: 0,
            reason: Reason::TooMany,
        });
    }
    let no_room = RecoverFault::ReadOnly {
        place: 0,
        reason: Reason::NoRoom,
    };
    if others >= RECORD_LIMIT {
        return Err(no_room);
    }
    let need = close_length(name, table.heads_length(), others + table.count() as u64);
    if end.saturating_add(need) > END_LIMIT {
        return Err(no_room);
    }
    Ok(())
}
