//! Whether the rows of a tree are there.
ghost use Rattle.std.specs.Prelude.{◌≡◌, is_some, true, ℕ, List, Some, Ok, IfOk};
ghost use Rattle.std.specs.List.{list_all};
ghost use Rattle.rio_entry.specs.SavedRows.{is_whole};
ghost use Rattle.rio_host.specs.OnlyReads.{OnlyReads};
ghost use Rattle.rio_format.specs.declared.value.Value.{Value as Read};
ghost use Rattle.rio_state.specs.Trees.{RecordsAt, saved_rows};
ghost use Rattle.rio_tree.specs.Header.{tree_head_in};
ghost use Rattle.rio_recover.specs.Baskets.{AreKeyedIn};
ghost use Rattle.rio_recover.specs.Keys.{AreInPlace};
ghost use Rattle.rio_recover.specs.Causes.{IsRecoverCause, Obtains};

use crate::RecoverFault;
use rio_entry::are_rows_saved;
use rio_format::Classes;
use rio_host::Host;
use rio_key::KeyHead;
use rio_tree::TreeHead;
use std::alloc::Global;

/// Whether the rows that the header names are there, and fit its branches; the header was read from a value. The keys are
/// those of the file's records, in order of place.
pub(crate) fn has_rows<H: Host>(
    alloc: Global,
    host: &mut H,
    classes: &Classes,
    heads: &[KeyHead],
    head: &TreeHead,
) -> Result<bool, RecoverFault>
    requires { AreInPlace heads.now }
    ensures rows { (file : List ℕ) (at_place : RecordsAt) (v : Read)
        → (H.view host.old).holds ≡ Some file → AreKeyedIn heads.now file at_place
        → tree_head_in v ≡ Ok head.now
        → Obtains result (λ b. b ≡ is_some (saved_rows classes.now at_place head.now)) }
    // Whatever the host tells.
    ensures whole { IfOk result (λ found. found ≡ true
        → list_all is_whole head.now.branches ≡ true) }
    ensures calls { OnlyReads (H.view host.old) (H.view host.new) }
    ensures cause { IsRecoverCause (H.view host.old) (H.view host.new) result }
{
    let file_length = host.length()?;
    Ok(are_rows_saved(alloc, host, file_length, heads, classes, head)?)
}
