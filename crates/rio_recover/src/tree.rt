//! Whether a header's record represents a tree.
ghost use Rattle.std.specs.Prelude.{◌≡◌, true, ℕ, List, Some, IfOk, IfSome};
ghost use Rattle.std.specs.List.{Contains};
ghost use Rattle.rio_head.specs.declared.reason.Reason.TheVariants.{BadTree};
ghost use Rattle.rio_host.specs.Host.{IsWithin};
ghost use Rattle.rio_host.specs.OnlyReads.{OnlyReads};
ghost use Rattle.rio_state.specs.KeyedRecords.{KeyedRecord, is_tree_record};
ghost use Rattle.rio_state.specs.Reasons.{Beside, is_bad_tree, reason_if};
ghost use Rattle.rio_tree.specs.declared.head.TreeHead.{TreeHead as Header};
ghost use Rattle.rio_recover.specs.Baskets.{HasPlaces, NotesPlaces, has_baskets};
ghost use Rattle.rio_recover.specs.Causes.{IsRecoverCause, Judges, Obtains};
ghost use Rattle.rio_recover.specs.Checks.{AreDataBytes, HasNamed, IsBesideOf, IsNext, GivesHeader, NotesHeader, whole_header};
ghost use Rattle.rio_recover.specs.Keys.{AreInPlace, StandsIn, record_end};
ghost use Rattle.rio_recover.specs.Trees.{AreWholeBranches};

use crate::RecoverFault;
use crate::baskets::has_baskets;
use crate::classes::ListedClasses;
use crate::header::read_header;
use crate::named::NamedPlaces;
use crate::rows::has_rows;
use rio_head::Reason;
use rio_host::Host;
use rio_key::KeyHead;
use rio_tree::TreeHead;
use std::alloc::Global;

/// What the keys of a file's items are checked by: the classes of the file, and the keys of all its records, in order
/// of place.
#[derive(Drop)]
pub(crate) struct FileKeys<'a> {
    pub(crate) classes: &'a ListedClasses,
    pub(crate) heads: &'a [KeyHead],
}

// What the header says in the record with this key, where its baskets and its rows are there.
fn whole_header<H: Host>(
    alloc: Global,
    host: &mut H,
    keys: &FileKeys,
    head: &KeyHead,
) -> Result<Option<TreeHead>, RecoverFault>
    requires within { IsWithin (H.view host.old) (record_end head.now) }
    requires rising { AreInPlace keys.now.heads.now }
    ensures told { (file : List ℕ) (beside : Beside) (r : KeyedRecord)
        → (H.view host.old).holds ≡ Some file
        → IsBesideOf file keys.now.classes.now keys.now.heads.now beside
        → Contains beside.records r → r.head ≡ head.now
        → Obtains result (λ found. found ≡ whole_header beside r) }
    ensures plain { (file : List ℕ) (r : KeyedRecord) → (H.view host.old).holds ≡ Some file
        → StandsIn file r → r.head ≡ head.now → IfOk result (λ _. AreDataBytes r) }
    ensures baskets { IfOk result
        (λ found. IfSome found (λ tree. has_baskets keys.now.heads.now tree ≡ true)) }
    ensures whole { IfOk result (λ found. IfSome found AreWholeBranches) }
    ensures calls { OnlyReads (H.view host.old) (H.view host.new) }
    ensures cause { IsRecoverCause (H.view host.old) (H.view host.new) result }
{
    let Some(tree) = read_header(alloc, host, keys.classes, head)? else {
        return Ok(None);
    };
    if !has_baskets(keys.heads, &tree) {
        return Ok(None);
    }
    let classes = keys.classes.registry.classes();
    if has_rows(alloc, host, classes, keys.heads, &tree)? {
        Ok(Some(tree))
    } else {
        Ok(None)
    }
}

fn bad_tree(head: &KeyHead) -> RecoverFault
    ensures { result ≡ RecoverFault.ReadOnly head.now.seek BadTree }
{
    RecoverFault::ReadOnly {
        place: head.seek,
        reason: Reason::BadTree,
    }
}

/// What the header says of the tree that it represents, whose baskets are noted; a header that represents none is
/// refused. It is one of those that count: no other of its name has a greater cycle.
pub(crate) fn check_tree<H: Host>(
    alloc: Global,
    host: &mut H,
    keys: &FileKeys,
    named: &mut NamedPlaces,
    head: &KeyHead,
) -> Result<TreeHead, RecoverFault>
    requires within { IsWithin (H.view host.old) (record_end head.now) }
    requires rising { AreInPlace keys.now.heads.now }
    ensures told { (file : List ℕ) (beside : Beside) (before : List KeyedRecord) (r : KeyedRecord)
        → (H.view host.old).holds ≡ Some file
        → IsBesideOf file keys.now.classes.now keys.now.heads.now beside
        → IsNext beside before r → r.head ≡ head.now
        → is_tree_record beside.tops r ≡ true → HasNamed beside before named.old
        → Judges result (reason_if (is_bad_tree beside r) r.head.seek BadTree)
        (GivesHeader beside before r named.new) }
    ensures noted { IfOk result (NotesHeader keys.now.heads.now named.old named.new) }
    ensures calls { OnlyReads (H.view host.old) (H.view host.new) }
    ensures cause { IsRecoverCause (H.view host.old) (H.view host.new) result }
{
    let Some(tree) = whole_header(alloc, host, keys, head)? else {
        return Err(bad_tree(head));
    };
    if named.note_head(&tree)? {
        Ok(tree)
    } else {
        Err(bad_tree(head))
    }
}
