//! The first reason against the key of an object or a tree.
ghost use Rattle.std.specs.Prelude.{◌≡◌, ◌==◌, ◌∷◌, ◌++◌, [], not, true, false, length, ℕ, List, Option, Some, IfOk, OnOk};
ghost use Rattle.std.specs.List.{Contains, filter};
ghost use Rattle.std.specs.Option.{is_some};
ghost use Rattle.rio_num.specs.Word.{is_item_text};
ghost use Rattle.rio_key.specs.declared.head.KeyHead.{KeyHead as Key};
ghost use Rattle.rio_head.specs.declared.reason.Reason.TheVariants.{BadKey, BadName, BadObject};
ghost use Rattle.rio_host.specs.Host.{IsWithin};
ghost use Rattle.rio_host.specs.OnlyReads.{OnlyReads};
ghost use Rattle.rio_state.specs.KeyedRecords.{KeyedRecord, is_top_key, is_tree_key, top_keys};
ghost use Rattle.rio_state.specs.Reasons.{Beside, is_bad_object, key_reasons, keys_reasons, reason_if};
ghost use Rattle.rio_recover.specs.Causes.{CallsNoHost, IsRecoverCause, Judges};
ghost use Rattle.rio_recover.specs.Checks.{GivesValue, GivesTree, HasChecked, HasNamed, IsBesideOf, IsChecking, IsNext, beside_of, is_untitled, kind_of, value_reasons};
ghost use Rattle.rio_recover.specs.Keys.{AreInPlace, AreWithin, StandsIn, keyed_by, record_end, record_heads};

use crate::RecoverFault;
use crate::keys::{is_top_key, is_tree_key};
use crate::named::NamedPlaces;
use crate::names::{NameIndex, put_new};
use crate::object::is_object;
use crate::tree::{FileKeys, check_tree};
use crate::trees::{TreeAt, Trees};
use rio_dir::KeyTable;
use rio_format::Classes;
use rio_head::Reason;
use rio_host::Host;
use rio_key::KeyHead;
use rio_num::{NoMemory, is_item};
use rio_tree::TreeHead;
use std::alloc::Global;

/// What a key of a file's items is.
#[derive(Clone, Copy, PartialEq, Eq, Drop)]
pub(crate) enum KeyKind {
    Object,
    /// A tree's, of the greatest cycle of its name.
    Tree,
    /// A tree's, of which there is a greater cycle. It is no item.
    Outdated,
}

/// What is known of the other keys while the keys of objects and trees are checked one after the other.
#[derive(Drop)]
pub(crate) struct KeyCheck {
    /// Those of the whole file.
    pub(crate) names: NameIndex,
    /// The keys of items that were checked so far: of each name of trees that of the greatest cycle.
    pub(crate) items: KeyTable,
    /// The other keys of trees that were checked so far.
    pub(crate) outdated: KeyTable,
    /// The trees so far.
    pub(crate) trees: Trees,
    /// Where the baskets begin that their headers name.
    pub(crate) named: NamedPlaces,
}

fn read_only(head: &KeyHead, reason: Reason) -> RecoverFault
    ensures { result ≡ RecoverFault.ReadOnly head.now.seek reason }
{
    RecoverFault::ReadOnly {
        place: head.seek,
        reason,
    }
}

// Refuses a name that no script can say, and a title.
fn check_name(head: &KeyHead) -> Result<(), RecoverFault>
    ensures told { Judges result
        (reason_if (not (is_item_text head.now.name)) head.now.seek BadName
        ++ reason_if (not (length head.now.title == 0)) head.now.seek BadKey) (λ _. Unit {0}) }
    ensures untitled { OnOk result (is_untitled head.now ≡ true) }
    ensures alone { CallsNoHost result }
{
    if !is_item(head.name.as_slice()) {
        return Err(read_only(head, Reason::BadName));
    }
    if !head.title.is_empty() {
        return Err(read_only(head, Reason::BadKey));
    }
    Ok(())
}

impl KeyCheck {
    ghost use Rattle.std.specs.Prelude.{◌≡◌, ◌∷◌, ◌++◌, [], List, OnOk};
    ghost use Rattle.rio_state.specs.KeyedRecords.{KeyedRecord, top_keys};
    ghost use Rattle.rio_state.specs.Reasons.{Beside};
    ghost use Rattle.rio_recover.specs.Causes.{CallsNoHost, Judges};
    ghost use Rattle.rio_recover.specs.Checks.{HasKeys, NotesTree, PassesKey, has_passed, is_item_key, item_reasons, kind_of};
    ghost use Rattle.rio_recover.specs.Names.{IndexesNames};
    ghost use Rattle.rio_recover.specs.Keys.{keyed_by};
    ghost use Rattle.rio_recover.specs.Baskets.{HasPlaces};

    // Before the first key of the file with these keys.
    fn new(alloc: Global, heads: &[KeyHead]) -> Result<KeyCheck, NoMemory>
        ensures names { IfOk result
            (λ check. IndexesNames (top_keys (keyed_by heads.now)) check.names) }
        ensures items { IfOk result (λ check. check.items.heads ≡ []) }
        ensures outdated { IfOk result (λ check. check.outdated.heads ≡ []) }
        ensures trees { IfOk result (λ check. check.trees ≡ []) }
        ensures named { IfOk result (λ check. HasPlaces [] check.named) }
    {
        Ok(KeyCheck {
            names: NameIndex::of(alloc, heads)?,
            items: KeyTable::new(alloc),
            outdated: KeyTable::new(alloc),
            trees: Trees::new(alloc),
            named: NamedPlaces::new(alloc),
        })
    }

    // What the key is among those of the file.
    fn kind_of(&self, head: &KeyHead) -> KeyKind
        ensures { (tops : List KeyedRecord) → IndexesNames tops self.now.names
            → result ≡ kind_of tops head.now }
    {
        if !is_tree_key(head) {
            KeyKind::Object
        } else if self.names.is_outdated(head) {
            KeyKind::Outdated
        } else {
            KeyKind::Tree
        }
    }

    /// Whether the key is that of an item.
    pub(crate) fn is_item(&self, head: &KeyHead) -> bool
        ensures { (tops : List KeyedRecord) → IndexesNames tops self.now.names
            → result ≡ is_item_key tops head.now }
    {
        !is_tree_key(head) || !self.names.is_outdated(head)
    }

    // Whether a key of its name and cycle was checked before.
    fn has_passed(&self, head: &KeyHead) -> bool
        ensures { result ≡ has_passed self.now head.now }
    {
        let name = head.name.as_slice();
        self.items.find(name, Some(head.cycle)).is_some()
            || self.outdated.find(name, Some(head.cycle)).is_some()
    }

    // Notes a key that was checked. None of its name and cycle is there.
    fn pass(&mut self, head: &KeyHead, kind: KeyKind) -> Result<(), NoMemory>
        requires { has_passed self.old head.now ≡ false }
        ensures { OnOk result (PassesKey head.now kind self.old self.new) }
    {
        match kind {
            KeyKind::Object | KeyKind::Tree => put_new(&mut self.items, head)?,
            KeyKind::Outdated => put_new(&mut self.outdated, head)?,
        };
        Ok(())
    }

    // Refuses a key with the name and cycle of an earlier one, and a name that is that of a tree and of an object.
    fn check_item(&mut self, head: &KeyHead, kind: KeyKind) -> Result<(), RecoverFault>
        ensures told { (beside : Beside) (before : List KeyedRecord) (r : KeyedRecord)
            → r.head ≡ head.now → HasKeys beside before self.old
            → Judges result (item_reasons beside before r) (λ _. Unit {0}) }
        ensures passed { OnOk result (PassesKey head.now kind self.old self.new) }
        ensures alone { CallsNoHost result }
    {
        if self.has_passed(head) {
            return Err(read_only(head, Reason::DoubleKey));
        }
        if self.names.is_mixed(head.name.as_slice()) {
            return Err(read_only(head, Reason::MixedName));
        }
        self.pass(head, kind)?;
        Ok(())
    }

    // Notes the tree of a header. Of one name no two are noted, since they would have the same cycle.
    fn note_tree(&mut self, head: &KeyHead, tree: TreeHead) -> Result<(), RecoverFault>
        ensures { NotesTree head.now tree self.old self.new result }
    {
        let name = head.name.copy()?;
        if self.trees.put(TreeAt { name, head: tree })? {
            Ok(())
        } else {
            Err(read_only(head, Reason::DoubleKey))
        }
    }
}

// Refuses an object that its record doesn't stand for.
fn check_object<H: Host>(
    alloc: Global,
    host: &mut H,
    classes: &Classes,
    head: &KeyHead,
) -> Result<(), RecoverFault>
    requires { IsWithin (H.view host.old) (record_end head.now) }
    ensures told { (file : List ℕ) (r : KeyedRecord) (beside : Beside)
        → (H.view host.old).holds ≡ Some file → StandsIn file r → r.head ≡ head.now
        → beside.classes.declared ≡ classes.now → is_tree_key head.now ≡ false
        → Judges result (reason_if (is_bad_object beside r) r.head.seek BadObject) (λ _. Unit {0}) }
    ensures calls { OnlyReads (H.view host.old) (H.view host.new) }
    ensures cause { IsRecoverCause (H.view host.old) (H.view host.new) result }
{
    if is_object(alloc, host, classes, head)? {
        Ok(())
    } else {
        Err(read_only(head, Reason::BadObject))
    }
}

// Refuses an object that its record doesn't stand for, and a tree that its header doesn't represent. Of a tree it
// gives what its header says, and it notes the baskets of that.
fn check_value<H: Host>(
    alloc: Global,
    host: &mut H,
    keys: &FileKeys,
    named: &mut NamedPlaces,
    head: &KeyHead,
    kind: KeyKind,
) -> Result<Option<TreeHead>, RecoverFault>
    requires within { IsWithin (H.view host.old) (record_end head.now) }
    requires rising { AreInPlace keys.now.heads.now }
    ensures told { (file : List ℕ) (beside : Beside) (before : List KeyedRecord) (r : KeyedRecord)
        → (H.view host.old).holds ≡ Some file
        → IsBesideOf file keys.now.classes.now keys.now.heads.now beside
        → IsNext beside before r → r.head ≡ head.now → kind ≡ kind_of beside.tops head.now
        → HasNamed beside before named.old
        → Judges result (value_reasons beside r) (GivesTree beside before r named.new) }
    ensures value { IfOk result
        (GivesValue keys.now.heads.now kind named.old named.new) }
    ensures calls { OnlyReads (H.view host.old) (H.view host.new) }
    ensures cause { IsRecoverCause (H.view host.old) (H.view host.new) result }
{
    match kind {
        KeyKind::Object => {
            check_object(alloc, host, keys.classes.registry.classes(), head)?;
            Ok(None)
        }
        KeyKind::Tree => Ok(Some(check_tree(alloc, host, keys, named, head)?)),
        KeyKind::Outdated => Ok(None),
    }
}

// Refuses the key of an object or a tree for the first reason.
fn check_key<H: Host>(
    alloc: Global,
    host: &mut H,
    keys: &FileKeys,
    check: &mut KeyCheck,
    head: &KeyHead,
) -> Result<(), RecoverFault>
    requires within { IsWithin (H.view host.old) (record_end head.now) }
    requires rising { AreInPlace keys.now.heads.now }
    ensures told { (file : List ℕ) (beside : Beside) (before : List KeyedRecord) (r : KeyedRecord)
        → (H.view host.old).holds ≡ Some file
        → IsBesideOf file keys.now.classes.now keys.now.heads.now beside
        → IsNext beside before r → r.head ≡ head.now → IsChecking beside before check.old
        → Judges result (key_reasons beside before r)
        (λ _. IsChecking beside (before ++ r ∷ []) check.new) }
    // Whatever the host tells.
    ensures checked { OnOk result ((before : List Key)
        → HasChecked keys.now.heads.now before check.old
        → HasChecked keys.now.heads.now (before ++ head.now ∷ []) check.new) }
    ensures calls { OnlyReads (H.view host.old) (H.view host.new) }
    ensures cause { IsRecoverCause (H.view host.old) (H.view host.new) result }
{
    check_name(head)?;
    let kind = check.kind_of(head);
    let value = check_value(alloc, host, keys, &mut check.named, head, kind)?;
    check.check_item(head, kind)?;
    match value {
        Some(tree) => check.note_tree(head, tree),
        None => Ok(()),
    }
}

/// What is known of the keys of a file's objects and trees, where nothing is against them.
pub(crate) fn check_keys<H: Host>(
    alloc: Global,
    host: &mut H,
    keys: &FileKeys,
) -> Result<KeyCheck, RecoverFault>
    requires within { AreWithin (H.view host.old) keys.now.heads.now }
    requires rising { AreInPlace keys.now.heads.now }
    ensures told { (file : List ℕ) (records : List KeyedRecord)
        → (H.view host.old).holds ≡ Some file
        → IsBesideOf file keys.now.classes.now keys.now.heads.now
        (beside_of keys.now.classes.now records)
        → Judges result (keys_reasons (beside_of keys.now.classes.now records) [] (top_keys records))
        (IsChecking (beside_of keys.now.classes.now records) (top_keys records)) }
    // Whatever the host tells.
    ensures checked { IfOk result
        (HasChecked keys.now.heads.now (filter is_top_key keys.now.heads.now)) }
    ensures calls { OnlyReads (H.view host.old) (H.view host.new) }
    ensures cause { IsRecoverCause (H.view host.old) (H.view host.new) result }
{
    let mut check = KeyCheck::new(alloc, keys.heads)?;
    for head in keys.heads {
        if is_top_key(head) {
            check_key(alloc, host, keys, &mut check, head)?;
        }
    }
    Ok(check)
}
