//! The classes that commands declared, read from a class list.
ghost use Rattle.std.specs.Prelude.{◌≡◌, ◌↔◌, ◌+◌, ◌++◌, ◌∷◌, ◌<◌, ◌≤◌, ◌^◌, [], length, ℕ, List, Option, Some, IsTrue, MatchBool, MatchOption, IfOk, IfSome};
ghost use Rattle.std.specs.Option.{option_copied, option_map};
ghost use Rattle.rio_format.specs.{declared.class.ClassDef.{ClassDef as Class}, TreeClasses.{written_classes}};
ghost use Rattle.rio_host.specs.Host.{IsWithin};
ghost use Rattle.rio_host.specs.OnlyReads.{OnlyReads};
ghost use Rattle.rio_model.specs.StateClasses.{AreDeclared, HasShortList, IsDeclared, StateClasses};
ghost use Rattle.rio_state.specs.KeyedRecords.{KeyedRecord};
ghost use Rattle.rio_recover.specs.Causes.{IsRecoverCause, Obtains};
ghost use Rattle.rio_recover.specs.Classes.{AreClassesOf, AreListedForState, HasListCycle};
ghost use Rattle.rio_recover.specs.Keys.{StandsIn, record_end};

use crate::RecoverFault;
use crate::object::record_bytes;
use rio_decl::is_stated;
use rio_describe::tree_classes;
use rio_format::{Base, ClassDef, Classes, LENGTH_LIMIT, ObjFault};
use rio_host::Host;
use rio_info::{info_length, read_info};
use rio_key::KeyHead;
use rio_model::DeclareFault;
use rio_num::NoMemory;
use rio_registry::{Registry, is_reserved_name};
use std::alloc::Global;

/// The classes of a file: all that its class list describes, those of trees too, and those that commands declared.
#[derive(Drop)]
pub(crate) struct ListedClasses {
    pub(crate) described: Classes,
    pub(crate) registry: Registry,
}

fn are_same_bases(a: &[Base], b: &[Base]) -> bool
    ensures { IsTrue result ↔ (a.now ≡ b.now) }
{
    a == b
}

fn are_same_classes(a: &[ClassDef], b: &[ClassDef]) -> bool
    ensures { IsTrue result ↔ (a.now ≡ b.now) }
{
    a == b
}

// Whether the last class of the registry has the same bases, in the same versions.
fn has_same_bases(registry: &Registry, class: &ClassDef) -> bool
    ensures { (before : List Class) (last : Class) → registry.now ≡ before ++ last ∷ []
        → IsTrue result ↔ (last.bases ≡ class.now.bases) }
{
    match registry.classes().as_slice() {
        [.., last] => are_same_bases(last.bases.as_slice(), class.bases.as_slice()),
        [] => false,
    }
}

// Declares the class where a command can have declared it so, and tells whether it was.
fn declare_next(alloc: Global, registry: &mut Registry, class: &ClassDef) -> Result<bool, NoMemory>
    ensures { IfOk result (λ declared. MatchBool declared
        (IsDeclared registry.old class.now × (registry.new ≡ registry.old ++ class.now ∷ []))
        (¬ IsDeclared registry.old class.now)) }
{
    if is_reserved_name(class.name.as_slice()) || !is_stated(alloc, class)? {
        return Ok(false);
    }
    match registry.declare(class.copy()?) {
        Ok(()) => Ok(has_same_bases(registry, class)),
        Err(DeclareFault::NoMemory) => Err(NoMemory),
        Err(_) => Ok(false),
    }
}

// The classes, declared one after the other, where commands can have declared them so.
fn declare_all(alloc: Global, classes: &[ClassDef]) -> Result<Option<Registry>, NoMemory>
    ensures { IfOk result (λ found. MatchOption found (¬ AreDeclared [] classes.now)
        (λ registry. AreDeclared [] classes.now × (registry ≡ classes.now))) }
{
    let mut registry = Registry::new(alloc);
    for class in classes {
        if !declare_next(alloc, &mut registry, class)? {
            return Ok(None);
        }
    }
    Ok(Some(registry))
}

// The classes behind those of trees, which a class list begins with.
fn declared_in(alloc: Global, classes: &Classes) -> Result<Option<&[ClassDef]>, NoMemory>
    ensures { IfOk result (λ found. MatchOption found
        (¬ ((declared : List Class) × (classes.now ≡ written_classes declared)))
        (λ declared. classes.now ≡ written_classes declared.now)) }
{
    let trees = tree_classes(alloc)?;
    let listed = classes.as_slice();
    if listed.len() < trees.len() {
        return Ok(None);
    }
    let (front, declared) = listed.split_at(trees.len());
    if are_same_classes(front, trees.as_slice()) {
        Ok(Some(declared))
    } else {
        Ok(None)
    }
}

// Whether the class list that is written for these classes is short enough for a record.
fn has_short_list(alloc: Global, classes: &Classes) -> Result<bool, NoMemory>
    ensures { IfOk result (λ short. IsTrue short ↔ HasShortList classes.now) }
{
    Ok(info_length(alloc, classes)? <= LENGTH_LIMIT)
}

// The classes of a state, where a class list describes these.
fn accept_all(alloc: Global, classes: &Classes) -> Result<Option<Registry>, NoMemory>
    ensures { IfOk result (λ found. MatchOption found
        (¬ AreListedForState classes.now)
        (λ registry. (classes.now ≡ written_classes registry) × StateClasses registry)) }
{
    let Some(declared) = declared_in(alloc, classes)? else {
        return Ok(None);
    };
    let Some(registry) = declare_all(alloc, declared)? else {
        return Ok(None);
    };
    if declared.is_empty() || has_short_list(alloc, registry.classes())? {
        Ok(Some(registry))
    } else {
        Ok(None)
    }
}

// Whether a class list with so many classes may have the cycle.
fn has_cycle_of(registry: &Registry, cycle: u16) -> bool
    ensures { IsTrue result ↔ (cycle ≤ length registry.now + 1) }
{
    usize::from(cycle).saturating_sub(1) <= registry.classes().len()
}

// The classes that the class list with this key and these bytes stands for, or None.
fn listed_classes(
    alloc: Global,
    head: &KeyHead,
    bytes: &[u8],
) -> Result<Option<ListedClasses>, NoMemory>
    requires { length bytes.now < 2 ^ 32 }
    ensures { IfOk result
        (AreClassesOf (Some (record { head = head.now; bytes = bytes.now }))) }
{
    if head.class.as_slice() != b"TList".as_slice() {
        return Ok(None);
    }
    let classes = match read_info(alloc, head.data_of(bytes), u64::from(head.keylen)) {
        Ok(classes) => classes,
        Err(ObjFault::NoMemory) => return Err(NoMemory),
        Err(_) => return Ok(None),
    };
    match accept_all(alloc, &classes)? {
        Some(registry) if has_cycle_of(&registry, head.cycle) => Ok(Some(ListedClasses {
            described: classes,
            registry,
        })),
        _ => Ok(None),
    }
}

/// The classes of the file whose class list that counts has this key, or None where they have no
/// reading. A file without a class list has no classes.
pub(crate) fn read_classes<H: Host>(
    alloc: Global,
    host: &mut H,
    info: Option<&KeyHead>,
) -> Result<Option<ListedClasses>, RecoverFault>
    requires { IfSome (option_copied info)
        (λ head. IsWithin (H.view host.old) (record_end head)) }
    ensures classes { (file : List ℕ) (found : Option KeyedRecord)
        → (H.view host.old).holds ≡ Some file → IfSome found (StandsIn file)
        → option_map (λ r. r.head) found ≡ option_copied info.entry
        → Obtains result (AreClassesOf found) }
    ensures state { IfOk result (λ found. IfSome found (λ classes. StateClasses classes.registry)) }
    ensures listed { IfOk result (λ found. IfSome found
        (λ classes. HasListCycle (option_copied info.entry) classes.registry)) }
    ensures calls { OnlyReads (H.view host.old) (H.view host.new) }
    ensures cause { IsRecoverCause (H.view host.old) (H.view host.new) result }
{
    match info {
        Some(head) => {
            let bytes = record_bytes(alloc, host, head)?;
            Ok(listed_classes(alloc, head, &bytes)?)
        }
        None => Ok(Some(ListedClasses {
            described: Classes::new(alloc),
            registry: Registry::new(alloc),
        })),
    }
}
