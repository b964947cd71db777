//! Declarations that no script has, and what each of them is answered.
use crate::rows::classes::{bare_class, name_of};
use rio_format::{Base, ClassDef, Kind, Member, Members};
use rio_num::{Name, NoMemory};
use rio_registry::{DeclareFault, Registry};
use std::alloc::Global;

// A class and the answer to its declaration. Its parts are bases `:NAME`, members by value `=NAME` and pointers `*NAME`.
type Row = (
    &'static str,
    i32,
    &'static [&'static str],
    Option<DeclareFault>,
);

static TWO_CLASSES: [Row; 2] = [
    ("Node", 1, &["*Node"], None),
    (
        "A",
        1,
        &[":TObject", "*TNamed", "*TObjArray", "*TList", "*TObjString"],
        None,
    ),
];

// A base may be TObject before a class of this name is declared.
static BUILT_IN_NAME: [Row; 3] = [
    ("A", 1, &[":TObject"], None),
    ("TObject", 1, &["=A"], Some(DeclareFault::HoldsItself)),
    ("TObject", 1, &["*A"], None),
];

static TWO_VERSIONS: [Row; 2] = [("P", 1, &[], None), ("P", 3, &[], None)];

static OF_P: Row = ("D", 1, &[":P"], None);

static OF_ITSELF: Row = ("D", 1, &["=D"], Some(DeclareFault::HoldsItself));

fn push_member(members: &mut Members, kind: Kind) -> Result<(), NoMemory> {
    let name = name_of(members.allocator(), "x")?;
    let title = name_of(members.allocator(), "")?;
    members.push(Member { name, kind, title })
}

fn push_named(class: &mut ClassDef, sign: u8, name: &[u8]) -> Result<(), NoMemory> {
    let name = Name::from_slice(class.bases.allocator(), name)?;
    match sign {
        b':' => class.bases.push(Base { name, version: 0 }),
        b'=' => push_member(&mut class.members, Kind::Inline { class: name }),
        _ => push_member(&mut class.members, Kind::Pointer { class: name }),
    }
}

fn push_part(class: &mut ClassDef, part: &str) -> Result<(), NoMemory> {
    match part.as_bytes().split_first() {
        Some((sign, name)) => push_named(class, *sign, name),
        None => Ok(()),
    }
}

fn class_of(alloc: Global, row: &Row) -> Result<ClassDef, NoMemory> {
    let mut class = bare_class(alloc, row.0, row.1, 0)?;
    for part in row.2 {
        push_part(&mut class, part)?;
    }
    Ok(class)
}

fn is_answered(alloc: Global, registry: &mut Registry, row: &Row) -> bool {
    match class_of(alloc, row) {
        Ok(class) => registry.declare(class).err() == row.3,
        Err(_) => false,
    }
}

// Whether each of the rows is answered as it says, one after the other.
fn are_answered(alloc: Global, registry: &mut Registry, rows: &[Row]) -> bool {
    for row in rows {
        if !is_answered(alloc, registry, row) {
            return false;
        }
    }
    true
}

fn holds(alloc: Global, rows: &[Row]) -> bool {
    let mut registry = Registry::new(alloc);
    are_answered(alloc, &mut registry, rows)
}

// Takes the last of two classes out.
fn forgets(registry: &mut Registry) -> bool {
    if registry.classes().len() != 2 {
        return false;
    }
    registry.forget_last();
    true
}

// Whether the last row is answered as before once its class is taken out.
fn holds_again(alloc: Global) -> bool {
    let mut registry = Registry::new(alloc);
    are_answered(alloc, &mut registry, &TWO_CLASSES)
        && forgets(&mut registry)
        && are_answered(alloc, &mut registry, &TWO_CLASSES[1..])
}

fn judged(alloc: Global, registry: &Registry, row: &Row) -> Result<ClassDef, DeclareFault> {
    let class = class_of(alloc, row)?;
    registry.judge(&class)
}

fn has_base(class: &ClassDef, version: i32) -> bool {
    match class.bases.get(0) {
        Some(base) => base.version == version,
        None => false,
    }
}

fn is_judged(alloc: Global, registry: &Registry, row: &Row, version: i32) -> bool {
    match judged(alloc, registry, row) {
        Ok(class) => has_base(&class, version),
        Err(_) => false,
    }
}

fn is_refused(alloc: Global, registry: &Registry, row: &Row) -> bool {
    match judged(alloc, registry, row) {
        Ok(_) => false,
        Err(fault) => row.3 == Some(fault),
    }
}

fn judges(alloc: Global) -> bool {
    let mut registry = Registry::new(alloc);
    are_answered(alloc, &mut registry, &TWO_VERSIONS)
        && is_judged(alloc, &registry, &OF_P, 3)
        && is_refused(alloc, &registry, &OF_ITSELF)
        && registry.classes().len() == 2
}

#[test]
fn declares_judges_and_forgets(rt: HostRuntime) {
    assert!(rt; holds(rt.alloc(), &BUILT_IN_NAME));
    assert!(rt; holds_again(rt.alloc()));
    assert!(rt; judges(rt.alloc()));
}
