//! Classes by name, version and checksum, copies of classes, and lists of classes that are the same.
use crate::rows::classes::{ClassRow, Holds, classes_of};
use rio_format::{ClassDef, Classes};
use rio_num::NoMemory;
use std::alloc::Global;

// The class `Node` in two versions, one of them twice.
const FIRST: ClassRow = ClassRow {
    name: "Node",
    version: 1,
    sum: 10,
    bases: &[("TObject", 1)],
    members: &[("next", Holds::Pointer("Node"))],
    title: "",
};

const THIRD: ClassRow = ClassRow {
    name: "Node",
    version: 3,
    sum: 30,
    bases: &[("TObject", 1)],
    members: &[("next", Holds::Pointer("Node"))],
    title: "",
};

const THIRD_AGAIN: ClassRow = ClassRow {
    name: "Node",
    version: 3,
    sum: 31,
    bases: &[("TObject", 1)],
    members: &[("next", Holds::Pointer("Node"))],
    title: "",
};

static THREE: [ClassRow; 3] = [FIRST, THIRD, THIRD_AGAIN];

fn sum_of(class: Option<&ClassDef>) -> Option<u32> {
    class.map(|class| class.sum)
}

fn finds(classes: &Classes) -> bool {
    classes.len() == 3
        && sum_of(classes.newest(b"Node")) == Some(30)
        && sum_of(classes.find(b"Node", 3)) == Some(30)
        && classes.find(b"Node", 2).is_none()
        && classes.find_sum(b"Node", 31).map(|class| class.version) == Some(3)
}

fn is_copied(class: &ClassDef) -> bool {
    match class.copy() {
        Ok(copy) => copy == *class,
        Err(_) => false,
    }
}

fn each_is_copied(classes: &Classes) -> bool {
    for class in classes.as_slice() {
        if !is_copied(class) {
            return false;
        }
    }
    true
}

// Whether they are found, copied, the same as others, and no more so where the last class is taken out.
fn holds(alloc: Global) -> Result<bool, NoMemory> {
    let mut classes = classes_of(alloc, &THREE)?;
    let others = classes_of(alloc, &THREE)?;
    let are_same = classes == others;
    let are_found = finds(&classes) && each_is_copied(&classes);
    classes.remove_last();
    Ok(are_found && are_same && classes != others)
}

#[test]
fn finds_copies_and_compares_classes(rt: HostRuntime) {
    assert!(rt; holds(rt.alloc()) == Ok(true));
}
