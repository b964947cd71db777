//! Class lists of classes that no script declares.
use crate::rows::classes::{ClassRow, Holds, bare_class, classes_of, member_of};
use rio_describe::{JudgedLists, member_element, tree_classes};
use rio_format::{ClassLists, Classes, Prim};
use rio_info::info_length;
use rio_num::NoMemory;
use std::alloc::Global;

// A class with a pointer to one whose name has 254 bytes, five lines of 50 and one of 4.
static LONG: [ClassRow; 1] = [ClassRow {
    name: "Node",
    version: 1,
    sum: 1_976_999_853,
    bases: &[],
    members: &[
        ("val", Holds::Plain(Prim::I32)),
        (
            "next",
            Holds::Pointer(
                "NNNNNNNNNNNNNNNNNNNNNNNNNNNNNNNNNNNNNNNNNNNNNNNNNN\
                 NNNNNNNNNNNNNNNNNNNNNNNNNNNNNNNNNNNNNNNNNNNNNNNNNN\
                 NNNNNNNNNNNNNNNNNNNNNNNNNNNNNNNNNNNNNNNNNNNNNNNNNN\
                 NNNNNNNNNNNNNNNNNNNNNNNNNNNNNNNNNNNNNNNNNNNNNNNNNN\
                 NNNNNNNNNNNNNNNNNNNNNNNNNNNNNNNNNNNNNNNNNNNNNNNNNN\
                 NNNN",
            ),
        ),
    ],
    title: "",
}];

fn length_of(alloc: Global, rows: &[ClassRow]) -> Result<u64, NoMemory> {
    let classes = classes_of(alloc, rows)?;
    info_length(alloc, &classes)
}

// The list for Node has 4 bytes of a count word, and the 0x1098 that it counts: 4,252. Its last text, `Node*`, takes 6
// of them. With an asterisk behind a name of 254 bytes it is a text of 255 bytes, which takes 260: 254 more.
#[test]
fn a_long_name_of_a_type_has_its_length_in_five_bytes(rt: HostRuntime) {
    assert!(rt; length_of(rt.alloc(), &LONG) == Ok(4506));
}

// Members of classes that are built in or of trees, and the class and the code of their elements.
static MEMBERS: [(Holds, &str, i32); 3] = [
    (Holds::Inline("TObjArray"), "TStreamerObject", 61),
    (Holds::Inline("TArrayI"), "TStreamerObjectAny", 62),
    (Holds::Pointer("TLeafI"), "TStreamerObjectPointer", 64),
];

fn has_element(alloc: Global, holds: Holds, class: &str, code: i32) -> Result<bool, NoMemory> {
    let trees = tree_classes(alloc)?;
    let declared = Classes::new(alloc);
    let owner = bare_class(alloc, "Node", 3, 7)?;
    let member = member_of(alloc, "x", holds, "")?;
    let classes = JudgedLists::new(alloc, ClassLists::Two(&trees, &declared))?;
    let element = member_element(&classes, &owner, &member);
    Ok(element.class_name() == class.as_bytes() && element.code == code)
}

#[test]
fn elements_of_classes_that_are_known(rt: HostRuntime) {
    for (holds, class, code) in &MEMBERS {
        assert!(rt;
            has_element(rt.alloc(), *holds, class, *code) == Ok(true),
            "{}",
            class
        );
    }
}
