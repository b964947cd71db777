//! Entries that are whole, and entries that break at a place: `check_entry` and `entry_numbers` return what `read_entry` does.
mod numbered;

use crate::rows::classes::{ClassRow, Holds, classes_of, name_of};
use crate::rows::leaf_lists::branch_of_row;
use rio_entry::{EntryFault, check_entry, entry_numbers, read_entry};
use rio_format::{Classes, Prim, Value, Values};
use rio_leaf::{BranchDef, LeafFault, Shape};
use rio_num::{Name, NoMemory};
use std::alloc::Global;

// The classes `Node 1 { val: i32, next: Node* }` and `C 1 { n: i32, v: f32[n] }`.
static CLASSES: [ClassRow; 2] = [
    ClassRow {
        name: "Node",
        version: 1,
        sum: 0,
        bases: &[],
        members: &[
            ("val", Holds::Plain(Prim::I32)),
            ("next", Holds::Pointer("Node")),
        ],
        title: "",
    },
    ClassRow {
        name: "C",
        version: 1,
        sum: 0,
        bases: &[],
        members: &[("n", Holds::Counter), ("v", Holds::Counted(Prim::F32, "n"))],
        title: "",
    },
];

// The leaves, or the class behind `class:`; what counts each leaf in an earlier branch; the bytes; and the place where they break.
struct Row {
    leaves: &'static str,
    counts: &'static [i128],
    bytes: &'static [u8],
    place: Option<u64>,
}

static ROWS: [Row; 24] = [
    Row {
        leaves: "x/I",
        counts: &[],
        bytes: b"\0\0\0\x03",
        place: None,
    },
    // A byte too few, and a byte too many.
    Row {
        leaves: "x/I",
        counts: &[],
        bytes: b"\0\0\0",
        place: Some(0),
    },
    Row {
        leaves: "x/I",
        counts: &[],
        bytes: b"\0\0\0\x03\0",
        place: Some(4),
    },
    Row {
        leaves: "x/I:y/S",
        counts: &[],
        bytes: b"\0\0\0\x03\0",
        place: Some(4),
    },
    // A list breaks where its first value stands that isn't whole.
    Row {
        leaves: "x[2]/I",
        counts: &[7],
        bytes: b"\0\0\0\x01\xff\xff\xff\xff",
        place: None,
    },
    Row {
        leaves: "x[2]/I",
        counts: &[7],
        bytes: b"\0\0\0\x01\xff\xff\xff",
        place: Some(4),
    },
    Row {
        leaves: "v[n]/F",
        counts: &[3],
        bytes: b"\x3f\x80\0\0\x40\0\0\0\x40\x40\0\0",
        place: None,
    },
    Row {
        leaves: "v[n]/F",
        counts: &[3],
        bytes: b"\x3f\x80\0\0\x40\0\0\0\x40\x40",
        place: Some(8),
    },
    Row {
        leaves: "v[n]/F",
        counts: &[1_000_000_000_000],
        bytes: b"\x3f\x80\0\0\x40\0\0\0",
        place: Some(8),
    },
    // A count below 0 breaks where the values would begin.
    Row {
        leaves: "v[n]/F",
        counts: &[-1],
        bytes: b"",
        place: Some(0),
    },
    Row {
        leaves: "n/I:w[n]/b",
        counts: &[9, 1],
        bytes: b"\xff\xff\xff\xff",
        place: Some(4),
    },
    // A leaf before it in the branch counts, whatever count is given.
    Row {
        leaves: "n/I:w[n]/b",
        counts: &[9, 1],
        bytes: b"\0\0\0\x02\x07\xff",
        place: None,
    },
    Row {
        leaves: "n/I:w[n]/b",
        counts: &[9, 1],
        bytes: b"\0\0\0\x02\x07",
        place: Some(5),
    },
    Row {
        leaves: "n/I:w[n]/b",
        counts: &[9, 1],
        bytes: b"\0\0\0\x01\x07\xff",
        place: Some(5),
    },
    Row {
        leaves: "n/I:m/I:w[n]/b:x[m]/S",
        counts: &[],
        bytes: b"\0\0\0\x01\0\0\0\x02\x07\0\x01\0\x02",
        place: None,
    },
    Row {
        leaves: "c/C:x/I",
        counts: &[],
        bytes: b"\x02hi\0\0\0\x05",
        place: None,
    },
    // A text breaks where its length stands.
    Row {
        leaves: "c/C:x/I",
        counts: &[],
        bytes: b"\x05hi",
        place: Some(0),
    },
    Row {
        leaves: "x/I:c/C",
        counts: &[],
        bytes: b"\0\0\0\x05\x03hi",
        place: Some(4),
    },
    // Three nodes, each of which points to the next one: whole, with a byte behind them, and without their last byte, where the
    // count of the first one breaks.
    Row {
        leaves: "class:Node",
        counts: &[],
        bytes: b"\x40\0\0\x33\0\x01\0\0\0\x01\x40\0\0\x29\xff\xff\xff\xffNode\0\
                 \x40\0\0\x1c\0\x01\0\0\0\x02\x40\0\0\x12\x80\0\0\x10\
                 \x40\0\0\x0a\0\x01\0\0\0\x03\0\0\0\0",
        place: None,
    },
    Row {
        leaves: "class:Node",
        counts: &[],
        bytes: b"\x40\0\0\x33\0\x01\0\0\0\x01\x40\0\0\x29\xff\xff\xff\xffNode\0\
                 \x40\0\0\x1c\0\x01\0\0\0\x02\x40\0\0\x12\x80\0\0\x10\
                 \x40\0\0\x0a\0\x01\0\0\0\x03\0\0\0\0\0",
        place: Some(55),
    },
    Row {
        leaves: "class:Node",
        counts: &[],
        bytes: b"\x40\0\0\x33\0\x01\0\0\0\x01\x40\0\0\x29\xff\xff\xff\xffNode\0\
                 \x40\0\0\x1c\0\x01\0\0\0\x02\x40\0\0\x12\x80\0\0\x10\
                 \x40\0\0\x0a\0\x01\0\0\0\x03\0\0\0",
        place: Some(0),
    },
    // A list in an object: whole, without its last byte, and with a counter that says two.
    Row {
        leaves: "class:C",
        counts: &[],
        bytes: b"\x40\0\0\x0b\0\x01\0\0\0\x01\x01\x3f\x80\0\0",
        place: None,
    },
    Row {
        leaves: "class:C",
        counts: &[],
        bytes: b"\x40\0\0\x0b\0\x01\0\0\0\x01\x01\x3f\x80\0",
        place: Some(0),
    },
    Row {
        leaves: "class:C",
        counts: &[],
        bytes: b"\x40\0\0\x0b\0\x01\0\0\0\x02\x01\x3f\x80\0\0",
        place: Some(15),
    },
];

fn counts_of(alloc: Global, counts: &[i128]) -> Result<Values, NoMemory> {
    let mut values = Values::new(alloc);
    for n in counts {
        values.push(Value::Int(*n))?;
    }
    Ok(values)
}

// A branch of these leaves, or of the class behind `class:`.
fn branch_of(alloc: Global, leaves: &str) -> Result<BranchDef, LeafFault> {
    match leaves.strip_prefix("class:") {
        Some(class) => Ok(BranchDef {
            name: Name::new(alloc),
            shape: Shape::Class(name_of(alloc, class)?),
        }),
        None => branch_of_row(alloc, "", leaves),
    }
}

fn is_told(told: Option<EntryFault>, place: Option<u64>) -> bool {
    match told {
        Some(EntryFault::BadEntry { place: at }) => place == Some(at),
        Some(_) => false,
        None => place.is_none(),
    }
}

// Whether all three calls find the bytes to be whole, or to break at the place.
fn is_checked(
    alloc: Global,
    classes: &Classes,
    branch: &BranchDef,
    counts: &Values,
    bytes: &[u8],
    place: Option<u64>,
) -> bool {
    if bytes.len() > 1000 {
        return false;
    }
    let checked = check_entry(alloc, classes, branch, counts, bytes).err();
    let numbered = entry_numbers(alloc, classes, branch, counts, bytes).err();
    let read = read_entry(alloc, classes, branch, counts, bytes).err();
    is_told(checked, place) && is_told(numbered, place) && is_told(read, place)
}

impl Row {
    fn holds(&self, alloc: Global) -> bool {
        match (
            classes_of(alloc, &CLASSES),
            branch_of(alloc, self.leaves),
            counts_of(alloc, self.counts),
        ) {
            (Ok(classes), Ok(branch), Ok(counts)) => {
                is_checked(alloc, &classes, &branch, &counts, self.bytes, self.place)
            }
            _ => false,
        }
    }
}

#[test]
fn entries_are_checked(rt: HostRuntime) {
    for row in &ROWS {
        assert!(rt; row.holds(rt.alloc()), "{} {:?}", row.leaves, row.bytes);
    }
}
