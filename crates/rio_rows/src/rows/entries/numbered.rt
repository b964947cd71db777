//! The numbers of entries: one for each value, which is 0 of all but a single integer.
use super::{CLASSES, branch_of, counts_of};
use crate::rows::classes::classes_of;
use rio_entry::entry_numbers;
use rio_format::{Classes, Value, Values};
use rio_leaf::BranchDef;
use std::alloc::Global;

// The leaves, or the class; what counts each leaf in an earlier branch; the bytes; and the numbers.
struct Row {
    leaves: &'static str,
    counts: &'static [i128],
    bytes: &'static [u8],
    numbers: &'static [i128],
}

static ROWS: [Row; 7] = [
    Row {
        leaves: "x/I",
        counts: &[],
        bytes: b"\xff\xff\xff\xfd",
        numbers: &[-3],
    },
    Row {
        leaves: "a/b:b/s:c/i:d/l",
        counts: &[],
        bytes: b"\xff\xff\xff\xff\xff\xff\xff\xff\xff\xff\xff\xff\xff\xff\xff",
        numbers: &[255, 65_535, 4_294_967_295, 18_446_744_073_709_551_615],
    },
    Row {
        leaves: "f/F:d/D:o/O:x/S",
        counts: &[],
        bytes: b"\x3f\x80\0\0\x3f\xf0\0\0\0\0\0\0\x01\0\x02",
        numbers: &[0, 0, 0, 2],
    },
    Row {
        leaves: "c/C:n/I:w[n]/b:x[2]/S",
        counts: &[],
        bytes: b"\x02hi\0\0\0\x02\x07\xff\0\x01\0\x02",
        numbers: &[0, 2, 0, 0],
    },
    // What counts stands in an earlier branch.
    Row {
        leaves: "v[n]/F",
        counts: &[1],
        bytes: b"\x3f\x80\0\0",
        numbers: &[0],
    },
    // A list of one integer is a list.
    Row {
        leaves: "n/I:w[n]/b:y/I",
        counts: &[],
        bytes: b"\0\0\0\x01\x07\0\0\0\x05",
        numbers: &[1, 0, 5],
    },
    // An object has 0, whatever its members have and however many they are.
    Row {
        leaves: "class:C",
        counts: &[],
        bytes: b"\x40\0\0\x0b\0\x01\0\0\0\x01\x01\x3f\x80\0\0",
        numbers: &[0],
    },
];

fn are(values: &[Value], numbers: &[i128]) -> bool {
    for (k, value) in values.iter().enumerate() {
        match (value, numbers.get(k)) {
            (Value::Int(n), Some(m)) if n == m => {}
            _ => return false,
        }
    }
    values.len() == numbers.len()
}

impl Row {
    fn has(&self, alloc: Global, classes: &Classes, branch: &BranchDef, counts: &Values) -> bool {
        if self.bytes.len() > 1000 {
            return false;
        }
        match entry_numbers(alloc, classes, branch, counts, self.bytes) {
            Ok(numbers) => are(numbers.as_slice(), self.numbers),
            Err(_) => false,
        }
    }

    fn holds(&self, alloc: Global) -> bool {
        match (
            classes_of(alloc, &CLASSES),
            branch_of(alloc, self.leaves),
            counts_of(alloc, self.counts),
        ) {
            (Ok(classes), Ok(branch), Ok(counts)) => self.has(alloc, &classes, &branch, &counts),
            _ => false,
        }
    }
}

#[test]
fn entries_have_numbers(rt: HostRuntime) {
    for row in &ROWS {
        assert!(rt; row.holds(rt.alloc()), "{} {:?}", row.leaves, row.bytes);
    }
}
