//! Baskets whose entries stand behind offsets. The number of offsets stands at 69, the offsets at 73, 77, 81 and 85.
use super::{Fields, Found, Row, found_otherwise};
use rio_key::BasketFault;

/// No byte, twelve and none, and three zero bytes behind the offsets.
const V: Fields = Fields {
    nbytes: 92,
    objlen: 35,
    keylen: 57,
    buffer_size: 32_000,
    entry_size: 3,
    count: 3,
    last: 69,
    entries: b"abcdefghijkl",
    table: &[4, 57, 57, 69, 69],
    behind: b"\0\0\0",
};

/// An offset for each entry alone.
const SHORT: Fields = Fields {
    nbytes: 88,
    objlen: 31,
    table: &[3, 57, 57, 69],
    ..V
};

const ROW: Row = Row {
    name: "three entries, and where the last one ends",
    fields: V,
    bytes: usize::MAX,
    offsets: true,
    found: Found::Holds(&[b"", b"abcdefghijkl", b""]),
};

static READ: [Row; 8] = [
    ROW,
    Row {
        name: "three offsets",
        fields: SHORT,
        ..ROW
    },
    Row {
        name: "nothing behind three offsets",
        fields: Fields {
            nbytes: 85,
            objlen: 28,
            behind: b"",
            ..SHORT
        },
        ..ROW
    },
    Row {
        name: "an offset behind those of the entries that says nothing",
        fields: Fields {
            table: &[4, 57, 57, 69, 60],
            ..V
        },
        ..ROW
    },
    Row {
        name: "bytes before the first entry",
        fields: Fields {
            table: &[4, 60, 60, 69, 4_294_967_295],
            ..V
        },
        found: Found::Holds(&[b"", b"defghijkl", b""]),
        ..ROW
    },
    Row {
        name: "entries of other lengths",
        fields: Fields {
            table: &[4, 57, 59, 62, 69],
            ..V
        },
        found: Found::Holds(&[b"ab", b"cde", b"fghijkl"]),
        ..ROW
    },
    Row {
        name: "no entries, and no offsets",
        fields: Fields {
            nbytes: 76,
            objlen: 19,
            count: 0,
            table: &[0],
            ..V
        },
        found: Found::Holds(&[]),
        ..ROW
    },
    Row {
        name: "no entries, and an offset that says nothing",
        fields: Fields {
            nbytes: 80,
            objlen: 23,
            count: 0,
            table: &[1, 0],
            ..V
        },
        found: Found::Holds(&[]),
        ..ROW
    },
];

/// The count, and the offsets in order.
const AT_COUNT: Row = Row {
    found: Found::Breaks(BasketFault::BadOffsets { place: 69 }),
    ..ROW
};

const AT_FIRST: Row = Row {
    found: Found::Breaks(BasketFault::BadOffsets { place: 73 }),
    ..ROW
};

const AT_SECOND: Row = Row {
    found: Found::Breaks(BasketFault::BadOffsets { place: 77 }),
    ..ROW
};

const AT_THIRD: Row = Row {
    found: Found::Breaks(BasketFault::BadOffsets { place: 81 }),
    ..ROW
};

const AT_FOURTH: Row = Row {
    found: Found::Breaks(BasketFault::BadOffsets { place: 85 }),
    ..ROW
};

static BAD_OFFSETS: [Row; 15] = [
    Row {
        name: "two offsets more than entries",
        fields: Fields {
            table: &[5, 57, 57, 69, 69, 69],
            nbytes: 96,
            objlen: 39,
            ..V
        },
        ..AT_COUNT
    },
    Row {
        name: "an offset less than entries",
        fields: Fields {
            table: &[2, 57, 57, 69, 69],
            ..V
        },
        ..AT_COUNT
    },
    // What lacks in the record stands behind it.
    Row {
        name: "the record ends within the count",
        fields: Fields {
            nbytes: 72,
            objlen: 15,
            ..V
        },
        ..AT_COUNT
    },
    Row {
        name: "the record ends within the first offset",
        fields: Fields {
            nbytes: 76,
            objlen: 19,
            ..V
        },
        ..AT_FIRST
    },
    Row {
        name: "the record ends within the third offset",
        fields: Fields {
            nbytes: 84,
            objlen: 27,
            ..V
        },
        ..AT_THIRD
    },
    Row {
        name: "the record ends within the offset behind those of the entries",
        fields: Fields {
            nbytes: 88,
            objlen: 31,
            ..V
        },
        ..AT_FOURTH
    },
    Row {
        name: "the first offset within the key",
        fields: Fields {
            table: &[4, 56, 57, 69, 69],
            ..V
        },
        ..AT_FIRST
    },
    Row {
        name: "the first offset behind the entries",
        fields: Fields {
            table: &[4, 70, 70, 70, 69],
            ..V
        },
        ..AT_FIRST
    },
    Row {
        name: "the second offset below the first",
        fields: Fields {
            table: &[4, 59, 58, 69, 69],
            ..V
        },
        ..AT_SECOND
    },
    Row {
        name: "the third offset below the second",
        fields: Fields {
            table: &[4, 57, 61, 60, 69],
            ..V
        },
        ..AT_THIRD
    },
    Row {
        name: "the third offset behind the entries, within the record",
        fields: Fields {
            table: &[4, 57, 57, 70, 70],
            ..V
        },
        ..AT_THIRD
    },
    Row {
        name: "an offset of 2^31",
        fields: Fields {
            table: &[4, 57, 2_147_483_648, 69, 69],
            ..V
        },
        ..AT_SECOND
    },
    Row {
        name: "a bad offset behind a count that can't stand",
        fields: Fields {
            table: &[9, 0, 57, 69, 69],
            ..V
        },
        ..AT_COUNT
    },
    Row {
        name: "fLast behind the record, and no offsets",
        fields: Fields { last: 93, ..V },
        found: Found::Breaks(BasketFault::BadLast { place: 52 }),
        ..ROW
    },
    Row {
        name: "compressed, and no offsets",
        fields: Fields {
            objlen: 36,
            table: &[],
            behind: b"01234567890123456789012",
            ..V
        },
        found: Found::Breaks(BasketFault::Compressed),
        ..ROW
    },
];

#[test]
fn entries_behind_offsets(rt: HostRuntime) {
    assert_eq!(rt; found_otherwise(rt.alloc(), &READ), None);
    assert_eq!(rt; found_otherwise(rt.alloc(), &BAD_OFFSETS), None);
}
