//! Baskets whose entries have one length.
use super::{Fields, Found, Row, found_otherwise};
use rio_key::BasketFault;

/// The entries 1, 2 and 3, and three zero bytes.
const X: Fields = Fields {
    nbytes: 72,
    objlen: 15,
    keylen: 57,
    buffer_size: 32_000,
    entry_size: 4,
    count: 3,
    last: 69,
    entries: b"\0\0\0\x01\0\0\0\x02\0\0\0\x03",
    table: &[],
    behind: b"\0\0\0",
};

/// Three bytes more in the key, behind the basket's head.
const LONG_KEY: Fields = Fields {
    nbytes: 75,
    keylen: 60,
    last: 72,
    entries: b"???\0\0\0\x01\0\0\0\x02\0\0\0\x03",
    ..X
};

const ROW: Row = Row {
    name: "three entries",
    fields: X,
    bytes: usize::MAX,
    offsets: false,
    found: Found::Holds(&[b"\0\0\0\x01", b"\0\0\0\x02", b"\0\0\0\x03"]),
};

static READ: [Row; 9] = [
    ROW,
    Row {
        name: "bytes behind the record",
        fields: Fields {
            behind: b"\0\0\0zzz",
            ..X
        },
        ..ROW
    },
    Row {
        name: "nothing behind the entries",
        fields: Fields {
            nbytes: 69,
            objlen: 12,
            behind: b"",
            ..X
        },
        ..ROW
    },
    Row {
        name: "an ObjLen that is less than what stands behind the key",
        fields: Fields { objlen: 14, ..X },
        ..ROW
    },
    Row {
        name: "sizes of 0",
        fields: Fields {
            buffer_size: 0,
            entry_size: 0,
            ..X
        },
        ..ROW
    },
    Row {
        name: "a longer key",
        fields: LONG_KEY,
        ..ROW
    },
    Row {
        name: "two entries in the same bytes",
        fields: Fields { count: 2, ..X },
        found: Found::Holds(&[b"\0\0\0\x01\0\0", b"\0\x02\0\0\0\x03"]),
        ..ROW
    },
    Row {
        name: "entries without bytes",
        fields: Fields { last: 57, ..X },
        found: Found::Holds(&[b"", b"", b""]),
        ..ROW
    },
    Row {
        name: "no entries",
        fields: Fields {
            count: 0,
            last: 57,
            ..X
        },
        found: Found::Holds(&[]),
        ..ROW
    },
];

/// No basket begins there, or not all of it is there.
const NONE: Row = Row {
    found: Found::Breaks(BasketFault::BadLast { place: 0 }),
    ..ROW
};

static NO_BASKETS: [Row; 7] = [
    Row {
        name: "no bytes",
        bytes: 0,
        ..NONE
    },
    Row {
        name: "the head is cut by a byte",
        bytes: 56,
        ..NONE
    },
    Row {
        name: "the key ends within the head",
        fields: Fields { keylen: 56, ..X },
        ..NONE
    },
    Row {
        name: "the key ends within the title",
        fields: Fields { keylen: 37, ..X },
        ..NONE
    },
    Row {
        name: "the record ends within the key",
        fields: Fields { nbytes: 56, ..X },
        ..NONE
    },
    Row {
        name: "the record is cut by a byte",
        bytes: 71,
        ..NONE
    },
    Row {
        name: "a compressed record is cut by a byte",
        fields: Fields { objlen: 16, ..X },
        bytes: 71,
        ..NONE
    },
];

const COMPRESSED: Row = Row {
    found: Found::Breaks(BasketFault::Compressed),
    ..ROW
};

static COMPRESSED_BASKETS: [Row; 2] = [
    Row {
        name: "one byte more before it was compressed",
        fields: Fields { objlen: 16, ..X },
        ..COMPRESSED
    },
    Row {
        name: "compressed, with numbers that can't stand",
        fields: Fields {
            objlen: 16,
            count: -1,
            last: 80,
            ..X
        },
        ..COMPRESSED
    },
];

const BAD_LAST: Row = Row {
    found: Found::Breaks(BasketFault::BadLast { place: 52 }),
    ..ROW
};

static BAD_LASTS: [Row; 10] = [
    Row {
        name: "fBufferSize below 0",
        fields: Fields {
            buffer_size: -1,
            ..X
        },
        ..BAD_LAST
    },
    Row {
        name: "fNevBufSize below 0",
        fields: Fields {
            entry_size: -1,
            ..X
        },
        ..BAD_LAST
    },
    Row {
        name: "fNevBuf below 0",
        fields: Fields { count: -3, ..X },
        ..BAD_LAST
    },
    Row {
        name: "fLast below 0",
        fields: Fields { last: -69, ..X },
        ..BAD_LAST
    },
    Row {
        name: "fLast within the key",
        fields: Fields { last: 56, ..X },
        ..BAD_LAST
    },
    Row {
        name: "fLast behind the record, within the bytes",
        fields: Fields {
            last: 75,
            behind: b"\0\0\0zzz",
            ..X
        },
        ..BAD_LAST
    },
    Row {
        name: "a byte more than three entries have",
        fields: Fields { last: 70, ..X },
        ..BAD_LAST
    },
    Row {
        name: "more entries than bytes",
        fields: Fields { count: 13, ..X },
        ..BAD_LAST
    },
    Row {
        name: "bytes of no entry",
        fields: Fields { count: 0, ..X },
        ..BAD_LAST
    },
    Row {
        name: "fLast within a longer key",
        fields: Fields {
            last: 59,
            ..LONG_KEY
        },
        ..BAD_LAST
    },
];

#[test]
fn equal_entries(rt: HostRuntime) {
    assert_eq!(rt; found_otherwise(rt.alloc(), &READ), None);
    assert_eq!(rt; found_otherwise(rt.alloc(), &NO_BASKETS), None);
    assert_eq!(rt; found_otherwise(rt.alloc(), &COMPRESSED_BASKETS), None);
    assert_eq!(rt; found_otherwise(rt.alloc(), &BAD_LASTS), None);
}
