//! Keys that are read or refused, whose first byte has the place 252, and the head of a basket behind its key.
use crate::rows::hex::hex_bytes;
use rio_key::{
    BasketFront, BasketHead, KeyFault, KeyHead, ListFault, read_basket_front, read_heads, read_key,
};
use std::alloc::Global;

// The fields of a key of class `A`, named `b`, and its title.
struct Row {
    digits: &'static str,
    nbytes: i32,
    version: u16,
    objlen: u32,
    datime: u32,
    keylen: u16,
    cycle: u16,
    seek: u64,
    title: &'static [u8],
}

static READ: [Row; 5] = [
    // Places take four bytes up to version 1000, and eight above.
    Row {
        digits: "0000003C 03E8 00000014 00000001 0028 0001 FFFFFFFE 00000064 01 41 01 62 01 63",
        nbytes: 60,
        version: 1000,
        objlen: 20,
        datime: 1,
        keylen: 40,
        cycle: 1,
        seek: 4_294_967_294,
        title: b"c",
    },
    Row {
        digits: "0000003C 03E9 00000014 00000001 0028 0001 000000012A05F200 0000000000000064 \
                 01 41 01 62 01 63",
        nbytes: 60,
        version: 1001,
        objlen: 20,
        datime: 1,
        keylen: 40,
        cycle: 1,
        seek: 5_000_000_000,
        title: b"c",
    },
    // The greatest numbers. Nbytes alone has a sign.
    Row {
        digits: "7FFFFFFF 0004 FFFFFFFF FFFFFFFE FFFF FFFE 000000D0 00000064 01 41 01 62 01 63",
        nbytes: 2_147_483_647,
        version: 4,
        objlen: 4_294_967_295,
        datime: 4_294_967_294,
        keylen: 65535,
        cycle: 65534,
        seek: 208,
        title: b"c",
    },
    // The record ends with its key, and the key with its title.
    Row {
        digits: "00000020 0004 00000000 00000001 0020 0001 000000D0 00000064 01 41 01 62 01 63",
        nbytes: 32,
        version: 4,
        objlen: 0,
        datime: 1,
        keylen: 32,
        cycle: 1,
        seek: 208,
        title: b"c",
    },
    // The title has the long form, and no bytes.
    Row {
        digits: "00000023 0004 00000000 00000001 0023 0001 000000D0 00000064 01 41 01 62 \
                 FF 00000000",
        nbytes: 35,
        version: 4,
        objlen: 0,
        datime: 1,
        keylen: 35,
        cycle: 1,
        seek: 208,
        title: b"",
    },
];

static REFUSED: [(&str, KeyFault); 8] = [
    // The record ends a byte before its key does, or before it begins.
    (
        "0000001F 0004 00000000 00000001 0020 0001 000000D0 00000064 01 41 01 62 01 63",
        KeyFault::BadLength { place: 252 },
    ),
    (
        "FFFFFFFF 0004 00000000 00000001 0020 0001 000000D0 00000064 01 41 01 62 01 63",
        KeyFault::BadLength { place: 252 },
    ),
    // The key ends a byte before its title does.
    (
        "0000003C 0004 00000014 00000001 001F 0001 000000D0 00000064 01 41 01 62 01 63",
        KeyFault::BadKeyLen { place: 252 },
    ),
    // Both.
    (
        "0000001E 0004 00000000 00000001 001F 0001 000000D0 00000064 01 41 01 62 01 63",
        KeyFault::BadLength { place: 252 },
    ),
    // A title that isn't whole is told before the lengths are looked at.
    (
        "0000001E 0004 00000000 00000001 001F 0001 000000D0 00000064 01 41 01 62 02 63",
        KeyFault::Short {
            place: 282,
            wanted: 3,
        },
    ),
    // The length of a title isn't whole, and a title of two bytes with its length in the long form.
    (
        "0000003C 0004 00000014 00000001 0028 0001 000000D0 00000064 01 41 01 62 FF 000001",
        KeyFault::Short {
            place: 282,
            wanted: 5,
        },
    ),
    (
        "0000003C 0004 00000014 00000001 0028 0001 000000D0 00000064 01 41 01 62 FF 00000002 63",
        KeyFault::Short {
            place: 282,
            wanted: 7,
        },
    ),
    // A place of eight bytes that isn't whole.
    (
        "0000003C 03E9 00000014 00000001 0028 0001 000000012A05F200 00000000000000",
        KeyFault::Short {
            place: 278,
            wanted: 8,
        },
    ),
];

impl Row {
    fn has_numbers(&self, key: &KeyHead) -> bool {
        key.nbytes == self.nbytes
            && key.version == self.version
            && key.objlen == self.objlen
            && key.datime == self.datime
            && key.keylen == self.keylen
            && key.cycle == self.cycle
            && key.seek == self.seek
            && key.pdir == 100
    }

    fn has(&self, key: &KeyHead) -> bool {
        self.has_numbers(key)
            && key.class.as_slice() == b"A".as_slice()
            && key.name.as_slice() == b"b".as_slice()
            && key.title.as_slice() == self.title
    }
}

fn key_in(alloc: Global, bytes: &[u8]) -> Result<KeyHead, KeyFault> {
    if bytes.len() > 100 {
        return Err(KeyFault::NoMemory);
    }
    read_key(alloc, bytes, 252, 252)
}

fn key_of(alloc: Global, digits: &str) -> Result<KeyHead, KeyFault> {
    let bytes = hex_bytes(alloc, digits)?;
    key_in(alloc, bytes.as_slice())
}

fn is_read(alloc: Global, row: &Row) -> bool {
    match key_of(alloc, row.digits) {
        Ok(key) => row.has(&key),
        Err(_) => false,
    }
}

fn is_refused(alloc: Global, digits: &str, wanted: KeyFault) -> bool {
    match key_of(alloc, digits) {
        Ok(_) => false,
        Err(fault) => fault == wanted,
    }
}

#[test]
fn reads_keys(rt: HostRuntime) {
    for row in &READ {
        assert!(rt; is_read(rt.alloc(), row), "{}", row.digits);
    }
    for (digits, fault) in &REFUSED {
        assert!(rt; is_refused(rt.alloc(), digits, *fault), "{}", digits);
    }
}

// The count of a key list is unsigned.
#[test]
fn refuses_a_list_without_its_heads(rt: HostRuntime) {
    let fault = KeyFault::Short {
        place: 256,
        wanted: 4,
    };
    let head = Some(256);
    let read = read_heads(rt.alloc(), b"\x80\0\0\x01", 252).err();
    assert!(rt; read == Some(ListFault { head, fault }));
}

// The key of a basket, the last 19 of whose 59 bytes are the basket's head.
const BASKET: &[u8] =
    b"\0\0\0\x47\0\x04\0\0\0\x0c\0\0\0\x01\0\x3b\0\x01\0\0\0\xfc\0\0\0\x64\x05TFile\x06a.root\0\
    \0\x03\0\0\x7d\0\0\0\0\x04\0\0\0\x03\0\0\0\x47\0";

const BASKET_HEAD: BasketHead = BasketHead {
    version: 3,
    buffer_size: 32000,
    nev_size: 4,
    nev: 3,
    last: 71,
    flag: 0,
};

fn is_front(front: &BasketFront) -> bool {
    front.head == BASKET_HEAD && front.place == 292 && front.key.keylen == 59
}

fn is_front_read(alloc: Global) -> bool {
    match read_basket_front(alloc, BASKET, 252) {
        Ok(front) => is_front(&front),
        Err(_) => false,
    }
}

#[test]
fn reads_the_head_of_a_basket_behind_its_key(rt: HostRuntime) {
    assert!(rt; is_front_read(rt.alloc()));
}
