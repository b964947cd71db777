//! Where baskets stand: fWriteBasket, and three lists with a number for each basket.
use super::{B, BranchText, ROW, Row};

/// Two baskets, of entries 0 and 1, and of entry 2.
const TWO: BranchText = BranchText {
    used: "fWriteBasket: 2",
    bytes: "fBasketBytes: [72, 80]",
    firsts: "fBasketEntry: [0, 2]",
    seeks: "fBasketSeek: [208, 300]",
    ..B
};

/// A branch of no entries in no basket.
const NONE: BranchText = BranchText {
    used: "fWriteBasket: 0",
    entries: "fEntries: 0",
    ..B
};

pub(super) static READ: [Row; 6] = [
    Row {
        name: "nothing behind the baskets that are used",
        branches: &[TWO],
        said: "b i/I 3 [0 72 208, 2 80 300]\n",
        ..ROW
    },
    Row {
        name: "numbers that are too great for their members, behind the baskets that are used",
        branches: &[BranchText {
            bytes: "fBasketBytes: [72, 2147483648]",
            firsts: "fBasketEntry: [0, 9223372036854775808]",
            seeks: "fBasketSeek: [208, 18446744073709551615]",
            ..B
        }],
        ..ROW
    },
    Row {
        name: "no numbers behind the baskets that are used",
        branches: &[BranchText {
            bytes: "fBasketBytes: [72, 0x3f800000]",
            firsts: "fBasketEntry: [0, 0x4008000000000000]",
            seeks: "fBasketSeek: [208, null]",
            ..B
        }],
        ..ROW
    },
    Row {
        name: "no basket is used, and no list has a number",
        entries: "fEntries: 0",
        branches: &[BranchText {
            bytes: "fBasketBytes: [0x3f800000]",
            firsts: "fBasketEntry: []",
            seeks: "fBasketSeek: [true]",
            ..NONE
        }],
        said: "b i/I 0 []\n",
        ..ROW
    },
    Row {
        name: "the greatest numbers that the members hold",
        entries: "fEntries: 9223372036854775807",
        branches: &[BranchText {
            entries: "fEntries: 9223372036854775807",
            bytes: "fBasketBytes: [2147483647, 72]",
            firsts: "fBasketEntry: [0, 9223372036854775807]",
            seeks: "fBasketSeek: [9223372036854775807, 0]",
            ..TWO
        }],
        said: "b i/I 9223372036854775807 [0 2147483647 9223372036854775807, 9223372036854775807 72 0]\n",
        ..ROW
    },
    Row {
        name: "a tree without entries",
        entries: "fEntries: 0",
        branches: &[NONE],
        said: "b i/I 0 []\n",
        ..ROW
    },
];

/// A number that its member can't hold, where a basket is used, is as if the member were lacking.
const LACKING: Row = Row {
    said: "b 0 [] BranchClass\n",
    ..ROW
};

pub(super) static TOO_GREAT: [Row; 7] = [
    Row {
        name: "a length of 2^31",
        branches: &[BranchText {
            bytes: "fBasketBytes: [2147483648, 0]",
            ..B
        }],
        ..LACKING
    },
    Row {
        name: "a length of 2^31 in the last basket that is used",
        branches: &[BranchText {
            bytes: "fBasketBytes: [72, 2147483648, 0]",
            ..TWO
        }],
        ..LACKING
    },
    Row {
        name: "a first entry of 2^63",
        branches: &[BranchText {
            firsts: "fBasketEntry: [9223372036854775808, 0]",
            ..B
        }],
        ..LACKING
    },
    Row {
        name: "a place of 2^63",
        branches: &[BranchText {
            seeks: "fBasketSeek: [9223372036854775808, 0]",
            ..B
        }],
        ..LACKING
    },
    Row {
        name: "a place that is no integer",
        branches: &[BranchText {
            seeks: "fBasketSeek: [0x00000000000000d0, 0]",
            ..B
        }],
        ..LACKING
    },
    Row {
        name: "as many baskets as no i32 holds",
        branches: &[BranchText {
            used: "fWriteBasket: 2147483648",
            ..B
        }],
        ..LACKING
    },
    Row {
        name: "as many entries as no i64 holds",
        branches: &[BranchText {
            entries: "fEntries: 9223372036854775808",
            ..B
        }],
        ..LACKING
    },
];

/// The leaves are read, and the list of baskets isn't.
const UNLISTED: Row = Row {
    said: "b i/I 3 [] BadBasketList\n",
    ..ROW
};

pub(super) static BAD_LISTS: [Row; 9] = [
    Row {
        name: "a length below 0",
        branches: &[BranchText {
            bytes: "fBasketBytes: [-72, 0]",
            ..B
        }],
        ..UNLISTED
    },
    Row {
        name: "a first entry below 0",
        branches: &[BranchText {
            firsts: "fBasketEntry: [-1, 0]",
            ..B
        }],
        ..UNLISTED
    },
    Row {
        name: "a place below 0",
        branches: &[BranchText {
            seeks: "fBasketSeek: [-208, 0]",
            ..B
        }],
        ..UNLISTED
    },
    Row {
        name: "lengths are too few",
        branches: &[BranchText {
            bytes: "fBasketBytes: [72]",
            ..TWO
        }],
        ..UNLISTED
    },
    Row {
        name: "first entries are too few",
        branches: &[BranchText {
            firsts: "fBasketEntry: [0]",
            ..TWO
        }],
        ..UNLISTED
    },
    Row {
        name: "places are too few",
        branches: &[BranchText {
            seeks: "fBasketSeek: [208]",
            ..TWO
        }],
        ..UNLISTED
    },
    Row {
        name: "as many baskets as an i32 may say",
        branches: &[BranchText {
            used: "fWriteBasket: 2147483647",
            ..B
        }],
        ..UNLISTED
    },
    // No number stands for a basket, so none is looked at.
    Row {
        name: "less than no basket is used",
        branches: &[BranchText {
            used: "fWriteBasket: -1",
            bytes: "fBasketBytes: [2147483648]",
            ..B
        }],
        ..UNLISTED
    },
    Row {
        name: "less than no basket is used, of no entries",
        entries: "fEntries: 0",
        branches: &[BranchText {
            used: "fWriteBasket: -1",
            ..NONE
        }],
        said: "b i/I 0 [] BadBasketList\n",
        ..ROW
    },
];

pub(super) static OTHER_COUNTS: [Row; 3] = [
    Row {
        name: "fewer entries than the tree",
        branches: &[BranchText {
            entries: "fEntries: 2",
            ..B
        }],
        said: "b i/I 2 [] EntryCount\n",
        ..ROW
    },
    Row {
        name: "more entries than the tree",
        branches: &[BranchText {
            entries: "fEntries: 4",
            ..B
        }],
        said: "b i/I 4 [] EntryCount\n",
        ..ROW
    },
    Row {
        name: "entries below 0",
        branches: &[BranchText {
            entries: "fEntries: -3",
            ..B
        }],
        said: "b i/I 0 [] EntryCount\n",
        ..ROW
    },
];
