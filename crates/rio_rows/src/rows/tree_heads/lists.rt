//! The lists of branches, leaves and baskets, and members that are lacking.
use super::{B, BranchText, I, LeafText, ROW, Row};

/// A branch that lacks a member that is needed.
const LACKING: Row = Row {
    said: "b 0 [] BranchClass\n",
    ..ROW
};

// ---- the tree

pub(super) static TREES: [Row; 9] = [
    ROW,
    Row {
        name: "a list of branches of another version",
        branch_list: Some("fBranches: TObjArray#9{items: [null, @7]}"),
        said: " 0 [] BranchClass\n 0 [] BranchClass\n",
        ..ROW
    },
    Row {
        name: "a number in the list of branches",
        branch_list: Some("fBranches: TObjArray#2{items: [0]}"),
        said: "MissingMember fBranches",
        ..ROW
    },
    Row {
        name: "a number behind a pointer in the list of branches",
        branch_list: Some("fBranches: TObjArray#3{items: [null, 1]}"),
        said: "MissingMember fBranches",
        ..ROW
    },
    Row {
        name: "a list of another class",
        branch_list: Some("fBranches: TList#3{items: [null]}"),
        said: "MissingMember fBranches",
        ..ROW
    },
    Row {
        name: "a list of which a base has the items",
        branch_list: Some("fBranches: TObjArray#3{TSeqCollection#1{items: [null]}}"),
        said: "MissingMember fBranches",
        ..ROW
    },
    Row {
        name: "a list without items",
        branch_list: Some("fBranches: TObjArray#3{items: 0}"),
        said: "MissingMember fBranches",
        ..ROW
    },
    Row {
        name: "as many entries as no i64 holds",
        entries: "fEntries: 9223372036854775808",
        said: "MissingMember fEntries",
        ..ROW
    },
    Row {
        name: "entries that are no number, and no list of branches",
        entries: "fEntries: true",
        branch_list: Some(""),
        said: "MissingMember fEntries",
        ..ROW
    },
];

// ---- lists of a branch

pub(super) static LISTS: [Row; 12] = [
    Row {
        name: "lists of another version",
        branches: &[BranchText {
            branches: "fBranches: TObjArray#1{items: []}",
            baskets: "fBaskets: TObjArray#2{items: [null, null]}",
            leaf_list: Some("fLeaves: TObjArray#4{items: []}"),
            ..B
        }],
        said: "b 3 [0 72 208]\n",
        ..ROW
    },
    Row {
        name: "a number in the list of branches",
        branches: &[BranchText {
            branches: "fBranches: TObjArray#2{items: [0]}",
            ..B
        }],
        ..LACKING
    },
    Row {
        name: "null in the list of branches",
        branches: &[BranchText {
            branches: "fBranches: TObjArray#3{items: [null]}",
            ..B
        }],
        said: "b 0 [] SubBranches\n",
        ..ROW
    },
    Row {
        name: "a number in the list of leaves",
        branches: &[BranchText {
            leaf_list: Some("fLeaves: TObjArray#2{items: [0]}"),
            ..B
        }],
        ..LACKING
    },
    Row {
        name: "a text behind a pointer in the list of leaves",
        branches: &[BranchText {
            leaf_list: Some(r#"fLeaves: TObjArray#3{items: [null, "i"]}"#),
            ..B
        }],
        ..LACKING
    },
    Row {
        name: "null in the list of leaves",
        branches: &[BranchText {
            leaf_list: Some("fLeaves: TObjArray#3{items: [null]}"),
            ..B
        }],
        said: "b 0 [] LeafClass\n",
        ..ROW
    },
    Row {
        name: "a number in the list of baskets",
        branches: &[BranchText {
            baskets: "fBaskets: TObjArray#2{items: [0]}",
            ..B
        }],
        ..LACKING
    },
    Row {
        name: "bits behind null in the list of baskets",
        branches: &[BranchText {
            baskets: "fBaskets: TObjArray#3{items: [null, 0x00000000]}",
            ..B
        }],
        ..LACKING
    },
    Row {
        name: "an object in the list of baskets",
        branches: &[BranchText {
            baskets: "fBaskets: TObjArray#3{items: [null, @5=TBasket#1{}]}",
            ..B
        }],
        said: "b 0 [] EmbeddedBasket\n",
        ..ROW
    },
    Row {
        name: "a reference in the list of baskets",
        branches: &[BranchText {
            baskets: "fBaskets: TObjArray#2{items: [@0]}",
            ..B
        }],
        said: "b 0 [] EmbeddedBasket\n",
        ..ROW
    },
    Row {
        name: "no list of leaves",
        branches: &[BranchText {
            leaf_list: Some(""),
            ..B
        }],
        ..LACKING
    },
    Row {
        name: "a list of baskets of another class",
        branches: &[BranchText {
            baskets: "fBaskets: TList#3{items: []}",
            ..B
        }],
        ..LACKING
    },
];

// ---- members that are lacking

pub(super) static MEMBERS: [Row; 11] = [
    Row {
        name: "no fName",
        branches: &[BranchText { name: "", ..B }],
        said: " 0 [] BranchClass\n",
        ..ROW
    },
    Row {
        name: "no fWriteBasket",
        branches: &[BranchText { used: "", ..B }],
        ..LACKING
    },
    Row {
        name: "no fEntries",
        branches: &[BranchText { entries: "", ..B }],
        ..LACKING
    },
    Row {
        name: "no fBranches",
        branches: &[BranchText { branches: "", ..B }],
        ..LACKING
    },
    Row {
        name: "no fBaskets",
        branches: &[BranchText { baskets: "", ..B }],
        ..LACKING
    },
    Row {
        name: "no fBasketBytes",
        branches: &[BranchText { bytes: "", ..B }],
        ..LACKING
    },
    Row {
        name: "no fBasketEntry",
        branches: &[BranchText { firsts: "", ..B }],
        ..LACKING
    },
    Row {
        name: "no fBasketSeek",
        branches: &[BranchText { seeks: "", ..B }],
        ..LACKING
    },
    Row {
        name: "a branch of objects without their class",
        branches: &[BranchText {
            pointer: "@0=TBranchElement#110",
            class: "fClassName: 1, fClassVersion: 2",
            ..B
        }],
        ..LACKING
    },
    Row {
        name: "a branch of objects without the version of their class",
        branches: &[BranchText {
            pointer: "@0=TBranchElement#110",
            class: r#"fClassName: "P""#,
            ..B
        }],
        said: "b P#0 3 [0 72 208] offsets\n",
        ..ROW
    },
    // What the object has itself comes before what its base has.
    Row {
        name: "a member of another form before that of a base",
        branches: &[BranchText {
            entries: "fEntries: true, TBranch#113{fEntries: 3}",
            ..B
        }],
        ..LACKING
    },
];

pub(super) static LEAF_MEMBERS: [Row; 6] = [
    Row {
        name: "a leaf without fName",
        branches: &[BranchText {
            leaves: &[LeafText { name: "", ..I }],
            ..B
        }],
        ..LEAFLESS
    },
    Row {
        name: "a leaf without fLen",
        branches: &[BranchText {
            leaves: &[LeafText { length: "", ..I }],
            ..B
        }],
        ..LEAFLESS
    },
    Row {
        name: "a leaf of 2^31 values",
        branches: &[BranchText {
            leaves: &[LeafText {
                length: "fLen: 2147483648",
                ..I
            }],
            ..B
        }],
        ..LEAFLESS
    },
    Row {
        name: "a leaf without fIsUnsigned",
        branches: &[BranchText {
            leaves: &[LeafText { unsigned: "", ..I }],
            ..B
        }],
        ..LEAFLESS
    },
    Row {
        name: "a leaf without fLeafCount",
        branches: &[BranchText {
            leaves: &[LeafText { counter: "", ..I }],
            ..B
        }],
        ..LEAFLESS
    },
    Row {
        name: "a leaf with a number as fLeafCount",
        branches: &[BranchText {
            leaves: &[LeafText {
                counter: "fLeafCount: 0",
                ..I
            }],
            ..B
        }],
        ..LEAFLESS
    },
];

/// A branch with a leaf that lacks a member that is needed.
const LEAFLESS: Row = Row {
    said: "b 0 [] LeafClass\n",
    ..ROW
};
