//! The leaves of branches, and the leaves that count others.
use super::{B, BranchText, I, LeafText, ROW, Row};

/// A leaf of floats, which the leaf of label 1 counts.
const V: LeafText = LeafText {
    pointer: "@3=TLeafF#101",
    name: r#"fName: "v""#,
    counter: "fLeafCount: @1",
    ..I
};

/// A branch behind the first, with this leaf.
const C: BranchText = BranchText {
    pointer: "@2=TBranch#113",
    name: r#"fName: "c""#,
    leaves: &[V],
    ..B
};

pub(super) static ONE_BRANCH: [Row; 11] = [
    Row {
        name: "the most values that a leaf may have",
        branches: &[BranchText {
            leaves: &[LeafText {
                length: "fLen: 2147483647",
                ..I
            }],
            ..B
        }],
        said: "b i[2147483647]/I 3 [0 72 208]\n",
        ..ROW
    },
    Row {
        name: "a text has no dimension",
        branches: &[BranchText {
            leaves: &[LeafText {
                pointer: "@1=TLeafC#101",
                length: "fLen: 5",
                ..I
            }],
            ..B
        }],
        said: "b i/C 3 [0 72 208] offsets\n",
        ..ROW
    },
    Row {
        name: "a length of 0, and one below 0",
        branches: &[BranchText {
            leaves: &[
                LeafText {
                    length: "fLen: 0",
                    ..I
                },
                LeafText {
                    length: "fLen: -3",
                    ..V
                },
            ],
            ..B
        }],
        said: "b i/I v[i*1]/F 3 [0 72 208] offsets\n",
        ..ROW
    },
    Row {
        name: "two values for each that is counted",
        branches: &[BranchText {
            leaves: &[
                I,
                LeafText {
                    length: "fLen: 2",
                    ..V
                },
            ],
            ..B
        }],
        said: "b i/I v[i*2]/F 3 [0 72 208] offsets\n",
        ..ROW
    },
    Row {
        name: "a counter behind the leaf that it counts",
        branches: &[BranchText {
            leaves: &[V, I],
            ..B
        }],
        said: "b 0 [] NoCounter\n",
        ..ROW
    },
    // All classes are looked at before any counter is.
    Row {
        name: "a leaf without a letter behind one without a counter",
        branches: &[BranchText {
            leaves: &[
                V,
                LeafText {
                    pointer: "@4=TLeafElement#101",
                    ..I
                },
            ],
            ..B
        }],
        said: "b 0 [] LeafClass\n",
        ..ROW
    },
    Row {
        name: "a counter that begins in fLeafCount",
        branches: &[BranchText {
            leaves: &[LeafText {
                counter: r#"fLeafCount: @4=TLeafI#101{fName: "i", fLen: 1, fIsUnsigned: false, fLeafCount: null}"#,
                ..V
            }],
            ..B
        }],
        said: "b 0 [] NoCounter\n",
        ..ROW
    },
    Row {
        name: "a counter of eight bytes",
        branches: &[BranchText {
            leaves: &[
                LeafText {
                    pointer: "@1=TLeafL#101",
                    ..I
                },
                V,
            ],
            ..B
        }],
        said: "b 0 [] NoCounter\n",
        ..ROW
    },
    Row {
        name: "a counter that is counted",
        branches: &[BranchText {
            leaves: &[
                I,
                LeafText {
                    pointer: "@3=TLeafI#101",
                    ..V
                },
                LeafText {
                    pointer: "@4=TLeafF#101",
                    name: r#"fName: "w""#,
                    counter: "fLeafCount: @3",
                    ..V
                },
            ],
            ..B
        }],
        said: "b 0 [] NoCounter\n",
        ..ROW
    },
    // The leaf between them can't count, and has the name all the same.
    Row {
        name: "another leaf of the counter's name between the two",
        branches: &[BranchText {
            leaves: &[
                I,
                LeafText {
                    pointer: "@4=TLeafS#101",
                    ..I
                },
                V,
            ],
            ..B
        }],
        said: "b 0 [] NoCounter\n",
        ..ROW
    },
    // A label is that of the first object that has it.
    Row {
        name: "one label twice",
        branches: &[BranchText {
            leaf_list: Some(
                "fLeaves: TObjArray#3{items: [\
                @1=TLeafI#101{fName: \"i\", fLen: 1, fIsUnsigned: false, fLeafCount: null}, \
                @1=TLeafS#101{fName: \"s\", fLen: 1, fIsUnsigned: false, fLeafCount: null}, \
                @1]}",
            ),
            ..B
        }],
        said: "b i/I s/S i/I 3 [0 72 208]\n",
        ..ROW
    },
];

pub(super) static TWO_BRANCHES: [Row; 5] = [
    Row {
        name: "a counter in an earlier branch",
        branches: &[B, C],
        said: "b i/I 3 [0 72 208]\nc v[i*1]/F 3 [0 72 208] offsets by 0\n",
        ..ROW
    },
    Row {
        name: "a counter in an earlier branch that isn't read",
        branches: &[
            BranchText {
                entries: "fEntries: 2",
                ..B
            },
            C,
        ],
        said: "b i/I 2 [] EntryCount\nc 0 [] NoCounter\n",
        ..ROW
    },
    Row {
        name: "a counter in an earlier branch of objects",
        branches: &[
            BranchText {
                pointer: "@0=TBranchElement#110",
                class: r#"fClassName: "P", fClassVersion: 2"#,
                ..B
            },
            C,
        ],
        said: "b P#2 3 [0 72 208] offsets\nc 0 [] NoCounter\n",
        ..ROW
    },
    Row {
        name: "a branch twice",
        branch_list: Some(
            "fBranches: TObjArray#3{items: [@0=TBranch#113{\
            fName: \"b\", fWriteBasket: 0, fEntries: 3, \
            fBranches: TObjArray#3{items: []}, fLeaves: TObjArray#3{items: []}, \
            fBaskets: TObjArray#3{items: []}, \
            fBasketBytes: [], fBasketEntry: [], fBasketSeek: []}, @0]}",
        ),
        said: "b 3 [] BadBasketList\nb 3 [] BadBasketList\n",
        ..ROW
    },
    Row {
        name: "an object of a leaf's class in the list of branches",
        branches: &[
            BranchText {
                pointer: "@0=TLeafI#101",
                ..B
            },
            C,
        ],
        said: "b 0 [] BranchClass\nc 0 [] NoCounter\n",
        ..ROW
    },
];

pub(super) static MORE_BRANCHES: [Row; 2] = [
    // It counts where it stands last.
    Row {
        name: "a leaf that stands in two branches",
        branches: &[
            B,
            BranchText {
                pointer: "@4=TBranch#113",
                leaf_list: Some("fLeaves: TObjArray#3{items: [@1]}"),
                ..B
            },
            C,
        ],
        said: "b i/I 3 [0 72 208]\nb i/I 3 [0 72 208]\nc v[i*1]/F 3 [0 72 208] offsets by 1\n",
        ..ROW
    },
    // A branch that isn't read has leaves all the same.
    Row {
        name: "a leaf of the counter's name in a refused branch between the two",
        branches: &[
            B,
            BranchText {
                pointer: "@4=TBranch#113",
                branches: "fBranches: TObjArray#3{items: [null]}",
                leaves: &[LeafText {
                    pointer: "@5=TLeafI#101",
                    ..I
                }],
                ..B
            },
            C,
        ],
        said: "b i/I 3 [0 72 208]\nb 0 [] SubBranches\nc 0 [] NoCounter\n",
        ..ROW
    },
];
