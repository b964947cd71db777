//! Headers of trees, written as texts of values, and what is read of them.
mod leaves;
mod lists;
mod slots;

use rio_format::Value;
use rio_leaf::{Dim, Leaf, Shape};
use rio_num::Bytes;
use rio_tree::{BasketAt, Branch, TreeFault, TreeHead, read_tree};
use rio_valtext::read_value;
use std::alloc::Global;

/// A leaf: the pointer to it with its class, and its members. A member without text is lacking.
#[derive(Clone, Copy)]
struct LeafText {
    pointer: &'static str,
    name: &'static str,
    length: &'static str,
    unsigned: &'static str,
    counter: &'static str,
}

/// A branch: the pointer to it with its class, and its members. fLeaves has these leaves, where no other text is given.
#[derive(Clone, Copy)]
struct BranchText {
    pointer: &'static str,
    name: &'static str,
    used: &'static str,
    entries: &'static str,
    branches: &'static str,
    baskets: &'static str,
    bytes: &'static str,
    firsts: &'static str,
    seeks: &'static str,
    class: &'static str,
    leaves: &'static [LeafText],
    leaf_list: Option<&'static str>,
}

/// A header, and what is read of it: a line for each branch. fBranches has these branches, where no other text is given.
#[derive(Clone, Copy)]
struct Row {
    name: &'static str,
    entries: &'static str,
    branches: &'static [BranchText],
    branch_list: Option<&'static str>,
    said: &'static str,
}

const I: LeafText = LeafText {
    pointer: "@1=TLeafI#101",
    name: r#"fName: "i""#,
    length: "fLen: 1",
    unsigned: "fIsUnsigned: false",
    counter: "fLeafCount: null",
};

/// A branch of three entries in one basket.
const B: BranchText = BranchText {
    pointer: "@0=TBranch#113",
    name: r#"fName: "b""#,
    used: "fWriteBasket: 1",
    entries: "fEntries: 3",
    branches: "fBranches: TObjArray#3{items: []}",
    baskets: "fBaskets: TObjArray#3{items: []}",
    bytes: "fBasketBytes: [72, 0]",
    firsts: "fBasketEntry: [0, 3]",
    seeks: "fBasketSeek: [208, 0]",
    class: "",
    leaves: &[I],
    leaf_list: None,
};

/// A tree of this branch.
const ROW: Row = Row {
    name: "a branch of one leaf",
    entries: "fEntries: 3",
    branches: &[B],
    branch_list: None,
    said: "b i/I 3 [0 72 208]\n",
};

// ---- the text of a header

// The next member or item. One without text isn't there.
fn put_next(text: &mut Bytes, next: &str) -> bool {
    let begins = match text.as_slice().last() {
        None | Some(b'{') | Some(b'[') => true,
        Some(_) => false,
    };
    next.is_empty() || ((begins || text.put(b", ").is_ok()) && text.put(next.as_bytes()).is_ok())
}

fn put_all(text: &mut Bytes, all: &[&str]) -> bool {
    for next in all {
        if !put_next(text, next) {
            return false;
        }
    }
    true
}

impl LeafText {
    fn put(&self, text: &mut Bytes) -> bool {
        put_next(text, self.pointer)
            && text.put(b"{").is_ok()
            && put_all(text, &[self.name, self.length, self.unsigned, self.counter])
            && text.put(b"}").is_ok()
    }
}

impl BranchText {
    fn put_members(&self, text: &mut Bytes) -> bool {
        let list = match self.leaf_list {
            Some(list) => list,
            None => "fLeaves: TObjArray#3{items: [",
        };
        put_all(
            text,
            &[
                self.name,
                self.used,
                self.entries,
                self.branches,
                self.baskets,
                self.bytes,
                self.firsts,
                self.seeks,
                self.class,
                list,
            ],
        )
    }

    fn put(&self, text: &mut Bytes) -> bool {
        if !(put_next(text, self.pointer) && text.put(b"{").is_ok() && self.put_members(text)) {
            return false;
        }
        if self.leaf_list.is_some() {
            return text.put(b"}").is_ok();
        }
        for leaf in self.leaves {
            if !leaf.put(text) {
                return false;
            }
        }
        text.put(b"]}}").is_ok()
    }
}

impl Row {
    fn put(&self, text: &mut Bytes) -> bool {
        let list = match self.branch_list {
            Some(list) => list,
            None => "fBranches: TObjArray#3{items: [",
        };
        if !(text.put(b"TTree#120{").is_ok() && put_all(text, &[self.entries, list])) {
            return false;
        }
        if self.branch_list.is_some() {
            return text.put(b"}").is_ok();
        }
        for branch in self.branches {
            if !branch.put(text) {
                return false;
            }
        }
        text.put(b"]}}").is_ok()
    }
}

// ---- what is read of it

fn put_number(text: &mut Bytes, before: &str, number: u64) -> bool {
    text.put(before.as_bytes()).is_ok() && text.put_decimal(number).is_ok()
}

fn put_dim(text: &mut Bytes, dim: &Dim) -> bool {
    match dim {
        Dim::One => true,
        Dim::Fixed(count) => { put_number(text, "[", u64::from(*count)) && text.put(b"]").is_ok() }
        Dim::Counted { counter, times } => {
            text.put(b"[").is_ok()
                && text.put(counter.as_slice()).is_ok()
                && put_number(text, "*", u64::from(*times))
                && text.put(b"]").is_ok()
        }
    }
}

fn put_leaves(text: &mut Bytes, leaves: &[Leaf]) -> bool {
    for leaf in leaves {
        if !(text.put(leaf.name.as_slice()).is_ok()
            && put_dim(text, &leaf.dim)
            && text.put(b"/").is_ok()
            && text.push(leaf.letter).is_ok()
            && text.put(b" ").is_ok())
        {
            return false;
        }
    }
    true
}

fn put_shape(text: &mut Bytes, branch: &Branch) -> bool {
    match &branch.def.shape {
        Shape::Leaves(leaves) => put_leaves(text, leaves.as_slice()),
        Shape::Class(class) => {
            text.put(class.as_slice()).is_ok()
                && text.put(b"#").is_ok()
                && text.put_integer(i128::from(branch.class_version)).is_ok()
                && text.put(b" ").is_ok()
        }
    }
}

// First entry, length and place of each.
fn put_baskets(text: &mut Bytes, baskets: &[BasketAt]) -> bool {
    let mut before = " [";
    for basket in baskets {
        if !(put_number(text, before, basket.first)
            && put_number(text, " ", u64::from(basket.bytes))
            && put_number(text, " ", basket.seek))
        {
            return false;
        }
        before = ", ";
    }
    (!baskets.is_empty() || text.put(b" [").is_ok()) && text.put(b"]").is_ok()
}

fn put_counted_by(text: &mut Bytes, numbers: &[usize]) -> bool {
    for number in numbers {
        if !put_number(text, " by ", *number as u64) {
            return false;
        }
    }
    true
}

// Its name, its leaves or its class, its entries and its baskets, and whether they have offsets; the numbers of the branches
// that count it; and why it is refused.
fn put_branch(text: &mut Bytes, branch: &Branch) -> bool {
    let offsets = if branch.offsets { " offsets" } else { "" };
    let refused = match branch.refused {
        Some(why) => why.name(),
        None => b"".as_slice(),
    };
    text.put(branch.def.name.as_slice()).is_ok()
        && text.put(b" ").is_ok()
        && put_shape(text, branch)
        && text.put_decimal(branch.entries).is_ok()
        && put_baskets(text, branch.baskets.as_slice())
        && text.put(offsets.as_bytes()).is_ok()
        && put_counted_by(text, branch.counted_by.as_slice())
        && (refused.is_empty() || text.put(b" ").is_ok())
        && text.put(refused).is_ok()
        && text.put(b"\n").is_ok()
}

fn put_said(text: &mut Bytes, read: &Result<TreeHead, TreeFault>) -> bool {
    match read {
        Ok(head) => {
            for branch in head.branches.as_slice() {
                if !put_branch(text, branch) {
                    return false;
                }
            }
            true
        }
        Err(TreeFault::MissingMember { member }) => {
            text.put(b"MissingMember ").is_ok() && text.put(member.as_slice()).is_ok()
        }
        Err(TreeFault::NoMemory) => false,
    }
}

// ---- rows

impl Row {
    fn is_read(&self, alloc: Global, value: &Value) -> bool {
        let mut said = Bytes::new(alloc);
        put_said(&mut said, &read_tree(alloc, value)) && said.as_slice() == self.said.as_bytes()
    }

    fn is_read_of(&self, alloc: Global, text: &[u8]) -> bool {
        if text.len() >= 0x1_0000_0000 {
            return false;
        }
        match read_value(alloc, text, 0) {
            Ok((value, end)) => end as usize == text.len() && self.is_read(alloc, &value),
            Err(_) => false,
        }
    }

    fn holds(&self, alloc: Global) -> bool {
        let mut text = Bytes::new(alloc);
        self.put(&mut text) && self.is_read_of(alloc, text.as_slice())
    }
}

// The first row that is read otherwise.
fn read_otherwise(alloc: Global, rows: &'static [Row]) -> Option<&'static str> {
    for row in rows {
        if !row.holds(alloc) {
            return Some(row.name);
        }
    }
    None
}

#[test]
fn reads_headers(rt: HostRuntime) {
    assert_eq!(rt; read_otherwise(rt.alloc(), &lists::TREES), None);
    assert_eq!(rt; read_otherwise(rt.alloc(), &lists::LISTS), None);
    assert_eq!(rt; read_otherwise(rt.alloc(), &lists::MEMBERS), None);
    assert_eq!(rt; read_otherwise(rt.alloc(), &lists::LEAF_MEMBERS), None);
    assert_eq!(rt; read_otherwise(rt.alloc(), &leaves::ONE_BRANCH), None);
    assert_eq!(rt; read_otherwise(rt.alloc(), &leaves::TWO_BRANCHES), None);
    assert_eq!(rt; read_otherwise(rt.alloc(), &leaves::MORE_BRANCHES), None);
    assert_eq!(rt; read_otherwise(rt.alloc(), &slots::READ), None);
    assert_eq!(rt; read_otherwise(rt.alloc(), &slots::TOO_GREAT), None);
    assert_eq!(rt; read_otherwise(rt.alloc(), &slots::BAD_LISTS), None);
    assert_eq!(rt; read_otherwise(rt.alloc(), &slots::OTHER_COUNTS), None);
}
