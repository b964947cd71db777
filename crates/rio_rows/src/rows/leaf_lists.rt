//! Lists of leaves, and branches, that are the same.
use rio_leaf::{BranchDef, BranchDefs, LeafFault, Leaves, Shape, read_leaves};
use rio_num::Name;
use std::alloc::Global;

static LISTS: [&str; 2] = [
    "x/I",
    "n/I:v[n]/F:grid[100000]/D:name/C:w[other]/O:b/B:c/b:s/S:t/s:i/i:k/L:l[2]/l:e/D",
];

// Each differs in one thing from the leaves n/I:v[n]/F.
static DIFFERENT: [&str; 6] = [
    "n/I",
    "n/I:w[n]/F",
    "n/I:v[n]/D",
    "n/I:v[2]/F",
    "n/I:v/F",
    "n/I:v[n]/F:x/I",
];

// The leaves that the text of a row lists.
fn leaves_of_row(alloc: Global, text: &str) -> Result<Leaves, LeafFault> {
    if text.len() > 1000 {
        return Err(LeafFault::NoMemory);
    }
    read_leaves(alloc, text.as_bytes())
}

/// A branch that has them.
pub(crate) fn branch_of_row(alloc: Global, name: &str, text: &str) -> Result<BranchDef, LeafFault> {
    let leaves = leaves_of_row(alloc, text)?;
    Ok(BranchDef {
        name: Name::from_slice(alloc, name.as_bytes())?,
        shape: Shape::Leaves(leaves),
    })
}

// Whether the texts list the same leaves.
fn list_the_same(alloc: Global, text: &str, other: &str) -> bool {
    match (leaves_of_row(alloc, text), leaves_of_row(alloc, other)) {
        (Ok(leaves), Ok(others)) => leaves == others,
        _ => false,
    }
}

fn two_branches(alloc: Global, first: &str, second: &str) -> Result<BranchDefs, LeafFault> {
    let mut branches = BranchDefs::new(alloc);
    branches.push(branch_of_row(alloc, "a", first)?)?;
    branches.push(branch_of_row(alloc, "b", second)?)?;
    Ok(branches)
}

// Whether a copy of the branches has the same of each, and is nothing else.
fn are_copied(branches: &BranchDefs) -> bool {
    match branches.copy() {
        Ok(copies) => copies == *branches,
        Err(_) => false,
    }
}

fn are_branches_copied(alloc: Global, first: &str, second: &str) -> bool {
    match (
        two_branches(alloc, first, second),
        two_branches(alloc, second, first),
    ) {
        (Ok(branches), Ok(others)) => are_copied(&branches) && branches != others,
        _ => false,
    }
}

#[test]
fn tells_which_leaves_are_the_same(rt: HostRuntime) {
    for text in &LISTS {
        assert!(rt; list_the_same(rt.alloc(), text, text), "{}", text);
        assert!(rt; !list_the_same(rt.alloc(), text, "n/I:v[n]/F"), "{}", text);
    }
    for text in &DIFFERENT {
        assert!(rt; !list_the_same(rt.alloc(), text, "n/I:v[n]/F"), "{}", text);
        assert!(rt;
            are_branches_copied(rt.alloc(), text, "n/I:v[n]/F"),
            "{}",
            text
        );
    }
}
