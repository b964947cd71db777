//! The classes of trees.
ghost use Rattle.std.specs.Prelude.{◌≡◌, [], ◌∷◌, ◌++◌, codes, IfOk, OnOk};
ghost use Rattle.rio_format.specs.declared.kind.Kind.TheVariants.{Counted, Inline};
ghost use Rattle.rio_format.specs.TreeClasses.{array_member, branch_base, branch_class, branch_members, i32_member, i64_member, kind_leaf, leaf_base, leaf_class, leaf_members, object_branch_class, object_branch_members, of_baskets, tree_class, tree_classes, tree_members};

use crate::class::{describing, named_base, push};
use rio_format::{Base, ClassDef, Classes, Kind, Members, Prim};
use rio_num::{Name, NoMemory};
use std::alloc::Global;

// ---- members

fn push_i32(alloc: Global, members: &mut Members, name: &[u8]) -> Result<(), NoMemory>
    ensures { OnOk result (members.new ≡ members.old ++ i32_member name.now ∷ []) }
{
    push(alloc, members, name, Kind::Plain { of: Prim::I32 })
}

fn push_i64(alloc: Global, members: &mut Members, name: &[u8]) -> Result<(), NoMemory>
    ensures { OnOk result (members.new ≡ members.old ++ i64_member name.now ∷ []) }
{
    push(alloc, members, name, Kind::Plain { of: Prim::I64 })
}

fn array_kind(alloc: Global) -> Result<Kind, NoMemory>
    ensures { IfOk result (λ kind. kind ≡ Inline (codes "TObjArray")) }
{
    Ok(Kind::Inline {
        class: Name::from_slice(alloc, b"TObjArray")?,
    })
}

// An array of pointers within the object.
fn push_array(alloc: Global, members: &mut Members, name: &[u8]) -> Result<(), NoMemory>
    ensures { OnOk result (members.new ≡ members.old ++ array_member name.now ∷ []) }
{
    let kind = array_kind(alloc)?;
    push(alloc, members, name, kind)
}

fn of_baskets_kind(alloc: Global, of: Prim) -> Result<Kind, NoMemory>
    ensures { IfOk result (λ kind. kind ≡ Counted of (codes "fMaxBaskets")) }
{
    Ok(Kind::Counted {
        of,
        counter: Name::from_slice(alloc, b"fMaxBaskets")?,
    })
}

// An array with a number for each basket.
fn push_of_baskets(
    alloc: Global,
    members: &mut Members,
    name: &[u8],
    of: Prim,
) -> Result<(), NoMemory>
    ensures { OnOk result (members.new ≡ members.old ++ of_baskets name.now of ∷ []) }
{
    let kind = of_baskets_kind(alloc, of)?;
    push(alloc, members, name, kind)
}

#[tactic(auto, unfolding(rio_format::specs::TreeClasses::tree_members))]
fn tree_members(alloc: Global) -> Result<Members, NoMemory>
    ensures { IfOk result (λ members. members ≡ tree_members) }
{
    let mut members = Members::new(alloc);
    push_i64(alloc, &mut members, b"fEntries")?;
    push_array(alloc, &mut members, b"fBranches")?;
    push_array(alloc, &mut members, b"fLeaves")?;
    Ok(members)
}

#[tactic(auto, unfolding(rio_format::specs::TreeClasses::branch_members))]
fn branch_members(alloc: Global) -> Result<Members, NoMemory>
    ensures { IfOk result (λ members. members ≡ branch_members) }
{
    let mut members = Members::new(alloc);
    push_i32(alloc, &mut members, b"fEntryOffsetLen")?;
    push_i32(alloc, &mut members, b"fWriteBasket")?;
    push(alloc, &mut members, b"fMaxBaskets", Kind::Counter)?;
    push_i64(alloc, &mut members, b"fEntries")?;
    push_array(alloc, &mut members, b"fBranches")?;
    push_array(alloc, &mut members, b"fLeaves")?;
    push_array(alloc, &mut members, b"fBaskets")?;
    push_of_baskets(alloc, &mut members, b"fBasketBytes", Prim::I32)?;
    push_of_baskets(alloc, &mut members, b"fBasketEntry", Prim::I64)?;
    push_of_baskets(alloc, &mut members, b"fBasketSeek", Prim::I64)?;
    Ok(members)
}

#[tactic(auto, unfolding(rio_format::specs::TreeClasses::object_branch_members))]
fn object_branch_members(alloc: Global) -> Result<Members, NoMemory>
    ensures { IfOk result (λ members. members ≡ object_branch_members) }
{
    let mut members = Members::new(alloc);
    push(alloc, &mut members, b"fClassName", Kind::Text)?;
    push_i32(alloc, &mut members, b"fClassVersion")?;
    Ok(members)
}

#[tactic(auto, unfolding(rio_format::specs::TreeClasses::leaf_members))]
fn leaf_members(alloc: Global) -> Result<Members, NoMemory>
    ensures { IfOk result (λ members. members ≡ leaf_members) }
{
    let (flag, class) = (
        Kind::Plain { of: Prim::Bool },
        Name::from_slice(alloc, b"TLeaf")?,
    );
    let mut members = Members::new(alloc);
    push_i32(alloc, &mut members, b"fLen")?;
    push_i32(alloc, &mut members, b"fLenType")?;
    push(alloc, &mut members, b"fIsUnsigned", flag)?;
    push(alloc, &mut members, b"fLeafCount", Kind::Pointer { class })?;
    Ok(members)
}

// ---- bases

fn branch_base(alloc: Global) -> Result<Base, NoMemory>
    ensures { IfOk result (λ base. base ≡ branch_base) }
{
    Ok(Base {
        name: Name::from_slice(alloc, b"TBranch")?,
        version: 113,
    })
}

fn leaf_base(alloc: Global) -> Result<Base, NoMemory>
    ensures { IfOk result (λ base. base ≡ leaf_base) }
{
    Ok(Base {
        name: Name::from_slice(alloc, b"TLeaf")?,
        version: 102,
    })
}

// ---- classes

fn tree_class(alloc: Global) -> Result<ClassDef, NoMemory>
    ensures { IfOk result (λ class. class ≡ tree_class) }
{
    let (base, members) = (named_base(alloc)?, tree_members(alloc)?);
    describing(alloc, b"TTree", 120, 2_390_821_405, base, members)
}

fn branch_class(alloc: Global) -> Result<ClassDef, NoMemory>
    ensures { IfOk result (λ class. class ≡ branch_class) }
{
    let (base, members) = (named_base(alloc)?, branch_members(alloc)?);
    describing(alloc, b"TBranch", 113, 3_955_859_836, base, members)
}

// A branch whose entries are objects.
fn object_branch_class(alloc: Global) -> Result<ClassDef, NoMemory>
    ensures { IfOk result (λ class. class ≡ object_branch_class) }
{
    let (base, members) = (branch_base(alloc)?, object_branch_members(alloc)?);
    describing(alloc, b"TBranchElement", 110, 1_729_852_984, base, members)
}

fn leaf_class(alloc: Global) -> Result<ClassDef, NoMemory>
    ensures { IfOk result (λ class. class ≡ leaf_class) }
{
    let (base, members) = (named_base(alloc)?, leaf_members(alloc)?);
    describing(alloc, b"TLeaf", 102, 2_244_545_638, base, members)
}

// A leaf of one kind of values.
fn kind_leaf(alloc: Global, name: &[u8], sum: u32) -> Result<ClassDef, NoMemory>
    ensures { IfOk result (λ class. class ≡ kind_leaf name.now sum) }
{
    let base = leaf_base(alloc)?;
    describing(alloc, name, 101, sum, base, Members::new(alloc))
}

/// The classes of trees, in the order in which they are written.
#[tactic(auto, unfolding(rio_format::specs::TreeClasses::tree_classes))]
pub fn tree_classes(alloc: Global) -> Result<Classes, NoMemory>
    ensures { IfOk result (λ classes. classes ≡ tree_classes) }
{
    let mut classes = Classes::new(alloc);
    classes.push(tree_class(alloc)?)?;
    classes.push(branch_class(alloc)?)?;
    classes.push(object_branch_class(alloc)?)?;
    classes.push(leaf_class(alloc)?)?;
    classes.push(kind_leaf(alloc, b"TLeafB", 2_112_258_162)?)?;
    classes.push(kind_leaf(alloc, b"TLeafS", 2_844_052_419)?)?;
    classes.push(kind_leaf(alloc, b"TLeafI", 2_413_585_209)?)?;
    classes.push(kind_leaf(alloc, b"TLeafL", 2_542_725_372)?)?;
    classes.push(kind_leaf(alloc, b"TLeafF", 2_284_445_046)?)?;
    classes.push(kind_leaf(alloc, b"TLeafD", 2_198_351_604)?)?;
    classes.push(kind_leaf(alloc, b"TLeafO", 2_671_865_535)?)?;
    classes.push(kind_leaf(alloc, b"TLeafC", 2_155_304_883)?)?;
    Ok(classes)
}
