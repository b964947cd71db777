//! The classes of the objects that describe classes.
ghost use Rattle.std.specs.Prelude.{◌≡◌, IfOk};
ghost use Rattle.rio_format.specs.Descriptions.{bare_element, base_element_class, counted_element_class, describing, description_classes, element_base, element_class, info_class};

use crate::class::{describing, named_base, push};
use rio_format::{Base, ClassDef, Classes, Kind, Members, Prim};
use rio_num::{Name, NoMemory};
use std::alloc::Global;

fn info_class(alloc: Global) -> Result<ClassDef, NoMemory>
    ensures { IfOk result (λ class. class ≡ info_class) }
{
    let elements = Kind::Pointer {
        class: Name::from_slice(alloc, b"TObjArray")?,
    };
    let mut members = Members::new(alloc);
    push(
        alloc,
        &mut members,
        b"fCheckSum",
        Kind::Plain { of: Prim::U32 },
    )?;
    push(
        alloc,
        &mut members,
        b"fClassVersion",
        Kind::Plain { of: Prim::I32 },
    )?;
    push(alloc, &mut members, b"fElements", elements)?;
    let base = named_base(alloc)?;
    describing(alloc, b"TStreamerInfo", 9, 1_978_760_737, base, members)
}

fn element_class(alloc: Global) -> Result<ClassDef, NoMemory>
    ensures { IfOk result (λ class. class ≡ element_class) }
{
    let dimensions = Kind::Fixed {
        of: Prim::I32,
        count: 5,
    };
    let mut members = Members::new(alloc);
    push(alloc, &mut members, b"fType", Kind::Plain { of: Prim::I32 })?;
    push(alloc, &mut members, b"fSize", Kind::Plain { of: Prim::I32 })?;
    push(
        alloc,
        &mut members,
        b"fArrayLength",
        Kind::Plain { of: Prim::I32 },
    )?;
    push(
        alloc,
        &mut members,
        b"fArrayDim",
        Kind::Plain { of: Prim::I32 },
    )?;
    push(alloc, &mut members, b"fMaxIndex", dimensions)?;
    push(alloc, &mut members, b"fTypeName", Kind::Text)?;
    let base = named_base(alloc)?;
    describing(alloc, b"TStreamerElement", 4, 1_842_746_706, base, members)
}

// A class of elements with these members.
fn element(
    alloc: Global,
    name: &[u8],
    version: i32,
    sum: u32,
    members: Members,
) -> Result<ClassDef, NoMemory>
    ensures { IfOk result (λ class. class ≡ describing name.now version sum element_base members) }
{
    let base = Base {
        name: Name::from_slice(alloc, b"TStreamerElement")?,
        version: 4,
    };
    describing(alloc, name, version, sum, base, members)
}

fn base_element_class(alloc: Global) -> Result<ClassDef, NoMemory>
    ensures { IfOk result (λ class. class ≡ base_element_class) }
{
    let mut members = Members::new(alloc);
    push(
        alloc,
        &mut members,
        b"fBaseVersion",
        Kind::Plain { of: Prim::I32 },
    )?;
    element(alloc, b"TStreamerBase", 3, 2_469_373_253, members)
}

fn counted_element_class(alloc: Global) -> Result<ClassDef, NoMemory>
    ensures { IfOk result (λ class. class ≡ counted_element_class) }
{
    let mut members = Members::new(alloc);
    push(
        alloc,
        &mut members,
        b"fCountVersion",
        Kind::Plain { of: Prim::I32 },
    )?;
    push(alloc, &mut members, b"fCountName", Kind::Text)?;
    push(alloc, &mut members, b"fCountClass", Kind::Text)?;
    element(alloc, b"TStreamerBasicPointer", 2, 1_505_910_659, members)
}

// A class of elements without members.
fn bare_element(alloc: Global, name: &[u8], version: i32, sum: u32) -> Result<ClassDef, NoMemory>
    ensures { IfOk result (λ class. class ≡ bare_element name.now version sum) }
{
    element(alloc, name, version, sum, Members::new(alloc))
}

/// The classes of the objects that describe classes: TStreamerInfo, TStreamerElement and the classes of
/// elements, each in the one version that is known. A class list is read by them.
#[tactic(auto, unfolding(rio_format::specs::Descriptions::description_classes))]
pub fn description_classes(alloc: Global) -> Result<Classes, NoMemory>
    ensures { IfOk result (λ classes. classes ≡ description_classes) }
{
    let mut classes = Classes::new(alloc);
    classes.push(info_class(alloc)?)?;
    classes.push(element_class(alloc)?)?;
    classes.push(base_element_class(alloc)?)?;
    classes.push(counted_element_class(alloc)?)?;
    classes.push(bare_element(alloc, b"TStreamerBasicType", 2, 3_946_468_268)?)?;
    classes.push(bare_element(alloc, b"TStreamerObject", 2, 333_481_419)?)?;
    classes.push(bare_element(alloc, b"TStreamerObjectAny", 2, 1_280_426_895)?)?;
    classes.push(bare_element(alloc, b"TStreamerObjectPointer", 2, 377_212_202)?)?;
    classes.push(bare_element(alloc, b"TStreamerObjectAnyPointer", 1, 1_518_833_227)?)?;
    classes.push(bare_element(alloc, b"TStreamerString", 2, 1_968_605_749)?)?;
    Ok(classes)
}
