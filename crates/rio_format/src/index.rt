//! Where classes stand in a list of them, by name and by name and number.
ghost use Rattle.std.specs.Prelude.{◌≡◌, ◌+◌, ◌<◌, ℕ, ℤ, List, [], ◌∷◌, ◌++◌, Some, slice_get, ◌==◌, ◌&&◌, length, pos, if◌then◌else◌, IfOk, IsOk, OnOk, OnErr, vec_capacity, vec_len};
ghost use Rattle.std.specs.Option.{option_and_then};
ghost use Rattle.std.specs.Ordering.{int_eq};
ghost use Rattle.std.specs.Str.{bytes_eq};
ghost use Rattle.rio_format.specs.{Chain.{last_before}, Classes.{find_in, find_sum_in, newest_in}};
ghost use Rattle.rio_format.specs.{Index.{IsIndexOf, NamesLead, NewestLead, NumbersLead, has_number, name_place, newest_place, number_place, passing, sum_of, version_of}, Places.{is_named, place}};
ghost use Rattle.rio_format.specs.declared.class.ClassDef.{ClassDef as Class};

use crate::ClassDef;
use crate::chain::Chain;
use crate::forget::forget_newest;
use rio_num::NoMemory;
use std::alloc::Global;
use std::collections::BTreeMap;

type Names = BTreeMap<Vec<u8>, usize>;

type Numbers = BTreeMap<(usize, i64), usize>;

/// Where the classes of a list stand. What a put that had no memory left in the maps leads to no class.
#[derive(Debug, Drop)]
pub(crate) struct Index {
    // A name to the first class of that name.
    names: Names,
    // The first class of a name, and a version, to the first class of both.
    versions: Numbers,
    // The same by the checksum.
    sums: Numbers,
    // At the first class of a name, the newest of that name.
    newest: Vec<usize>,
    // The classes of each name, from the last of them back.
    chain: Chain,
}

impl Index {
    /// The index of no classes.
    pub(crate) fn new(alloc: Global) -> Index
        ensures { IsIndexOf [] result }
    {
        Index {
            names: Names::new(alloc),
            versions: Numbers::new(alloc),
            sums: Numbers::new(alloc),
            newest: Vec::new(alloc),
            chain: Chain::new(alloc),
        }
    }

    /// The place of the first class of that name.
    fn first(&self, classes: &[ClassDef], name: &[u8]) -> Option<usize>
        requires { IsIndexOf classes.now self.now }
        ensures { result ≡ place (is_named name.now) classes.now }
    {
        first_at(&self.names, classes, name)
    }

    /// The place of the first class of that name and version.
    pub(crate) fn find(&self, classes: &[ClassDef], name: &[u8], version: i32) -> Option<usize>
        requires { IsIndexOf classes.now self.now }
        ensures { option_and_then (slice_get classes.now) result
            ≡ find_in classes.now name.now version }
    {
        let first = self.first(classes, name)?;
        version_at(&self.versions, classes, first, name, version)
    }

    /// The place of the first class of that name that states this checksum.
    pub(crate) fn find_sum(&self, classes: &[ClassDef], name: &[u8], sum: u32) -> Option<usize>
        requires { IsIndexOf classes.now self.now }
        ensures { option_and_then (slice_get classes.now) result
            ≡ find_sum_in classes.now name.now sum }
    {
        let first = self.first(classes, name)?;
        sum_at(&self.sums, classes, first, name, sum)
    }

    /// The place of the newest class of that name.
    pub(crate) fn newest(&self, classes: &[ClassDef], name: &[u8]) -> Option<usize>
        requires { IsIndexOf classes.now self.now }
        ensures { option_and_then (slice_get classes.now) result ≡ newest_in classes.now name.now }
    {
        let first = self.first(classes, name)?;
        place_at(self.newest.as_slice(), first)
    }

    /// The place of the last class of that name.
    pub(crate) fn last(&self, classes: &[ClassDef], name: &[u8]) -> Option<usize>
        requires { IsIndexOf classes.now self.now }
        ensures { result ≡ last_before (is_named name.now) classes.now (length classes.now) }
    {
        let first = self.first(classes, name)?;
        self.chain.last(first)
    }

    /// The place of the last class before the one at `k` that has its name.
    pub(crate) fn before(&self, classes: &[ClassDef], k: usize) -> Option<usize>
        requires { IsIndexOf classes.now self.now }
        ensures { (c : Class) → slice_get classes.now k ≡ Some c
            → result ≡ last_before (is_named c.name) classes.now k }
    {
        self.chain.before(k)
    }

    /// Takes up a class that comes behind the others.
    pub(crate) fn put(
        &mut self,
        alloc: Global,
        classes: &[ClassDef],
        class: &ClassDef,
    ) -> Result<(), NoMemory>
        requires { IsIndexOf classes.now self.old }
        ensures ok { OnOk result (IsIndexOf (classes.now ++ class.now ∷ []) self.new) }
        ensures err { OnErr result (IsIndexOf classes.now self.new) }
    {
        let first = put_first(&mut self.names, alloc, classes, class)?;
        put_version(&mut self.versions, classes, class, first)?;
        put_sum(&mut self.sums, classes, class, first)?;
        self.newest.reserve(1)?;
        self.chain.put(classes, class, first)?;
        put_newest(&mut self.newest, classes, class, first)
    }

    /// Lets go of a class that came behind the others. This takes no memory.
    pub(crate) fn forget(&mut self, classes: &[ClassDef], class: &ClassDef)
        requires { IsIndexOf (classes.now ++ class.now ∷ []) self.old }
        ensures { IsIndexOf classes.now self.new }
    {
        let first = first_at(&self.names, classes, class.name.as_slice());
        self.chain.forget(classes, class, first);
        forget_newest(&mut self.newest, &self.chain, classes, class, first);
    }
}

fn place_at(places: &[usize], k: usize) -> Option<usize>
    ensures { result ≡ slice_get places.now k }
{
    match places.get(k) {
        Some(place) => Some(*place),
        None => None,
    }
}

fn first_passing(classes: &[ClassDef], place: Option<usize>, name: &[u8]) -> Option<usize>
    ensures { result ≡ passing (is_named name.now) classes.now place }
{
    let place = place?;
    let class = classes.get(place)?;
    if class.name.as_slice() == name {
        Some(place)
    } else {
        None
    }
}

// The class that the name leads to, if it has the name.
fn first_at(names: &Names, classes: &[ClassDef], name: &[u8]) -> Option<usize>
    ensures { result ≡ passing (is_named name.now) classes.now (name_place names.now name.now) }
{
    first_passing(classes, names.get(name).copied(), name)
}

fn version_passing(
    classes: &[ClassDef],
    place: Option<usize>,
    name: &[u8],
    version: i32,
) -> Option<usize>
    ensures { result ≡ passing (has_number version_of name.now version) classes.now place }
{
    let place = place?;
    let class = classes.get(place)?;
    if class.name.as_slice() == name && class.version == version {
        Some(place)
    } else {
        None
    }
}

// The class that the first one of its name and the version lead to, if it has both.
fn version_at(
    versions: &Numbers,
    classes: &[ClassDef],
    first: usize,
    name: &[u8],
    version: i32,
) -> Option<usize>
    ensures { result ≡ passing (has_number version_of name.now version) classes.now
        (number_place versions.now first version) }
{
    let key = (first, i64::from(version));
    version_passing(classes, versions.get(&key).copied(), name, version)
}

fn sum_passing(classes: &[ClassDef], place: Option<usize>, name: &[u8], sum: u32) -> Option<usize>
    ensures { result ≡ passing (has_number sum_of name.now (pos sum)) classes.now place }
{
    let place = place?;
    let class = classes.get(place)?;
    if class.name.as_slice() == name && class.sum == sum {
        Some(place)
    } else {
        None
    }
}

// The class that the first one of its name and the checksum lead to, if it has both.
fn sum_at(
    sums: &Numbers,
    classes: &[ClassDef],
    first: usize,
    name: &[u8],
    sum: u32,
) -> Option<usize>
    ensures { result ≡ passing (has_number sum_of name.now (pos sum)) classes.now
        (number_place sums.now first (pos sum)) }
{
    let key = (first, i64::from(sum));
    sum_passing(classes, sums.get(&key).copied(), name, sum)
}

// The name leads to the place from now on.
fn put_name(names: &mut Names, alloc: Global, name: &[u8], place: usize) -> Result<(), NoMemory>
    ensures ok { OnOk result ((q : List ℕ) → name_place names.new q
        ≡ (if bytes_eq q name.now then Some place else name_place names.old q)) }
    ensures err { OnErr result ((q : List ℕ) → name_place names.new q ≡ name_place names.old q) }
{
    names.insert(Vec::from_slice(alloc, name)?, place)?;
    Ok(())
}

// The class and the number lead to the place from now on.
fn put_number(
    numbers: &mut Numbers,
    first: usize,
    number: i64,
    place: usize,
) -> Result<(), NoMemory>
    ensures ok { OnOk result ((a : ℕ) (z : ℤ) → number_place numbers.new a z
        ≡ (if (a == first) && int_eq z number then Some place else number_place numbers.old a z)) }
    ensures err { OnErr result ((a : ℕ) (z : ℤ) → number_place numbers.new a z
        ≡ number_place numbers.old a z) }
{
    numbers.insert((first, number), place)?;
    Ok(())
}

// The place of the first class of the name of a class that comes behind the others, which may be that class.
fn put_first(
    names: &mut Names,
    alloc: Global,
    classes: &[ClassDef],
    class: &ClassDef,
) -> Result<usize, NoMemory>
    requires { NamesLead classes.now (name_place names.old) }
    ensures stays { NamesLead classes.now (name_place names.new) }
    ensures leads { OnOk result (NamesLead (classes.now ++ class.now ∷ []) (name_place names.new)) }
    ensures first { IfOk result (λ first.
        place (is_named class.now.name) (classes.now ++ class.now ∷ []) ≡ Some first) }
{
    let name = class.name.as_slice();
    match first_at(names, classes, name) {
        Some(first) => Ok(first),
        None => {
            put_name(names, alloc, name, classes.len())?;
            Ok(classes.len())
        }
    }
}

// Leads to a class that comes behind the others, if it is the first of its name and version.
fn put_version(
    versions: &mut Numbers,
    classes: &[ClassDef],
    class: &ClassDef,
    first: usize,
) -> Result<(), NoMemory>
    requires lead { NumbersLead version_of classes.now (number_place versions.old) }
    requires first { place (is_named class.now.name) (classes.now ++ class.now ∷ []) ≡ Some first }
    ensures stays { NumbersLead version_of classes.now (number_place versions.new) }
    ensures leads { OnOk result (NumbersLead version_of (classes.now ++ class.now ∷ [])
        (number_place versions.new)) }
{
    let (name, version) = (class.name.as_slice(), class.version);
    match version_at(versions, classes, first, name, version) {
        Some(_) => Ok(()),
        None => {
            put_number(versions, first, i64::from(version), classes.len())?;
            Ok(())
        }
    }
}

// Leads to a class that comes behind the others, if it is the first of its name and checksum.
fn put_sum(
    sums: &mut Numbers,
    classes: &[ClassDef],
    class: &ClassDef,
    first: usize,
) -> Result<(), NoMemory>
    requires lead { NumbersLead sum_of classes.now (number_place sums.old) }
    requires first { place (is_named class.now.name) (classes.now ++ class.now ∷ []) ≡ Some first }
    ensures stays { NumbersLead sum_of classes.now (number_place sums.new) }
    ensures leads { OnOk result (NumbersLead sum_of (classes.now ++ class.now ∷ [])
        (number_place sums.new)) }
{
    let (name, sum) = (class.name.as_slice(), class.sum);
    match sum_at(sums, classes, first, name, sum) {
        Some(_) => Ok(()),
        None => {
            put_number(sums, first, i64::from(sum), classes.len())?;
            Ok(())
        }
    }
}

// The place of the newest of a name, once a class of that name comes behind the others.
fn newest_place(classes: &[ClassDef], class: &ClassDef, best: usize) -> usize
    ensures { result ≡ newest_place classes.now class.now best }
{
    match classes.get(best) {
        Some(newest) => if class.version <= newest.version {
            best
        } else {
            classes.len()
        },
        None => best,
    }
}

// Takes up a class that comes behind the others as the newest of its name, if it is.
fn put_newest(
    newest: &mut Vec<usize>,
    classes: &[ClassDef],
    class: &ClassDef,
    first: usize,
) -> Result<(), NoMemory>
    requires lead { NewestLead classes.now newest.old.items }
    requires one_each { length newest.old.items ≡ length classes.now }
    requires first { place (is_named class.now.name) (classes.now ++ class.now ∷ []) ≡ Some first }
    ensures leads { OnOk result (NewestLead (classes.now ++ class.now ∷ []) newest.new.items) }
    ensures longer { OnOk result (length newest.new.items
        ≡ length (classes.now ++ class.now ∷ [])) }
    ensures err { OnErr result (newest.new.items ≡ newest.old.items) }
    ensures succeeds { vec_len newest.old < vec_capacity newest.old → IsOk result }
{
    newest.push(classes.len())?;
    newest[first] = newest_place(classes, class, newest[first]);
    Ok(())
}
