//! The newest class of a name once the last class is taken out again.
ghost use Rattle.std.specs.Prelude.{◌≡◌, [], ◌∷◌, ◌++◌, Some, length, slice_get};
ghost use Rattle.std.specs.Option.{option_and_then};
ghost use Rattle.rio_format.specs.{Chain.{IsChainOf}, Classes.{newer_of, newest_in}, Index.{NewestLead}, Places.{is_named, place}};

use crate::ClassDef;
use crate::chain::Chain;

// The place of the class, which stands at `k`, or of the newest of those behind it if that is newer.
fn newer_place(classes: &[ClassDef], k: usize, class: &ClassDef, best: Option<usize>) -> usize
    requires { slice_get classes.now k ≡ Some class.now }
    ensures { slice_get classes.now result
        ≡ Some (newer_of class.now (option_and_then (slice_get classes.now) best)) }
{
    let Some(best) = best else {
        return k;
    };
    match classes.get(best) {
        Some(newest) => if newest.version <= class.version {
            k
        } else {
            best
        },
        None => k,
    }
}

// The place of the newest of the name whose first class stands at `first`, for which the classes of the name are looked
// through from the last of them back.
fn newest_place_of(chain: &Chain, classes: &[ClassDef], class: &ClassDef, first: usize) -> usize
    requires chain { IsChainOf classes.now chain.now }
    requires first { place (is_named class.now.name) classes.now ≡ Some first }
    ensures { slice_get classes.now result ≡ newest_in classes.now class.now.name }
{
    let mut best: Option<usize> = None;
    let mut at = chain.last(first);
    while let Some(k) = at {
        best = Some(newer_place(classes, k, &classes[k], best));
        at = chain.before(k);
    }
    match best {
        Some(best) => best,
        None => first,
    }
}

/// Takes the list of the newest of each name back to what it is without the last class. `first` is the place of the
/// first of the others that has its name.
pub(crate) fn forget_newest(
    newest: &mut Vec<usize>,
    chain: &Chain,
    classes: &[ClassDef],
    class: &ClassDef,
    first: Option<usize>,
)
    requires lead { NewestLead (classes.now ++ class.now ∷ []) newest.old.items }
    requires one_each { length newest.old.items ≡ length (classes.now ++ class.now ∷ []) }
    requires chain { IsChainOf classes.now chain.now }
    requires first { first ≡ place (is_named class.now.name) classes.now }
    ensures leads { NewestLead classes.now newest.new.items }
    ensures shorter { length newest.new.items ≡ length classes.now }
{
    newest.truncate(classes.len());
    if let Some(first) = first {
        newest[first] = newest_place_of(chain, classes, class, first);
    }
}
