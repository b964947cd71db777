//! A key by its name and cycle.
ghost use Rattle.std.specs.Prelude.{◌≡◌, Some, Ok, Err, MatchResult};
ghost use Rattle.std.specs.List.{list_any};
ghost use Rattle.std.specs.Option.{option_copied};
ghost use Rattle.rio_dir.specs.Table.{is_of_name};
ghost use Rattle.rio_report.specs.Item.{found_item, key_of_item, with_greatest_cycle, with_cycle};
ghost use Rattle.rio_report.specs.GreatestCycle.{greatest_cycle_of};

use rio_key::KeyHead;
use rio_machine::Refusal;
use rio_num::Name;

/// A key by its name, and by its cycle where one is said; else the greatest cycle of the name is meant.
#[derive(Debug, Drop)]
pub struct Item {
    pub name: Name,
    pub cycle: Option<u32>,
}

/// Whether the key has the name.
pub(crate) fn is_of_name(key: &KeyHead, name: &[u8]) -> bool
    ensures { result ≡ is_of_name name.now key.now }
{
    key.name.as_slice() == name
}

/// The one with the greater cycle, where there are two: the first of equal ones.
pub(crate) fn greater_cycle<'a>(best: Option<&'a KeyHead>, key: &'a KeyHead) -> Option<&'a KeyHead>
    ensures { option_copied result ≡ greatest_cycle_of (option_copied best.entry) (Some key.now) }
{
    match best {
        Some(best) if key.cycle <= best.cycle => Some(best),
        _ => Some(key),
    }
}

// The key of the name with the greatest cycle, the first of several.
fn with_greatest_cycle<'a>(keys: &'a [KeyHead], name: &[u8]) -> Option<&'a KeyHead>
    ensures { option_copied result ≡ with_greatest_cycle name.now keys.now }
{
    let mut best: Option<&KeyHead> = None;
    for key in keys {
        if is_of_name(key, name) {
            best = greater_cycle(best, key);
        }
    }
    best
}

// The first key of the name and cycle.
fn with_cycle<'a>(keys: &'a [KeyHead], name: &[u8], cycle: u32) -> Option<&'a KeyHead>
    ensures { option_copied result ≡ with_cycle name.now cycle keys.now }
{
    keys.iter().find(|key| is_of_name(key, name) && u32::from(key.cycle) == cycle)
}

/// Whether one of the keys has the name.
pub(crate) fn has_any(keys: &[KeyHead], name: &[u8]) -> bool
    ensures { result ≡ list_any (is_of_name name.now) keys.now }
{
    keys.iter().any(|key| is_of_name(key, name))
}

fn key_of<'a>(keys: &'a [KeyHead], item: &Item) -> Option<&'a KeyHead>
    ensures { option_copied result ≡ key_of_item item.now keys.now }
{
    match item.cycle {
        None => with_greatest_cycle(keys, item.name.as_slice()),
        Some(cycle) => with_cycle(keys, item.name.as_slice(), cycle),
    }
}

/// The key of an item, or why there is none. Where the item has no cycle, it is the greatest of the name.
pub(crate) fn found_item<'a>(keys: &'a [KeyHead], item: &Item) -> Result<&'a KeyHead, Refusal>
    ensures { MatchResult result (λ key. found_item item.now keys.now ≡ Ok key.now)
        (λ refusal. found_item item.now keys.now ≡ Err refusal) }
{
    match key_of(keys, item) {
        Some(key) => Ok(key),
        None if has_any(keys, item.name.as_slice()) => Err(Refusal::NoSuchCycle),
        None => Err(Refusal::NoSuchName),
    }
}
