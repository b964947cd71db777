//! A file is recovered.
ghost use Rattle.std.specs.Prelude.{◌≡◌, ◌<◌, ◌≤◌, ◌^◌, ◌&&◌, false, ℕ, List, Some, IfOk};
ghost use Rattle.std.specs.List.{All, filter};
ghost use Rattle.std.specs.Option.{option_copied, option_map};
ghost use Rattle.rio_host.specs.OnlyReads.{OnlyReads};
ghost use Rattle.rio_chain.specs.Adjoining.{AreSegments};
ghost use Rattle.rio_chain.specs.Chains.{HasChain};
ghost use Rattle.rio_chain.specs.Found.{IsShortKey};
ghost use Rattle.rio_chain.specs.Placing.{file_end};
ghost use Rattle.rio_chain.specs.Segments.{Link};
ghost use Rattle.rio_chain.specs.Walks.{Told};
ghost use Rattle.rio_dir.specs.Table.{AreOrdered};
ghost use Rattle.rio_dir.specs.Unborn.{is_unborn};
ghost use Rattle.rio_model.specs.StateClasses.{StateClasses};
ghost use Rattle.rio_state.specs.Closing.{end_limit, name_in};
ghost use Rattle.rio_state.specs.KeyedRecords.{KeyedRecord, info_key, is_top_key, keyed_records};
ghost use Rattle.rio_recover.specs.Causes.{IsRecoverCause};
ghost use Rattle.rio_recover.specs.Baskets.{HasPlaces};
ghost use Rattle.rio_recover.specs.Checks.{HasChecked, is_item_key};
ghost use Rattle.rio_recover.specs.Names.{IndexesNames};
ghost use Rattle.rio_recover.specs.TreeTable.{AreInOrder};
ghost use Rattle.rio_recover.specs.Classes.{HasListCycle};
ghost use Rattle.rio_recover.specs.Keys.{AreInPlace, AreWithin, StandsIn, keyed_by, record_heads};
ghost use Rattle.rio_recover.specs.Walked.{IsWholeWalk};
ghost use Rattle.rio_recover.specs.Whole.{IsWhole};
ghost use Rattle.rio_recover.specs.Recovered.{AreParts, HasRoomBehind, IsAnswer, IsKeptOf, JudgesLinks, JudgesState, TellsAll, is_left_over, place_in, places_left};

use crate::RecoverFault;
use crate::classes::read_classes;
use crate::judge::{KeyCheck, check_keys};
use crate::keys::{check_directory, info_head, is_top_key};
use crate::room::{check_room, count_others};
use crate::tree::FileKeys;
use crate::trees::Trees;
use crate::walked::{Walked, walk_file};
use rio_chain::{Chain, end_of};
use rio_dir::KeyTable;
use rio_head::Reason;
use rio_host::Host;
use rio_key::{FIRST_PLACE, KeyHead};
use rio_num::{Name, NoMemory, Places};
use rio_registry::Registry;
use std::alloc::Global;

/// What a file has whose bytes read as a state.
#[derive(Drop)]
pub struct Recovered {
    /// Its segments, with room for the release of the garbage.
    pub chain: Chain,
    /// The classes of the state.
    pub registry: Registry,
    /// The keys of its objects and trees: of each name of trees that of the greatest cycle.
    pub table: KeyTable,
    /// Its trees, with what their headers say.
    pub trees: Trees,
    /// The key of the class list that counts.
    pub info: Option<KeyHead>,
    /// The places of the records that nothing refers to, in order.
    pub garbage: Places,
    /// The file's name, as its first record has it.
    pub name: Name,
    /// The header's fNbytesName.
    pub nbytes_name: u32,
}

// The classes of a state, and what is known of the keys of its items.
#[derive(Drop)]
struct ReadState {
    registry: Registry,
    check: KeyCheck,
}

// Where the class list stands, and 0 where there is none.
fn place_of(info: Option<&KeyHead>) -> u64
    ensures { result ≡ place_in (option_copied info.entry) }
{
    match info {
        Some(head) => head.seek,
        None => 0,
    }
}

// Whether the record is an item's.
fn is_item_record(head: &KeyHead, check: &KeyCheck) -> bool
    ensures { (tops : List KeyedRecord) → IndexesNames tops check.now.names
        → result ≡ (is_top_key head.now && is_item_key tops head.now) }
{
    is_top_key(head) && check.is_item(head)
}

// Whether the record is neither the first nor that of the class list at this place, no item's, and no basket of a tree.
fn is_left_over(head: &KeyHead, info: u64, check: &KeyCheck) -> bool
    ensures { (tops : List KeyedRecord) (baskets : List ℕ) → IndexesNames tops check.now.names
        → HasPlaces baskets check.now.named
        → result ≡ is_left_over tops info baskets head.now }
{
    if head.seek == FIRST_PLACE {
        return false;
    }
    if head.seek == info {
        return false;
    }
    !is_item_record(head, check) && !check.named.has(head.seek)
}

// The places of the records that nothing refers to.
fn garbage_of(
    alloc: Global,
    heads: &[KeyHead],
    info: u64,
    check: &KeyCheck,
) -> Result<Places, NoMemory>
    ensures { IfOk result (λ places. (tops : List KeyedRecord) (baskets : List ℕ)
        → IndexesNames tops check.now.names → HasPlaces baskets check.now.named
        → places ≡ places_left tops info baskets heads.now) }
{
    let mut places = Places::new(alloc);
    for head in heads {
        if is_left_over(head, info, check) {
            places.push(head.seek)?;
        }
    }
    Ok(places)
}

fn copy_of(head: Option<&KeyHead>) -> Result<Option<KeyHead>, NoMemory>
    ensures { IfOk result (λ copied. copied ≡ option_copied head.entry) }
{
    match head {
        Some(head) => Ok(Some(head.copy()?)),
        None => Ok(None),
    }
}

// The name of the file, which its first record has.
fn name_of(alloc: Global, heads: &[KeyHead]) -> Result<Name, NoMemory>
    ensures { IfOk result (λ name. name ≡ name_in (keyed_by heads.now)) }
{
    match heads {
        [first, ..] => first.name.copy(),
        [] => Ok(Name::new(alloc)),
    }
}

// The classes and the items of the state that the records of these keys stand for, or the first reason why they stand
// for none.
fn read_state<H: Host>(
    alloc: Global,
    host: &mut H,
    heads: &[KeyHead],
    info: Option<&KeyHead>,
) -> Result<ReadState, RecoverFault>
    requires within { AreWithin (H.view host.old) heads.now }
    requires rising { AreInPlace heads.now }
    requires info { option_copied info
        ≡ option_map (λ r. r.head) (info_key (keyed_by heads.now)) }
    ensures told { (file : List ℕ) (records : List KeyedRecord)
        → (H.view host.old).holds ≡ Some file → All (StandsIn file) records
        → heads.now ≡ record_heads records → JudgesState result records }
    ensures checked { IfOk result
        (λ state. HasChecked heads.now (filter is_top_key heads.now) state.check) }
    ensures classes { IfOk result (λ state. StateClasses state.registry) }
    ensures listed { IfOk result
        (λ state. HasListCycle (option_copied info.entry) state.registry) }
    ensures calls { OnlyReads (H.view host.old) (H.view host.new) }
    ensures cause { IsRecoverCause (H.view host.old) (H.view host.new) result }
{
    let found = read_classes(alloc, host, info)?;
    check_directory(heads)?;
    match found {
        Some(classes) => {
            let keys = FileKeys {
                classes: &classes,
                heads,
            };
            let check = check_keys(alloc, host, &keys)?;
            Ok(ReadState {
                registry: classes.registry,
                check,
            })
        }
        None => Err(RecoverFault::ReadOnly {
            place: place_of(info),
            reason: Reason::BadInfo,
        }),
    }
}

// Puts together what is recovered.
fn gather(
    alloc: Global,
    walked: Walked,
    name: Name,
    info: Option<KeyHead>,
    state: ReadState,
) -> Result<Recovered, NoMemory>
    requires shape { AreSegments walked.segments }
    requires low { file_end walked.segments ≤ end_limit }
    ensures parts { IfOk result (AreParts walked name info state) }
    ensures garbage { IfOk result (λ r. (tops : List KeyedRecord) (baskets : List ℕ)
        → IndexesNames tops state.check.names → HasPlaces baskets state.check.named
        → r.garbage ≡ places_left tops (place_in info) baskets walked.heads) }
{
    let garbage = garbage_of(
        alloc,
        walked.heads.as_slice(),
        place_of(info.as_ref()),
        &state.check,
    )?;
    let mut chain = Chain::from_segments(walked.segments)?;
    chain.reserve(garbage.len() as u64)?;
    let ReadState { registry, check } = state;
    Ok(Recovered {
        chain,
        registry,
        table: check.items,
        trees: check.trees,
        info,
        garbage,
        name,
        nbytes_name: walked.nbytes_name,
    })
}

// What the file that was walked has, or the first reason why nothing is written to it.
fn recover_walked<H: Host>(
    alloc: Global,
    host: &mut H,
    walked: Walked,
) -> Result<Recovered, RecoverFault>
    requires whole { IsWholeWalk walked }
    requires end { file_end walked.segments < 2 ^ 64 }
    requires short { All IsShortKey walked.heads }
    requires within { AreWithin (H.view host.old) walked.heads }
    ensures told { (file : List ℕ) (links : List Link) → (H.view host.old).holds ≡ Some file
        → HasChain links walked.segments file → walked.heads ≡ record_heads (keyed_records links)
        → JudgesLinks result links }
    ensures kept { IfOk result (IsKeptOf walked) }
    ensures whole { IfOk result IsWhole }
    ensures ordered { IfOk result (λ r. AreOrdered r.table.heads) }
    ensures named { IfOk result (λ r. AreInOrder r.trees) }
    ensures room { IfOk result HasRoomBehind }
    ensures calls { OnlyReads (H.view host.old) (H.view host.new) }
    ensures cause { IsRecoverCause (H.view host.old) (H.view host.new) result }
{
    let heads = walked.heads.as_slice();
    let info = copy_of(info_head(heads))?;
    let state = read_state(alloc, host, heads, info.as_ref())?;
    // Looked at so that their order is known to the proof.
    let _ordered = state.check.items.as_slice();
    let _named = state.check.trees.as_slice();
    let name = name_of(alloc, heads)?;
    let end = end_of(walked.segments.as_slice());
    check_room(
        end,
        name.as_slice(),
        &state.check.items,
        count_others(info.as_ref(), state.check.trees.as_slice()),
    )?;
    Ok(gather(alloc, walked, name, info, state)?)
}

/// What the file has, whose bytes read as a state; nothing is written to it. The file is made already.
/// BadFile is the first rule that the header breaks, of those that are tested before anything is written
/// to a file, and ReadOnly the first reason not to write to a file whose header breaks none; each has
/// its place. HostFault comes only where a call on the file failed.
pub fn recover<H: Host>(alloc: Global, host: &mut H) -> Result<Recovered, RecoverFault>
    requires { Told (H.view host.old) (λ file. is_unborn file ≡ false) }
    ensures answer { Told (H.view host.old) (IsAnswer result) }
    ensures told { Told (H.view host.old) (TellsAll result) }
    ensures fresh { IfOk result (λ r. r.chain.spent ≡ false) }
    // What the keys of the records tell is so whatever the host tells.
    ensures whole { IfOk result IsWhole }
    ensures room { IfOk result HasRoomBehind }
    ensures calls { OnlyReads (H.view host.old) (H.view host.new) }
    ensures cause { IsRecoverCause (H.view host.old) (H.view host.new) result }
{
    let walked = walk_file(alloc, host)?;
    recover_walked(alloc, host, walked)
}
