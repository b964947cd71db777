//! A close is written.
ghost use Rattle.std.specs.Prelude.{◌≡◌, ◌+◌, ◌-◌, ◌<◌, ◌≤◌, ◌^◌, ℕ, List, Some, false, length, OnOk};
ghost use Rattle.rio_host.specs.Host.{Elapses, IsDiskCause, IsQuiet, IsWithin, OnlyWrites};
ghost use Rattle.rio_chain.specs.Chains.{HoldsChain};
ghost use Rattle.rio_chain.specs.Placing.{file_end};
ghost use Rattle.rio_chain.specs.Walks.{Told};
ghost use Rattle.rio_machine.specs.State.{State};
ghost use Rattle.rio_close.specs.Fields.{FieldsThenEnd, IsFieldsOrNot, IsFieldsThenEnd, WritesFields};
ghost use Rattle.rio_close.specs.Leaving.{HoldsClosed, HoldsClosedWith, IsReadyToClose, StaysAs};
ghost use Rattle.rio_close.specs.Written.{AreForSegments, OpenFile, with_records};

use crate::CloseRecords;
use rio_chain::Chain;
use rio_host::{Failed, Host, HostFault};

// Writes the fields of the header and, at `place`, those of the directory record.
fn write_fields<H: Host>(
    host: &mut H,
    free: &[u8],
    info: &[u8],
    place: u64,
    directory: &[u8],
) -> Result<(), Failed>
    requires within { IsWithin (H.view host.old) (place + 24) }
    requires quiet { IsQuiet (H.view host.old) }
    requires later { 100 ≤ place }
    requires low { place < 2 ^ 63 }
    requires free_size { length free.now ≡ 12 }
    requires info_size { length info.now ≡ 8 }
    requires directory_size { length directory.now ≡ 24 }
    ensures any_moment { (file : List ℕ) → (H.view host.old).holds ≡ Some file
        → Elapses (H.view host.old) (H.view host.new)
        (IsFieldsOrNot (H.view host.old) place file) }
    ensures holds { OnOk result ((file : List ℕ) → (H.view host.old).holds ≡ Some file
        → (new : List ℕ) × ((H.view host.new).holds ≡ Some new)
        × WritesFields free.now info.now place directory.now file new) }
    ensures quiet { OnOk result (IsQuiet (H.view host.new)) }
    ensures writes { OnlyWrites (H.view host.old) (H.view host.new) }
    ensures cause { IsDiskCause (H.view host.old) (H.view host.new) result }
{
    host.write(16, free)?;
    host.write(37, info)?;
    host.write(place, directory)?;
    host.sync()
}

// Writes the fields and then, with them on the disk, the word that says where the file ends.
fn finish<H: Host>(
    host: &mut H,
    free: &[u8],
    info: &[u8],
    place: u64,
    directory: &[u8],
    end: u32,
) -> Result<(), Failed>
    requires within { IsWithin (H.view host.old) (place + 24) }
    requires quiet { IsQuiet (H.view host.old) }
    requires later { 100 ≤ place }
    requires low { place < 2 ^ 63 }
    requires free_size { length free.now ≡ 12 }
    requires info_size { length info.now ≡ 8 }
    requires directory_size { length directory.now ≡ 24 }
    ensures any_moment { (file : List ℕ) → (H.view host.old).holds ≡ Some file
        → Elapses (H.view host.old) (H.view host.new)
        (IsFieldsThenEnd (H.view host.old) free.now info.now place directory.now end file) }
    ensures holds { OnOk result ((file : List ℕ) → (H.view host.old).holds ≡ Some file
        → (new : List ℕ) × ((H.view host.new).holds ≡ Some new)
        × FieldsThenEnd free.now info.now place directory.now end file new) }
    ensures quiet { OnOk result (IsQuiet (H.view host.new)) }
    ensures writes { OnlyWrites (H.view host.old) (H.view host.new) }
    ensures cause { IsDiskCause (H.view host.old) (H.view host.new) result }
{
    write_fields(host, free, info, place, directory)?;
    host.write_word(12, end)?;
    host.sync()
}

// Puts both records and finishes.
fn put_and_finish<H: Host>(
    host: &mut H,
    chain: &mut Chain,
    records: &mut CloseRecords,
) -> Result<(), HostFault>
    requires fresh { chain.old.spent ≡ false }
    requires holds { HoldsChain (H.view host.old) chain.old.segments }
    requires quiet { IsQuiet (H.view host.old) }
    requires records { AreForSegments chain.old.segments records.old }
    requires directory { Told (H.view host.old)
        (λ _. records.old.nbytes_name + 160 ≤ file_end chain.old.segments) }
    requires room { 2 ≤ chain.old.spare }
    ensures any_moment { (f : OpenFile) (m : State)
        → IsReadyToClose (H.view host.old) chain.old.segments records.old f m
        → Elapses (H.view host.old) (H.view host.new) (StaysAs (H.view host.old) m) }
    ensures closed { OnOk result ((f : OpenFile) (m : State)
        → IsReadyToClose (H.view host.old) chain.old.segments records.old f m
        → HoldsClosed (H.view host.new) m) }
    ensures written { OnOk result ((f : OpenFile) (m : State)
        → (ready : IsReadyToClose (H.view host.old) chain.old.segments records.old f m)
        → HoldsClosedWith (H.view host.new) f ready.held.links records.old ready.held.file) }
    ensures quiet { OnOk result (IsQuiet (H.view host.new)) }
    ensures chain { OnOk result (chain.new ≡ record chain.old {
      segments = with_records records.old chain.old.segments;
      spare = chain.old.spare - 2;
    }) }
    ensures writes { OnlyWrites (H.view host.old) (H.view host.new) }
    ensures cause { IsDiskCause (H.view host.old) (H.view host.new) result }
{
    chain.put_record(host, records.list.head.seek, &mut records.list.bytes)?;
    chain.put_record(host, records.free.head.seek, &mut records.free.bytes)?;
    let place = u64::from(records.nbytes_name) + 106;
    let end = chain.end() as u32;
    finish(
        host,
        records.free_fields.as_slice(),
        records.info_fields.as_slice(),
        place,
        records.dir_fields.as_slice(),
        end,
    )?;
    Ok(())
}

/// Closes a file: puts the key list and the free record, writes the fields of header and directory
/// record, and then, with them on the disk, the word that says where the file ends. It takes no
/// memory and reads nothing. A stop at any moment leaves a file that reads as the state of before,
/// and that is marked as open or closed whole. HostFault comes only where a call on the file
/// failed.
///
/// The records are those that `close_records` made for this chain. The record of the directory, at
/// 100 and fNbytesName, stands in front of the end of the file. Rows of trees that are pending were
/// saved before.
pub fn write_close<H: Host>(
    host: &mut H,
    chain: &mut Chain,
    mut records: CloseRecords,
) -> Result<(), HostFault>
    requires fresh { chain.old.spent ≡ false }
    requires holds { HoldsChain (H.view host.old) chain.old.segments }
    requires quiet { IsQuiet (H.view host.old) }
    requires records { AreForSegments chain.old.segments records }
    requires directory { Told (H.view host.old)
        (λ _. records.nbytes_name + 160 ≤ file_end chain.old.segments) }
    requires room { 2 ≤ chain.old.spare }
    ensures any_moment { (f : OpenFile) (m : State)
        → IsReadyToClose (H.view host.old) chain.old.segments records f m
        → Elapses (H.view host.old) (H.view host.new) (StaysAs (H.view host.old) m) }
    ensures closed { OnOk result ((f : OpenFile) (m : State)
        → IsReadyToClose (H.view host.old) chain.old.segments records f m
        → HoldsClosed (H.view host.new) m) }
    ensures written { OnOk result ((f : OpenFile) (m : State)
        → (ready : IsReadyToClose (H.view host.old) chain.old.segments records f m)
        → HoldsClosedWith (H.view host.new) f ready.held.links records ready.held.file) }
    ensures quiet { OnOk result (IsQuiet (H.view host.new)) }
    ensures chain { OnOk result (chain.new ≡ record chain.old {
      segments = with_records records chain.old.segments;
      spare = chain.old.spare - 2;
    }) }
    ensures writes { OnlyWrites (H.view host.old) (H.view host.new) }
    ensures cause { IsDiskCause (H.view host.old) (H.view host.new) result }
{
    put_and_finish(host, chain, &mut records)
}
