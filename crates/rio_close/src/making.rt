//! The records of a close are made.
ghost use Rattle.std.specs.Prelude.{◌≡◌, ◌+◌, ◌*◌, ◌-◌, ◌<◌, ◌≤◌, ◌^◌, codes, false, length, IfOk, IfSome, OnOk};
ghost use Rattle.std.specs.List.{All};
ghost use Rattle.std.specs.Option.{option_copied};
ghost use Rattle.rio_chain.specs.Adjoining.{AreSegments};
ghost use Rattle.rio_chain.specs.Placing.{file_end, gaps_in, place_of, record_count, with_segment};
ghost use Rattle.rio_dir.specs.Table.{heads_size, key_list_bytes};
ghost use Rattle.rio_free.specs.Record.{free_bytes};
ghost use Rattle.rio_key.specs.Written.{FitsKey};
ghost use Rattle.rio_machine.specs.Limits.{head_length};
ghost use Rattle.rio_chain.specs.Record.{FitsWords};
ghost use Rattle.rio_num.specs.Padding.{padded_length};
ghost use Rattle.rio_state.specs.Sizes.{close_size};
ghost use Rattle.rio_close.specs.Written.{AreCloseRecords, IsOwnRecord, own_words, record_size};

use crate::CloseRecords;
use crate::parts::{dir_fields, free_fields, info_fields};
use rio_chain::{Chain, KeyWords, NewRecord, new_record};
use rio_dir::{KeyTable, write_key_list};
use rio_free::write_free;
use rio_key::KeyHead;
use rio_num::{Bytes, Name, NoMemory, padded};
use rio_state::own_key_length;
use std::alloc::Global;

// The record of key list or free record.
fn own_record(
    alloc: Global,
    place: u64,
    name: &[u8],
    datime: u32,
    contents: &[u8],
) -> Result<NewRecord, NoMemory>
    requires { FitsWords (own_words place datime name.now) (length contents.now) }
    ensures { IfOk result (IsOwnRecord (own_words place datime name.now) contents.now) }
{
    let words = KeyWords {
        place,
        directory: 100,
        datime,
        cycle: 1,
        class: Name::from_slice(alloc, b"TFile")?,
        name: Name::from_slice(alloc, name)?,
        title: Name::new(alloc),
    };
    new_record(alloc, words, contents)
}

// Where a record of `n` bytes goes: into a gap, or to the end.
fn place_for(chain: &Chain, n: u64) -> u64
    ensures exact { result ≡ place_of chain.now.segments n }
    ensures low { result ≤ file_end chain.now.segments }
    ensures end_low { file_end chain.now.segments ≤ 1999999996 }
    ensures shape { AreSegments chain.now.segments }
{
    let end = chain.end();
    match chain.gaps().best(n) {
        Some(place) => place,
        None => end,
    }
}

// The key list, which is put into the chain.
fn list_record(
    alloc: Global,
    table: &KeyTable,
    chain: &mut Chain,
    name: &[u8],
    datime: u32,
) -> Result<NewRecord, NoMemory>
    requires fresh { chain.old.spent ≡ false }
    requires heads { All FitsKey table.now.heads }
    requires name { length name.now ≤ 65497 }
    requires low { file_end chain.old.segments
        + padded_length (head_length (codes "TFile") name.now + 4 + heads_size table.now.heads)
        ≤ 1999999996 }
    requires room { 1 ≤ chain.old.spare }
    ensures shape { AreSegments chain.old.segments }
    ensures made { IfOk result (λ r. IsOwnRecord
        (own_words (place_of chain.old.segments (record_size r)) datime name.now)
        (key_list_bytes table.now.heads) r) }
    ensures size { IfOk result (λ r. record_size r
        ≡ padded_length (head_length (codes "TFile") name.now + 4 + heads_size table.now.heads)) }
    ensures chain { IfOk result (λ r. chain.new ≡ record chain.old {
      segments = with_segment (place_of chain.old.segments (record_size r)) (record_size r)
          chain.old.segments;
      spare = chain.old.spare - 1;
    }) }
{
    let n = padded(own_key_length(name) + 4 + table.heads_length());
    let place = place_for(chain, n);
    let mut contents = Bytes::new(alloc);
    write_key_list(table, &mut contents)?;
    let made = own_record(alloc, place, name, datime, contents.as_slice())?;
    chain.note_put(place, n);
    Ok(made)
}

// The free record, which is put at the end of the chain, and how many entries it has.
fn free_record(
    alloc: Global,
    chain: &mut Chain,
    name: &[u8],
    datime: u32,
) -> Result<(NewRecord, u32), NoMemory>
    requires fresh { chain.old.spent ≡ false }
    requires name { length name.now ≤ 65497 }
    requires low { file_end chain.old.segments + padded_length
        (head_length (codes "TFile") name.now + 10 * (length (gaps_in chain.old.segments) + 1))
        ≤ 1999999996 }
    requires room { 1 ≤ chain.old.spare }
    ensures made { IfOk result (λ r. IsOwnRecord
        (own_words (file_end chain.old.segments) datime name.now)
        (free_bytes (gaps_in chain.new.segments) (file_end chain.new.segments)) r.0) }
    ensures count { IfOk result (λ r. r.1 ≡ length (gaps_in chain.new.segments) + 1) }
    ensures size { IfOk result (λ r. record_size r.0 < 2 ^ 32) }
    ensures low { OnOk result (file_end chain.new.segments ≤ 1999999996) }
    ensures chain { IfOk result (λ r. chain.new ≡ record chain.old {
      segments = with_segment (file_end chain.old.segments) (record_size r.0)
          chain.old.segments;
      spare = chain.old.spare - 1;
    }) }
{
    let place = chain.end();
    let count = chain.gaps().as_slice().len() as u64 + 1;
    let n = padded(own_key_length(name) + 10 * count);
    chain.note_put(place, n);
    let mut contents = Bytes::new(alloc);
    write_free(chain.gaps(), chain.end(), &mut contents)?;
    let made = own_record(alloc, place, name, datime, contents.as_slice())?;
    Ok((made, count as u32))
}

/// The records that a close of a file writes, with the keys of its objects and trees, its chain,
/// the key of the class list that counts, its name, what its header says how long key and texts of
/// the first record are, and the time. The free record tells the gaps as they will be. Each head
/// fits what is written of it, and there is room for both records.
pub fn close_records(
    alloc: Global,
    table: &KeyTable,
    chain: &Chain,
    info: Option<&KeyHead>,
    name: &[u8],
    nbytes_name: u32,
    datime: u32,
) -> Result<CloseRecords, NoMemory>
    requires fresh { chain.now.spent ≡ false }
    requires heads { All FitsKey table.now.heads }
    requires info { IfSome info (λ head. head.now.seek < 2 ^ 32) }
    requires name { length name.now ≤ 65497 }
    requires low { file_end chain.now.segments + close_size name.now (heads_size table.now.heads)
        (record_count chain.now.segments) ≤ 1999999996 }
    ensures { IfOk result (AreCloseRecords (record {
      segments = chain.now.segments;
      heads = table.now.heads;
      info = option_copied info.entry;
      name = name.now;
      nbytes_name = nbytes_name;
      datime = datime;
    })) }
{
    let mut after = chain.copy()?;
    after.reserve(2)?;
    let list = list_record(alloc, table, &mut after, name, datime)?;
    let (free, count) = free_record(alloc, &mut after, name, datime)?;
    let list_size = list.bytes.len() as u32;
    let free_size = free.bytes.len() as u32;
    Ok(CloseRecords {
        free_fields: free_fields(alloc, free.head.seek as u32, free_size, count)?,
        info_fields: info_fields(alloc, info)?,
        dir_fields: dir_fields(alloc, datime, list_size, nbytes_name, list.head.seek as u32)?,
        list,
        free,
        nbytes_name,
    })
}
