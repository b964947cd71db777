//! A new file in memory.
ghost use Rattle.std.specs.Prelude.{◌≡◌, ◌≤◌, ◌%◌, [], ◌∷◌, length, false, IfOk};
ghost use Rattle.rio_chain.specs.declared.segment.Segment.TheVariants.{Record};
ghost use Rattle.rio_create.specs.NewFile.{first_segments, nbytes_name_of, new_file, new_head};

use crate::Created;
use crate::first::first_of;
use rio_chain::{Chain, Segment, Segments};
use rio_head::{FileHead, file_uuid, write_head};
use rio_num::{Bytes, NoMemory};
use std::alloc::Global;

// A new file in memory: its bytes, up to the zero word at END, and what is kept beside it.
#[derive(Drop)]
pub(crate) struct Draft {
    pub bytes: Bytes,
    pub created: Created,
}

// The header of a new file.
fn head_of(nbytes_name: u32, uuid: [u8; 18]) -> FileHead
    ensures { result ≡ new_head nbytes_name uuid }
{
    FileHead {
        version: 60_000,
        begin: 100,
        end: 2_000_000_000,
        seek_free: 0,
        nbytes_free: 0,
        nfree: 0,
        nbytes_name,
        units: 4,
        compress: 0,
        seek_info: 0,
        nbytes_info: 0,
        uuid,
    }
}

// The chain of a file whose only record has this length.
fn chain_of(alloc: Global, length: u64) -> Result<Chain, NoMemory>
    requires aligned { length % 4 ≡ 0 }
    requires some { 4 ≤ length }
    requires small { length ≤ 1000 }
    ensures { IfOk result (λ chain. chain ≡ record {
      segments = Record 100 length ∷ [];
      spare = 0;
      spent = false;
    }) }
{
    let mut segments = Segments::new(alloc);
    segments.push(Segment::Record { place: 100, length })?;
    Chain::from_segments(segments)
}

// A new file of this name.
pub(crate) fn draft_of(alloc: Global, name: &[u8], datime: u32) -> Result<Draft, NoMemory>
    requires { length name.now ≤ 200 }
    ensures bytes { IfOk result (λ draft. draft.bytes.bytes ≡ new_file name.now datime) }
    ensures long { IfOk result (λ draft. 4 ≤ length draft.bytes.bytes) }
    ensures low { IfOk result (λ draft. length draft.bytes.bytes ≤ 1000) }
    ensures chain { IfOk result (λ draft. draft.created.chain ≡ record {
      segments = first_segments name.now;
      spare = 0;
      spent = false;
    }) }
    ensures name { IfOk result (λ draft. draft.created.nbytes_name ≡ nbytes_name_of name.now) }
{
    let uuid = file_uuid(name);
    let first = first_of(alloc, name, &uuid, datime)?;
    let chain = chain_of(alloc, first.bytes.len() as u64)?;
    let mut bytes = Bytes::new(alloc);
    write_head(&head_of(first.nbytes_name, uuid), &mut bytes)?;
    bytes.put(first.bytes.as_slice())?;
    bytes.put_u32(0)?;
    Ok(Draft {
        bytes,
        created: Created {
            chain,
            nbytes_name: first.nbytes_name,
        },
    })
}
