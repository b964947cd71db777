//! A walk along the chain of a file.
ghost use Rattle.std.specs.Prelude.{◌≡◌, ◌<◌, ◌^◌, ◌++◌, IfOk, IfErr, OnOk};
ghost use Rattle.rio_host.specs.OnlyReads.{OnlyReads};
ghost use Rattle.rio_chain.specs.Adjoining.{AreSegments};
ghost use Rattle.rio_chain.specs.Keyed.{AreKeyed, HasKeyAt, IsWalkedKey, keys_in};
ghost use Rattle.rio_chain.specs.Placing.{file_end};
ghost use Rattle.rio_chain.specs.Segments.{HasSegments};
ghost use Rattle.rio_chain.specs.Walks.{AreFew, IsWalkCause, Told, TellsFirstBreak};

use crate::found::{FoundLink, link_at};
use crate::{Segments, WalkFault};
use rio_host::{Host, word_at};
use rio_key::{Heads, KeyHead};
use rio_num::NoMemory;
use std::alloc::Global;

/// What a walk finds.
#[derive(Debug, Drop)]
pub struct FoundChain {
    /// Records and gaps, in order of place.
    pub segments: Segments,
    /// The keys of the records, in order of place.
    pub heads: Heads,
}

// The key of a record stands behind the others.
fn push_key(heads: &mut Heads, key: Option<KeyHead>) -> Result<(), NoMemory>
    ensures { OnOk result (heads.new ≡ heads.old ++ keys_in key) }
{
    match key {
        Some(key) => heads.push(key),
        None => Ok(()),
    }
}

/// The records and gaps of the file, from place 100 to END, and the keys of the records. NoChain is the
/// first place where the chain breaks; HostFault comes only where a call on the file failed. Of a record no
/// more is read than the word and the key, but all of the first.
pub fn walk_with_keys<H: Host>(alloc: Global, host: &mut H) -> Result<FoundChain, WalkFault>
    ensures segments { IfOk result
        (λ found. Told (H.view host.old) (λ file. HasSegments file found.segments)) }
    ensures shape { IfOk result (λ found. AreSegments found.segments) }
    ensures end { IfOk result (λ found. file_end found.segments < 2 ^ 64) }
    ensures few { IfOk result
        (λ found. Told (H.view host.old) (λ file. AreFew file found.segments)) }
    ensures walked { IfOk result (λ found. AreKeyed IsWalkedKey found.segments found.heads) }
    ensures keys { IfOk result (λ found. Told (H.view host.old)
        (λ file. AreKeyed (λ p n head. HasKeyAt head p n file) found.segments found.heads)) }
    ensures broken { IfErr result (TellsFirstBreak (H.view host.old)) }
    ensures calls { OnlyReads (H.view host.old) (H.view host.new) }
    ensures cause { IsWalkCause (H.view host.old) (H.view host.new) result }
{
    let file_length = host.length()?;
    let mut segments = Segments::new(alloc);
    let mut heads = Heads::new(alloc);
    let mut place = 100;
    let mut word = word_at(host, file_length, place)?;
    'links: loop {
        let found = match word {
            Some(found) => found,
            None => return Err(WalkFault::NoChain { place }),
        };
        if found == 0 && place > 100 {
            return Ok(FoundChain { segments, heads });
        }
        let FoundLink {
            segment,
            key,
            behind,
        } = link_at(alloc, host, file_length, place, found)?;
        push_key(&mut heads, key)?;
        segments.push(segment)?;
        place = segment.end();
        word = behind;
    }
}

/// The records and gaps of the file, from place 100 to END. NoChain is the first place where they
/// break; HostFault comes only where a call on the file failed. Of a record no more is read than the
/// word and the key, but all of the first.
pub fn walk<H: Host>(alloc: Global, host: &mut H) -> Result<Segments, WalkFault>
    ensures segments { IfOk result
        (λ segments. Told (H.view host.old) (λ file. HasSegments file segments)) }
    ensures shape { IfOk result AreSegments }
    ensures end { IfOk result (λ segments. file_end segments < 2 ^ 64) }
    ensures few { IfOk result (λ segments. Told (H.view host.old) (λ file. AreFew file segments)) }
    ensures broken { IfErr result (TellsFirstBreak (H.view host.old)) }
    ensures calls { OnlyReads (H.view host.old) (H.view host.new) }
    ensures cause { IsWalkCause (H.view host.old) (H.view host.new) result }
{
    Ok(walk_with_keys(alloc, host)?.segments)
}
