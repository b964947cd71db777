//! A file is walked: its header, its segments and the keys of its records.
ghost use Rattle.std.specs.Prelude.{◌≡◌, ◌↔◌, ◌<◌, ◌^◌, IfOk, IsTrue};
ghost use Rattle.std.specs.List.{All};
ghost use Rattle.rio_head.specs.declared.reason.Reason.TheVariants.{NoChain};
ghost use Rattle.rio_host.specs.OnlyReads.{OnlyReads};
ghost use Rattle.rio_chain.specs.Found.{IsShortKey};
ghost use Rattle.rio_chain.specs.Placing.{file_end};
ghost use Rattle.rio_chain.specs.Segments.{HasWord};
ghost use Rattle.rio_chain.specs.Walks.{Told};
ghost use Rattle.rio_recover.specs.Causes.{IsRecoverCause};
ghost use Rattle.rio_recover.specs.Keys.{AreWithin};
ghost use Rattle.rio_recover.specs.Walked.{IsWholeWalk, JudgesHead, JudgesWalk};
ghost use Rattle.rio_recover.specs.Whole.{HoldsDirectory};

use crate::RecoverFault;
use rio_chain::{FoundChain, Segment, Segments, walk_with_keys};
use rio_head::{FileHead, Reason, read_head};
use rio_host::{Host, bytes_at};
use rio_key::{FIRST_PLACE, Heads};
use std::alloc::Global;

// No header is longer.
const HEAD_LENGTH: u64 = 100;

// How long a directory record is.
const DIRECTORY_LENGTH: u64 = 60;

/// What is known of a file before its records are read.
#[derive(Drop)]
pub(crate) struct Walked {
    /// The header's fNbytesName.
    pub(crate) nbytes_name: u32,
    /// Records and gaps, in order of place.
    pub(crate) segments: Segments,
    /// The keys of the records, in order of place.
    pub(crate) heads: Heads,
}

// The header, which has the small form.
fn small_head<H: Host>(alloc: Global, host: &mut H) -> Result<FileHead, RecoverFault>
    ensures told { Told (H.view host.old) (JudgesHead result) }
    ensures name { IfOk result
        (λ head. Told (H.view host.old) (λ file. HasWord file 28 head.nbytes_name)) }
    ensures calls { OnlyReads (H.view host.old) (H.view host.new) }
    ensures cause { IsRecoverCause (H.view host.old) (H.view host.new) result }
{
    let file_length = host.length()?;
    let front = bytes_at(alloc, host, 0, file_length.min(HEAD_LENGTH) as usize)?;
    let head = read_head(&front)?;
    if head.version >= 1_000_000 {
        return Err(RecoverFault::ReadOnly {
            place: 4,
            reason: Reason::LargeForm,
        });
    }
    Ok(head)
}

// The chain breaks at this place.
fn no_chain(place: u64) -> RecoverFault
    ensures { result ≡ RecoverFault.ReadOnly place NoChain }
{
    RecoverFault::ReadOnly {
        place,
        reason: Reason::NoChain,
    }
}

// Whether the directory record is within the first record, where the header says this number.
fn holds_directory(nbytes_name: u32, segments: &[Segment]) -> bool
    ensures { IsTrue result ↔ HoldsDirectory nbytes_name segments.now }
{
    match segments {
        [Segment::Record { length, .. }, ..] => {
            u64::from(nbytes_name) + DIRECTORY_LENGTH <= *length
        }
        _ => false,
    }
}

/// Reads the header, the segments and the keys of the records. A file that breaks a rule of the header
/// is refused, then one of the large form, then one whose chain breaks.
///
/// That the directory record is within the first record is tested once more, since the header is read
/// twice, and a host whose contents are unspecified may return something else at the second time.
pub(crate) fn walk_file<H: Host>(alloc: Global, host: &mut H) -> Result<Walked, RecoverFault>
    ensures told { Told (H.view host.old) (JudgesWalk result) }
    ensures whole { IfOk result IsWholeWalk }
    ensures end { IfOk result (λ walked. file_end walked.segments < 2 ^ 64) }
    ensures short { IfOk result (λ walked. All IsShortKey walked.heads) }
    ensures within { IfOk result (λ walked. AreWithin (H.view host.old) walked.heads) }
    ensures calls { OnlyReads (H.view host.old) (H.view host.new) }
    ensures cause { IsRecoverCause (H.view host.old) (H.view host.new) result }
{
    let head = small_head(alloc, host)?;
    let FoundChain { segments, heads } = walk_with_keys(alloc, host)?;
    if !holds_directory(head.nbytes_name, segments.as_slice()) {
        return Err(no_chain(FIRST_PLACE));
    }
    Ok(Walked {
        nbytes_name: head.nbytes_name,
        segments,
        heads,
    })
}
