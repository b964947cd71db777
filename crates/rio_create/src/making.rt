//! A file is made.
ghost use Rattle.std.specs.Prelude.{◌≡◌, ◌≤◌, ℕ, List, Some, length, true, false, IfOk, OnOk, IsErrOf};
ghost use Rattle.rio_host.specs.Host.{Elapses, IsQuiet, OnlyWrites};
ghost use Rattle.rio_chain.specs.Placing.{file_end};
ghost use Rattle.rio_chain.specs.Walks.{Told};
ghost use Rattle.rio_dir.specs.Unborn.{is_unborn};
ghost use Rattle.rio_create.specs.Creation.{IsCreateCause, IsLeftEmpty};
ghost use Rattle.rio_create.specs.NewFile.{IsNewFile, first_segments, nbytes_name_of};

use crate::CreateFault;
use crate::draft::{Draft, draft_of};
use crate::gate::put_file;
use rio_chain::Chain;
use rio_host::Host;
use std::alloc::Global;

/// What is kept beside a file that was made.
#[derive(Drop)]
pub struct Created {
    /// The chain of the file, with no room yet for later changes.
    pub chain: Chain,
    /// How many bytes the first record has before the directory's, as the header says.
    pub nbytes_name: u32,
}

/// Makes a file that isn't made yet: a TFile of this name without objects, open for writing. The
/// name has at most 200 bytes, and what its header and its directory say of a closed file is zero.
/// A stop at any moment leaves a file that reads as the empty state, and that isn't made yet or is
/// marked as open. The file isn't read, and all memory is taken before it is written.
///
/// NoMemory comes before any write, and HostFault only where a call on the file failed.
pub fn create<H: Host>(
    alloc: Global,
    host: &mut H,
    name: &[u8],
    datime: u32,
) -> Result<Created, CreateFault>
    requires short { length name.now ≤ 200 }
    requires quiet { IsQuiet (H.view host.old) }
    requires unborn { Told (H.view host.old) (λ file. is_unborn file ≡ true) }
    ensures any_moment { (file : List ℕ) → (H.view host.old).holds ≡ Some file
        → Elapses (H.view host.old) (H.view host.new) (IsLeftEmpty (H.view host.old)) }
    ensures made { OnOk result ((file : List ℕ) → (H.view host.old).holds ≡ Some file
        → (new : List ℕ) × ((H.view host.new).holds ≡ Some new)
        × IsNewFile name.now datime new) }
    ensures quiet { OnOk result (IsQuiet (H.view host.new)) }
    ensures chain { IfOk result (λ created. created.chain ≡ record {
      segments = first_segments name.now;
      spare = 0;
      spent = false;
    }) }
    ensures low { IfOk result (λ created. file_end created.chain.segments ≤ 700) }
    ensures name { IfOk result (λ created. created.nbytes_name ≡ nbytes_name_of name.now) }
    ensures no_memory { IsErrOf result CreateFault.NoMemory → host.new ≡ host.old }
    ensures writes { OnlyWrites (H.view host.old) (H.view host.new) }
    ensures cause { IsCreateCause (H.view host.old) (H.view host.new) result }
{
    let Draft { bytes, created } = draft_of(alloc, name, datime)?;
    put_file(host, &bytes.as_slice()[4..])?;
    Ok(created)
}
