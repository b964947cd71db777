//! Whether a file is made yet.
ghost use Rattle.std.specs.Prelude.{◌≡◌, IfOk};
ghost use Rattle.rio_host.specs.Host.{IsDiskCause};
ghost use Rattle.rio_host.specs.OnlyReads.{OnlyReads};
ghost use Rattle.rio_host.specs.Reading.{Told};
ghost use Rattle.rio_dir.specs.Unborn.{is_unborn};

use rio_dir::begins_unborn;
use rio_host::{Host, HostFault, prefix_at};

/// Whether the file isn't made yet: it has fewer than four bytes, or its first word is zero. HostFault
/// comes only where a call on the file failed.
pub fn is_unborn<H: Host>(host: &mut H) -> Result<bool, HostFault>
    ensures exact { IfOk result
        (λ unborn. Told (H.view host.old) (λ file. unborn ≡ is_unborn file)) }
    ensures calls { OnlyReads (H.view host.old) (H.view host.new) }
    ensures cause { IsDiskCause (H.view host.old) (H.view host.new) result }
{
    let file_length = host.length()?;
    let mut prefix = [0u8; 4];
    let n = prefix_at(host, file_length, 0, &mut prefix)?;
    Ok(begins_unborn(&prefix[..n]))
}
