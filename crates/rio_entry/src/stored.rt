//! The baskets of a branch, read one at a time.
ghost use Rattle.std.specs.Prelude.{◌≡◌, ◌+◌, ◌<◌, ℕ, List, Some, IfOk, drop, length};
ghost use Rattle.rio_host.specs.Host.{IsLength};
ghost use Rattle.rio_host.specs.OnlyReads.{OnlyReads};
ghost use Rattle.rio_host.specs.Reading.{IsReadCause, Told};
ghost use Rattle.rio_entry.specs.StoredEntries.{basket_bytes, entry_behind, is_compressed_basket, is_filled, refusal_of_baskets, stored_basket};

use rio_host::{Host, ReadFault, prefix_at};
use rio_key::{BasketFault, StoredBasket};
use rio_num::NoMemory;
use rio_tree::{BasketAt, BranchRefusal};
use std::alloc::Global;

/// What a basket is, or why it isn't read.
pub type FoundBasket = Result<StoredBasket, BasketFault>;

/// Memory ran out, where a file is read.
pub(crate) fn out_of_memory(_e: NoMemory) -> ReadFault
    ensures { result ≡ ReadFault.NoMemory }
{
    ReadFault::NoMemory
}

// The bytes of a basket: so many from its place on, as far as the file goes.
fn read_basket_bytes<H: Host>(
    alloc: Global,
    host: &mut H,
    file_length: u64,
    at: &BasketAt,
) -> Result<Vec<u8>, ReadFault>
    requires { IsLength (H.view host.old) file_length }
    ensures bytes { IfOk result
        (λ bytes. Told (H.view host.old) (λ file. bytes.items ≡ basket_bytes file at.now)) }
    ensures calls { OnlyReads (H.view host.old) (H.view host.new) }
    ensures cause { IsReadCause (H.view host.old) (H.view host.new) result }
{
    let left = file_length.saturating_sub(at.seek);
    let most = u64::from(at.bytes).min(left);
    let mut bytes = vec![in alloc; 0u8; most as usize]?;
    let n = prefix_at(host, file_length, at.seek, &mut bytes)?;
    bytes.truncate(n);
    Ok(bytes)
}

/// The basket that stands there, with offsets or without.
pub(crate) fn read_stored_basket<H: Host>(
    alloc: Global,
    host: &mut H,
    file_length: u64,
    offsets: bool,
    at: &BasketAt,
) -> Result<FoundBasket, ReadFault>
    requires { IsLength (H.view host.old) file_length }
    ensures found { IfOk result (λ found. (file : List ℕ) → (H.view host.old).holds ≡ Some file
        → found ≡ stored_basket file offsets at.now) }
    ensures calls { OnlyReads (H.view host.old) (H.view host.new) }
    ensures cause { IsReadCause (H.view host.old) (H.view host.new) result }
{
    let bytes = read_basket_bytes(alloc, host, file_length, at)?;
    match StoredBasket::read(alloc, bytes, offsets) {
        Ok(basket) => Ok(Ok(basket)),
        Err(BasketFault::NoMemory) => Err(ReadFault::NoMemory),
        Err(fault) => Ok(Err(fault)),
    }
}

fn is_compressed(found: &FoundBasket) -> bool
    ensures { result ≡ is_compressed_basket found.now }
{
    match found {
        Ok(_) => false,
        Err(BasketFault::BadLast { .. }) => false,
        Err(BasketFault::BadOffsets { .. }) => false,
        Err(BasketFault::Compressed) => true,
        Err(BasketFault::NoMemory) => false,
    }
}

/// The basket's entries go from its first one up to this one.
pub(crate) fn is_filled(at: &BasketAt, behind: u64, found: &FoundBasket) -> bool
    ensures { result ≡ is_filled at.now behind found.now }
{
    match found {
        Ok(basket) => at.first.checked_add(basket.count() as u64) == Some(behind),
        Err(_) => false,
    }
}

/// The entry behind those of the basket at `k`.
pub(crate) fn entry_behind(baskets: &[BasketAt], k: usize, entries: u64) -> u64
    requires { k < length baskets.now }
    ensures { result ≡ entry_behind (drop (k + 1) baskets.now) entries }
{
    match baskets[k..].get(1) {
        Some(next) => next.first,
        None => entries,
    }
}

/// Why the baskets of a branch with so many entries aren't read. They are looked at one after the other.
pub(crate) fn refusal_of_baskets<H: Host>(
    alloc: Global,
    host: &mut H,
    file_length: u64,
    offsets: bool,
    entries: u64,
    baskets: &[BasketAt],
) -> Result<Option<BranchRefusal>, ReadFault>
    requires { IsLength (H.view host.old) file_length }
    ensures refusal { IfOk result (λ refusal. (file : List ℕ)
        → (H.view host.old).holds ≡ Some file
        → refusal ≡ refusal_of_baskets file offsets entries baskets.now) }
    ensures calls { OnlyReads (H.view host.old) (H.view host.new) }
    ensures cause { IsReadCause (H.view host.old) (H.view host.new) result }
{
    let mut filled = true;
    for (k, at) in baskets.iter().enumerate() {
        let found = read_stored_basket(alloc, host, file_length, offsets, at)?;
        if is_compressed(&found) {
            return Ok(Some(BranchRefusal::Compressed));
        }
        filled = filled && is_filled(at, entry_behind(baskets, k, entries), &found);
    }
    if filled {
        Ok(None)
    } else {
        Ok(Some(BranchRefusal::BadBasket))
    }
}
