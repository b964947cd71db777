//! What stands at a place of a file: a record, the first record, or a gap.
ghost use Rattle.std.specs.Prelude.{◌≡◌, ◌+◌, ◌<◌, ◌≤◌, ◌^◌, ◌%◌, ◌↔◌, is_some, length, IsTrue, IfOk, IfErr, IfSome};
ghost use Rattle.byteorder.specs.Endian.{big_number};
ghost use Rattle.rio_host.specs.Host.{IsLength, IsWithin};
ghost use Rattle.rio_host.specs.OnlyReads.{OnlyReads};
ghost use Rattle.rio_chain.specs.Adjoining.{BeginsAt, segment_length};
ghost use Rattle.rio_chain.specs.Keyed.{HasKeyAt, IsKeyed, IsRecordKey, IsWalkedKey};
ghost use Rattle.rio_chain.specs.Found.{MayPrecede, FindsLink, FindsRecord, FindsSegment, FindsWhole, IsDirectory, IsFirstBy, IsKeyOf, IsKindOf, IsNoGap, segment_length_of, TellsNoLink};
ghost use Rattle.rio_chain.specs.Segments.{HasWord, texts_end_at};
ghost use Rattle.rio_chain.specs.Walks.{IsReadCause, IsWalkCause, Told};

use crate::reads::{key_at, key_in};
use crate::{Segment, WalkFault};
use byteorder::{BigEndian, ByteOrder};
use rio_host::{Host, bytes_at, word_at};
use rio_key::KeyHead;
use rio_num::{Cursor, Short};
use std::alloc::Global;

// Whether this is the key of a record of `n` bytes at `place`.
fn is_key_of(head: &KeyHead, place: u64, n: u32) -> bool
    ensures { IsTrue result ↔ IsKeyOf place n head.now }
{
    head.version <= 1000
        && head.seek == place
        && i64::from(head.nbytes) == i64::from(n)
        && u64::from(head.keylen) + u64::from(head.objlen) == u64::from(n)
}

// The key of the whole record that the `n` bytes at `place` are, or None where they are none.
fn record_key_at<H: Host>(
    alloc: Global,
    host: &mut H,
    place: u64,
    n: u32,
) -> Result<Option<KeyHead>, WalkFault>
    requires told { IsWithin (H.view host.old) (place + n) }
    requires fits { place + n < 2 ^ 64 }
    requires aligned { n % 4 ≡ 0 }
    ensures whole { IfOk result
        (λ key. Told (H.view host.old) (FindsRecord place n (is_some key))) }
    ensures keyed { IfOk result (λ key. IfSome key (IsRecordKey place n)) }
    ensures key { IfOk result
        (λ key. IfSome key (λ head. Told (H.view host.old) (HasKeyAt head place n))) }
    ensures calls { OnlyReads (H.view host.old) (H.view host.new) }
    ensures cause { IsReadCause (H.view host.old) (H.view host.new) result }
{
    match key_at(alloc, host, place, n as usize)? {
        Some(head) => {
            if is_key_of(&head, place, n) {
                Ok(Some(head))
            } else {
                Ok(None)
            }
        }
        None => Ok(None),
    }
}

// Where the two texts end that the data behind the key begin with.
#[tactic(auto, unfolding(crate::specs::Segments::texts_end_at))]
fn texts_end(bytes: &[u8], keylen: u16) -> Result<Cursor, Short>
    requires { length bytes.now < 2 ^ 32 }
    ensures { result ≡ texts_end_at keylen bytes.now }
{
    let mut cursor = Cursor::at(bytes, 0, u64::from(keylen));
    cursor.take_text()?;
    cursor.take_text()?;
    Ok(cursor)
}

// The version that a directory record begins with.
fn version_of(directory: &[u8]) -> u16
    requires { 2 ≤ length directory.now }
    ensures { result ≡ big_number 2 directory.now }
{
    BigEndian::read_u16(directory)
}

// Whether a directory record stands there, and the header says so.
fn is_directory(directory: &Cursor, nbytes_name: Option<u32>) -> bool
    ensures { IsTrue result ↔ IsDirectory nbytes_name directory.now }
{
    match nbytes_name {
        Some(place) => {
            directory.left() >= 60
                && version_of(directory.rest()) <= 1000
                && u64::from(place) == directory.place()
        }
        None => false,
    }
}

// Whether these are the bytes of a first record, where this is its key and the header's fNbytesName
// this number.
fn is_first(head: &KeyHead, bytes: &[u8], nbytes_name: Option<u32>) -> bool
    requires { length bytes.now < 2 ^ 32 }
    ensures { IsTrue result ↔ IsFirstBy nbytes_name head.now bytes.now }
{
    if head.class.as_slice() != b"TFile".as_slice() {
        return false;
    }
    match texts_end(bytes, head.keylen) {
        Ok(directory) => is_directory(&directory, nbytes_name),
        Err(_) => false,
    }
}

// Whether these are the bytes of a first record of `n` bytes, where this is their key and the header's
// fNbytesName this number.
fn is_whole_first(head: &KeyHead, bytes: &[u8], nbytes_name: Option<u32>, n: u32) -> bool
    requires { length bytes.now < 2 ^ 32 }
    ensures { IsTrue result
        ↔ (IsKeyOf 100 n head.now × IsFirstBy nbytes_name head.now bytes.now) }
{
    is_key_of(head, 100, n) && is_first(head, bytes, nbytes_name)
}

// The key of the first record that the `n` bytes at place 100 are, or None where they are none.
fn first_key_at<H: Host>(
    alloc: Global,
    host: &mut H,
    file_length: u64,
    n: u32,
) -> Result<Option<KeyHead>, WalkFault>
    requires told { IsLength (H.view host.old) file_length }
    requires within { 100 + n ≤ file_length }
    requires aligned { n % 4 ≡ 0 }
    ensures whole { IfOk result (λ key. Told (H.view host.old) (FindsWhole 100 n (is_some key))) }
    ensures walked { IfOk result (λ key. IfSome key (IsWalkedKey 100 n)) }
    ensures key { IfOk result
        (λ key. IfSome key (λ head. Told (H.view host.old) (HasKeyAt head 100 n))) }
    ensures calls { OnlyReads (H.view host.old) (H.view host.new) }
    ensures cause { IsReadCause (H.view host.old) (H.view host.new) result }
{
    let nbytes_name = word_at(host, file_length, 28)?;
    let bytes = bytes_at(alloc, host, 100, n as usize)?;
    match key_in(alloc, &bytes, 100)? {
        Some(head) => {
            if is_whole_first(&head, &bytes, nbytes_name, n) {
                Ok(Some(head))
            } else {
                Ok(None)
            }
        }
        None => Ok(None),
    }
}

// The key of the whole record that the `n` bytes at `place` are, which is a first record at place 100;
// None where they are none.
fn whole_key_at<H: Host>(
    alloc: Global,
    host: &mut H,
    file_length: u64,
    place: u64,
    n: u32,
) -> Result<Option<KeyHead>, WalkFault>
    requires told { IsLength (H.view host.old) file_length }
    requires within { place + n ≤ file_length }
    requires aligned { n % 4 ≡ 0 }
    ensures whole { IfOk result
        (λ key. Told (H.view host.old) (FindsWhole place n (is_some key))) }
    ensures walked { IfOk result (λ key. IfSome key (IsWalkedKey place n)) }
    ensures key { IfOk result
        (λ key. IfSome key (λ head. Told (H.view host.old) (HasKeyAt head place n))) }
    ensures calls { OnlyReads (H.view host.old) (H.view host.new) }
    ensures cause { IsReadCause (H.view host.old) (H.view host.new) result }
{
    if place == 100 {
        first_key_at(alloc, host, file_length, n)
    } else {
        record_key_at(alloc, host, place, n)
    }
}

// How long the segment of this word is.
fn length_of(word: u32) -> u64
    ensures { result ≡ segment_length_of word }
{
    if word < 0x8000_0000 {
        u64::from(word)
    } else {
        (1 << 32) - u64::from(word)
    }
}

// The segment at `place`, where this word stands, and the key of a record.
fn segment_at<H: Host>(
    alloc: Global,
    host: &mut H,
    file_length: u64,
    place: u64,
    word: u32,
) -> Result<(Segment, Option<KeyHead>), WalkFault>
    requires told { IsLength (H.view host.old) file_length }
    requires later { 100 ≤ place }
    requires within { place + 4 ≤ file_length }
    requires word { Told (H.view host.old) (λ file. HasWord file place word) }
    ensures begins { IfOk result (λ found. BeginsAt place found.0) }
    ensures within { IfOk result (λ found. place + segment_length found.0 ≤ file_length) }
    ensures kind { IfOk result (λ found. IsKindOf place word found.0) }
    ensures length { IfOk result (λ found. segment_length found.0 ≡ segment_length_of word) }
    ensures segment { IfOk result (λ found. Told (H.view host.old) (FindsSegment place found.0)) }
    ensures walked { IfOk result (λ found. IsKeyed IsWalkedKey found.0 found.1) }
    ensures key { IfOk result (λ found. Told (H.view host.old)
        (λ file. IsKeyed (λ p n head. HasKeyAt head p n file) found.0 found.1)) }
    ensures none { IfErr result (TellsNoLink (H.view host.old) place) }
    ensures calls { OnlyReads (H.view host.old) (H.view host.new) }
    ensures cause { IsWalkCause (H.view host.old) (H.view host.new) result }
{
    let length = length_of(word);
    if length < 4 || length % 4 != 0 || file_length - place < length {
        return Err(WalkFault::NoChain { place });
    }
    if word >= 0x8000_0000 {
        if place == 100 {
            return Err(WalkFault::NoChain { place });
        }
        return Ok((Segment::Gap { place, length }, None));
    }
    match whole_key_at(alloc, host, file_length, place, word)? {
        Some(key) => Ok((Segment::Record { place, length }, Some(key))),
        None => Err(WalkFault::NoChain { place }),
    }
}

// Whether this is neither a gap's word nor END's.
fn is_no_gap(word: Option<u32>) -> bool
    ensures { IsTrue result ↔ IsNoGap word }
{
    match word {
        Some(word) => word > 0 && word < 0x8000_0000,
        None => true,
    }
}

// Whether no gap's word, nor END's, stands behind a gap.
fn are_apart(segment: Segment, behind: Option<u32>) -> bool
    ensures { IsTrue result ↔ MayPrecede segment behind }
{
    match segment {
        Segment::Record { .. } => true,
        Segment::Gap { .. } => is_no_gap(behind),
    }
}

/// A segment of a file as a walk finds it.
#[derive(Drop)]
pub(crate) struct FoundLink {
    pub(crate) segment: Segment,
    /// The key of a record.
    pub(crate) key: Option<KeyHead>,
    /// The word after it.
    pub(crate) behind: Option<u32>,
}

// The segment at `place`, where this word stands.
pub(crate) fn link_at<H: Host>(
    alloc: Global,
    host: &mut H,
    file_length: u64,
    place: u64,
    word: u32,
) -> Result<FoundLink, WalkFault>
    requires told { IsLength (H.view host.old) file_length }
    requires later { 100 ≤ place }
    requires within { place + 4 ≤ file_length }
    requires word { Told (H.view host.old) (λ file. HasWord file place word) }
    ensures begins { IfOk result (λ found. BeginsAt place found.segment) }
    ensures within { IfOk result (λ found. place + segment_length found.segment ≤ file_length) }
    ensures kind { IfOk result (λ found. IsKindOf place word found.segment) }
    ensures behind { IfOk result
        (λ found. IfSome found.behind (λ _. place + segment_length found.segment + 4 ≤ file_length)) }
    ensures apart { IfOk result (λ found. MayPrecede found.segment found.behind) }
    ensures link { IfOk result
        (λ found. Told (H.view host.old) (FindsLink place found.segment found.behind)) }
    ensures walked { IfOk result (λ found. IsKeyed IsWalkedKey found.segment found.key) }
    ensures key { IfOk result (λ found. Told (H.view host.old)
        (λ file. IsKeyed (λ p n head. HasKeyAt head p n file) found.segment found.key)) }
    ensures none { IfErr result (TellsNoLink (H.view host.old) place) }
    ensures calls { OnlyReads (H.view host.old) (H.view host.new) }
    ensures cause { IsWalkCause (H.view host.old) (H.view host.new) result }
{
    let (segment, key) = segment_at(alloc, host, file_length, place, word)?;
    let behind = word_at(host, file_length, segment.end())?;
    if !are_apart(segment, behind) {
        return Err(WalkFault::NoChain { place });
    }
    Ok(FoundLink {
        segment,
        key,
        behind,
    })
}
