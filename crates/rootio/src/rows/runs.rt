//! Runs over a file in memory.
use crate::status::Status;
use crate::top::run;
use rio_host::{Host, MemHost, Source, SureSource};
use rio_num::{Bytes, Name, NoMemory, Numbers, Words};
use std::alloc::Global;

/// The bytes up to a length, with some words written over.
pub(super) fn changed(
    alloc: Global,
    bytes: &[u8],
    length: usize,
    words: &[(usize, u32)],
) -> Result<Bytes, NoMemory> {
    let mut image = Bytes::from_slice(alloc, &bytes[..length.min(bytes.len())])?;
    for (place, word) in words {
        if *place < image.len() && 4 <= image.len() - *place {
            image.patch_u32(*place, *word);
        }
    }
    Ok(image)
}

fn words_of(alloc: Global, words: &[&str]) -> Result<Words, NoMemory> {
    let mut all = Words::new(alloc);
    for word in words {
        all.push(Name::from_slice(alloc, word.as_bytes())?)?;
    }
    Ok(all)
}

/// A host of a copy of the file, of which these calls fail.
pub(super) fn host_of_copy(
    alloc: Global,
    image: &[u8],
    failing: &[u64],
) -> Result<MemHost, NoMemory> {
    let failing = Numbers::from_slice(alloc, failing)?;
    Ok(MemHost::new(alloc, Bytes::from_slice(alloc, image)?, failing))
}

// How a run ends. Nothing that is proved of it is needed by the examples, which only call it here.
fn ended<H: Host, S: Source>(alloc: Global, words: &Words, host: &mut H, input: &mut S) -> Status {
    run(alloc, words, host, input)
}

/// How a run of these words ends over the host, with this input.
pub(super) fn ran<H: Host>(
    alloc: Global,
    words: &[&str],
    host: &mut H,
    script: &[u8],
) -> Result<Status, NoMemory> {
    let words = words_of(alloc, words)?;
    let mut input = SureSource::new(Bytes::from_slice(alloc, script)?);
    Ok(ended(alloc, &words, host, &mut input))
}
