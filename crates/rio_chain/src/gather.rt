//! A chain is made of the segments of a file.
ghost use Rattle.std.specs.Prelude.{◌≡◌, ◌<◌, ◌≤◌, ◌^◌, IfOk};
ghost use Rattle.rio_chain.specs.Adjoining.{AreSegments};
ghost use Rattle.rio_chain.specs.Merging.{spans_in};
ghost use Rattle.rio_chain.specs.Placing.{file_end, gaps_in};

use crate::segment::Span;
use crate::{Chain, Segment, Segments};
use rio_free::FreeList;
use rio_num::NoMemory;
use std::alloc::Global;

// The gaps among the segments.
fn gaps_of(alloc: Global, segments: &[Segment]) -> Result<FreeList, NoMemory>
    requires shape { AreSegments segments.now }
    requires low { file_end segments.now ≤ 1999999996 }
    ensures { IfOk result (λ list. list.gaps ≡ gaps_in segments.now) }
{
    let mut gaps = FreeList::new(alloc);
    for segment in segments {
        match segment {
            Segment::Record { .. } => {}
            Segment::Gap { place, length } => {
                gaps.reserve(1)?;
                gaps.give(*place, *length);
            }
        }
    }
    Ok(gaps)
}

// The records among the segments.
fn spans_of(alloc: Global, segments: &[Segment]) -> Result<Vec<Span>, NoMemory>
    ensures { IfOk result (λ spans. spans.items ≡ spans_in segments.now) }
{
    let mut spans = Vec::new(alloc);
    for segment in segments {
        match segment {
            Segment::Record { place, length } => spans.push(Span {
                place: *place,
                length: *length,
            })?,
            Segment::Gap { .. } => {}
        }
    }
    Ok(spans)
}

/// END: the place behind the last of the segments, the first of which begins at place 100.
pub fn end_of(segments: &[Segment]) -> u64
    requires { file_end segments.now < 2 ^ 64 }
    ensures { result ≡ file_end segments.now }
{
    let mut end: u64 = 100;
    for segment in segments {
        end += segment.length();
    }
    end
}

impl Chain {
    ghost use Rattle.std.specs.Prelude.{◌≡◌, ◌≤◌, false, IfOk};
    ghost use Rattle.rio_chain.specs.Adjoining.{AreSegments};
    ghost use Rattle.rio_chain.specs.Placing.{file_end};

    /// The chain of these segments.
    pub fn from_segments(segments: Segments) -> Result<Chain, NoMemory>
        requires shape { AreSegments segments }
        requires low { file_end segments ≤ 1999999996 }
        ensures { IfOk result
            (λ chain. chain ≡ record { segments = segments; spare = 0; spent = false }) }
    {
        let alloc = segments.allocator();
        Ok(Chain {
            records: spans_of(alloc, segments.as_slice())?,
            gaps: gaps_of(alloc, segments.as_slice())?,
            end: end_of(segments.as_slice()),
            spare: 0,
            spent: false,
        })
    }
}
