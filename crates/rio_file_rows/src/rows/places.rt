//! The places of records in a chain, also of a record whose length is no multiple of four and below other limits than the one of a
//! file, and in a chain that ends 996 bytes below that limit: no file shows these.
use rio_chain::{Chain, PlanFault, Segment, Segments};
use rio_num::{Lengths, NoMemory, Places};
use std::alloc::Global;

// Of three records after the first, of 60, 120 and 60 bytes, the second is deleted.
static GAPPED: [Segment; 4] = [
    Segment::Record {
        place: 100,
        length: 108,
    },
    Segment::Record {
        place: 208,
        length: 60,
    },
    Segment::Gap {
        place: 268,
        length: 120,
    },
    Segment::Record {
        place: 388,
        length: 60,
    },
];

// Lengths, what END may be at most, and the places.
static PLACES: [(u64, u64, Option<u64>); 8] = [
    (120, 1_999_999_996, Some(268)),
    (116, 1_999_999_996, Some(268)),
    (60, 1_999_999_996, Some(268)),
    (118, 1_999_999_996, Some(448)),
    (124, 1_999_999_996, Some(448)),
    (120, 447, None),
    (124, 571, None),
    (124, 572, Some(448)),
];

fn chain_of(alloc: Global) -> Result<Chain, NoMemory> {
    Chain::from_segments(Segments::from_slice(alloc, &GAPPED)?)
}

// How many rows hold, up to the first that doesn't.
fn count_placed(chain: &Chain) -> usize {
    for (k, (length, limit, place)) in PLACES.iter().enumerate() {
        if chain.place_for(*length, *limit) != *place {
            return k;
        }
    }
    PLACES.len()
}

fn are_placed(alloc: Global) -> bool {
    match chain_of(alloc) {
        Ok(chain) => count_placed(&chain) == PLACES.len(),
        Err(_) => false,
    }
}

#[test]
fn places_one_record(rt: HostRuntime) {
    assert!(rt; are_placed(rt.alloc()));
}

fn nearly_full(alloc: Global) -> Result<Chain, NoMemory> {
    let mut segments = Segments::new(alloc);
    segments.push(Segment::Record {
        place: 100,
        length: 108,
    })?;
    segments.push(Segment::Record {
        place: 208,
        length: 1_999_998_792,
    })?;
    Chain::from_segments(segments)
}

fn placed(alloc: Global, chain: &Chain) -> Result<Places, PlanFault> {
    let lengths = Lengths::from_slice(alloc, &[996])?;
    chain.plan(&lengths, 1_999_999_996)
}

fn too_long(alloc: Global, chain: &Chain) -> Result<Places, PlanFault> {
    let lengths = Lengths::from_slice(alloc, &[1000])?;
    chain.plan(&lengths, 1_999_999_996)
}

fn fits(alloc: Global, chain: &Chain) -> bool {
    match placed(alloc, chain) {
        Ok(places) => places.as_slice() == [1_999_999_000].as_slice(),
        Err(_) => false,
    }
}

fn is_full(alloc: Global, chain: &Chain) -> bool {
    match too_long(alloc, chain) {
        Ok(_) => false,
        Err(fault) => {
            fault
                == PlanFault::Full {
                    end: 1_999_999_000,
                    wanted: 1000,
                }
        }
    }
}

fn plans(alloc: Global) -> bool {
    match nearly_full(alloc) {
        Ok(chain) => fits(alloc, &chain) && is_full(alloc, &chain),
        Err(_) => false,
    }
}

#[test]
fn plans_up_to_the_limit(rt: HostRuntime) {
    assert!(rt; plans(rt.alloc()));
}
