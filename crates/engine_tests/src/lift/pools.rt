//! Tests of pools.

use lift_pool::Pool;
use std::alloc::{AllocError, Global};

/// Whether lanes are cut and given back: a copy is changed alone, and a longer lane takes its place.
fn cuts_lanes(alloc: Global) -> Result<bool, AllocError> {
    let mut pool = Pool::make(alloc, 6, 3)?;
    pool.take(2, 7u32);
    pool.take_copy();
    pool.lane_mut(1)[0] = 5;
    let is_copied = pool.lanes() == 2
        && pool.lane(0) == [7, 7].as_slice()
        && pool.lane(1) == [5, 7].as_slice();
    pool.give_back();
    pool.take(4, 1);
    Ok(is_copied && pool.lane(0) == [7, 7].as_slice() && pool.lane(1) == [1, 1, 1, 1].as_slice())
}

#[test]
fn cuts_lanes_and_gives_them_back(rt: HostRuntime) {
    assert!(rt; matches!(cuts_lanes(rt.alloc()), Ok(true)));
}

/// Whether lanes without words are taken, and given back.
fn takes_empty_lanes(alloc: Global) -> Result<bool, AllocError> {
    let mut pool = Pool::make(alloc, 0, 2)?;
    pool.take(0, -1i64);
    pool.take_copy();
    let is_taken = pool.lanes() == 2 && pool.lane(1).is_empty();
    pool.give_back();
    pool.give_back();
    Ok(is_taken && pool.lanes() == 0)
}

#[test]
fn takes_lanes_without_words(rt: HostRuntime) {
    assert!(rt; matches!(takes_empty_lanes(rt.alloc()), Ok(true)));
}
