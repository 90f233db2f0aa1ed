//! Luby's sequence by its first terms, and trails and orders beside slow references, over lists of calls that are drawn
//! with fixed seeds.

mod draws;
mod order;
mod trail;

use super::{assert_same, assert_same_at};
use mono_trail::luby;

#[test]
fn luby_by_its_first_terms(rt: HostRuntime) {
    let terms = [
        1, 1, 2, 1, 1, 2, 4, 1, 1, 2, 1, 1, 2, 4, 8, 1, 1, 2, 1, 1, 2, 4, 1, 1, 2, 1, 1, 2, 4, 8,
        16,
    ];
    let mut k = 0u64;
    for term in terms {
        k = k.saturating_add(1);
        assert!(rt; k > 0);
        assert_same_at(&rt, &k, luby(k), term);
    }
}

#[test]
fn luby_at_the_limits(rt: HostRuntime) {
    assert_same(&rt, luby(u64::MAX), 1 << 63);
    assert_same(&rt, luby(u64::MAX - 1), 1 << 62);
}
