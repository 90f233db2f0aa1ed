//! Texts that were printed by hand.
use super::assert_same;
use mono_gnf::{print_gnf, read_gnf};
use mono_problem::Problem;
use std::alloc::Global;
use std::process::Abort;
use std::test::Fail;

const EVERY_KIND: &[u8] = b"p cnf 12 9\n\
digraph 3 0 7\n\
edge 7 0 1 1\n\
digraph int 2 4 0\n\
edge 0 1 0 1 0\n\
edge 7 1 2 2 9\n\
1 -2\n\
c within a clause\n\
  3 0 0\n\
reach 7 0 2 4\n\
distance_lt 7 0 2 5 3\n\
weighted_distance_leq 7 2 0 6 9007199254740992\n\
maximum_flow_gt 0 0 1 7 9007199254740992\n\
maximum_flow_geq 7 0 2 9 5\n\
mst_weight_lt 0 8 0\n\
\t\r\n\
-8 8 -8 -0";

const EVERY_KIND_PRINTED: &[u8] = b"p gnf 12 3\n\
digraph int 3 2 7\n\
digraph int 2 1 0\n\
edge 7 0 1 1 1\n\
edge 0 1 0 1 0\n\
edge 7 1 2 2 9\n\
reach 7 0 2 4\n\
distance_leq 7 0 2 5 2\n\
weighted_distance_leq 7 2 0 6 9007199254740992\n\
maximum_flow_gt 0 0 1 7 9007199254740992\n\
maximum_flow_geq 7 0 2 9 5\n\
mst_weight_lt 0 8 0\n\
1 -2 3 0\n\
0\n\
-8 8 -8 0\n";

/// The problem is printed as this text.
fn assert_printed(
    rt: &impl Abort,
    alloc: Global,
    problem: &Problem,
    want: &[u8],
) -> Result<(), Fail> {
    let printed = print_gnf(alloc, problem)?;
    assert_same(rt, printed.as_slice(), want);
    Ok(())
}

/// The problem of a text is printed as this one.
fn assert_read(rt: &impl Abort, alloc: Global, text: &[u8], want: &[u8]) -> Result<(), Fail> {
    let problem = read_gnf(alloc, text)?;
    assert_printed(rt, alloc, &problem, want)
}

/// What is printed is printed again as it is.
#[test]
fn every_kind_is_printed(rt: HostRuntime) -> Result<(), Fail> {
    for text in [EVERY_KIND, EVERY_KIND_PRINTED] {
        assert_read(&rt, rt.alloc(), text, EVERY_KIND_PRINTED)?;
    }
    Ok(())
}
