//! Runs that find memory. Want of memory is the answer that no clause ties to a cause, so tests show that it isn't given.

use super::{checks, judges};
use mono_forms::Status;
use std::test::Fail;

/// A clause of 64 variables, and 64 clauses that each deny one of them.
const WIDE: &str = "\
1 2 3 4 5 6 7 8 9 10 11 12 13 14 15 16 17 18 19 20 21 22 23 24 25 26 27 28 29 30 31 32 33 34 35 36 \
37 38 39 40 41 42 43 44 45 46 47 48 49 50 51 52 53 54 55 56 57 58 59 60 61 62 63 64 0\n-1 0\n-2 0\n\
-3 0\n-4 0\n-5 0\n-6 0\n-7 0\n-8 0\n-9 0\n-10 0\n-11 0\n-12 0\n-13 0\n-14 0\n-15 0\n-16 0\n-17 0\n\
-18 0\n-19 0\n-20 0\n-21 0\n-22 0\n-23 0\n-24 0\n-25 0\n-26 0\n-27 0\n-28 0\n-29 0\n-30 0\n-31 0\n\
-32 0\n-33 0\n-34 0\n-35 0\n-36 0\n-37 0\n-38 0\n-39 0\n-40 0\n-41 0\n-42 0\n-43 0\n-44 0\n-45 0\n\
-46 0\n-47 0\n-48 0\n-49 0\n-50 0\n-51 0\n-52 0\n-53 0\n-54 0\n-55 0\n-56 0\n-57 0\n-58 0\n-59 0\n\
-60 0\n-61 0\n-62 0\n-63 0\n-64 0\n";

/// One chain over all of them.
const LONG_CHAIN: &str = "\
s UNSATISFIABLE\nchain 0 1 2 3 4 5 6 7 8 9 10 11 12 13 14 15 16 17 18 19 20 21 22 23 24 25 26 27 28 \
29 30 31 32 33 34 35 36 37 38 39 40 41 42 43 44 45 46 47 48 49 50 51 52 53 54 55 56 57 58 59 60 61 \
62 63 64 65\n";

#[test]
fn small_and_wide_problems_are_judged(rt: HostRuntime) -> Result<(), Fail> {
    judges(
        &rt,
        &[
            (
                "p cnf 2 2\r\n1 2 0\r\n-1 0\r\n",
                "s SATISFIABLE\r\nv -1 2 0\r\n",
                "accepted model\n",
            ),
            ("p cnf 0 0\n", "s SATISFIABLE\nv 0\n", "accepted model\n"),
            (WIDE, LONG_CHAIN, "accepted refutation\n"),
        ],
    )
}

#[test]
fn an_answer_may_have_more_than_a_million_bytes(rt: HostRuntime) -> Result<(), Fail> {
    let mut answer = vec![in rt.alloc(); b' '; 1_100_000]?;
    answer.extend_from_slice(b"\ns SATISFIABLE\nv -1 2 0\n")?;
    let text = b"accepted model\n";
    checks(
        &rt,
        b"1 2 0\n-1 0\n",
        answer.as_slice(),
        text,
        Status::Accepted,
    )
}
