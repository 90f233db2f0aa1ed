//! Inputs, read, refused and printed.

use super::{USAGE, assert_outcome, checks, outcome_of, prints, prints_each, refuses};
use mono_forms::Status;
use mono_text::push_natural;
use std::alloc::{AllocError, Global};
use std::process::Abort;
use std::test::Fail;

const GRAPH: &[u8] = b"digraph int 2 1 0\n";

/// Edges are printed in the order of their numbers.
const MIXED: &str =
    "digraph int 2 0 7\ndigraph int 3 0 3\nedge 7 0 1 1 5\nedge 3 2 0 2\nmst_weight_lt 3 9 4\nedge 7 1 0 1 0\n1 -9 0\n";

const ORDERED: &str =
    "p gnf 9 1\ndigraph int 2 2 7\ndigraph int 3 1 3\nedge 7 0 1 1 5\nedge 3 2 0 2 1\nedge 7 1 0 1 0\nmst_weight_leq 3 9 3\n1 -9 0\n";

#[test]
fn an_input_is_printed_in_one_form(rt: HostRuntime) -> Result<(), Fail> {
    prints_each(
        &rt,
        &[
            ("", "p gnf 0 0\n"),
            (
                "digraph 1 9 5\ndistance_lt 5 0 0 1 5\n",
                "p gnf 1 0\ndigraph int 1 0 5\ndistance_leq 5 0 0 1 4\n",
            ),
            (
                "digraph 1 0 0\ndistance_lt 0 0 0 1 0\n",
                "p gnf 1 0\ndigraph int 1 0 0\ndistance_lt 0 0 0 1 0\n",
            ),
            (
                "digraph 2 0 0\nmaximum_flow_gt 0 0 1 2 3\n",
                "p gnf 2 0\ndigraph int 2 0 0\nmaximum_flow_geq 0 0 1 2 4\n",
            ),
            (
                "digraph 2 0 0\nmaximum_flow_gt 0 0 1 2 9007199254740992\n",
                "p gnf 2 0\ndigraph int 2 0 0\nmaximum_flow_gt 0 0 1 2 9007199254740992\n",
            ),
            ("0 2 02 0 -0\n", "p gnf 2 3\n0\n2 2 0\n0\n"),
            ("p cnf 4 9\n1 0\n", "p gnf 4 1\n1 0\n"),
            ("1 2\nc middle\n-3 0\n", "p gnf 3 1\n1 2 -3 0\n"),
            (
                "digraph int 1000000 1 0\nedge 0 0 999999 1\n",
                "p gnf 1 0\ndigraph int 1000000 1 0\nedge 0 0 999999 1 1\n",
            ),
            (
                "digraph int 2 1 0\nedge 0 0 1 1 18446744073709551615\n",
                "p gnf 1 0\ndigraph int 2 1 0\nedge 0 0 1 1 18446744073709551615\n",
            ),
            (MIXED, ORDERED),
            (ORDERED, ORDERED),
            // Weights of 32 bits and more.
            (
                "digraph int 2 1 0\nedge 0 0 1 1 4294967295\n",
                "p gnf 1 0\ndigraph int 2 1 0\nedge 0 0 1 1 4294967295\n",
            ),
            (
                "digraph int 2 1 0\nedge 0 0 1 1 4294967296\n",
                "p gnf 1 0\ndigraph int 2 1 0\nedge 0 0 1 1 4294967296\n",
            ),
            (
                "digraph 2 0 7\nacyclic 07 3\n1 0\n",
                "p gnf 3 1\ndigraph int 2 0 7\nacyclic 7 3\n1 0\n",
            ),
            ("1\t2\r\n-000003 0", "p gnf 3 1\n1 2 -3 0\n"),
        ],
    )
}

#[test]
fn the_first_malformed_line_is_named(rt: HostRuntime) -> Result<(), Fail> {
    refuses(
        &rt,
        &[
            ("bv 1 2\n", "refused 1 UnknownWord\n"),
            ("p sat 3 1\n", "refused 1 UnknownWord\n"),
            ("1 0\n%\n", "refused 2 UnknownWord\n"),
            ("1 x 0\n", "refused 1 NotNumber\n"),
            ("edge 7 9 x 0\n", "refused 1 NotNumber\n"),
            ("1000001 0\n", "refused 1 TooLarge\n"),
            ("p cnf 3\n", "refused 1 FieldCount\n"),
            ("digraph int 2 1 0 name\n", "refused 1 FieldCount\n"),
            ("edge 0 0 1 1\n", "refused 1 UnknownGraph\n"),
            (
                "digraph int 2 0 0\ndigraph 3 0 0\n",
                "refused 2 DuplicateGraph\n",
            ),
            ("digraph int 0 0 0\n", "refused 1 NodeOutOfRange\n"),
            (
                "digraph int 2 1 0\nedge 0 5 0 0\n",
                "refused 2 NodeOutOfRange\n",
            ),
            // Words, weights and names that other tools write.
            ("node 0 1\n", "refused 1 UnknownWord\n"),
            ("%\n", "refused 1 UnknownWord\n"),
            ("digraph 0 0 0\n", "refused 1 NodeOutOfRange\n"),
            ("digraph 2 1 0 name\n", "refused 1 WeightWord\n"),
            ("digraph rational 2 1 0\n", "refused 1 WeightWord\n"),
            (
                "digraph int 2 1 0\nedge 0 0 1 1 -1\n",
                "refused 2 NotNumber\n",
            ),
            // A clause ends before another line begins.
            ("1 2\nreach 0 0 1 3\n-3 0\n", "refused 2 OpenClause\n"),
            (
                "1 2\nreach 0 0 1 3\nc middle\n-3 0\n",
                "refused 2 OpenClause\n",
            ),
            ("1 2\nc middle\n-3\n", "refused 3 UnfinishedClause\n"),
            ("digraph 1 0 0\nacyclic 0\n", "refused 2 FieldCount\n"),
            ("digraph 1 0 0\nacyclic 0 1 2\n", "refused 2 FieldCount\n"),
            ("digraph 1 0 0\nacyclic 1 1\n", "refused 2 UnknownGraph\n"),
            ("digraph 1 0 0\nacyclic 0 0\n", "refused 2 BadVariable\n"),
        ],
    )
}

#[test]
fn the_first_check_that_fails_names_the_fault(rt: HostRuntime) -> Result<(), Fail> {
    refuses(
        &rt,
        &[
            (
                "digraph int 2 1 0\nedge 0 0 1 0\n",
                "refused 2 BadVariable\n",
            ),
            ("digraph float 2 1 0\n", "refused 1 WeightWord\n"),
            ("p cnf 1 0\np gnf 1 0\n", "refused 2 SecondHeader\n"),
            ("1 2\np cnf 2 1\n", "refused 2 OpenClause\n"),
            ("1 2\nbogus\n", "refused 2 OpenClause\n"),
            ("1 2\nc end\n", "refused 1 UnfinishedClause\n"),
            (
                "digraph int 2 0 0\nmaximum_flow_geq 0 1 1 5 2\n",
                "refused 2 SameEnds\n",
            ),
            (
                "digraph int 2 0 0\nmaximum_flow_geq 0 1 1 0 2\n",
                "refused 2 BadVariable\n",
            ),
            (
                "digraph int 2 1 0\nedge 0 0 1 1\n1 0\nreach 0 0 2 3\nbogus\n",
                "refused 4 NodeOutOfRange\n",
            ),
            (
                "digraph int 2 1 0\nedge 0 0 1 1 18446744073709551616\n",
                "refused 2 TooLarge\n",
            ),
            (
                "digraph int 1000000 1 0\nedge 0 0 1000000 1\n",
                "refused 2 NodeOutOfRange\n",
            ),
            ("cfoo\n", "refused 1 UnknownWord\n"),
            // A line of numbers is judged token by token.
            ("-\n", "refused 1 NotNumber\n"),
            ("--1 0\n", "refused 1 NotNumber\n"),
            ("1x 0\n", "refused 1 NotNumber\n"),
            ("+1 0\n", "refused 1 UnknownWord\n"),
            ("1 1000001 x 0\n", "refused 1 TooLarge\n"),
            ("1 x 1000001 0\n", "refused 1 NotNumber\n"),
            ("1 \x0b2 0\n", "refused 1 NotNumber\n"),
        ],
    )
}

/// So many graphs, each with an identity of its own.
fn graphs(alloc: Global, count: u64) -> Result<Vec<u8>, AllocError> {
    let mut text = Vec::new(alloc);
    for identity in 0..count {
        text.extend_from_slice(b"digraph int 1 0 ")?;
        push_natural(&mut text, identity)?;
        text.push(b'\n')?;
    }
    Ok(text)
}

#[test]
fn there_are_at_most_1024_graphs(rt: HostRuntime) -> Result<(), Fail> {
    let input = graphs(rt.alloc(), 1025)?;
    let text = b"refused 1025 TooMany\n".as_slice();
    checks(&rt, input.as_slice(), b"", text, Status::Refused)?;
    prints(&rt, input.as_slice(), text, Status::Refused)
}

/// Words that are no command, on a line each. The first line has none.
const OTHER_WORDS: &str = "
check
print
check f
print f a
check f a b
check -f a
check f -a
print -f
--help
--version
Print f
solve
solve -f
solve f a
solve f --conflicts
solve f --conflicts 0
solve f --conflicts -1
solve f --conflicts +1
solve f --conflicts 1x
solve f --conflicts 18446744073709551616
solve f --conflicts 1 x
solve f conflicts 1
solve --conflicts 1 f
check f --conflicts 1
gen grid 10
gen grid 1 7
gen grid 101 7
gen grid x 7
gen maze 10 7
gen grid 10 18446744073709551616
gen grid 10 -7
gen grid 10 7 --solve 1
gen grid 10 7 solve
gen --solve grid 10 7
print grid 10 7 --solve
core f
core f 0
core f -0
core f 1 x
core f 1000001
core -f 1
check-with f a
check-with f 1
check-with f -a 1
team f 2
team f 0 1
team f 9 1
team f 1 0
team f 1 101
team -f 1 1
team f 1 1 1
team f +1 1
migrate f a 0
migrate f a 3
migrate f a 02
migrate f a two";

/// The words are no command.
fn are_no_command(rt: &(impl Abort + AllocGlobal), words: &[&str]) -> Result<(), Fail> {
    let found = outcome_of(rt.alloc(), words, GRAPH, b"")?;
    assert_outcome(rt, &found, USAGE, Status::Words);
    Ok(())
}

#[test]
fn other_words_are_no_command(rt: HostRuntime) -> Result<(), Fail> {
    for line in OTHER_WORDS.split('\n') {
        let words: Vec<&str> = line
            .split(' ')
            .filter(|word| !word.is_empty())
            .collect(rt.alloc())?;
        are_no_command(&rt, words.as_slice())?;
    }
    are_no_command(&rt, &["print", ""])?;
    are_no_command(&rt, &["migrate", "f", "a", "1 "])?;
    are_no_command(&rt, &["migrate", "f", "a", ""])
}
