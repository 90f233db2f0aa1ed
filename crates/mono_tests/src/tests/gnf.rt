//! A text that was read by hand, and the limits of an input.
use super::{assert_count, assert_same};
use mono_base::Lit;
use mono_gnf::{GnfFault, GnfRefusal, read_gnf};
use mono_graph::{Edge, Graph};
use mono_problem::{Atom, Predicate, Problem};
use mono_text::push_natural;
use std::alloc::{AllocError, Global};
use std::process::Abort;
use std::test::Fail;

const EVERY_FORM: &[u8] = b"c every form\n\
p cnf 12 3\n\
digraph int 3 4 7\n\
edge 7 0 1 1\n\
1 -2\n\
c within a clause\n\
  3 0 0\n\
reach 7 0 2 4\n\
digraph 2 0 0\n\
edge 7 1 2 2 9\n\
edge 0 1 0 1 0\n\
distance_leq 7 0 2 5 2\n\
weighted_distance_lt 7 0 2 6 11\n\
maximum_flow_gt 0 0 1 7 0\n\
mst_weight_lt 0 8 0\n\
\t\r\n\
-8 8 -0";

/// The first graph has its edges, in the order of their lines.
fn assert_first_graph(rt: &impl Abort, graph: &Graph) {
    assert_same(rt, graph.nodes(), 3);
    assert_count(rt, graph.edge_count(), 2);
    let late = Edge {
        number: 2,
        from: 1,
        to: 2,
        var: 2,
        weight: 9,
    };
    assert_same(rt, graph.edge(0).weight, 1);
    assert_same(rt, graph.edge(1), late);
}

/// The problem has its variables and its graphs.
fn assert_graphs(rt: &impl Abort, problem: &Problem) {
    assert_same(rt, problem.vars(), 12);
    assert_count(rt, problem.graph_count(), 2);
    assert_same(rt, problem.edge_count(), 3);
    assert_same(rt, problem.graph_id(0), 7);
    assert_same(rt, problem.graph_id(1), 0);
    assert_first_graph(rt, problem.graph(0));
}

#[test]
fn every_form(rt: HostRuntime) -> Result<(), Fail> {
    let problem = read_gnf(rt.alloc(), EVERY_FORM)?;
    assert_graphs(&rt, &problem);
    Ok(())
}

/// The problem has a predicate of each kind.
fn assert_predicates(rt: &impl Abort, problem: &Problem) {
    let predicates = [
        Predicate::Reach { from: 0, to: 2 },
        Predicate::Steps {
            from: 0,
            to: 2,
            most: 2,
        },
        Predicate::Distance {
            from: 0,
            to: 2,
            most: 10,
        },
        Predicate::Flow {
            source: 0,
            sink: 1,
            least: 1,
        },
        Predicate::Tree { most: -1 },
    ];
    assert_count(rt, problem.atom_count(), 5);
    for place in 0..5u32 {
        let atom = Atom {
            number: place + 1,
            graph: if place < 3 { 0 } else { 1 },
            var: place + 4,
            predicate: predicates[place as usize],
        };
        assert_same(rt, problem.atom(place + 1), atom);
    }
}

#[test]
fn every_predicate(rt: HostRuntime) -> Result<(), Fail> {
    let problem = read_gnf(rt.alloc(), EVERY_FORM)?;
    assert_predicates(&rt, &problem);
    Ok(())
}

/// The literals have these numbers.
fn assert_numbers(rt: &impl Abort, clause: &[Lit], numbers: &[i32]) {
    assert_same(rt, clause.len(), numbers.len());
    for (lit, number) in clause.iter().zip(numbers.iter()) {
        assert_same(rt, lit.number(), *number);
    }
}

/// The problem has a clause over two lines, the empty one, and one with both signs of a variable.
fn assert_clauses(rt: &impl Abort, problem: &Problem) {
    let clauses: [&[i32]; 3] = [&[1, -2, 3], &[], &[-8, 8]];
    assert_count(rt, problem.clause_count(), 3);
    for place in 0..3u32 {
        assert_numbers(rt, problem.clause(place + 1), clauses[place as usize]);
    }
}

#[test]
fn every_clause(rt: HostRuntime) -> Result<(), Fail> {
    let problem = read_gnf(rt.alloc(), EVERY_FORM)?;
    assert_clauses(&rt, &problem);
    Ok(())
}

#[test]
fn names(rt: HostRuntime) {
    assert_same(&rt, GnfFault::UnknownWord.name(), "UnknownWord");
    assert_same(&rt, GnfFault::TooMany.name(), "TooMany");
}

/// Why a text is refused, if it is.
fn refused(alloc: Global, text: &[u8]) -> Option<GnfRefusal> {
    match read_gnf(alloc, text) {
        Ok(_) => None,
        Err(refusal) => Some(refusal),
    }
}

#[test]
fn refusals(rt: HostRuntime) {
    let table: [(&[u8], u64, GnfFault); 6] = [
        (b"cfoo", 1, GnfFault::UnknownWord),
        (b"digraph int 2 1", 1, GnfFault::NotNumber),
        (b"1\nfoo", 2, GnfFault::OpenClause),
        (b"1 0 2\n0 3\n-4\nc\n\t\n", 3, GnfFault::UnfinishedClause),
        (
            b"digraph int 2 0 0\nmaximum_flow_geq 0 1 1 5 2",
            2,
            GnfFault::SameEnds,
        ),
        (
            b"digraph int 2 1 0\nedge 0 0 1 1\n1 0\nreach 0 0 2 3\nbogus",
            4,
            GnfFault::NodeOutOfRange,
        ),
    ];
    for (text, line, fault) in table {
        assert_same(
            &rt,
            refused(rt.alloc(), text),
            Some(GnfRefusal::At { line, fault }),
        );
    }
}

/// So many lines, each the same, behind a first line.
fn repeated(alloc: Global, first: &[u8], line: &[u8], count: u32) -> Result<Vec<u8>, AllocError> {
    let mut text = Vec::new(alloc);
    text.extend_from_slice(first)?;
    for _ in 0..count {
        text.extend_from_slice(line)?;
    }
    Ok(text)
}

fn too_many(line: u64) -> Option<GnfRefusal> {
    Some(GnfRefusal::At {
        line,
        fault: GnfFault::TooMany,
    })
}

/// The text is read, and with more behind it there is too much, in this line.
fn assert_full(
    rt: &impl Abort,
    alloc: Global,
    text: &mut Vec<u8>,
    more: &[u8],
    line: u64,
) -> Result<(), Fail> {
    assert_same(rt, refused(alloc, text), None);
    text.extend_from_slice(more)?;
    assert_same(rt, refused(alloc, text), too_many(line));
    Ok(())
}

/// Adds a graph of this number.
fn push_graph(text: &mut Vec<u8>, id: u64) -> Result<(), AllocError> {
    text.extend_from_slice(b"digraph int 1 0 ")?;
    push_natural(text, id)?;
    text.push(b'\n')?;
    Ok(())
}

#[test]
fn graph_limit(rt: HostRuntime) -> Result<(), Fail> {
    let mut text = Vec::new(rt.alloc());
    for id in 0..1024u64 {
        push_graph(&mut text, id)?;
    }
    assert_full(&rt, rt.alloc(), &mut text, b"digraph int 1 0 1024\n", 1025)
}

#[test]
fn edge_limit(rt: HostRuntime) -> Result<(), Fail> {
    let mut text = repeated(rt.alloc(), b"digraph 1 0 0\n", b"edge 0 0 0 1\n", 1_000_000)?;
    assert_full(&rt, rt.alloc(), &mut text, b"edge 0 0 0 1", 1_000_002)
}

#[test]
fn predicate_limit(rt: HostRuntime) -> Result<(), Fail> {
    let mut text = repeated(rt.alloc(), b"digraph 1 0 0\n", b"reach 0 0 0 1\n", 100_000)?;
    assert_full(&rt, rt.alloc(), &mut text, b"reach 0 0 0 1", 100_002)
}

#[test]
fn clause_limit(rt: HostRuntime) -> Result<(), Fail> {
    let mut text = repeated(rt.alloc(), b"", b"0\n", 8_000_000)?;
    assert_full(&rt, rt.alloc(), &mut text, b"0", 8_000_001)
}

/// The text ends within a clause, and once that clause has ended, one literal more is too much.
fn assert_full_of_literals(rt: &impl Abort, alloc: Global, text: &mut Vec<u8>) -> Result<(), Fail> {
    text.extend_from_slice(b"1 1 1\n")?;
    let unfinished = GnfRefusal::At {
        line: 4_000_000,
        fault: GnfFault::UnfinishedClause,
    };
    assert_same(rt, refused(alloc, text), Some(unfinished));
    text.extend_from_slice(b"1 0 0")?;
    assert_full(rt, alloc, text, b" 1", 4_000_001)
}

#[test]
fn literal_limit(rt: HostRuntime) -> Result<(), Fail> {
    let mut text = repeated(rt.alloc(), b"", b"1 -2 3 4 0\n", 3_999_999)?;
    assert_full_of_literals(&rt, rt.alloc(), &mut text)
}
