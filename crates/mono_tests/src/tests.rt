//! The calls of the low crates once each: texts and tables that were worked by hand, limits, reads and writes that fail in
//! turn, and lists of calls, drawn with fixed seeds, beside slow references.
//!
//! A test of one crate has its name, without the `mono_`, and printing an input a module of its own.

ghost use Rattle.std.specs.Prelude.{◌≡◌, length};

use mono_base::Lit;
use mono_graph::Graph;
use mono_problem::{Draft, Problem};
use std::alloc::AllocError;
use std::fmt::Debug;
use std::process::Abort;

mod answer;
mod base;
mod check;
mod clauses;
mod flows;
mod gnf;
mod graph;
mod io;
mod paths;
mod print;
mod problem;
mod steps;
mod text;
mod trail;
mod trees;

/// The problem's first graph, which has so many nodes and edges.
fn first_graph<'a>(rt: &impl Abort, problem: &'a Problem, nodes: u32, edges: u32) -> &'a Graph
    ensures nodes { result.now.nodes ≡ nodes }
    ensures edges { length result.now.edges ≡ edges }
{
    assert!(rt; problem.graph_count() > 0);
    let graph = problem.graph(0);
    assert_count(rt, graph.nodes(), nodes);
    assert_count(rt, graph.edge_count(), edges);
    graph
}

/// Adds a clause, where there is room.
fn add_clause(draft: &mut Draft, lits: &[Lit]) -> Result<(), AllocError> {
    let totals = draft.totals();
    if totals.clauses < 8_000_000 && totals.literals as usize + lits.len() <= 16_000_000 {
        draft.add_clause(lits)?;
    }
    Ok(())
}

/// A count is the wanted one, which is known afterwards.
fn assert_count(rt: &impl Abort, got: u32, want: u32)
    ensures { got ≡ want }
{
    assert_eq!(rt; got, want);
}

/// Both values are equal. In a function of its own, the assertion is proved once.
fn assert_same<T: PartialEq + Debug + Drop>(rt: &impl Abort, got: T, want: T) {
    assert_eq!(rt; got, want);
}

/// Both values are equal, in the row of a table that has this key.
fn assert_same_at<T: PartialEq + Debug + Drop>(rt: &impl Abort, key: &impl Debug, got: T, want: T) {
    assert_eq!(rt; got, want, "at {key:?}");
}
