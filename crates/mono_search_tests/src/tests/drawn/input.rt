//! Drawn problems.

ghost use Rattle.std.specs.Prelude.{◌≡◌, ◌<◌, ℕ};
ghost use Rattle.mono_graph.specs.Digraph.{Digraph};
ghost use Rattle.mono_problem.specs.WellFormed.{IsOver};

use mono_gen::{GenKind, generate};
use mono_gnf::read_gnf;
use mono_graph::{Edge, Graph};
use mono_problem::{Draft, Predicate, Problem};
use rand_core::utils::NextWord;
use rand_pcg::Lcg64Xsh32;
use std::alloc::{AllocError, Global};
use std::test::Fail;

/// The variables of edges are drawn from the first ones, where edges are to share them.
const FEW_VARS: u32 = 12;

/// The variables of predicates follow those of edges.
const FIRST_ATOM_VAR: u32 = 25;

/// Adds the edge under this variable, where there is room and its nodes are the graph's.
fn connect(draft: &mut Draft, edge: Edge, var: u32) -> Result<(), AllocError> {
    let totals = draft.totals();
    if totals.graphs == 0 || totals.edges >= 1000 || var == 0 || var > 1000 {
        return Ok(());
    }
    let nodes = draft.nodes_of(0);
    if edge.from < nodes && edge.to < nodes && edge.weight <= 1000 {
        draft.add_edge(0, edge.from, edge.to, var, edge.weight)?;
    }
    Ok(())
}

/// A predicate of a kind from the node to another one, over graphs of 9 nodes.
fn drawn_predicate(words: &mut Lcg64Xsh32, kind: u32, from: u32) -> Predicate
    requires { from < 9 }
    ensures { (g : Digraph) → g.nodes ≡ 9 → IsOver g result }
{
    let to = (from + 1 + words.next_word() % 8) % 9;
    let bound = words.next_word() % 24;
    if kind == 0 {
        return Predicate::Reach { from, to };
    }
    if kind == 1 {
        return Predicate::Steps {
            from,
            to,
            most: i64::from(bound / 4),
        };
    }
    if kind == 2 {
        return Predicate::Distance {
            from,
            to,
            most: i64::from(bound),
        };
    }
    if kind == 3 && from != to {
        return Predicate::Flow {
            source: from,
            sink: to,
            least: i64::from(bound / 2),
        };
    }
    if kind == 5 {
        return Predicate::Acyclic;
    }
    Predicate::Tree {
        most: i64::from(2 * bound),
    }
}

/// Adds a predicate of a kind from the node.
fn ask(
    draft: &mut Draft,
    words: &mut Lcg64Xsh32,
    var: u32,
    kind: u32,
    from: u32,
) -> Result<(), AllocError> {
    let totals = draft.totals();
    if totals.graphs == 0 || totals.atoms >= 1000 || var == 0 || var > 1000 {
        return Ok(());
    }
    if draft.nodes_of(0) == 9 && from < 9 {
        let predicate = drawn_predicate(words, kind, from);
        draft.add_atom(0, var, predicate)?;
    }
    Ok(())
}

/// Adds the edges of the graph. Where edges are to share variables, these are drawn.
fn connect_all(
    draft: &mut Draft,
    words: &mut Lcg64Xsh32,
    graph: &Graph,
    share: bool,
) -> Result<(), AllocError> {
    for place in 0..graph.edge_count() {
        let edge = graph.edge(place);
        let drawn = words.next_word() % FEW_VARS + 1;
        let var = if share { drawn } else { edge.var };
        connect(draft, edge, var)?;
    }
    Ok(())
}

/// Adds so many predicates of each kind, at most four, those of one kind from one node. Where variables are shared, some have
/// that of an edge.
fn ask_all(
    draft: &mut Draft,
    words: &mut Lcg64Xsh32,
    each: u32,
    share: bool,
) -> Result<(), AllocError> {
    for kind in 0..6 {
        let from = words.next_word() % 9;
        for next in 0..each {
            let own = FIRST_ATOM_VAR + 4 * kind + next % 4;
            let drawn = words.next_word() % FIRST_ATOM_VAR;
            let var = if share && drawn < 4 { drawn + 1 } else { own };
            ask(draft, words, var, kind, from)?;
        }
    }
    Ok(())
}

/// The generated grid of 9 nodes.
fn grid(alloc: Global, seed: u64) -> Result<Problem, Fail> {
    let text = generate(alloc, GenKind::Grid, 3, seed)?;
    let problem = read_gnf(alloc, text.as_slice())?;
    Ok(problem)
}

/// A graph of 9 nodes.
fn nine_nodes(alloc: Global) -> Result<Draft, AllocError> {
    let mut draft = Draft::new(alloc);
    draft.add_graph(0, 9)?;
    Ok(draft)
}

/// Adds the edges of the grid, and drawn predicates.
fn fill(
    draft: &mut Draft,
    words: &mut Lcg64Xsh32,
    grid: &Problem,
    each: u32,
    share: bool,
) -> Result<(), AllocError> {
    if grid.graph_count() > 0 {
        connect_all(draft, words, grid.graph(0), share)?;
    }
    ask_all(draft, words, each, share)?;
    Ok(())
}

/// The graph of the grid with drawn predicates.
fn drawn_over(
    alloc: Global,
    words: &mut Lcg64Xsh32,
    grid: &Problem,
    each: u32,
    share: bool,
) -> Result<Problem, AllocError> {
    let mut draft = nine_nodes(alloc)?;
    fill(&mut draft, words, grid, each, share)?;
    let problem = draft.finish()?;
    Ok(problem)
}

/// The graph of the generated grid of 9 nodes at this seed, with so many drawn predicates of each kind. Where `share` is
/// true, edges share variables.
pub fn drawn_problem(
    alloc: Global,
    seed: u64,
    words: &mut Lcg64Xsh32,
    each: u32,
    share: bool,
) -> Result<Problem, Fail> {
    let board = grid(alloc, seed)?;
    let problem = drawn_over(alloc, words, &board, each, share)?;
    Ok(problem)
}
