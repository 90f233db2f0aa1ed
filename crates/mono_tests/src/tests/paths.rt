ghost use Rattle.std.specs.Prelude.{◌≡◌, length};

use super::{assert_same, first_graph};
use mono_gnf::read_gnf;
use mono_graph::{Graph, Part};
use mono_paths::{
    Label, Limit, PathOrCut, PathOrLabels, find_light, find_path, is_cut, is_labelling, is_path,
};
use std::alloc::Global;
use std::process::Abort;
use std::test::Fail;

/// Node 0 has an edge to itself, and two lead from there to node 1. Between nodes 1 and 2 edges of weight 0 lead there and
/// back. Nothing leads to node 3.
const SMALL: &[u8] = b"digraph int 4 6 0\n\
edge 0 0 0 1 5\n\
edge 0 0 1 2 3\n\
edge 0 0 1 3 2\n\
edge 0 1 2 4 0\n\
edge 0 2 1 5 0\n\
edge 0 3 0 6 1\n";

/// Walks may go round, and by the heavier of two parallel edges.
fn assert_walks(rt: &impl Abort, alloc: Global, graph: &Graph) -> Result<(), Fail>
    requires nodes { graph.now.nodes ≡ 4 }
    requires edges { length graph.now.edges ≡ 6 }
{
    let part = Part::all(alloc, 6)?;
    // Twice round the self-loop, and then by the lighter of the parallel edges.
    assert!(rt; is_path(graph, &part, 0, 1, Limit::Weight(12), &[0, 0, 2]));
    assert!(rt; !is_path(graph, &part, 0, 1, Limit::Weight(12), &[0, 0, 1]));
    Ok(())
}

#[test]
fn walks_within_limits(rt: HostRuntime) -> Result<(), Fail> {
    let problem = read_gnf(rt.alloc(), SMALL)?;
    assert_walks(&rt, rt.alloc(), first_graph(&rt, &problem, 4, 6))
}

/// What is found is a walk by these edges.
fn assert_path(rt: &impl Abort, found: &PathOrCut, walk: &[u32]) {
    let edges = match found {
        PathOrCut::Path(edges) => Some(edges.as_slice()),
        PathOrCut::Cut(_) => None,
    };
    assert_same(rt, edges, Some(walk));
}

/// What is found is a cut round these nodes.
fn assert_cut(rt: &impl Abort, found: &PathOrCut, inside: &[u32]) {
    let nodes = match found {
        PathOrCut::Path(_) => None,
        PathOrCut::Cut(nodes) => Some(nodes.as_slice()),
    };
    assert_same(rt, nodes, Some(inside));
}

fn assert_walk_or_cut(rt: &impl Abort, alloc: Global, graph: &Graph) -> Result<(), Fail>
    requires nodes { graph.now.nodes ≡ 4 }
    requires edges { length graph.now.edges ≡ 6 }
{
    let part = Part::all(alloc, 6)?;
    let walk = find_path(alloc, graph, &part, 3, 2)?;
    assert_path(rt, &walk, &[5, 1, 3]);
    // Nothing leads to node 3.
    let cut = find_path(alloc, graph, &part, 1, 3)?;
    assert_cut(rt, &cut, &[1, 2]);
    Ok(())
}

#[test]
fn walk_or_cut(rt: HostRuntime) -> Result<(), Fail> {
    let problem = read_gnf(rt.alloc(), SMALL)?;
    assert_walk_or_cut(&rt, rt.alloc(), first_graph(&rt, &problem, 4, 6))
}

/// What is found is a walk by these edges.
fn assert_light(rt: &impl Abort, found: &PathOrLabels, walk: &[u32]) {
    let edges = match found {
        PathOrLabels::Path(edges) => Some(edges.as_slice()),
        PathOrLabels::Labels(_) => None,
    };
    assert_same(rt, edges, Some(walk));
}

/// What is found are so many labels.
fn assert_labels(rt: &impl Abort, found: &PathOrLabels, count: usize) {
    let labels = match found {
        PathOrLabels::Path(_) => None,
        PathOrLabels::Labels(labels) => Some(labels.len()),
    };
    assert_same(rt, labels, Some(count));
}

fn assert_walk_or_labels(rt: &impl Abort, alloc: Global, graph: &Graph) -> Result<(), Fail>
    requires nodes { graph.now.nodes ≡ 4 }
    requires edges { length graph.now.edges ≡ 6 }
{
    let part = Part::all(alloc, 6)?;
    let walk = find_light(alloc, graph, &part, 0, 2, Limit::Weight(2))?;
    assert_light(rt, &walk, &[2, 3]);
    let labels = find_light(alloc, graph, &part, 0, 2, Limit::Weight(1))?;
    assert_labels(rt, &labels, 1);
    Ok(())
}

#[test]
fn walk_or_labels(rt: HostRuntime) -> Result<(), Fail> {
    let problem = read_gnf(rt.alloc(), SMALL)?;
    assert_walk_or_labels(&rt, rt.alloc(), first_graph(&rt, &problem, 4, 6))
}

fn assert_answers(rt: &impl Abort, alloc: Global, graph: &Graph) -> Result<(), Fail>
    requires nodes { graph.now.nodes ≡ 4 }
    requires edges { length graph.now.edges ≡ 6 }
{
    let part = Part::all(alloc, 6)?;
    let labels = [Label { node: 0, value: 0 }];
    assert!(rt; is_labelling(alloc, graph, &part, 0, 1, Limit::Weight(1), &labels)?);
    assert!(rt; is_cut(alloc, graph, &part, 0, 3, &[2, 0, 1, 0])?);
    Ok(())
}

#[test]
fn tests_answer(rt: HostRuntime) -> Result<(), Fail> {
    let problem = read_gnf(rt.alloc(), SMALL)?;
    assert_answers(&rt, rt.alloc(), first_graph(&rt, &problem, 4, 6))
}
