ghost use Rattle.std.specs.Prelude.{◌≡◌, length};

use super::{assert_same, first_graph};
use mono_gnf::read_gnf;
use mono_graph::{Graph, Part};
use mono_trees::{TreeFound, find_tree, is_least, is_split, is_tree};
use std::alloc::Global;
use std::process::Abort;
use std::test::Fail;

/// A triangle of the nodes 0, 1 and 2, an edge from 2 to 3, and one from 3 to itself.
const KITE: &[u8] = b"digraph int 4 5 0\n\
edge 0 0 1 1 2\n\
edge 0 2 1 2 3\n\
edge 0 2 0 3 4\n\
edge 0 2 3 4 1\n\
edge 0 3 3 5 0\n";

/// What is found is a tree of these edges.
fn assert_tree(rt: &impl Abort, found: &TreeFound, tree: &[u32]) {
    let edges = match found {
        TreeFound::Tree(edges) => Some(edges.as_slice()),
        TreeFound::Split(_) | TreeFound::Least(_) => None,
    };
    assert_same(rt, edges, Some(tree));
}

/// What is found is a lightest tree of so many edges.
fn assert_lightest(rt: &impl Abort, found: &TreeFound, count: usize) {
    let edges = match found {
        TreeFound::Least(edges) => Some(edges.len()),
        TreeFound::Tree(_) | TreeFound::Split(_) => None,
    };
    assert_same(rt, edges, Some(count));
}

/// What is found of a bound, over all edges.
fn found_of(alloc: Global, graph: &Graph, most: i64) -> Result<TreeFound, Fail>
    requires { length graph.now.edges ≡ 5 }
{
    let part = Part::all(alloc, 5)?;
    let found = find_tree(alloc, graph, &part, most)?;
    Ok(found)
}

/// What is found in the kite with all edges present.
fn found_in_kite(rt: &impl Abort, alloc: Global, most: i64) -> Result<TreeFound, Fail> {
    let problem = read_gnf(alloc, KITE)?;
    found_of(alloc, first_graph(rt, &problem, 4, 5), most)
}

#[test]
fn tree_within_the_bound(rt: HostRuntime) -> Result<(), Fail> {
    let found = found_in_kite(&rt, rt.alloc(), 6)?;
    assert_tree(&rt, &found, &[3, 0, 1]);
    Ok(())
}

#[test]
fn lightest_tree_above_the_bound(rt: HostRuntime) -> Result<(), Fail> {
    let found = found_in_kite(&rt, rt.alloc(), 5)?;
    assert_lightest(&rt, &found, 3);
    Ok(())
}

/// The empty list is the tree of a graph of one node.
fn assert_empty_tree(rt: &impl Abort, alloc: Global, graph: &Graph) -> Result<(), Fail>
    requires nodes { graph.now.nodes ≡ 1 }
    requires edges { length graph.now.edges ≡ 0 }
{
    let part = Part::none(alloc, 0)?;
    let found = find_tree(alloc, graph, &part, 0)?;
    assert_tree(rt, &found, &[]);
    assert!(rt; !is_tree(alloc, graph, &part, -1, &[])?);
    assert!(rt; is_least(alloc, graph, &part, -1, &[])?);
    assert!(rt; !is_split(alloc, graph, &part, &[0])?);
    Ok(())
}

#[test]
fn one_node_has_the_empty_tree(rt: HostRuntime) -> Result<(), Fail> {
    let graph = Graph::new(rt.alloc(), 1)?;
    assert_empty_tree(&rt, rt.alloc(), &graph)
}
