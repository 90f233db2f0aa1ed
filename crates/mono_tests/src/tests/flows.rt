ghost use Rattle.std.specs.Prelude.{◌≡◌, ◌+◌, ◌≤ℤ◌, pos, length};

use super::{assert_same, first_graph};
use mono_base::limits::MAX_BOUND;
use mono_flows::{Amount, FlowOrCut, find_flow, is_flow, is_flow_cut};
use mono_gnf::read_gnf;
use mono_graph::{Graph, Part};
use std::alloc::Global;
use std::process::Abort;
use std::test::Fail;

/// From node 0 to node 3 over node 1 or over node 2, which an edge joins. The greatest value is 5.
const SQUARE: &[u8] = b"digraph int 4 5 0\n\
edge 0 0 1 1 3\n\
edge 0 0 2 2 2\n\
edge 0 1 2 3 2\n\
edge 0 1 3 4 2\n\
edge 0 2 3 5 3\n";

/// What is found is a flow through so many edges.
fn assert_flow(rt: &impl Abort, found: &FlowOrCut, count: usize) {
    let edges = match found {
        FlowOrCut::Flow(amounts) => Some(amounts.len()),
        FlowOrCut::Cut(_) => None,
    };
    assert_same(rt, edges, Some(count));
}

/// What is found is a cut round these nodes.
fn assert_cut(rt: &impl Abort, found: &FlowOrCut, inside: &[u32]) {
    let nodes = match found {
        FlowOrCut::Flow(_) => None,
        FlowOrCut::Cut(nodes) => Some(nodes.as_slice()),
    };
    assert_same(rt, nodes, Some(inside));
}

/// What is found of a value from node 0 to node 3, over all edges.
fn found_of(alloc: Global, graph: &Graph, least: i64) -> Result<FlowOrCut, Fail>
    requires nodes { graph.now.nodes ≡ 4 }
    requires edges { length graph.now.edges ≡ 5 }
    requires low { pos 0 ≤ℤ least }
    requires high { least ≤ℤ pos (MAX_BOUND + 1) }
{
    let part = Part::all(alloc, 5)?;
    let found = find_flow(alloc, graph, &part, 0, 3, least)?;
    Ok(found)
}

/// What is found in the square with all edges present.
fn found_in_square(rt: &impl Abort, alloc: Global, least: i64) -> Result<FlowOrCut, Fail>
    requires low { pos 0 ≤ℤ least }
    requires high { least ≤ℤ pos (MAX_BOUND + 1) }
{
    let problem = read_gnf(alloc, SQUARE)?;
    found_of(alloc, first_graph(rt, &problem, 4, 5), least)
}

#[test]
fn flow_of_the_greatest_value(rt: HostRuntime) -> Result<(), Fail> {
    let found = found_in_square(&rt, rt.alloc(), 5)?;
    assert_flow(&rt, &found, 5);
    Ok(())
}

#[test]
fn cut_above_the_greatest_value(rt: HostRuntime) -> Result<(), Fail> {
    let found = found_in_square(&rt, rt.alloc(), 6)?;
    assert_cut(&rt, &found, &[0]);
    Ok(())
}

fn assert_answers(rt: &impl Abort, alloc: Global, graph: &Graph) -> Result<(), Fail>
    requires nodes { graph.now.nodes ≡ 4 }
    requires edges { length graph.now.edges ≡ 5 }
{
    let part = Part::all(alloc, 5)?;
    let amounts = [Amount { edge: 0, amount: 2 }, Amount { edge: 3, amount: 2 }];
    assert!(rt; is_flow(alloc, graph, &part, 0, 3, 2, &amounts)?);
    assert!(rt; is_flow_cut(alloc, graph, &part, 0, 3, 6, &[0])?);
    Ok(())
}

#[test]
fn tests_answer(rt: HostRuntime) -> Result<(), Fail> {
    let problem = read_gnf(rt.alloc(), SQUARE)?;
    assert_answers(&rt, rt.alloc(), first_graph(&rt, &problem, 4, 5))
}
