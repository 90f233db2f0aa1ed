ghost use Rattle.std.specs.Prelude.{◌≡◌, ◌≤◌, IfOk, [], ◌∷◌, length};
ghost use Rattle.mono_graph.specs.Worked.{edge_of};

use super::{assert_count, assert_same, assert_same_at};
use mono_base::Buckets;
use mono_graph::{Edge, EdgeRefusal, Graph, Part, mark, unmark};
use std::alloc::Global;
use std::process::Abort;
use std::test::Fail;

/// Three nodes and three edges, whose numbers have gaps.
fn star(alloc: Global) -> Result<Graph, EdgeRefusal>
    ensures nodes { IfOk result (λ g. g.nodes ≡ 3) }
    ensures edges { IfOk result (λ g. length g.edges ≡ 3) }
{
    let mut graph = match Graph::new(alloc, 3) {
        Ok(graph) => graph,
        Err(_) => return Err(EdgeRefusal::Memory),
    };
    graph.add_edge(Edge {
        number: 2,
        from: 0,
        to: 1,
        var: 9,
        weight: 5,
    })?;
    graph.add_edge(Edge {
        number: 5,
        from: 0,
        to: 2,
        var: 9,
        weight: 18446744073709551615,
    })?;
    graph.add_edge(Edge {
        number: 9,
        from: 2,
        to: 0,
        var: 1,
        weight: 0,
    })?;
    Ok(graph)
}

fn assert_nodes(rt: &impl Abort, graph: &Graph) {
    assert_count(rt, graph.nodes(), 3);
    assert_same(rt, graph.edge_count(), 3);
    assert_same(rt, graph.leaving(0), [0, 1].as_slice());
    assert_same(rt, graph.entering(0), [2].as_slice());
    assert_same(rt, graph.leaving(1).len(), 0);
    assert_same(rt, graph.entering(2), [1].as_slice());
}

#[test]
fn edges_at_the_nodes(rt: HostRuntime) -> Result<(), Fail> {
    let graph = star(rt.alloc())?;
    assert_nodes(&rt, &graph);
    Ok(())
}

fn assert_places(rt: &impl Abort, graph: &Graph) {
    for (number, want) in [
        (1, None),
        (2, Some(0)),
        (5, Some(1)),
        (8, None),
        (9, Some(2)),
        (10, None),
    ] {
        assert_same_at(rt, &number, graph.place(number), want);
    }
}

fn assert_edges(rt: &impl Abort, graph: &Graph)
    requires { length graph.now.edges ≡ 3 }
{
    assert_same(rt, graph.edge(1).weight, 18446744073709551615);
    assert_same(rt, graph.edge(2).from, 2);
    assert_same(rt, graph.weight_of(&[0, 1, 1]), 36893488147419103235);
}

#[test]
fn edges_by_place_and_number(rt: HostRuntime) -> Result<(), Fail> {
    let graph = star(rt.alloc())?;
    assert_edges(&rt, &graph);
    assert_places(&rt, &graph);
    Ok(())
}

/// An edge with the variable 1.
fn joining(number: u32, from: u32, to: u32) -> Edge
    ensures { result ≡ edge_of number from to 1 7 }
{
    Edge {
        number,
        from,
        to,
        var: 1,
        weight: 7,
    }
}

/// Two nodes, and an edge that joins them.
fn joined(alloc: Global, number: u32, from: u32, to: u32) -> Result<Graph, EdgeRefusal>
    requires { 1 ≤ number }
    ensures nodes { IfOk result (λ g. g.nodes ≡ 2) }
    ensures edges { IfOk result (λ g. g.edges ≡ edge_of number from to 1 7 ∷ []) }
{
    let mut graph = match Graph::new(alloc, 2) {
        Ok(graph) => graph,
        Err(_) => return Err(EdgeRefusal::Memory),
    };
    graph.add_edge(joining(number, from, to))?;
    Ok(graph)
}

/// An edge from or to a node 2 is refused, and the graph stays.
fn assert_refused(rt: &impl Abort, graph: &mut Graph)
    requires nodes { graph.old.nodes ≡ 2 }
    requires edges { graph.old.edges ≡ edge_of 1 1 0 1 7 ∷ [] }
{
    let from = graph.add_edge(joining(2, 2, 0));
    assert_same(rt, from, Err(EdgeRefusal::NodeOutOfRange));
    let to = graph.add_edge(joining(2, 0, 2));
    assert_same(rt, to, Err(EdgeRefusal::NodeOutOfRange));
    assert_same(rt, graph.edge_count(), 1);
    assert_same(rt, graph.leaving(0).len(), 0);
    assert_same(rt, graph.leaving(1), [0].as_slice());
}

#[test]
fn refused_edge_leaves_the_graph(rt: HostRuntime) -> Result<(), Fail> {
    let mut graph = joined(rt.alloc(), 1, 1, 0)?;
    assert_refused(&rt, &mut graph);
    Ok(())
}

/// A graph's next edge is none of the copy that was made before.
fn assert_apart(rt: &impl Abort, graph: &mut Graph, copy: &Graph) -> Result<(), Fail>
    requires graph { graph.old.edges ≡ edge_of 4 0 1 1 7 ∷ [] }
    requires copy { length copy.now.edges ≡ 1 }
{
    graph.add_edge(joining(5, 0, 1))?;
    assert_same(rt, copy.edge_count(), 1);
    assert_same(rt, copy.edge(0).number, 4);
    assert_same(rt, copy.leaving(0), [0].as_slice());
    assert_same(rt, graph.leaving(0), [0, 1].as_slice());
    Ok(())
}

/// A copy of the graph is equal to it, and stays so.
fn assert_copied(rt: &impl Abort, graph: &mut Graph) -> Result<(), Fail>
    requires { graph.old.edges ≡ edge_of 4 0 1 1 7 ∷ [] }
{
    let copy = graph.copy()?;
    assert_apart(rt, graph, &copy)
}

#[test]
fn copy_is_equal_and_apart(rt: HostRuntime) -> Result<(), Fail> {
    let mut graph = joined(rt.alloc(), 4, 0, 1)?;
    assert_copied(&rt, &mut graph)
}

#[test]
fn part_is_a_set(rt: HostRuntime) -> Result<(), Fail> {
    let mut part = Part::none(rt.alloc(), 3)?;
    assert!(rt; !part.has(0));
    part.put(1);
    part.put(1);
    assert!(rt; part.has(1));
    assert!(rt; !part.has(2));
    part.take(1);
    assert!(rt; !part.has(1));
    let mut whole = Part::all(rt.alloc(), 2)?;
    whole.take(0);
    assert!(rt; !whole.has(0));
    assert!(rt; whole.has(1));
    Ok(())
}

#[test]
fn lists_by_key(rt: HostRuntime) -> Result<(), Fail> {
    let mut lists = Buckets::new(rt.alloc(), 2)?;
    lists.push(1, 'a')?;
    lists.push(1, 'b')?;
    lists.push(0, 'c')?;
    assert_same(&rt, lists.list(1), ['a', 'b'].as_slice());
    lists.pop(1);
    assert_same(&rt, lists.list(1), ['a'].as_slice());
    assert_same(&rt, lists.copy()?.list(0), ['c'].as_slice());
    Ok(())
}

#[test]
fn marks_of_a_list(rt: HostRuntime) -> Result<(), Fail> {
    let mut marks = vec![in rt.alloc(); false; 4]?;
    mark(&mut marks, &[2, 0, 2]);
    assert_same(&rt, marks.as_slice(), [true, false, true, false].as_slice());
    unmark(&mut marks, &[2, 0, 2]);
    assert_same(
        &rt,
        marks.as_slice(),
        [false, false, false, false].as_slice(),
    );
    Ok(())
}
