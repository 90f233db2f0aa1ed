//! Worked rows: graphs that grow up to their limit, and what a list of amounts or of labels names.

ghost use Rattle.std.specs.Prelude.{◌≡◌, [], ◌∷◌};
ghost use Rattle.mono_flows.specs.Listed.{edges_of};
ghost use Rattle.mono_graph.specs.declared.edge.Edge.{Edge};
ghost use Rattle.mono_graph.specs.Digraph.{Digraph, IsGraph, IsNewEdge, with_edge};
ghost use Rattle.mono_graph.specs.Worked.{amount, label};
ghost use Rattle.mono_paths.specs.Listed.{nodes_listed};

/// A graph with an edge that may come next is a graph, also where it has the greatest number of edges then.
pub fn graphs_that_grow()
    ensures grown { (g : Digraph) (e : Edge) → IsGraph g → IsNewEdge g e → IsGraph (with_edge g e) }
{}

/// A list of amounts names its edges, and a list of labels its nodes, in order and as often as they are listed.
pub fn what_lists_name()
    ensures edges { edges_of (amount 3 5 ∷ amount 0 2 ∷ amount 3 1 ∷ []) ≡ 3 ∷ 0 ∷ 3 ∷ [] }
    ensures nodes { nodes_listed (label 2 5 ∷ label 0 1 ∷ label 2 4 ∷ []) ≡ 2 ∷ 0 ∷ 2 ∷ [] }
{}
