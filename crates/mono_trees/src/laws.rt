//! What a search decides.

ghost use Rattle.std.specs.Prelude.{◌↔◌, ◌<◌, ℕ, ℤ, All, Bool, List, Vec, IsTrue, length};
ghost use Rattle.std.specs.declared.alloc.Global.{Global};
ghost use Rattle.mono_graph.specs.Digraph.{Digraph};
ghost use Rattle.mono_graph.specs.Trees.{is_tree};
ghost use Rattle.mono_trees.specs.Found.{Passes, IsKnown, is_tree_found};

use crate::TreeFound;

/// What a search found decides whether a spanning tree is within the bound: it is a tree exactly where there is one.
pub fn found_tree_decides()
    ensures { (g : Digraph) (P : List Bool) (most : ℤ) (found : TreeFound) → Passes g P most found → IsTrue (is_tree_found found)
        ↔ ((tree : List ℕ) × IsTrue (is_tree g P most tree)) }
{}

/// The places and nodes of what was found are the graph's, so that it can be tested.
pub fn found_tree_is_known()
    ensures tree { (g : Digraph) (edges : Vec ℕ Global) → IsKnown g (TreeFound.Tree edges) → All (λ k. k < length g.edges) edges.items }
    ensures split { (g : Digraph) (nodes : Vec ℕ Global) → IsKnown g (TreeFound.Split nodes) → All (λ u. u < g.nodes) nodes.items }
    ensures least { (g : Digraph) (edges : Vec ℕ Global) → IsKnown g (TreeFound.Least edges) → All (λ k. k < length g.edges) edges.items }
{}
