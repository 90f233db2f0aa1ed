//! Worked rows: what the words of this crate's contracts make of small graphs.
//!
//! What spanning trees, splits and least trees are is pinned by rows of the graph crate.

ghost use Rattle.std.specs.Prelude.{◌≡◌, ◌∷◌, [], pos, true, false, ℕ, Vec};
ghost use Rattle.std.specs.declared.alloc.Global.{Global};
ghost use Rattle.mono_graph.specs.Worked.{pipe, triangle, both, first_alone, all_three};
ghost use Rattle.mono_trees.specs.Found.{Passes, IsKnown, is_tree_found};

use crate::TreeFound;

/// What was found passes where it is a tree of present edges within the bound, a split, or a least tree above the bound.
pub fn found_passes()
    ensures tree { (edges : Vec ℕ Global) → edges.items ≡ 0 ∷ 1 ∷ [] → Passes (triangle 1 2 4) all_three (pos 3) (TreeFound.Tree edges) }
    ensures too_heavy { (edges : Vec ℕ Global) → edges.items ≡ 0 ∷ 1 ∷ [] → Passes (triangle 1 2 4) all_three (pos 2) (TreeFound.Tree edges) → ⊥ }
    ensures split { (nodes : Vec ℕ Global) → nodes.items ≡ 2 ∷ [] → Passes (pipe 1 1) first_alone (pos 9) (TreeFound.Split nodes) }
    ensures joined { (nodes : Vec ℕ Global) → nodes.items ≡ 2 ∷ [] → Passes (pipe 1 1) both (pos 9) (TreeFound.Split nodes) → ⊥ }
    ensures least { (edges : Vec ℕ Global) → edges.items ≡ 0 ∷ 1 ∷ [] → Passes (triangle 1 2 4) all_three (pos 2) (TreeFound.Least edges) }
    ensures not_heavier { (edges : Vec ℕ Global) → edges.items ≡ 0 ∷ 1 ∷ [] → Passes (triangle 1 2 4) all_three (pos 3) (TreeFound.Least edges) → ⊥ }
{}

/// What was found names places of edges and nodes of the graph.
pub fn found_is_known()
    ensures last_edge { (edges : Vec ℕ Global) → edges.items ≡ 1 ∷ [] → IsKnown (pipe 1 1) (TreeFound.Tree edges) }
    ensures no_edge { (edges : Vec ℕ Global) → edges.items ≡ 2 ∷ [] → IsKnown (pipe 1 1) (TreeFound.Tree edges) → ⊥ }
    ensures last_node { (nodes : Vec ℕ Global) → nodes.items ≡ 2 ∷ [] → IsKnown (pipe 1 1) (TreeFound.Split nodes) }
    ensures no_node { (nodes : Vec ℕ Global) → nodes.items ≡ 3 ∷ [] → IsKnown (pipe 1 1) (TreeFound.Split nodes) → ⊥ }
    ensures last_of_least { (edges : Vec ℕ Global) → edges.items ≡ 1 ∷ [] → IsKnown (pipe 1 1) (TreeFound.Least edges) }
    ensures none_of_least { (edges : Vec ℕ Global) → edges.items ≡ 2 ∷ [] → IsKnown (pipe 1 1) (TreeFound.Least edges) → ⊥ }
{}

/// A found tree is told from what shows that there is none.
pub fn found_is_one_of_three()
    ensures tree { (edges : Vec ℕ Global) → is_tree_found (TreeFound.Tree edges) ≡ true }
    ensures split { (nodes : Vec ℕ Global) → is_tree_found (TreeFound.Split nodes) ≡ false }
    ensures least { (edges : Vec ℕ Global) → is_tree_found (TreeFound.Least edges) ≡ false }
{}
