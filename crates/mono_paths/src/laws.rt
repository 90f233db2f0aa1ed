//! What was found decides whether there is a walk, and what isn't listed is never tense.

ghost use Rattle.std.specs.Prelude.{◌≡◌, ◌≤◌, ◌↔◌, ℕ, Bool, List, IsTrue, false, length};
ghost use Rattle.mono_graph.specs.Digraph.{Digraph, has};
ghost use Rattle.mono_graph.specs.Walks.{is_path, is_tense, label_at, bound_of};
ghost use Rattle.mono_paths.specs.Listed.{nodes_listed};
ghost use Rattle.mono_paths.specs.Found.{IsPathOrCut, IsPathOrLabels, HasBound, is_path_found, is_light_found};
ghost use Rattle.mono_paths.specs.declared.find.PathOrCut.{PathOrCut};
ghost use Rattle.mono_paths.specs.declared.find.PathOrLabels.{PathOrLabels};
ghost use Rattle.mono_graph.specs.declared.limit.Limit.{Limit};
ghost use Rattle.mono_graph.specs.declared.label.Label.{Label};
ghost use Rattle.mono_graph.specs.declared.edge.Edge.{Edge};

/// An edge between two nodes that aren't listed is never tense. So a test of the edges at the listed nodes is a test of
/// the whole graph.
pub fn unlisted_is_calm()
    ensures { (labels : List Label) (limit : Limit) (e : Edge) → has (nodes_listed labels) e.from ≡ false → has (nodes_listed labels) e.to ≡ false
        → is_tense (label_at labels (bound_of limit)) limit e ≡ false }
{}

/// What `find_path` gives is a walk exactly where there is one.
pub fn found_path_decides()
    ensures { (g : Digraph) (P : List Bool) (u v : ℕ) (found : PathOrCut) → IsPathOrCut g P u v found → IsTrue (is_path_found found)
        ↔ ((walk : List ℕ) × IsTrue (is_path g P u v Limit.Free walk)) }
{}

/// What `find_light` gives is a walk exactly where there is one within the limit.
pub fn found_light_decides()
    ensures { (g : Digraph) (P : List Bool) (u v : ℕ) (limit : Limit) (found : PathOrLabels) → HasBound limit → IsPathOrLabels g P u v limit found
        → IsTrue (is_light_found found) ↔ ((walk : List ℕ) × IsTrue (is_path g P u v limit walk)) }
{}
