//! Worked rows: what searches say of the flows, sets, labels and trees that they find.

ghost use Rattle.std.specs.Prelude.{◌≡◌, [], ◌∷◌, true, false, pos, negsuc, ℕ, Vec};
ghost use Rattle.std.specs.declared.alloc.Global.{Global};
ghost use Rattle.mono_flows.specs.Answers.{HasValue, IsCarrying, IsExact, IsFlowOfValue, IsKnown};
ghost use Rattle.mono_flows.specs.declared.found.FlowOrCut.TheVariants as flow;
ghost use Rattle.mono_graph.specs.declared.amount.Amount.{Amount};
ghost use Rattle.mono_graph.specs.declared.label.Label.{Label};
ghost use Rattle.mono_graph.specs.declared.limit.Limit.TheVariants as limit;
ghost use Rattle.mono_graph.specs.Worked.{amount, label, parallel, pipe, round_trip, triangle, both, first_alone, last_alone};
ghost use Rattle.mono_paths.specs.Asked.{AreAnswers};
ghost use Rattle.mono_paths.specs.Found.{HasReachedLabels, IsReachedSet};
ghost use Rattle.mono_paths.specs.declared.find.PathOrCut.TheVariants as any;
ghost use Rattle.mono_paths.specs.declared.find.PathOrLabels.TheVariants as light;
ghost use Rattle.mono_paths.specs.declared.measure.Measure.TheVariants as measure;
ghost use Rattle.mono_trees.specs.Found.{HasPresentEdges, IsInOrder};
ghost use Rattle.mono_trees.specs.Unbridged.{AreUnbridged, IsUnbridged};
ghost use Rattle.mono_trees.specs.declared.finder.TreeFound.TheVariants as tree;

/// The nodes of a cut are those that walks reach, each once. No walk reaches node 2 here.
pub fn cut_of_reached_nodes()
    ensures reached { (nodes : Vec ℕ Global) → nodes.items ≡ 1 ∷ 0 ∷ [] → IsReachedSet (pipe 1 1) first_alone 0 (any.Cut nodes) }
    ensures twice { (nodes : Vec ℕ Global) → nodes.items ≡ 0 ∷ 0 ∷ [] → IsReachedSet (pipe 1 1) first_alone 0 (any.Cut nodes) → ⊥ }
    ensures not_reached { (nodes : Vec ℕ Global) → nodes.items ≡ 0 ∷ 2 ∷ [] → IsReachedSet (pipe 1 1) first_alone 0 (any.Cut nodes) → ⊥ }
{}

/// A label is within the bound, and some walk costs no more. Here the two edges to node 2 weigh 3 and 2.
pub fn labels_of_reached_nodes()
    ensures weight { (labels : Vec Label Global) → labels.items ≡ label 2 5 ∷ []
        → HasReachedLabels (pipe 3 2) both 0 (limit.Weight (pos 5)) (light.Labels labels) }
    ensures steps { (labels : Vec Label Global) → labels.items ≡ label 2 2 ∷ []
        → HasReachedLabels (pipe 3 2) both 0 (limit.Steps (pos 5)) (light.Labels labels) }
    ensures too_few { (labels : Vec Label Global) → labels.items ≡ label 2 1 ∷ []
        → HasReachedLabels (pipe 3 2) both 0 (limit.Steps (pos 5)) (light.Labels labels) → ⊥ }
    ensures too_low { (labels : Vec Label Global) → labels.items ≡ label 2 4 ∷ []
        → HasReachedLabels (pipe 3 2) both 0 (limit.Weight (pos 5)) (light.Labels labels) → ⊥ }
    ensures above_the_bound { (labels : Vec Label Global) → labels.items ≡ label 2 5 ∷ []
        → HasReachedLabels (pipe 3 2) both 0 (limit.Weight (pos 4)) (light.Labels labels) → ⊥ }
{}

/// The edges of a tree are present, also those of a least one.
pub fn trees_of_present_edges()
    ensures tree { (edges : Vec ℕ Global) → edges.items ≡ 0 ∷ [] → HasPresentEdges first_alone (tree.Tree edges) }
    ensures absent { (edges : Vec ℕ Global) → edges.items ≡ 0 ∷ 1 ∷ [] → HasPresentEdges first_alone (tree.Tree edges) → ⊥ }
    ensures least { (edges : Vec ℕ Global) → edges.items ≡ 0 ∷ [] → HasPresentEdges first_alone (tree.Least edges) }
    ensures absent_in_least { (edges : Vec ℕ Global) → edges.items ≡ 0 ∷ 1 ∷ [] → HasPresentEdges first_alone (tree.Least edges) → ⊥ }
{}

/// Each clause on what a search finds speaks of one kind of it, and says nothing of the others.
pub fn clauses_on_another_kind()
    ensures no_tree { (nodes : Vec ℕ Global) → HasPresentEdges first_alone (tree.Split nodes) }
    ensures no_split { (edges : Vec ℕ Global) → IsInOrder (pipe 1 1) (tree.Tree edges) }
    ensures no_split_either { (edges : Vec ℕ Global) → IsInOrder (pipe 1 1) (tree.Least edges) }
    ensures no_cut { (edges : Vec ℕ Global) → IsReachedSet (pipe 1 1) first_alone 0 (any.Path edges) }
    ensures no_labels { (edges : Vec ℕ Global) → HasReachedLabels (pipe 1 1) both 0 (limit.Steps (pos 5)) (light.Path edges) }
{}

/// There is an answer for each target, and no other.
pub fn answers_for_targets()
    ensures none { AreAnswers (pipe 1 1) both measure.Steps 0 [] [] }
    ensures one_left_out { AreAnswers (pipe 1 1) both measure.Steps 0 (record { node = 1; most = negsuc 0 } ∷ []) [] → ⊥ }
    ensures one_too_many { AreAnswers (pipe 1 1) both measure.Steps 0 [] (true ∷ []) → ⊥ }
{}

/// Each answer is about its own target, within that target's bound, and about walks of present edges from the node that is named. Of
/// the triangle's edges the one from node 1 to node 2 weighs 2, and the one from there to node 0 is absent.
pub fn answers_within_bounds()
    ensures by_weight { AreAnswers (triangle 4 2 1) (true ∷ true ∷ false ∷ []) measure.Weight 1
        (record { node = 2; most = pos 2 } ∷ record { node = 2; most = pos 1 } ∷ record { node = 0; most = pos 5 } ∷ []) (true ∷ false ∷ false ∷ []) }
    ensures last_wrong { AreAnswers (pipe 1 1) both measure.Steps 0 (record { node = 1; most = pos 1 } ∷ record { node = 2; most = pos 2 } ∷ [])
        (true ∷ false ∷ []) → ⊥ }
    ensures absent_edge { AreAnswers (pipe 1 1) first_alone measure.Free 0 (record { node = 2; most = pos 5 } ∷ []) (true ∷ []) → ⊥ }
{}

/// What is found begins at the node that is named, which needn't be node 0.
pub fn found_from_another_node()
    ensures cut { (nodes : Vec ℕ Global) → nodes.items ≡ 2 ∷ 1 ∷ [] → IsReachedSet (pipe 1 1) last_alone 1 (any.Cut nodes) }
    ensures labels { (labels : Vec Label Global) → labels.items ≡ label 2 2 ∷ []
        → HasReachedLabels (pipe 3 2) both 1 (limit.Weight (pos 5)) (light.Labels labels) }
    ensures exact { (amounts : Vec Amount Global) → amounts.items ≡ amount 1 2 ∷ [] → IsExact (round_trip 2 3) 1 (pos 2) (flow.Flow amounts) }
    ensures value { (amounts : Vec Amount Global) → amounts.items ≡ amount 1 2 ∷ [] → HasValue (round_trip 2 3) both 1 2 (flow.Flow amounts) }
    ensures flow { IsFlowOfValue (round_trip 2 3) both 1 0 2 (amount 1 2 ∷ []) }
{}

/// An absent edge is unbridged where the tree has no way between its ends by edges no heavier. All such edges are listed, and
/// no others.
pub fn unbridged_edges()
    ensures lightest { AreUnbridged (triangle 4 2 1) (true ∷ true ∷ false ∷ []) (0 ∷ 1 ∷ []) (2 ∷ []) }
    ensures left_out { AreUnbridged (triangle 4 2 1) (true ∷ true ∷ false ∷ []) (0 ∷ 1 ∷ []) [] → ⊥ }
    ensures listed_too { AreUnbridged (triangle 4 2 1) (true ∷ true ∷ false ∷ []) (0 ∷ 1 ∷ []) (2 ∷ 0 ∷ []) → ⊥ }
    ensures heaviest { IsUnbridged (triangle 1 2 4) (true ∷ true ∷ false ∷ []) (0 ∷ 1 ∷ []) 2 → ⊥ }
    ensures as_heavy { IsUnbridged (triangle 1 2 2) (true ∷ true ∷ false ∷ []) (0 ∷ 1 ∷ []) 2 → ⊥ }
    ensures present { IsUnbridged (triangle 4 2 1) (true ∷ true ∷ false ∷ []) (0 ∷ []) 1 → ⊥ }
{}

/// The nodes of a split rise, so each is there once.
pub fn splits_in_order()
    ensures rising { (nodes : Vec ℕ Global) → nodes.items ≡ 0 ∷ 2 ∷ [] → IsInOrder (pipe 1 1) (tree.Split nodes) }
    ensures falling { (nodes : Vec ℕ Global) → nodes.items ≡ 2 ∷ 0 ∷ [] → IsInOrder (pipe 1 1) (tree.Split nodes) → ⊥ }
    ensures twice { (nodes : Vec ℕ Global) → nodes.items ≡ 0 ∷ 0 ∷ [] → IsInOrder (pipe 1 1) (tree.Split nodes) → ⊥ }
{}

/// What is found has the value of the flow, or what the present edges that leave the cut weigh.
pub fn values_of_what_is_found()
    ensures flow { (amounts : Vec Amount Global) → amounts.items ≡ amount 0 1 ∷ amount 1 4 ∷ [] → HasValue (parallel 1 4) both 0 5 (flow.Flow amounts) }
    ensures less { (amounts : Vec Amount Global) → amounts.items ≡ amount 0 1 ∷ amount 1 4 ∷ [] → HasValue (parallel 1 4) both 0 4 (flow.Flow amounts) → ⊥ }
    ensures cut { (nodes : Vec ℕ Global) → nodes.items ≡ 0 ∷ [] → HasValue (parallel 1 4) first_alone 0 1 (flow.Cut nodes) }
    ensures absent_edge { (nodes : Vec ℕ Global) → nodes.items ≡ 0 ∷ [] → HasValue (parallel 1 4) first_alone 0 5 (flow.Cut nodes) → ⊥ }
{}

/// A flow names places of edges, and a cut nodes, here of two edges and three nodes.
pub fn names_of_what_is_found()
    ensures last_edge { (amounts : Vec Amount Global) → amounts.items ≡ amount 1 1 ∷ [] → IsKnown (pipe 1 1) (flow.Flow amounts) }
    ensures no_edge { (amounts : Vec Amount Global) → amounts.items ≡ amount 2 1 ∷ [] → IsKnown (pipe 1 1) (flow.Flow amounts) → ⊥ }
    ensures last_node { (nodes : Vec ℕ Global) → nodes.items ≡ 2 ∷ [] → IsKnown (pipe 1 1) (flow.Cut nodes) }
    ensures no_node { (nodes : Vec ℕ Global) → nodes.items ≡ 3 ∷ [] → IsKnown (pipe 1 1) (flow.Cut nodes) → ⊥ }
{}

/// Each edge that a flow lists carries something.
pub fn flows_that_carry()
    ensures something { (amounts : Vec Amount Global) → amounts.items ≡ amount 1 1 ∷ [] → IsCarrying (flow.Flow amounts) }
    ensures nothing_last { (amounts : Vec Amount Global) → amounts.items ≡ amount 0 1 ∷ amount 1 0 ∷ [] → IsCarrying (flow.Flow amounts) → ⊥ }
    ensures no_flow { (nodes : Vec ℕ Global) → IsCarrying (flow.Cut nodes) }
{}

/// A flow has exactly its value, and is within the weights of the edges.
pub fn flows_of_a_value()
    ensures exact { IsFlowOfValue (parallel 1 4) both 0 1 5 (amount 0 1 ∷ amount 1 4 ∷ []) }
    ensures less { IsFlowOfValue (parallel 1 4) both 0 1 4 (amount 0 1 ∷ amount 1 4 ∷ []) → ⊥ }
    ensures too_much { IsFlowOfValue (parallel 1 4) both 0 1 6 (amount 0 2 ∷ amount 1 4 ∷ []) → ⊥ }
{}
