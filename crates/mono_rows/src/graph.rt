//! Worked rows: what the words of `mono_graph` make of edges from a node to itself, parallel edges, entries that come again
//! and the ends of walks and flows.

ghost use Rattle.std.specs.Prelude.{◌≡◌, ◌+◌, ◌<◌, ◌==◌, true, false, List, [], ◌∷◌, length, pos, negsuc, All};
ghost use Rattle.mono_base.specs.declared.limits.TheConstants.{MAX_EDGES, MAX_VARS, MAX_WEIGHT};
ghost use Rattle.mono_graph.specs.declared.edge.Edge.{Edge};
ghost use Rattle.mono_graph.specs.Digraph.{IsGraph, IsNewEdge, IsRising, IsSubpart, enabled, has, is_distinct, with_edge};
ghost use Rattle.mono_graph.specs.Walks.{cost_along, is_walk, is_path, is_cut, is_labelling};
ghost use Rattle.mono_graph.specs.Flows.{is_flow_of, is_flow_cut};
ghost use Rattle.mono_graph.specs.Trees.{is_tree, is_split, is_least, joins, leads_either, IsRoute};
ghost use Rattle.mono_graph.specs.declared.limit.Limit.TheVariants as limit;
ghost use Rattle.mono_graph.specs.Worked.{all_three, amount, both, edge, edge_of, first_alone, label, last_alone};
ghost use Rattle.mono_graph.specs.Worked.{lone, looped, neither, parallel, pipe, round_trip, single, triangle};
ghost use Rattle.mono_rows.specs.Loops.{loop_first, loop_last, loop_within};

/// A node below the source keeps what flows into it, as one above does.
pub fn flow_from_a_later_source()
    ensures kept { is_flow_of (pipe 5 3) both 1 2 (pos 2) (amount 1 2 ∷ []) ≡ true }
    ensures lost { is_flow_of (pipe 5 3) both 1 2 (pos 1) (amount 0 1 ∷ amount 1 2 ∷ []) ≡ false }
{}

/// The numbers of the edges rise, whatever their variables do.
pub fn rising_numbers()
    ensures variables_fall { IsRising (record { nodes = 2; edges = edge_of 2 0 1 2 0 ∷ edge_of 3 0 1 1 0 ∷ [] }) }
    ensures numbers_fall { IsRising (record { nodes = 2; edges = edge_of 3 0 1 1 0 ∷ edge_of 2 0 1 2 0 ∷ [] }) → ⊥ }
    ensures number_twice { IsRising (record { nodes = 2; edges = edge_of 3 0 1 1 0 ∷ edge_of 3 0 1 2 0 ∷ [] }) → ⊥ }
{}

/// An edge from a node to itself is a walk at its own node alone, where it is present, and counts as any other edge.
pub fn walks_over_loops()
    ensures behind { is_walk (loop_last 5 3) both 0 1 (0 ∷ 1 ∷ []) ≡ true }
    ensures elsewhere { is_walk (loop_last 5 3) both 0 1 (1 ∷ 0 ∷ []) ≡ false }
    ensures away { is_walk (loop_last 5 3) both 0 0 (1 ∷ []) ≡ false }
    ensures absent { is_walk looped (false ∷ []) 0 0 (0 ∷ []) ≡ false }
    ensures one_step { is_path looped (true ∷ []) 0 0 (limit.Steps (pos 1)) (0 ∷ []) ≡ true }
    ensures no_step { is_path looped (true ∷ []) 0 0 (limit.Steps (pos 0)) (0 ∷ []) ≡ false }
    ensures too_heavy { is_path looped (true ∷ []) 0 0 (limit.Weight (pos 4)) (0 ∷ []) ≡ false }
    ensures last_past_the_edges { is_walk (round_trip 2 3) (true ∷ true ∷ true ∷ []) 0 0 (0 ∷ 1 ∷ 2 ∷ []) ≡ false }
{}

/// What edges cost together: their weights, 1 each, or nothing. One that comes again costs again.
pub fn costs_along_edges()
    ensures weights { cost_along (limit.Weight (pos 5)) (triangle 1 2 4) (0 ∷ 2 ∷ 2 ∷ []) ≡ 9 }
    ensures steps { cost_along (limit.Steps (pos 5)) (triangle 1 2 4) (0 ∷ 2 ∷ 2 ∷ []) ≡ 3 }
    ensures free { cost_along limit.Free (triangle 1 2 4) (0 ∷ 2 ∷ 2 ∷ []) ≡ 0 }
{}

/// Labels are looked at along each present edge: one that leaves the end, one to a node that isn't listed, and each of two
/// parallel ones.
pub fn labels_everywhere()
    ensures behind_the_end { is_labelling (pipe 1 1) last_alone 0 1 (limit.Weight (pos 1)) (label 0 0 ∷ label 1 2 ∷ label 2 3 ∷ []) ≡ true }
    ensures raised_behind_the_end { is_labelling (pipe 1 1) last_alone 0 1 (limit.Weight (pos 1)) (label 0 0 ∷ label 1 2 ∷ label 2 4 ∷ []) ≡ false }
    ensures raised_to_unlisted { is_labelling (round_trip 1 3) both 0 1 (limit.Weight (pos 1)) (label 0 0 ∷ []) ≡ false }
    ensures parallel { is_labelling (parallel 4 1) first_alone 0 1 (limit.Weight (pos 3)) (label 0 0 ∷ label 1 4 ∷ []) ≡ true }
    ensures second_of_parallel { is_labelling (parallel 4 1) both 0 1 (limit.Weight (pos 3)) (label 0 0 ∷ label 1 4 ∷ []) ≡ false }
    ensures start_unlisted { is_labelling (pipe 1 1) neither 0 1 (limit.Weight (pos 1)) (label 1 2 ∷ []) ≡ false }
    ensures start_is_end { is_labelling (pipe 1 1) neither 0 0 (limit.Steps (pos 0)) (label 0 0 ∷ []) ≡ false }
    ensures end_twice { is_labelling (pipe 1 1) neither 0 1 (limit.Weight (pos 1)) (label 0 0 ∷ label 1 2 ∷ label 1 3 ∷ []) ≡ false }
{}

/// A cut lacks its end, which isn't its start, and each of two parallel edges leaves it.
pub fn cuts_at_their_ends()
    ensures start_is_end { is_cut (pipe 1 1) neither 0 0 (0 ∷ []) ≡ false }
    ensures source_is_sink { is_flow_cut (pipe 1 1) neither 0 0 (pos 1) (0 ∷ []) ≡ false }
    ensures second_of_parallel { is_cut (parallel 1 1) last_alone 0 1 (0 ∷ []) ≡ false }
    ensures first_of_parallel { is_cut (parallel 1 1) first_alone 0 1 (0 ∷ []) ≡ false }
    ensures loop_within { is_cut (loop_first 1 1) first_alone 0 1 (0 ∷ []) ≡ true }
    ensures loop_weighs_nothing { is_flow_cut (loop_first 5 2) both 0 1 (pos 3) (0 ∷ []) ≡ true }
    ensures below_no_value { is_flow_cut (pipe 1 1) neither 0 1 (negsuc 0) (0 ∷ []) ≡ false }
{}

/// An edge from a node to itself carries at most its weight, where it is present, and its node loses and gains as much.
pub fn flows_over_loops()
    ensures carries { is_flow_of (loop_last 5 3) both 0 1 (pos 1) (amount 0 1 ∷ amount 1 3 ∷ []) ≡ true }
    ensures too_much { is_flow_of (loop_last 5 3) both 0 1 (pos 1) (amount 0 1 ∷ amount 1 4 ∷ []) ≡ false }
    ensures absent { is_flow_of (loop_last 5 3) first_alone 0 1 (pos 1) (amount 0 1 ∷ amount 1 1 ∷ []) ≡ false }
    ensures absent_with_0 { is_flow_of (loop_last 5 3) first_alone 0 1 (pos 1) (amount 0 1 ∷ amount 1 0 ∷ []) ≡ true }
    ensures at_the_source { is_flow_of (loop_first 5 2) both 0 1 (pos 2) (amount 0 5 ∷ amount 1 2 ∷ []) ≡ true }
    ensures adds_no_value { is_flow_of (loop_first 5 2) both 0 1 (pos 3) (amount 0 5 ∷ amount 1 2 ∷ []) ≡ false }
    ensures on_the_way { is_flow_of loop_within all_three 0 2 (pos 2) (amount 0 2 ∷ amount 1 1 ∷ amount 2 2 ∷ []) ≡ true }
    ensures keeps_nothing_back { is_flow_of loop_within all_three 0 2 (pos 2) (amount 0 2 ∷ amount 1 1 ∷ amount 2 1 ∷ []) ≡ false }
{}

/// What flows into a node that no edge leaves is lost there, but for the sink. No edge is listed twice, with 0 neither.
pub fn flows_at_their_ends()
    ensures dead_end { is_flow_of (pipe 1 1) first_alone 0 2 (pos 0) (amount 0 1 ∷ []) ≡ false }
    ensures from_nowhere { is_flow_of (pipe 1 1) both 0 1 (pos 0) (amount 1 1 ∷ []) ≡ false }
    ensures twice_0 { is_flow_of (pipe 1 1) both 0 2 (pos 0) (amount 0 0 ∷ amount 0 0 ∷ []) ≡ false }
    ensures second_differs { is_flow_of (pipe 1 1) both 0 2 (pos 0) (amount 0 0 ∷ amount 0 1 ∷ []) ≡ false }
{}

/// A repeated node of a split counts once. Each of two parallel edges joins, and one from a node to itself doesn't.
pub fn splits_and_trees()
    ensures split_twice { is_split (triangle 1 2 4) (true ∷ false ∷ false ∷ []) (2 ∷ 2 ∷ []) ≡ true }
    ensures all_twice { is_split (pipe 1 1) neither (0 ∷ 1 ∷ 1 ∷ 2 ∷ []) ≡ false }
    ensures second_of_parallel { is_split (parallel 1 1) last_alone (0 ∷ []) ≡ false }
    ensures loop_within { is_split (loop_first 1 1) first_alone (0 ∷ []) ≡ true }
    ensures one_of_parallel { is_tree (parallel 4 1) both (pos 1) (1 ∷ []) ≡ true }
    ensures absent_one { is_tree (parallel 4 1) first_alone (pos 1) (1 ∷ []) ≡ false }
    ensures both_of_them { is_tree (parallel 4 1) both (pos 9) (0 ∷ 1 ∷ []) ≡ false }
    ensures to_itself { is_tree (loop_first 1 1) both (pos 9) (0 ∷ []) ≡ false }
    ensures lighter_parallel { is_least (parallel 4 1) both (pos 3) (0 ∷ []) ≡ false }
    ensures lighter_one_absent { is_least (parallel 4 1) first_alone (pos 3) (0 ∷ []) ≡ true }
    ensures loop_of_0 { is_least (loop_first 0 4) both (pos 3) (1 ∷ []) ≡ true }
{}

/// A route goes along edges of the list, each forwards or back.
pub fn routes()
    ensures stays { leads_either 1 [] 1 ≡ true }
    ensures elsewhere { leads_either 1 [] 0 ≡ false }
    ensures forth_and_back { leads_either 0 ((edge 1 0 1 1, false) ∷ (edge 2 2 1 1, true) ∷ []) 2 ≡ true }
    ensures never_back { leads_either 0 ((edge 1 0 1 1, false) ∷ (edge 2 2 1 1, false) ∷ []) 1 ≡ false }
    ensures begins_back { leads_either 0 ((edge 1 0 1 1, true) ∷ []) 1 ≡ false }
    ensures route { IsRoute (edge 1 0 1 1 ∷ []) 1 ((edge 1 0 1 1, true) ∷ []) 0 }
    ensures other_edge { IsRoute (edge 1 0 1 1 ∷ []) 0 ((edge 2 0 1 1, false) ∷ []) 1 → ⊥ }
    ensures not_there { IsRoute (edge 1 0 1 1 ∷ []) 0 ((edge 1 0 1 1, false) ∷ []) 0 → ⊥ }
{}

/// Edges with one variable come together. A graph takes parallel edges, and edges from a node to itself.
pub fn variables_and_parts()
    ensures shared_variable { enabled (λ v. v == 9) (record { nodes = 2; edges = edge_of 1 0 1 9 0 ∷ edge_of 2 0 1 9 0 ∷ [] }) ≡ both }
    ensures other_variable { enabled (λ v. v == 9) (record { nodes = 2; edges = edge_of 1 0 1 9 0 ∷ edge_of 2 0 1 8 0 ∷ [] }) ≡ first_alone }
    ensures to_itself { enabled (λ v. v == 9) (single (edge_of 1 0 0 9 5)) ≡ true ∷ [] }
    ensures no_edge { enabled (λ v. v == 9) lone ≡ [] }
    ensures parallel { with_edge (single (edge 1 0 1 2)) (edge 2 0 1 3) ≡ parallel 2 3 }
    ensures past_the_end { IsSubpart both (true ∷ []) → ⊥ }
    ensures longer { IsSubpart (true ∷ []) both }
    ensures zero_twice { is_distinct (0 ∷ 0 ∷ []) ≡ false }
    ensures twice_apart { is_distinct (5 ∷ 0 ∷ 5 ∷ []) ≡ false }
    ensures has_0 { has (3 ∷ 0 ∷ []) 0 ≡ true }
{}

/// The ends of each edge are nodes, also of one from a node to itself, and the numbers of any two edges differ.
pub fn edges_within_graphs()
    ensures loop_past_the_nodes { IsGraph (single (edge 1 2 2 0)) → ⊥ }
    ensures second_past_the_nodes { IsGraph (record { nodes = 2; edges = edge 1 0 1 0 ∷ edge 2 0 2 0 ∷ [] }) → ⊥ }
    ensures other_ends { IsGraph (record { nodes = 2; edges = edge 1 0 1 0 ∷ edge 1 1 0 0 ∷ [] }) → ⊥ }
{}

/// What edge a graph can be given next, while it has fewer edges than it may.
pub fn edges_that_come_next()
    ensures next { IsNewEdge (single (edge 4 0 1 0)) (edge_of 5 1 1 MAX_VARS MAX_WEIGHT) }
    ensures first { IsNewEdge lone (edge_of 1 0 0 1 0) }
    ensures past_the_nodes { IsNewEdge lone (edge_of 1 1 0 1 0) → ⊥ }
    ensures to_past_the_nodes { IsNewEdge lone (edge_of 1 0 1 1 0) → ⊥ }
    ensures number_again { IsNewEdge (single (edge 4 0 1 0)) (edge_of 4 1 1 1 0) → ⊥ }
    ensures number_0 { IsNewEdge lone (edge_of 0 0 0 1 0) → ⊥ }
    ensures variable_0 { IsNewEdge lone (edge_of 1 0 0 0 0) → ⊥ }
    ensures great_variable { IsNewEdge lone (edge_of 1 0 0 (MAX_VARS + 1) 0) → ⊥ }
    ensures great_weight { IsNewEdge lone (edge_of 1 0 0 1 (MAX_WEIGHT + 1)) → ⊥ }
    ensures no_room { (edges : List Edge) → length edges ≡ MAX_EDGES → IsNewEdge (record { nodes = 1; edges = edges }) (edge_of 9 0 0 1 0) → ⊥ }
    ensures last { (edges : List Edge) → length edges + 1 ≡ MAX_EDGES → All (λ e. e.number < 9) edges
        → IsNewEdge (record { nodes = 1; edges = edges }) (edge_of 9 0 0 1 0) }
{}

/// An edge joins its own two ends. A node that no edge reaches is joined with neither, and lies in no spanning tree.
pub fn nodes_apart()
    ensures end { joins (edge 1 0 1 5 ∷ []) 2 1 ≡ false }
    ensures start { joins (edge 1 0 1 5 ∷ []) 2 0 ≡ false }
    ensures behind_others { joins (edge 1 1 2 5 ∷ edge 2 2 1 5 ∷ []) 0 1 ≡ false }
    ensures no_tree { is_tree (record { nodes = 3; edges = edge 1 1 2 5 ∷ edge 2 2 1 5 ∷ [] }) both (pos 10) (0 ∷ 1 ∷ []) ≡ false }
    ensures tree { is_tree (record { nodes = 3; edges = edge 1 1 2 5 ∷ edge 2 2 0 5 ∷ [] }) both (pos 10) (0 ∷ 1 ∷ []) ≡ true }
{}
