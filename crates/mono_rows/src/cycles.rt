//! Worked rows: what the words of `mono_graph` make of cycles and of orders of the nodes, and those of `mono_cycles` of what
//! is found and kept.

ghost use Rattle.std.specs.Prelude.{◌≡◌, true, false, [], ◌∷◌, ℕ, Vec};
ghost use Rattle.std.specs.declared.alloc.Global.{Global};
ghost use Rattle.mono_graph.specs.Cycles.{is_cycle, IsAcyclic, rank_in, rises, is_order};
ghost use Rattle.mono_graph.specs.Worked.{edge, both, first_alone, last_alone, neither, all_three, lone, looped, parallel, pipe, round_trip, triangle};
ghost use Rattle.mono_cycles.specs.Found.{IsCycleOrOrder, HasKnownNames, is_cycle_found};
ghost use Rattle.mono_cycles.specs.Kept.{IsGrownBy};
ghost use Rattle.mono_cycles.specs.declared.finder.CycleOrOrder.TheVariants as found;
ghost use Rattle.mono_rows.specs.SmallCycles.{eight, behind_a_loop};

/// A cycle is a nonempty walk of present edges from a node to itself. Where it begins is free.
pub fn cycles_are_closed_walks()
    ensures there_and_back { is_cycle (round_trip 2 3) both (0 ∷ 1 ∷ []) ≡ true }
    ensures begins_elsewhere { is_cycle (round_trip 2 3) both (1 ∷ 0 ∷ []) ≡ true }
    ensures three { is_cycle (triangle 1 1 1) all_three (1 ∷ 2 ∷ 0 ∷ []) ≡ true }
    ensures empty { is_cycle (round_trip 2 3) both [] ≡ false }
    ensures not_closed { is_cycle (round_trip 2 3) both (0 ∷ []) ≡ false }
    ensures goes_past { is_cycle (round_trip 2 3) both (0 ∷ 1 ∷ 0 ∷ []) ≡ false }
    ensures wrong_order { is_cycle (triangle 1 1 1) all_three (0 ∷ 2 ∷ 1 ∷ []) ≡ false }
    ensures last_absent { is_cycle (round_trip 2 3) first_alone (0 ∷ 1 ∷ []) ≡ false }
    ensures first_absent { is_cycle (round_trip 2 3) last_alone (0 ∷ 1 ∷ []) ≡ false }
    ensures past_the_edges { is_cycle lone (true ∷ []) (0 ∷ []) ≡ false }
{}

/// An edge or a node may come again.
pub fn cycles_may_repeat()
    ensures edges { is_cycle (round_trip 2 3) both (0 ∷ 1 ∷ 0 ∷ 1 ∷ []) ≡ true }
    ensures node { is_cycle eight (true ∷ all_three) (0 ∷ 1 ∷ 2 ∷ 3 ∷ []) ≡ true }
    ensures loop_on_the_way { is_cycle behind_a_loop all_three (0 ∷ 1 ∷ 2 ∷ []) ≡ true }
    ensures loop_twice { is_cycle looped (true ∷ []) (0 ∷ 0 ∷ []) ≡ true }
{}

/// An edge from a node to itself is a cycle. Two edges from one node to another are none.
pub fn loops_and_parallel_edges()
    ensures to_itself { is_cycle looped (true ∷ []) (0 ∷ []) ≡ true }
    ensures absent_loop { is_cycle looped (false ∷ []) (0 ∷ []) ≡ false }
    ensures parallel { is_cycle (parallel 1 1) both (0 ∷ 1 ∷ []) ≡ false }
    ensures one_of_them { is_cycle (parallel 1 1) both (0 ∷ []) ≡ false }
{}

/// A part is without a cycle where no nonempty walk leads back to where it began.
pub fn parts_without_cycles()
    ensures pipe { IsAcyclic (pipe 1 1) both }
    ensures parallel { IsAcyclic (parallel 1 1) both }
    ensures no_edge { IsAcyclic lone [] }
    ensures one_way { IsAcyclic (round_trip 2 3) last_alone }
    ensures absent_loop { IsAcyclic looped (false ∷ []) }
    ensures to_itself { IsAcyclic looped (true ∷ []) → ⊥ }
    ensures there_and_back { IsAcyclic (round_trip 2 3) both → ⊥ }
    ensures away_from_node_0 { IsAcyclic behind_a_loop (false ∷ true ∷ false ∷ []) → ⊥ }
{}

/// An order has every node once.
pub fn orders_have_each_node_once()
    ensures all { is_order (pipe 1 1) both (0 ∷ 1 ∷ 2 ∷ []) ≡ true }
    ensures one_node { is_order lone [] (0 ∷ []) ≡ true }
    ensures last_missing { is_order (pipe 1 1) first_alone (0 ∷ 1 ∷ []) ≡ false }
    ensures first_missing { is_order (pipe 1 1) neither (1 ∷ 2 ∷ []) ≡ false }
    ensures none { is_order lone [] [] ≡ false }
    ensures last_twice { is_order (pipe 1 1) both (0 ∷ 1 ∷ 2 ∷ 2 ∷ []) ≡ false }
    ensures first_twice { is_order (pipe 1 1) both (0 ∷ 0 ∷ 1 ∷ 2 ∷ []) ≡ false }
    ensures another_in_its_place { is_order (round_trip 2 3) neither (0 ∷ 7 ∷ []) ≡ false }
    ensures twice_and_missing { is_order (pipe 1 1) neither (0 ∷ 1 ∷ 1 ∷ []) ≡ false }
{}

/// Each present edge begins before it ends in an order. An absent one doesn't matter.
pub fn orders_by_edges()
    ensures apart { is_order (pipe 1 1) last_alone (1 ∷ 0 ∷ 2 ∷ []) ≡ true }
    ensures against_the_first { is_order (pipe 1 1) both (1 ∷ 0 ∷ 2 ∷ []) ≡ false }
    ensures against_the_last { is_order (pipe 1 1) both (0 ∷ 2 ∷ 1 ∷ []) ≡ false }
    ensures back_absent { is_order (round_trip 2 3) first_alone (0 ∷ 1 ∷ []) ≡ true }
    ensures there_absent { is_order (round_trip 2 3) last_alone (1 ∷ 0 ∷ []) ≡ true }
    ensures both_ways { is_order (round_trip 2 3) both (0 ∷ 1 ∷ []) ≡ false }
    ensures parallel { is_order (parallel 1 1) both (0 ∷ 1 ∷ []) ≡ true }
    ensures second_of_parallel { is_order (parallel 1 1) last_alone (1 ∷ 0 ∷ []) ≡ false }
    ensures to_itself { is_order looped (true ∷ []) (0 ∷ []) ≡ false }
    ensures absent_loop { is_order looped (false ∷ []) (0 ∷ []) ≡ true }
{}

/// The rank of a node is where it stands first, and the length of the list where it doesn't.
pub fn ranks()
    ensures first { rank_in (3 ∷ 5 ∷ 4 ∷ []) 3 ≡ 0 }
    ensures last { rank_in (3 ∷ 5 ∷ 4 ∷ []) 4 ≡ 2 }
    ensures not_listed { rank_in (3 ∷ 5 ∷ 4 ∷ []) 7 ≡ 3 }
    ensures empty { rank_in [] 0 ≡ 0 }
    ensures twice { rank_in (3 ∷ 5 ∷ 3 ∷ []) 3 ≡ 0 }
    ensures node_0 { rank_in (3 ∷ 0 ∷ []) 0 ≡ 1 }
    ensures up { rises (rank_in (3 ∷ 5 ∷ [])) (edge 1 3 5 0) ≡ true }
    ensures down { rises (rank_in (3 ∷ 5 ∷ [])) (edge 1 5 3 0) ≡ false }
    ensures level { rises (rank_in (3 ∷ 5 ∷ [])) (edge 1 5 5 0) ≡ false }
{}

/// What is found is a cycle or an order of present edges, over places and nodes of the graph.
pub fn found_cycles_and_orders()
    ensures cycle { (edges : Vec ℕ Global) → edges.items ≡ 1 ∷ 0 ∷ [] → IsCycleOrOrder (round_trip 2 3) both (found.Cycle edges) }
    ensures not_closed { (edges : Vec ℕ Global) → edges.items ≡ 0 ∷ [] → IsCycleOrOrder (round_trip 2 3) both (found.Cycle edges) → ⊥ }
    ensures order { (nodes : Vec ℕ Global) → nodes.items ≡ 1 ∷ 0 ∷ [] → IsCycleOrOrder (round_trip 2 3) last_alone (found.Order nodes) }
    ensures against_an_edge { (nodes : Vec ℕ Global) → nodes.items ≡ 0 ∷ 1 ∷ [] → IsCycleOrOrder (round_trip 2 3) both (found.Order nodes) → ⊥ }
    ensures is_cycle { (edges : Vec ℕ Global) → is_cycle_found (found.Cycle edges) ≡ true }
    ensures is_order { (nodes : Vec ℕ Global) → is_cycle_found (found.Order nodes) ≡ false }
{}

/// What is found names places of edges and nodes of the graph, here of two edges and three nodes.
pub fn found_names_are_known()
    ensures last_edge { (edges : Vec ℕ Global) → edges.items ≡ 1 ∷ [] → HasKnownNames (pipe 1 1) (found.Cycle edges) }
    ensures no_edge { (edges : Vec ℕ Global) → edges.items ≡ 2 ∷ [] → HasKnownNames (pipe 1 1) (found.Cycle edges) → ⊥ }
    ensures last_node { (nodes : Vec ℕ Global) → nodes.items ≡ 2 ∷ [] → HasKnownNames (pipe 1 1) (found.Order nodes) }
    ensures no_node { (nodes : Vec ℕ Global) → nodes.items ≡ 3 ∷ [] → HasKnownNames (pipe 1 1) (found.Order nodes) → ⊥ }
{}

/// A part has grown by an edge where it has that edge and those of the other part.
pub fn parts_that_grow()
    ensures grown { IsGrownBy first_alone both 1 }
    ensures by_none { IsGrownBy first_alone first_alone 0 }
    ensures edge_missing { IsGrownBy first_alone first_alone 1 → ⊥ }
    ensures by_another { IsGrownBy neither both 1 → ⊥ }
    ensures edge_lost { IsGrownBy first_alone last_alone 1 → ⊥ }
{}
