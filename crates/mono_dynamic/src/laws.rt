//! What follows from the definitions alone, of nodes that are reached, and of least costs, after each number of steps.

ghost use Rattle.std.specs.Prelude.{◌≡◌, ◌<◌, ◌≤◌, ◌∷◌, [], ℕ, Bool, List, false, replicate, slice_set, All, IsTrue};
ghost use Rattle.mono_graph.specs.Digraph.{Digraph, present, IsSubpart};
ghost use Rattle.mono_graph.specs.declared.limit.Limit.{Limit};
ghost use Rattle.mono_dynamic.specs.declared.arrival.Arrival.{Arrival};
ghost use Rattle.mono_dynamic.specs.declared.walk_target.WalkTarget.{WalkTarget};
ghost use Rattle.mono_dynamic.specs.Arrivals.{at_source, AreReachedAlong, IsTree};
ghost use Rattle.mono_dynamic.specs.Costs.{Costs, AreLeastAlong};
ghost use Rattle.mono_dynamic.specs.SearchTrees.{RestsOn};
ghost use Rattle.mono_dynamic.specs.Ways.{Ways, has_target, AreWaysTo, IsTargetOf};

/// As long as no edge is present, the source alone is reached.
pub fn source_alone_is_reached()
    ensures { (g : Digraph) (parts : ℕ → List Bool) (u : ℕ) → ((k : ℕ) → present (parts 0) k ≡ false) → AreReachedAlong g parts 0 u (at_source u ∷ []) }
{}

/// Steps by which no edge comes change nothing.
pub fn steps_without_edges_reach_nothing()
    ensures { (g : Digraph) (parts : ℕ → List Bool) (n last u : ℕ) (arrivals : List Arrival) → n ≤ last
        → ((m : ℕ) → n ≤ m → m ≤ last → parts m ≡ parts n) → AreReachedAlong g parts n u arrivals → AreReachedAlong g parts last u arrivals }
{}

/// What is reached after n steps depends on the part up to then, and not on what came later.
pub fn later_steps_change_nothing()
    ensures { (g : Digraph) (parts others : ℕ → List Bool) (n u : ℕ) (arrivals : List Arrival) → ((m : ℕ) → m ≤ n → others m ≡ parts m)
        → AreReachedAlong g parts n u arrivals → AreReachedAlong g others n u arrivals }
{}

/// As long as no edge is present, the source alone has a label below the cap, and it is 0.
pub fn source_alone_costs_nothing()
    ensures { (g : Digraph) (parts : ℕ → List Bool) (limit : Limit) (u cap : ℕ) → u < g.nodes → ((k : ℕ) → present (parts 0) k ≡ false)
        → AreLeastAlong g parts 0 u (record { limit = limit; cap = cap; labels = slice_set (replicate g.nodes cap) u 0; changes = [] }) }
{}

/// Steps by which no edge comes change no cost.
pub fn steps_without_edges_lower_nothing()
    ensures { (g : Digraph) (parts : ℕ → List Bool) (n last u : ℕ) (costs : Costs) → n ≤ last → ((m : ℕ) → n ≤ m → m ≤ last → parts m ≡ parts n)
        → AreLeastAlong g parts n u costs → AreLeastAlong g parts last u costs }
{}

/// What walks cost after n steps depends on the part up to then, and not on what came later.
pub fn later_steps_lower_nothing()
    ensures { (g : Digraph) (parts others : ℕ → List Bool) (n u : ℕ) (costs : Costs) → ((m : ℕ) → m ≤ n → others m ≡ parts m)
        → AreLeastAlong g parts n u costs → AreLeastAlong g others n u costs }
{}

/// A tree stays one in each part that has its edges.
pub fn tree_stays_with_its_edges()
    ensures { (g : Digraph) (P Q : List Bool) (u : ℕ) (arrivals : List Arrival) → ((k : ℕ) → RestsOn arrivals k → IsTrue (present Q k))
        → IsTree g P u arrivals → IsTree g Q u arrivals }
{}

/// In a smaller part that has the tree's edges a search has nothing to find that the tree doesn't say.
pub fn ways_stay_where_edges_go()
    ensures { (g : Digraph) (P Q : List Bool) (targets : List WalkTarget) (w : Ways) → All (IsTargetOf w) targets → IsSubpart Q P
        → ((k : ℕ) → RestsOn w.tree.arrivals k → IsTrue (present Q k)) → AreWaysTo g P targets w → AreWaysTo g Q targets w }
{}

/// Nor in a greater part, where all targets were found.
pub fn ways_to_all_stay_where_edges_come()
    ensures { (g : Digraph) (P Q : List Bool) (targets : List WalkTarget) (w : Ways) → All (IsTargetOf w) targets → IsSubpart P Q
        → All (λ t. IsTrue (has_target w t)) targets → AreWaysTo g P targets w → AreWaysTo g Q targets w }
{}
