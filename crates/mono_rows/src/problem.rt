//! Worked rows: what the words of `mono_problem` make of two small graphs.

ghost use Rattle.std.specs.Prelude.{◌≡◌, ◌+◌, true, false, ℤ, List, [], ◌∷◌, length, map, pos, negsuc, Some, None};
ghost use Rattle.mono_base.specs.declared.limits.TheConstants.{MAX_ATOMS, MAX_BOUND, MAX_CLAUSES, MAX_EDGES, MAX_GRAPHS, MAX_LITERALS, MAX_NODES, MAX_VARS};
ghost use Rattle.mono_graph.specs.Worked.{edge_of, pipe, round_trip, single};
ghost use Rattle.mono_problem.specs.declared.atom.Predicate.TheVariants as kind;
ghost use Rattle.mono_problem.specs.declared.uses.Use.TheVariants as use_of;
ghost use Rattle.mono_problem.specs.Assuming.{HasRoom};
ghost use Rattle.mono_problem.specs.Growth.{nothing, raised, with_graph, with_edge, with_atom, with_clause};
ghost use Rattle.mono_problem.specs.Holds.{HoldsAtom};
ghost use Rattle.mono_problem.specs.Instance.{Instance, edges_total, graph_at, identity_at, literals_total, nodes_total, place_named, has_number, totals_of};
ghost use Rattle.mono_problem.specs.Read.{atom_numbered, clause_numbered};
ghost use Rattle.mono_problem.specs.Uses.{all_uses, has_edge_use, uses_of};
ghost use Rattle.mono_problem.specs.WellFormed.{IsInstance, IsOver};
ghost use Rattle.mono_problem.specs.Worked.{minus, only, reaches_2};
ghost use Rattle.mono_rows.specs.TwoGraphs.{asks_only, of_clauses, of_graphs, over_second, two_graphs};

/// A predicate is over the graph that it names.
pub fn predicate_of_the_second_graph()
    ensures own_edge { HoldsAtom two_graphs (only (4 ∷ [])) over_second }
    ensures edges_of_the_first { HoldsAtom two_graphs (only (1 ∷ 2 ∷ 3 ∷ [])) over_second → ⊥ }
{}

/// Graphs are found by their identities, the first of an identity, and parts are counted over all of them.
pub fn graphs_and_totals()
    ensures first { place_named two_graphs.graphs 8 ≡ Some 0 }
    ensures second { place_named two_graphs.graphs 5 ≡ Some 1 }
    ensures none { place_named two_graphs.graphs 1 ≡ None }
    ensures identity { identity_at two_graphs 1 ≡ 5 }
    ensures number_of_the_first { has_number (graph_at two_graphs 0) 2 ≡ true }
    ensures number_of_the_second { has_number (graph_at two_graphs 0) 3 ≡ false }
    ensures not_its_variable { has_number (graph_at two_graphs 1) 4 ≡ false }
    ensures literals { (totals_of (of_clauses ((pos 1 ∷ minus 6 ∷ pos 2 ∷ []) ∷ [] ∷ []))).literals ≡ 3 }
    ensures totals { totals_of two_graphs ≡ record { vars = 6; graphs = 2; nodes = 5; edges = 3; atoms = 2; clauses = 2; literals = 2 } }
    ensures seven_totals { totals_of (record (asks_only reaches_2) {
      clauses = (pos 1 ∷ pos 2 ∷ pos 3 ∷ []) ∷ [] ∷ (minus 6 ∷ pos 2 ∷ []) ∷ (pos 1 ∷ minus 4 ∷ []) ∷ [];
    }) ≡ record { vars = 6; graphs = 2; nodes = 5; edges = 3; atoms = 1; clauses = 4; literals = 7 } }
{}

/// A variable switches edges of every graph, by their places, and stands for predicates, by their numbers.
pub fn uses_of_variables()
    ensures first { uses_of two_graphs 2 ≡ use_of.Edge 0 1 ∷ [] }
    ensures second { uses_of two_graphs 4 ≡ use_of.Edge 1 0 ∷ [] }
    ensures predicate { uses_of two_graphs 6 ≡ use_of.Atom 2 ∷ [] }
    ensures none { uses_of two_graphs 3 ≡ [] }
{}

/// All uses: those of the edges, graph after graph and in their order, and behind them those of the predicates.
pub fn uses_of_all_variables()
    ensures variables { map (λ u. u.var) (all_uses (with_edge two_graphs 1 (edge_of 4 1 0 9 2))) ≡ 1 ∷ 2 ∷ 4 ∷ 9 ∷ 5 ∷ 6 ∷ [] }
    ensures parts { map (λ u. u.at) (all_uses (with_edge two_graphs 1 (edge_of 4 1 0 9 2)))
        ≡ use_of.Edge 0 0 ∷ use_of.Edge 0 1 ∷ use_of.Edge 1 0 ∷ use_of.Edge 1 1 ∷ use_of.Atom 1 ∷ use_of.Atom 2 ∷ [] }
    ensures none_of_zero { uses_of two_graphs 0 ≡ [] }
{}

/// A list of uses has that of an edge of the graph at a place, by the edge's place there.
pub fn uses_of_edges()
    ensures behind_another { has_edge_use 1 2 (use_of.Atom 1 ∷ use_of.Edge 1 2 ∷ []) ≡ true }
    ensures other_graph { has_edge_use 0 2 (use_of.Edge 1 2 ∷ []) ≡ false }
    ensures other_edge { has_edge_use 1 0 (use_of.Edge 1 2 ∷ []) ≡ false }
    ensures predicate { has_edge_use 0 1 (use_of.Atom 1 ∷ []) ≡ false }
    ensures none { has_edge_use 0 0 [] ≡ false }
{}

/// Clauses are numbered from 1.
pub fn clauses_by_number()
    ensures first { clause_numbered two_graphs 1 ≡ pos 1 ∷ minus 6 ∷ [] }
    ensures second { clause_numbered two_graphs 2 ≡ [] }
{}

/// Predicates are numbered from 1.
pub fn predicates_by_number()
    ensures first { atom_numbered two_graphs 1 ≡ reaches_2 }
    ensures second { atom_numbered two_graphs 2 ≡ over_second }
{}

/// There is room for as many assumptions as clauses and literals are left up to their limits.
pub fn room_for_assumptions()
    ensures last { (p : Instance) (lits : List ℤ) → length p.clauses + length lits ≡ MAX_CLAUSES → literals_total p + length lits ≡ MAX_LITERALS
        → HasRoom p lits }
    ensures no_clause { (p : Instance) (lits : List ℤ) → length p.clauses + length lits ≡ MAX_CLAUSES + 1 → HasRoom p lits → ⊥ }
    ensures no_literal { (p : Instance) (lits : List ℤ) → literals_total p + length lits ≡ MAX_LITERALS + 1 → HasRoom p lits → ⊥ }
{}

/// The empty problem has nothing. A graph comes at the end without edges, and a predicate at the end with its variable.
pub fn graphs_and_predicates_are_added()
    ensures nothing { totals_of nothing ≡ record { vars = 0; graphs = 0; nodes = 0; edges = 0; atoms = 0; clauses = 0; literals = 0 } }
    ensures graph { (with_graph two_graphs 7 3).graphs ≡ (8, pipe 3 2) ∷ (5, single (edge_of 3 0 1 4 7)) ∷ (7, record { nodes = 3; edges = [] }) ∷ [] }
    ensures graphs_variables { (with_graph two_graphs 7 3).vars ≡ 6 }
    ensures predicate { (with_atom two_graphs (record reaches_2 { number = 3; var = 9 })).atoms
        ≡ reaches_2 ∷ over_second ∷ record { number = 3; graph = 0; var = 9; predicate = kind.Reach 0 2 } ∷ [] }
    ensures predicates_variable { (with_atom two_graphs (record reaches_2 { number = 3; var = 9 })).vars ≡ 9 }
    ensures lower_variable { (with_atom two_graphs (record reaches_2 { number = 3; var = 2 })).vars ≡ 6 }
{}

/// An edge, a predicate and a clause come at the end, and their variables become the problem's.
pub fn parts_are_added()
    ensures edge { graph_at (with_edge two_graphs 1 (edge_of 4 1 0 9 2)) 1 ≡ record { nodes = 2; edges = edge_of 3 0 1 4 7 ∷ edge_of 4 1 0 9 2 ∷ [] } }
    ensures identity { identity_at (with_edge two_graphs 1 (edge_of 4 1 0 9 2)) 1 ≡ 5 }
    ensures other_graph { graph_at (with_edge two_graphs 1 (edge_of 4 1 0 9 2)) 0 ≡ pipe 3 2 }
    ensures edges_variable { (with_edge two_graphs 1 (edge_of 4 1 0 9 2)).vars ≡ 9 }
    ensures edges_lower_variable { (with_edge two_graphs 1 (edge_of 4 1 0 2 9)).vars ≡ 6 }
    ensures clauses_variable { (with_clause two_graphs (minus 2 ∷ minus 8 ∷ [])).vars ≡ 8 }
    ensures clauses_lower_variable { (with_clause two_graphs (minus 2 ∷ [])).vars ≡ 6 }
    ensures clause { (with_clause two_graphs (minus 2 ∷ [])).clauses ≡ (pos 1 ∷ minus 6 ∷ []) ∷ [] ∷ (minus 2 ∷ []) ∷ [] }
    ensures no_fewer_variables { (raised two_graphs 3).vars ≡ 6 }
    ensures more_variables { (raised two_graphs 7).vars ≡ 7 }
{}

/// A predicate's nodes are its graph's, and its bound is within the limits.
pub fn predicates_over_a_graph()
    ensures walk_from_beyond { IsOver (round_trip 2 3) (kind.Reach 2 1) → ⊥ }
    ensures steps { IsOver (round_trip 2 3) (kind.Steps 1 0 (negsuc 0)) }
    ensures steps_from_beyond { IsOver (round_trip 2 3) (kind.Steps 2 0 (pos 1)) → ⊥ }
    ensures steps_to_beyond { IsOver (round_trip 2 3) (kind.Steps 0 2 (pos 1)) → ⊥ }
    ensures too_few_steps { IsOver (round_trip 2 3) (kind.Steps 0 1 (negsuc 1)) → ⊥ }
    ensures too_many_steps { IsOver (round_trip 2 3) (kind.Steps 0 1 (pos (MAX_BOUND + 1))) → ⊥ }
    ensures distance { IsOver (round_trip 2 3) (kind.Distance 0 1 (pos MAX_BOUND)) }
    ensures distance_from_beyond { IsOver (round_trip 2 3) (kind.Distance 2 0 (pos 1)) → ⊥ }
    ensures distance_to_beyond { IsOver (round_trip 2 3) (kind.Distance 0 2 (pos 1)) → ⊥ }
    ensures too_near { IsOver (round_trip 2 3) (kind.Distance 0 1 (negsuc 1)) → ⊥ }
    ensures too_far { IsOver (round_trip 2 3) (kind.Distance 0 1 (pos (MAX_BOUND + 1))) → ⊥ }
    ensures flow { IsOver (round_trip 2 3) (kind.Flow 1 0 (pos 0)) }
    ensures flow_from_beyond { IsOver (round_trip 2 3) (kind.Flow 2 0 (pos 1)) → ⊥ }
    ensures flow_to_beyond { IsOver (round_trip 2 3) (kind.Flow 0 2 (pos 1)) → ⊥ }
    ensures too_little_flow { IsOver (round_trip 2 3) (kind.Flow 0 1 (negsuc 0)) → ⊥ }
    ensures greatest_flow { IsOver (round_trip 2 3) (kind.Flow 0 1 (pos (MAX_BOUND + 1))) }
    ensures too_much_flow { IsOver (round_trip 2 3) (kind.Flow 0 1 (pos (MAX_BOUND + 2))) → ⊥ }
    ensures tree { IsOver (round_trip 2 3) (kind.Tree (negsuc 0)) }
    ensures too_light_tree { IsOver (round_trip 2 3) (kind.Tree (negsuc 1)) → ⊥ }
    ensures heaviest_tree { IsOver (round_trip 2 3) (kind.Tree (pos MAX_BOUND)) }
    ensures too_heavy_tree { IsOver (round_trip 2 3) (kind.Tree (pos (MAX_BOUND + 1))) → ⊥ }
{}

/// Identities and numbers stand once, predicates stand by their numbers, and all that is named is there.
pub fn whole_problems()
    ensures two { IsInstance two_graphs }
    ensures identity_twice { IsInstance (of_graphs ((8, pipe 3 2) ∷ (8, single (edge_of 3 0 1 4 7)) ∷ [])) → ⊥ }
    ensures number_twice { IsInstance (of_graphs ((8, pipe 3 2) ∷ (5, single (edge_of 2 0 1 4 7)) ∷ [])) → ⊥ }
    ensures number_beyond { IsInstance (of_graphs ((5, single (edge_of 2 0 1 4 7)) ∷ [])) → ⊥ }
    ensures edges_variable_beyond { IsInstance (of_graphs ((5, single (edge_of 1 0 1 7 7)) ∷ [])) → ⊥ }
    ensures identity_beyond { IsInstance (of_graphs ((4294967296, single (edge_of 1 0 1 4 7)) ∷ [])) → ⊥ }
    ensures edge_to_no_node { IsInstance (of_graphs ((5, single (edge_of 1 0 7 4 7)) ∷ [])) → ⊥ }
    ensures second_predicate_alone { IsInstance (asks_only over_second) → ⊥ }
    ensures missing_graph { IsInstance (asks_only (record reaches_2 { graph = 2 })) → ⊥ }
    ensures tree_of_no_graph { IsInstance (asks_only (record reaches_2 { graph = 2; predicate = kind.Tree (pos 9) })) → ⊥ }
    ensures node_of_another_graph { IsInstance (asks_only (record reaches_2 { graph = 1 })) → ⊥ }
    ensures variable_0 { IsInstance (asks_only (record reaches_2 { var = 0 })) → ⊥ }
    ensures variable_beyond { IsInstance (asks_only (record reaches_2 { var = 7 })) → ⊥ }
    ensures literal_0 { IsInstance (of_clauses ((pos 0 ∷ []) ∷ [])) → ⊥ }
    ensures literal_beyond { IsInstance (of_clauses ((minus 7 ∷ []) ∷ [])) → ⊥ }
{}

/// A problem has no more variables, graphs, nodes, edges, predicates, clauses and literals than an input may have.
pub fn problems_beyond_the_limits()
    ensures variables { (p : Instance) → p.vars ≡ MAX_VARS + 1 → IsInstance p → ⊥ }
    ensures graphs { (p : Instance) → length p.graphs ≡ MAX_GRAPHS + 1 → IsInstance p → ⊥ }
    ensures nodes { (p : Instance) → nodes_total p ≡ MAX_NODES + 1 → IsInstance p → ⊥ }
    ensures edges { (p : Instance) → edges_total p ≡ MAX_EDGES + 1 → IsInstance p → ⊥ }
    ensures predicates { (p : Instance) → length p.atoms ≡ MAX_ATOMS + 1 → IsInstance p → ⊥ }
    ensures clauses { (p : Instance) → length p.clauses ≡ MAX_CLAUSES + 1 → IsInstance p → ⊥ }
    ensures literals { (p : Instance) → literals_total p ≡ MAX_LITERALS + 1 → IsInstance p → ⊥ }
{}
