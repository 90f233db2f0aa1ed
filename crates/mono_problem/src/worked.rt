//! Worked rows: what the definitions of bounds, predicates, forced literals and models make of small graphs.

ghost use Rattle.std.specs.Prelude.{◌≡◌, ◌+◌, true, [], ◌∷◌, ℤ, pos, negsuc};
ghost use Rattle.mono_base.specs.declared.limits.TheConstants.{MAX_BOUND};
ghost use Rattle.mono_graph.specs.Worked.{edge_of, single, round_trip, lone, triangle, pipe, both, first_alone, last_alone, neither, all_three};
ghost use Rattle.mono_problem.specs.declared.atom.Predicate.TheVariants as kind;
ghost use Rattle.mono_problem.specs.Assuming.{assuming};
ghost use Rattle.mono_problem.specs.Holds.{Holds, Satisfies};
ghost use Rattle.mono_problem.specs.Quiet.{under, over, Forces, IsQuietAtom};
ghost use Rattle.mono_problem.specs.WellFormed.{IsMost, IsLeast, IsOver};
ghost use Rattle.mono_problem.specs.Worked.{minus, reaches_2, piped, only};

/// An edge is surely present where its variable is true, and possibly where it isn't false. Its number doesn't matter.
pub fn bounds_of_a_graph()
    ensures surely { under (pipe 3 2) (pos 1 ∷ []) ≡ first_alone }
    ensures possibly { over (pipe 3 2) (pos 1 ∷ []) ≡ both }
    ensures surely_false { under (pipe 3 2) (minus 1 ∷ []) ≡ neither }
    ensures possibly_false { over (pipe 3 2) (minus 1 ∷ []) ≡ last_alone }
    ensures surely_open { under (pipe 3 2) [] ≡ neither }
    ensures possibly_open { over (pipe 3 2) [] ≡ both }
    ensures surely_decided { under (pipe 3 2) (minus 2 ∷ pos 1 ∷ []) ≡ first_alone }
    ensures possibly_decided { over (pipe 3 2) (minus 2 ∷ pos 1 ∷ []) ≡ first_alone }
    ensures by_variable { under (single (edge_of 7 0 1 3 5)) (pos 3 ∷ []) ≡ true ∷ [] }
    ensures not_by_number { over (single (edge_of 7 0 1 3 5)) (minus 7 ∷ []) ≡ true ∷ [] }
{}

/// Node 2 lies behind two edges, of the weights 3 and 2. A bound of -1 is never met.
pub fn walks()
    ensures reached { Holds (pipe 3 2) both (kind.Reach 0 2) }
    ensures itself { Holds (pipe 3 2) neither (kind.Reach 1 1) }
    ensures not_back { Holds (pipe 3 2) both (kind.Reach 2 0) → ⊥ }
    ensures absent { Holds (pipe 3 2) first_alone (kind.Reach 0 2) → ⊥ }
    ensures two_steps { Holds (pipe 3 2) both (kind.Steps 0 2 (pos 2)) }
    ensures not_one { Holds (pipe 3 2) both (kind.Steps 0 2 (pos 1)) → ⊥ }
    ensures weighs_five { Holds (pipe 3 2) both (kind.Distance 0 2 (pos 5)) }
    ensures not_four { Holds (pipe 3 2) both (kind.Distance 0 2 (pos 4)) → ⊥ }
    ensures never { Holds (pipe 3 2) both (kind.Steps 1 1 (negsuc 0)) → ⊥ }
{}

/// As much flows over both edges as the lighter one lets through. There is always a flow of 0.
pub fn flows()
    ensures two { Holds (pipe 3 2) both (kind.Flow 0 2 (pos 2)) }
    ensures not_three { Holds (pipe 3 2) both (kind.Flow 0 2 (pos 3)) → ⊥ }
    ensures nothing { Holds (pipe 3 2) neither (kind.Flow 0 2 (pos 0)) }
    ensures absent { Holds (pipe 3 2) first_alone (kind.Flow 0 2 (pos 1)) → ⊥ }
{}

/// The lightest spanning tree of a triangle has its two lightest edges. One node has a tree of no edges.
pub fn spanning_trees()
    ensures three { Holds (triangle 1 2 4) all_three (kind.Tree (pos 3)) }
    ensures not_two { Holds (triangle 1 2 4) all_three (kind.Tree (pos 2)) → ⊥ }
    ensures apart { Holds (pipe 1 1) first_alone (kind.Tree (pos 9)) → ⊥ }
    ensures one_node { Holds lone [] (kind.Tree (pos 0)) }
    ensures never { Holds lone [] (kind.Tree (negsuc 0)) → ⊥ }
{}

/// Variable 5 is forced where a walk is surely there, its negation where none is possible, and nothing in between.
pub fn forced_literals()
    ensures by_walk { Forces (pipe 3 2) reaches_2 (pos 1 ∷ pos 2 ∷ []) (pos 5) }
    ensures by_cut { Forces (pipe 3 2) reaches_2 (minus 2 ∷ []) (minus 5) }
    ensures undecided { (l : ℤ) → Forces (pipe 3 2) reaches_2 (pos 1 ∷ []) l → ⊥ }
    ensures not_both { Forces (pipe 3 2) reaches_2 (pos 1 ∷ pos 2 ∷ []) (minus 5) → ⊥ }
    ensures quiet { IsQuietAtom (pipe 3 2) (pos 1 ∷ []) reaches_2 }
    ensures quiet_once_true { IsQuietAtom (pipe 3 2) (pos 1 ∷ pos 2 ∷ pos 5 ∷ []) reaches_2 }
    ensures quiet_once_false { IsQuietAtom (pipe 3 2) (minus 2 ∷ minus 5 ∷ []) reaches_2 }
    ensures not_yet_true { IsQuietAtom (pipe 3 2) (pos 1 ∷ pos 2 ∷ []) reaches_2 → ⊥ }
    ensures not_yet_false { IsQuietAtom (pipe 3 2) (minus 2 ∷ []) reaches_2 → ⊥ }
{}

/// Each clause is true, and the variable of the predicate says exactly whether it holds.
pub fn models()
    ensures reached { Satisfies (piped ((pos 1 ∷ []) ∷ [])) (only (1 ∷ 2 ∷ 5 ∷ [])) }
    ensures not_reached { Satisfies (piped ((pos 1 ∷ []) ∷ [])) (only (1 ∷ [])) }
    ensures false_clause { Satisfies (piped ((pos 1 ∷ []) ∷ [])) (only (2 ∷ [])) → ⊥ }
    ensures wrongly_false { Satisfies (piped []) (only (1 ∷ 2 ∷ [])) → ⊥ }
    ensures wrongly_true { Satisfies (piped []) (only (1 ∷ 5 ∷ [])) → ⊥ }
{}

/// The bounds of a problem's predicates, and the nodes that they name.
pub fn predicates_within_limits()
    ensures least { IsMost (negsuc 0) }
    ensures below { IsMost (negsuc 1) → ⊥ }
    ensures greatest { IsMost (pos MAX_BOUND) }
    ensures above { IsMost (pos (MAX_BOUND + 1)) → ⊥ }
    ensures no_flow { IsLeast (pos 0) }
    ensures below_no_flow { IsLeast (negsuc 0) → ⊥ }
    ensures greatest_flow { IsLeast (pos (MAX_BOUND + 1)) }
    ensures above_greatest_flow { IsLeast (pos (MAX_BOUND + 2)) → ⊥ }
    ensures itself { IsOver (round_trip 2 3) (kind.Reach 1 1) }
    ensures no_node { IsOver (round_trip 2 3) (kind.Reach 0 2) → ⊥ }
    ensures same_ends { IsOver (round_trip 2 3) (kind.Flow 1 1 (pos 1)) → ⊥ }
{}

/// Assumptions are clauses behind the problem's own, one for each, repeats too. Their variables are the problem's then.
pub fn assumptions()
    ensures behind { (assuming (piped ((pos 1 ∷ pos 2 ∷ []) ∷ [])) (minus 2 ∷ pos 4 ∷ [])).clauses ≡ (pos 1 ∷ pos 2 ∷ []) ∷ (minus 2 ∷ []) ∷ (pos 4 ∷ []) ∷ [] }
    ensures repeated { (assuming (piped []) (pos 4 ∷ pos 4 ∷ [])).clauses ≡ (pos 4 ∷ []) ∷ (pos 4 ∷ []) ∷ [] }
    ensures same_variables { (assuming (piped []) (pos 4 ∷ minus 5 ∷ [])).vars ≡ 5 }
    ensures more_variables { (assuming (piped []) (minus 7 ∷ pos 6 ∷ [])).vars ≡ 7 }
    ensures same_graphs { (assuming (piped []) (pos 1 ∷ [])).graphs ≡ (piped []).graphs }
    ensures none { assuming (piped []) [] ≡ piped [] }
{}
