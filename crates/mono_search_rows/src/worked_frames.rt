//! Worked rows: what a theory is over. Edges 1 and 2 of a graph, whose variables are 1 and 2, lead from node 0 over node 1 to
//! node 2.

ghost use Rattle.std.specs.Prelude.{◌≡◌, ℕ, [], ◌∷◌, not, pos, true, false};
ghost use Rattle.mono_graph.specs.Worked.{both, first_alone, last_alone, neither, pipe};
ghost use Rattle.mono_problem.specs.declared.atom.Predicate.TheVariants as kind;
ghost use Rattle.mono_problem.specs.Holds.{falls};
ghost use Rattle.mono_steps.specs.WorkedLemmas.{minus};
ghost use Rattle.mono_bounds.specs.Bound.{assigned, unassigned, IsBoundUnder};
ghost use Rattle.mono_bounds.specs.DueNodes.{PutsRows};
ghost use Rattle.mono_theory.specs.Frames.{AreAtomsOf, AreNumbersOf, IsVar};
ghost use Rattle.mono_bounds.specs.Index.{switched, within, ArePlacesOf, IsPlaceOf, IsSpanOf};
ghost use Rattle.mono_bounds.specs.SeenBounds.{AreSpansOf, IsSeenBound};
ghost use Rattle.mono_theory.specs.Variables.{AreVarsOf};
ghost use Rattle.mono_theory.specs.Worked.{reaches};
ghost use Rattle.mono_search_rows.specs.Worked.{atom, of_four_atoms};

/// The places of a key are those that have it, in any order, and no others.
pub fn places_of_a_key()
    ensures its { ArePlacesOf (7 ∷ 5 ∷ 7 ∷ []) 7 (2 ∷ 0 ∷ []) }
    ensures none { ArePlacesOf (7 ∷ 5 ∷ 7 ∷ []) 6 [] }
    ensures one_left_out { ArePlacesOf (7 ∷ 5 ∷ 7 ∷ []) 7 (0 ∷ []) → ⊥ }
    ensures one_of_another { ArePlacesOf (7 ∷ 5 ∷ 7 ∷ []) 7 (0 ∷ 1 ∷ 2 ∷ []) → ⊥ }
    ensures no_such_place { ArePlacesOf (7 ∷ 5 ∷ 7 ∷ []) 0 (3 ∷ []) → ⊥ }
{}

/// A place has one key.
pub fn place_of_a_key()
    ensures its { IsPlaceOf (7 ∷ 5 ∷ 7 ∷ []) 7 2 }
    ensures of_another { IsPlaceOf (7 ∷ 5 ∷ 7 ∷ []) 7 1 → ⊥ }
    ensures no_such_place { IsPlaceOf (7 ∷ 5 ∷ 7 ∷ []) 0 3 → ⊥ }
{}

/// The numbers are those of different atoms of the problem, of the kind and over the graph.
pub fn numbers_of_atoms()
    ensures first_and_last { AreNumbersOf (λ q. not (falls q)) of_four_atoms 0 (4 ∷ 1 ∷ []) }
    ensures of_another_graph { AreNumbersOf (λ q. not (falls q)) of_four_atoms 0 (1 ∷ 3 ∷ []) → ⊥ }
    ensures of_another_kind { AreNumbersOf (λ q. not (falls q)) of_four_atoms 0 (1 ∷ 2 ∷ []) → ⊥ }
    ensures twice { AreNumbersOf (λ q. not (falls q)) of_four_atoms 0 (1 ∷ 4 ∷ 1 ∷ []) → ⊥ }
    ensures beyond_the_last { AreNumbersOf (λ q. not (falls q)) of_four_atoms 0 (1 ∷ 5 ∷ []) → ⊥ }
    ensures below_the_first { AreNumbersOf (λ q. not (falls q)) of_four_atoms 0 (0 ∷ []) → ⊥ }
{}

/// Variables are numbered from 1, and there is a greatest one.
pub fn numbers_of_variables()
    ensures first { IsVar 1 }
    ensures last { IsVar 1000000 }
    ensures none { IsVar 0 → ⊥ }
    ensures beyond { IsVar 1000001 → ⊥ }
{}

/// Atoms are over the graph, each has a variable, and no two of them have one number.
pub fn atoms_over_a_graph()
    ensures two { AreAtomsOf (pipe 1 1) (atom 4 3 (kind.Reach 0 2) ∷ atom 1 3 (kind.Reach 0 2) ∷ []) }
    ensures no_such_node { AreAtomsOf (pipe 1 1) (atom 4 3 (kind.Reach 0 3) ∷ []) → ⊥ }
    ensures no_variable { AreAtomsOf (pipe 1 1) (atom 4 0 (kind.Reach 0 2) ∷ []) → ⊥ }
    ensures one_number { AreAtomsOf (pipe 1 1) (atom 4 3 (kind.Reach 0 2) ∷ atom 4 3 (kind.Reach 0 1) ∷ []) → ⊥ }
    ensures twice { AreAtomsOf (pipe 1 1) (atom 4 3 (kind.Reach 0 2) ∷ atom 4 3 (kind.Reach 0 2) ∷ []) → ⊥ }
{}

/// The variables are those of the edges and of the atoms, in their order, each once.
pub fn variables_that_concern()
    ensures all { AreVarsOf (pipe 1 1) reaches (1 ∷ 2 ∷ 3 ∷ []) }
    ensures atom_left_out { AreVarsOf (pipe 1 1) reaches (1 ∷ 2 ∷ []) → ⊥ }
    ensures edge_left_out { AreVarsOf (pipe 1 1) reaches (1 ∷ 3 ∷ []) → ⊥ }
    ensures one_too_many { AreVarsOf (pipe 1 1) reaches (1 ∷ 2 ∷ 3 ∷ 4 ∷ []) → ⊥ }
    ensures out_of_order { AreVarsOf (pipe 1 1) reaches (2 ∷ 1 ∷ 3 ∷ []) → ⊥ }
    ensures twice { AreVarsOf (pipe 1 1) reaches (1 ∷ 2 ∷ 2 ∷ 3 ∷ []) → ⊥ }
{}

/// Bounds by place of a variable: whether it is true, and whether it isn't false.
pub fn bounds_of_variables()
    ensures theirs { IsBoundUnder (record { vars = 1 ∷ 2 ∷ []; places = 0 ∷ 1 ∷ []; under = first_alone; over = both }) (1 ∷ 2 ∷ []) (pos 1 ∷ []) }
    ensures absent { IsBoundUnder (record { vars = 1 ∷ 2 ∷ []; places = 0 ∷ 1 ∷ []; under = neither; over = first_alone }) (1 ∷ 2 ∷ []) (minus 2 ∷ []) }
    ensures of_others { IsBoundUnder (record { vars = 1 ∷ 4 ∷ []; places = 0 ∷ 1 ∷ []; under = first_alone; over = both }) (1 ∷ 2 ∷ []) (pos 1 ∷ []) → ⊥ }
    ensures not_surely { IsBoundUnder (record { vars = 1 ∷ 2 ∷ []; places = 0 ∷ 1 ∷ []; under = both; over = both }) (1 ∷ 2 ∷ []) (pos 1 ∷ []) → ⊥ }
    ensures not_possibly { IsBoundUnder (record { vars = 1 ∷ 2 ∷ []; places = 0 ∷ 1 ∷ []; under = first_alone; over = first_alone })
        (1 ∷ 2 ∷ []) (pos 1 ∷ []) → ⊥ }
{}

/// With a literal the edges of its variable alone are surely present, or not even possibly. Without it they are as where the variable
/// has no value.
pub fn bounds_by_one_literal()
    ensures comes { switched (7 ∷ 5 ∷ 7 ∷ []) 7 true (false ∷ false ∷ false ∷ []) ≡ true ∷ false ∷ true ∷ [] }
    ensures goes { switched (7 ∷ 5 ∷ 7 ∷ []) 7 false (true ∷ true ∷ true ∷ []) ≡ false ∷ true ∷ false ∷ [] }
    ensures surely { assigned (record { vars = 1 ∷ 2 ∷ []; places = 0 ∷ 1 ∷ []; under = neither; over = both }) (pos 2)
        ≡ record { vars = 1 ∷ 2 ∷ []; places = 0 ∷ 1 ∷ []; under = last_alone; over = both } }
    ensures not_even_possibly { assigned (record { vars = 1 ∷ 2 ∷ []; places = 0 ∷ 1 ∷ []; under = neither; over = both }) (minus 2)
        ≡ record { vars = 1 ∷ 2 ∷ []; places = 0 ∷ 1 ∷ []; under = neither; over = first_alone } }
    ensures not_surely { unassigned (record { vars = 1 ∷ 2 ∷ []; places = 0 ∷ 1 ∷ []; under = both; over = both }) (pos 2)
        ≡ record { vars = 1 ∷ 2 ∷ []; places = 0 ∷ 1 ∷ []; under = first_alone; over = both } }
    ensures possibly { unassigned (record { vars = 1 ∷ 2 ∷ []; places = 0 ∷ 1 ∷ []; under = neither; over = neither }) (minus 2)
        ≡ record { vars = 1 ∷ 2 ∷ []; places = 0 ∷ 1 ∷ []; under = neither; over = last_alone } }
{}

/// The atoms of the nodes of each row become due, those of the last row too, and those that are due stay so.
pub fn atoms_due_by_rows()
    ensures last_row_left_out { PutsRows {R = ℕ} (4 ∷ 7 ∷ []) (λ r. r ∷ []) (4 ∷ 7 ∷ []) 2 (false ∷ false ∷ []) (true ∷ false ∷ []) → ⊥ }
    ensures another_goes { PutsRows {R = ℕ} (4 ∷ 7 ∷ []) (λ r. r ∷ []) (4 ∷ []) 1 (false ∷ true ∷ []) (true ∷ false ∷ []) → ⊥ }
    ensures more_places { PutsRows {R = ℕ} (4 ∷ 7 ∷ []) (λ r. r ∷ []) (4 ∷ []) 1 (false ∷ false ∷ []) (true ∷ false ∷ false ∷ []) → ⊥ }
{}

/// A span says where places stand: those of a key stand side by side.
pub fn where_places_of_a_key_stand()
    ensures between { within (1 ∷ 0 ∷ 2 ∷ []) (record { start = 1; end = 3 }) ≡ 0 ∷ 2 ∷ [] }
    ensures at_first { within (1 ∷ 0 ∷ 2 ∷ []) (record { start = 0; end = 1 }) ≡ 1 ∷ [] }
    ensures nowhere { IsSpanOf (7 ∷ 5 ∷ []) (1 ∷ 0 ∷ []) 6 (record { start = 2; end = 2 }) }
    ensures beyond { IsSpanOf [] [] 6 (record { start = 0; end = 1 }) → ⊥ }
    ensures of_another { IsSpanOf (7 ∷ 5 ∷ []) (1 ∷ 0 ∷ []) 5 (record { start = 1; end = 2 }) → ⊥ }
{}

/// Each literal of a list has a span, where the places of its variable stand.
pub fn spans_of_literals()
    ensures theirs { AreSpansOf (record { vars = 7 ∷ 5 ∷ []; places = 1 ∷ 0 ∷ []; under = []; over = [] }) (pos 7 ∷ [])
        (record { start = 1; end = 2 } ∷ []) }
    ensures one_left_out { AreSpansOf (record { vars = 7 ∷ 5 ∷ []; places = 1 ∷ 0 ∷ []; under = []; over = [] }) (pos 6 ∷ []) [] → ⊥ }
    ensures of_another { AreSpansOf (record { vars = 7 ∷ 5 ∷ []; places = 1 ∷ 0 ∷ []; under = []; over = [] }) (pos 7 ∷ [])
        (record { start = 0; end = 1 } ∷ []) → ⊥ }
{}

/// Bounds of a list of literals are those under it, and each literal has its span.
pub fn bounds_of_literals()
    ensures of_none { IsSeenBound (record { bound = record { vars = 7 ∷ []; places = 0 ∷ []; under = false ∷ []; over = true ∷ [] }; spans = []; cells = 0 })
        (7 ∷ []) [] }
    ensures of_others { IsSeenBound (record { bound = record { vars = 5 ∷ []; places = 0 ∷ []; under = false ∷ []; over = true ∷ [] }; spans = []; cells = 0 })
        (7 ∷ []) [] → ⊥ }
    ensures no_span { IsSeenBound (record { bound = record { vars = 7 ∷ []; places = 0 ∷ []; under = false ∷ []; over = true ∷ [] }; spans = []; cells = 0 })
        (7 ∷ []) (pos 6 ∷ []) → ⊥ }
{}
