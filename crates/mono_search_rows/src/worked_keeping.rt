//! Worked rows: more of what theories keep of their atoms, and of what they answer. Edges 1 and 2, at the places 0 and 1, lead from node 0 to
//! node 1, and the variable of 'node 1 can be reached from node 0' is 3. In rows of labels there is one edge of weight 5 alone.

ghost use Rattle.std.specs.Prelude.{◌≡◌, ◌<◌, ◌^◌, [], ◌∷◌, ℕ, pos, true, false, None, Some, length};
ghost use Rattle.mono_graph.specs.declared.limit.Limit.TheVariants as limit;
ghost use Rattle.mono_graph.specs.Worked.{both, first_alone, parallel, pipe};
ghost use Rattle.mono_dynamic.specs.Ways.{no_target};
ghost use Rattle.mono_problem.specs.declared.atom.Predicate.TheVariants as kind;
ghost use Rattle.mono_steps.specs.declared.lemma.Witness.TheVariants as by;
ghost use Rattle.mono_steps.specs.WorkedLemmas.{minus};
ghost use Rattle.mono_theory.specs.declared.either_side.EitherSide.TheVariants as side;
ghost use Rattle.mono_theory.specs.declared.stage.Stage.TheVariants as stage;
ghost use Rattle.mono_theory.specs.declared.theory.Force.TheVariants as force;
ghost use Rattle.mono_theory.specs.Asked.{asks_walk};
ghost use Rattle.mono_theory.specs.EitherSides.{is_either_possible, IsEitherRight};
ghost use Rattle.mono_theory.specs.Evidences.{side as side_of};
ghost use Rattle.mono_theory.specs.Frames.{AreAtomsOf};
ghost use Rattle.mono_theory.specs.PossibleRows.{AreTargetsOf, PossibleView};
ghost use Rattle.mono_theory.specs.Questions.{IsAnswer};
ghost use Rattle.mono_theory.specs.RowSides.{AreRowsFor};
ghost use Rattle.mono_theory.specs.Sound.{AreSound};
ghost use Rattle.mono_theory.specs.Supports.{SideIs};
ghost use Rattle.mono_theory.specs.SureRows.{AreSureRows};
ghost use Rattle.mono_theory.specs.Theories.{Facts};
ghost use Rattle.mono_theory.specs.Threats.{IsThreat};
ghost use Rattle.mono_theory.specs.Watching.{AllWatch};
ghost use Rattle.mono_theory.specs.Worked.{along, reaches, seen_so_far};
ghost use Rattle.mono_distance.specs.Worked.{facts_with, to_node_1, tree_rows, tree_view, ways_from, within_7};
ghost use Rattle.mono_search_rows.specs.Worked.{along_the_second, atom, cut_at_0, keeping, over, rows_told};

/// An edge that isn't among those of the evidence breaks no atom, though the evidence is right.
pub fn edges_beside_right_evidence()
    ensures right_without_it { IsThreat (seen_so_far (minus 3 ∷ pos 1 ∷ [])) false (along 1 0 1) → ⊥ }
{}

/// An atom may have the number 0.
pub fn atoms_with_number_0()
    ensures alone { AreAtomsOf (pipe 1 1) (atom 0 3 (kind.Reach 0 2) ∷ []) }
{}

/// With the possibly present edges too a side is quiet where no atom owes anything: the walk is still possible.
pub fn quiet_with_possible_edges()
    ensures walk_possible { SideIs (seen_so_far []) true force.Quiet }
{}

/// There is one place for the evidence of each atom. Each of so many first atoms watches the edges of its support, and of those behind
/// them nothing is said.
pub fn evidence_by_atom()
    ensures a_place_too_few { AreSound (parallel 1 1) reaches true [] → ⊥ }
    ensures a_place_too_many { AreSound (parallel 1 1) reaches true (None ∷ None ∷ []) → ⊥ }
    ensures first_watches { AllWatch ([] ∷ [] ∷ []) (None ∷ Some along_the_second ∷ []) 1 }
    ensures second_watches_nothing { AllWatch ([] ∷ [] ∷ []) (None ∷ Some along_the_second ∷ []) 2 → ⊥ }
{}

/// What is no positive literal is shown as the negated ones are, on the side of the possibly present edges.
pub fn sides_of_literals()
    ensures of_0 { side_of (parallel 1 1) (kind.Reach 0 1) (pos 1 ∷ []) (pos 0) ≡ both }
{}

/// Why a literal was forced is shown by the edges of the first literals alone.
pub fn answers_to_questions()
    ensures walk { IsAnswer (seen_so_far (pos 1 ∷ pos 2 ∷ [])) (record { place = 0; lit = pos 3; kept = 1 })
        (record { witness = by.Path (1 ∷ []); edges = 0 ∷ [] }) }
    ensures walk_with_a_later_literal { IsAnswer (seen_so_far (pos 1 ∷ pos 2 ∷ [])) (record { place = 0; lit = pos 3; kept = 1 })
        along_the_second → ⊥ }
    ensures cut { IsAnswer (seen_so_far (minus 1 ∷ minus 2 ∷ [])) (record { place = 0; lit = minus 3; kept = 2 }) cut_at_0 }
    ensures cut_with_a_later_literal { IsAnswer (seen_so_far (minus 1 ∷ minus 2 ∷ [])) (record { place = 0; lit = minus 3; kept = 1 })
        cut_at_0 → ⊥ }
{}

/// Rows are of the side that they are made for, and what searches found is of its own.
pub fn which_side_it_is()
    ensures possible_rows { is_either_possible true (rows_told 1 5) ≡ true }
    ensures sure_rows { is_either_possible false (rows_told 1 5) ≡ false }
    ensures possible_searches { is_either_possible {R = ℕ} false (side.Searches (keeping None None [] stage.Waits)) ≡ true }
    ensures sure_searches { is_either_possible {R = ℕ} true
        (side.Searches (record (keeping None None [] stage.Waits) { possible = false })) ≡ false }
{}

/// Rows of a side are of atoms of the kind and of the first literals, those that were looked at, and so is the part of the side. An
/// atom of which they show something is due or settled. What is right of rows or of searches is so where either may be kept.
pub fn rows_of_one_side()
    ensures all_looked_at { AreRowsFor {R = ℕ} asks_walk false (λ row f. row ≡ length f.seen) (λ row a. true) (seen_so_far (pos 1 ∷ []))
        (record { part = first_alone; looked = 1; rows = 1; due = true ∷ [] }) }
    ensures of_another_kind { AreRowsFor {R = ℕ} (λ q. false) false (λ row f. row ≡ length f.seen) (λ row a. true) (seen_so_far (pos 1 ∷ []))
        (record { part = first_alone; looked = 1; rows = 1; due = true ∷ [] }) → ⊥ }
    ensures another_part { AreRowsFor {R = ℕ} asks_walk false (λ row f. row ≡ length f.seen) (λ row a. true) (seen_so_far (pos 1 ∷ []))
        (record { part = both; looked = 1; rows = 1; due = true ∷ [] }) → ⊥ }
    ensures ahead { AreRowsFor {R = ℕ} asks_walk false (λ row f. row ≡ length f.seen) (λ row a. true) (seen_so_far (pos 1 ∷ []))
        (record { part = first_alone; looked = 2; rows = 1; due = true ∷ [] }) → ⊥ }
    ensures rows_behind { AreRowsFor {R = ℕ} asks_walk false (λ row f. row ≡ length f.seen) (λ row a. true) (seen_so_far (pos 1 ∷ []))
        (record { part = first_alone; looked = 1; rows = 0; due = true ∷ [] }) → ⊥ }
    ensures neither_due_nor_settled { AreRowsFor {R = ℕ} asks_walk false (λ row f. row ≡ length f.seen) (λ row a. true)
        (seen_so_far (pos 1 ∷ [])) (record { part = first_alone; looked = 1; rows = 1; due = false ∷ [] }) → ⊥ }

    ensures rows { IsEitherRight {R = ℕ} asks_walk false true (λ row f. row ≡ length f.seen) (λ row a. true) (seen_so_far (pos 1 ∷ []))
        (side.Rows (record { part = first_alone; looked = 1; rows = 1; due = true ∷ [] })) }
    ensures wrong_rows { IsEitherRight {R = ℕ} asks_walk false true (λ row f. row ≡ length f.seen) (λ row a. true)
        (seen_so_far (pos 1 ∷ [])) (side.Rows (record { part = first_alone; looked = 1; rows = 0; due = true ∷ [] })) → ⊥ }
    ensures searches { IsEitherRight {R = ℕ} asks_walk true true (λ row f. row ≡ length f.seen) (λ row a. true) (seen_so_far [])
        (side.Searches (keeping None None ([] ∷ [] ∷ []) stage.Waits)) }
    ensures wrong_searches { IsEitherRight {R = ℕ} asks_walk false true (λ row f. row ≡ length f.seen) (λ row a. true) (seen_so_far [])
        (side.Searches (keeping None None ([] ∷ [] ∷ []) stage.Waits)) → ⊥ }
{}

/// Rows of the surely present edges are of atoms of the kind, each of them is right after so many literals, each atom has one of them
/// that serves it, and its own target, which is a node.
pub fn rows_of_the_surely_present_edges()
    ensures theirs { AreSureRows {R = ℕ} asks_walk (λ g parts n source row. row ≡ n) (seen_so_far (pos 1 ∷ [])) 1
        (record { rows = 1 ∷ []; row_of = 0 ∷ []; targets = record { node = 1; limit = limit.Free } ∷ [] }) }
    ensures of_another_kind { AreSureRows {R = ℕ} (λ q. false) (λ g parts n source row. row ≡ n) (seen_so_far (pos 1 ∷ [])) 1
        (record { rows = 1 ∷ []; row_of = 0 ∷ []; targets = record { node = 1; limit = limit.Free } ∷ [] }) → ⊥ }
    ensures no_rows { AreSureRows {R = ℕ} asks_walk (λ g parts n source row. row ≡ n) (seen_so_far (pos 1 ∷ [])) 1
        (record { rows = []; row_of = 0 ∷ []; targets = record { node = 1; limit = limit.Free } ∷ [] }) → ⊥ }
    ensures row_behind { AreSureRows {R = ℕ} asks_walk (λ g parts n source row. row ≡ n) (seen_so_far (pos 1 ∷ [])) 1
        (record { rows = 0 ∷ []; row_of = 0 ∷ []; targets = record { node = 1; limit = limit.Free } ∷ [] }) → ⊥ }
    ensures no_such_row { AreSureRows {R = ℕ} asks_walk (λ g parts n source row. row ≡ n) (seen_so_far (pos 1 ∷ [])) 1
        (record { rows = 1 ∷ []; row_of = 1 ∷ []; targets = record { node = 1; limit = limit.Free } ∷ [] }) → ⊥ }
    ensures another_target { AreSureRows {R = ℕ} asks_walk (λ g parts n source row. row ≡ n) (seen_so_far (pos 1 ∷ [])) 1
        (record { rows = 1 ∷ []; row_of = 0 ∷ []; targets = record { node = 0; limit = limit.Free } ∷ [] }) → ⊥ }
    ensures no_such_node { AreSureRows {R = ℕ} asks_walk (λ g parts n source row. row ≡ n)
        (over (parallel 1 1) (atom 1 3 (kind.Reach 0 2) ∷ [])) 0
        (record { rows = 0 ∷ []; row_of = 0 ∷ []; targets = record { node = 2; limit = limit.Free } ∷ [] }) → ⊥ }
{}

/// Rows of the possibly present edges are few, and for graphs with as many nodes. Each atom, and nothing else, has a row, which begins at
/// its first node and measures its walk, and its own target.
pub fn rows_of_the_possible_edges()
    ensures of_more_nodes { AreTargetsOf (record { rows = record { nodes = 3; rows = [] }; row_of = []; targets = [] }) (over (parallel 1 1) [])
        → ⊥ }
    ensures few { (s : PossibleView) (f : Facts) → AreTargetsOf s f → length s.rows.rows < 2 ^ 32 }
    ensures of_more_atoms { AreTargetsOf (record (tree_view 1 (tree_rows (to_node_1 ∷ no_target ∷ []) None None (ways_from 0 [] (0 ∷ 8 ∷ []))))
        { row_of = 1 ∷ 1 ∷ [] }) (facts_with within_7 (pos 1)) → ⊥ }
    ensures another_target { AreTargetsOf (record (tree_view 1 (tree_rows (record { node = 0; limit = limit.Weight (pos 7) } ∷ []) None None
        (ways_from 0 [] (0 ∷ 8 ∷ [])))) { targets = record { node = 0; limit = limit.Weight (pos 7) } ∷ [] }) (facts_with within_7 (pos 1)) → ⊥ }
    ensures from_another_node { AreTargetsOf (tree_view 1 (tree_rows (to_node_1 ∷ []) None None (ways_from 1 [] (8 ∷ 0 ∷ []))))
        (facts_with within_7 (pos 1)) → ⊥ }
    ensures of_steps { AreTargetsOf (tree_view 1 (tree_rows (to_node_1 ∷ []) None None
        (record (ways_from 0 [] (0 ∷ 8 ∷ [])) { limit = limit.Steps (pos 7) }))) (facts_with within_7 (pos 1)) → ⊥ }
{}
