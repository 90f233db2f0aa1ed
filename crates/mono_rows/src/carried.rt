//! Worked rows: which steps may be carried to other clauses, tables of new numbers, and what a step may name.

ghost use Rattle.std.specs.Prelude.{[], ◌∷◌, false, true, pos};
ghost use Rattle.mono_steps.specs.Needed.{StepNamesHeld};
ghost use Rattle.mono_steps.specs.Renumbering.{IsTable, MayBeCarried};
ghost use Rattle.mono_steps.specs.Trimmed.{renumbered};
ghost use Rattle.mono_steps.specs.WorkedLemmas.{barred, chain, edge_1_reaches, minus};

/// A step is carried with the number of its place where the graphs and predicates are the same, its variables are there, each
/// clause that it names is there, and each step that it names comes along. A lemma names nothing.
pub fn carried_steps()
    ensures lemma { MayBeCarried barred barred barred.clauses [] (true ∷ []) (renumbered 0 []) (edge_1_reaches ∷ []) }
    ensures chain { MayBeCarried barred barred barred.clauses ((pos 1 ∷ []) ∷ []) (true ∷ []) (renumbered 1 []) (chain (pos 1 ∷ []) (1 ∷ []) ∷ []) }
    ensures another_number { MayBeCarried barred barred barred.clauses [] (true ∷ []) (λ n. 2) (edge_1_reaches ∷ []) → ⊥ }
    ensures no_graph { MayBeCarried barred (record barred { graphs = [] }) barred.clauses [] (true ∷ []) (renumbered 0 []) (edge_1_reaches ∷ []) → ⊥ }
    ensures no_predicate { MayBeCarried barred (record barred { atoms = [] }) barred.clauses [] (true ∷ []) (renumbered 0 []) (edge_1_reaches ∷ []) → ⊥ }
    ensures unknown_variable { MayBeCarried barred (record barred { vars = 2 }) barred.clauses [] (true ∷ []) (renumbered 0 []) (edge_1_reaches ∷ []) → ⊥ }
    ensures dropped_clause { MayBeCarried barred barred barred.clauses ((pos 1 ∷ []) ∷ []) (true ∷ []) (renumbered 1 []) (chain (minus 3 ∷ []) (2
        ∷ []) ∷ []) → ⊥ }
    ensures dropped_step { MayBeCarried barred barred barred.clauses barred.clauses (false ∷ true ∷ []) (renumbered 2 (false
        ∷ true ∷ [])) (edge_1_reaches ∷ chain (minus 1 ∷ pos 3 ∷ []) (3 ∷ []) ∷ []) → ⊥ }
{}

/// By a table the first clauses keep their numbers, down to 0 and up to the last of them. Those behind have the ones in it.
pub fn tables_of_numbers()
    ensures table { IsTable 2 (3 ∷ []) (renumbered 2 []) }
    ensures another_below { IsTable 0 (3 ∷ []) (λ n. 3) → ⊥ }
    ensures another_in_it { IsTable 2 (5 ∷ []) (λ n. n) → ⊥ }
{}

/// A chain may name clauses of the problem and as many steps as are held, and a lemma names none.
pub fn steps_that_name_what_is_held()
    ensures lemma { StepNamesHeld 2 0 edge_1_reaches }
    ensures last { StepNamesHeld 2 1 (chain [] (3 ∷ [])) }
    ensures beyond { StepNamesHeld 2 1 (chain [] (4 ∷ [])) → ⊥ }
{}
