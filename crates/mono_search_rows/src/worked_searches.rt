//! Worked rows: what a search decides, what it saves where it goes back, what it counts, and which theories it is to ask.

ghost use Rattle.std.specs.Prelude.{◌≡◌, List, [], ◌∷◌, pos, true, false, None};
ghost use Rattle.mono_graph.specs.Worked.{lone};
ghost use Rattle.mono_steps.specs.declared.step.Step.{Step};
ghost use Rattle.mono_steps.specs.WorkedLemmas.{minus};
ghost use Rattle.mono_theory.specs.Worked.{reaches};
ghost use Rattle.mono_trail.specs.declared.reason.Reason.TheVariants.{Decided};
ghost use Rattle.mono_trail.specs.Moves.{joined};
ghost use Rattle.mono_trail.specs.TrailView.{no_literals};
ghost use Rattle.mono_search.specs.Outcomes.{IsSpent};
ghost use Rattle.mono_search.specs.Restarts.{Counts};
ghost use Rattle.mono_search.specs.Runs.{CountsAndGoesBack, DecidesBySign, GoesBack, TurnsSigns};
ghost use Rattle.mono_search.specs.State.{StateView};
ghost use Rattle.mono_search.specs.TheoryLists.{AreListed, AreOwners, OthersAreQuiet};
ghost use Rattle.mono_search.specs.Worked.{after, theory, two_clauses};
ghost use Rattle.mono_search_rows.specs.Worked.{decided_at_1};

/// The sign of each literal that is dropped is saved, and no other: a restart drops all, and else those above the level stay.
pub fn signs_saved_where_it_goes_back()
    ensures dropped { (v w : StateView) → (h : GoesBack v w false) → h.settled.lits ≡ minus 1 ∷ [] → h.settled.marks ≡ decided_at_1
        → h.learnt.back_to ≡ 0 → v.order.phases ≡ true ∷ [] → w.order.phases ≡ true ∷ [] → ⊥ }
    ensures stays { (v w : StateView) → (h : GoesBack v w false) → h.settled.lits ≡ minus 1 ∷ [] → h.settled.marks ≡ decided_at_1
        → h.learnt.back_to ≡ 1 → v.order.phases ≡ true ∷ [] → w.order.phases ≡ false ∷ [] → ⊥ }
    ensures restart { (v w : StateView) → (h : GoesBack v w true) → h.settled.lits ≡ minus 1 ∷ [] → h.settled.marks ≡ decided_at_1
        → h.learnt.back_to ≡ 1 → v.order.phases ≡ true ∷ [] → w.order.phases ≡ true ∷ [] → ⊥ }
{}

/// A decision saves no sign.
pub fn signs_at_a_decision()
    ensures { (v w : StateView) → v.order.phases ≡ true ∷ true ∷ [] → w.order.phases ≡ false ∷ true ∷ [] → DecidesBySign v w → ⊥ }
{}

/// The search begins anew exactly where the counts say so.
pub fn restarts_as_counted()
    ensures due { (v w : StateView) → w.trail.level ≡ 1 → CountsAndGoesBack (after 99 0) (after 0 1) v w → ⊥ }
    ensures not_due { (v w : StateView) → (h : CountsAndGoesBack (after 0 0) (after 1 0) v w) → w.trail.level ≡ h.back.learnt.back_to }
{}

/// Signs are turned at restarts alone, and nothing else changes by it.
pub fn signs_turned_at_restarts()
    ensures at_restarts_alone { (v w : StateView) → v.order.phases ≡ true ∷ [] → w.order.phases ≡ false ∷ [] → TurnsSigns false v w → ⊥ }
    ensures same_trail { (v w : StateView) → TurnsSigns true v w → w.trail ≡ v.trail }
    ensures same_steps { (v w : StateView) → TurnsSigns true v w → w.steps ≡ v.steps }
{}

/// Clauses and restarts are counted up to the end of their range, and there the counts stand still.
pub fn counts_up_to_their_end()
    ensures beyond_a_byte { Counts (after 300 0) (after 0 0) false → ⊥ }
    ensures last_clause { Counts (after 18446744073709551613 0) (after 0 0) false → ⊥ }
    ensures last_restart { Counts (after 0 18446744073709551613) (after 5 5) false → ⊥ }
    ensures clauses_stand_still { Counts (after 18446744073709551614 0) (after 5 5) false }
    ensures restarts_stand_still { Counts (after 0 18446744073709551614) (after 5 5) false }
{}

/// A variable without a value is decided, and where there are no theories never true if its sign wasn't saved as true.
pub fn decided_variables()
    ensures saved_as_false { (v w : StateView) → v.theories.facts ≡ [] → v.order.phases ≡ false ∷ false ∷ [] → v.trail ≡ no_literals 2
        → w.trail ≡ joined (no_literals 2) (pos 2) Decided → DecidesBySign v w → ⊥ }
    ensures with_a_value { (v w : StateView) → v.trail ≡ joined (no_literals 1) (pos 1) Decided
        → w.trail ≡ joined (joined (no_literals 1) (pos 1) Decided) (pos 1) Decided → DecidesBySign v w → ⊥ }
{}

/// The search goes back once a clause was learned, over a trail on which late reasons alone were settled.
pub fn what_it_goes_back_with()
    ensures nothing_learned { (v w : StateView) → w.steps ≡ v.steps → GoesBack v w false → ⊥ }
    ensures other_literals { (v w : StateView) → (h : GoesBack v w false) → v.trail.lits ≡ minus 1 ∷ [] → h.settled.lits ≡ minus 2 ∷ [] → ⊥ }
{}

/// Over two variables no nine clauses are learned, so no budget of nine is spent.
pub fn budgets_beyond_all_clauses()
    ensures { (steps : List Step) → IsSpent 9 0 two_clauses steps → ⊥ }
{}

/// Theories that were to be asked still are, and there is a mark for each theory. The table of owners has a place for each atom.
pub fn lists_of_theories()
    ensures no_longer_listed { AreListed (0 ∷ 0 ∷ []) (true ∷ false ∷ []) (false ∷ false ∷ []) → ⊥ }
    ensures mark_of_no_theory { OthersAreQuiet [] (true ∷ []) → ⊥ }
    ensures no_place { AreOwners (theory lone reaches [] ∷ []) (None ∷ []) → ⊥ }
{}
