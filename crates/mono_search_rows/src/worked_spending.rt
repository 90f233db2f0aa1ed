//! Worked rows: when a budget is spent, which predicates flows speak of, and what loses a flow.

ghost use Rattle.std.specs.Prelude.{[], ◌∷◌, pos, true};
ghost use Rattle.mono_graph.specs.Worked.{edge, single};
ghost use Rattle.mono_problem.specs.declared.atom.Predicate.TheVariants as kind;
ghost use Rattle.mono_steps.specs.New.{AreNew};
ghost use Rattle.mono_flow.specs.KeptFlows.{GivesToLost, IsDecidedBy, IsFlowFor};
ghost use Rattle.mono_search.specs.Outcomes.{EndsAs, IsSpent};
ghost use Rattle.mono_search.specs.Worked.{first_learned, two_clauses};
ghost use Rattle.mono_search.specs.declared.search.Outcome.TheVariants as outcome;

/// A run ends with neither a model nor a refutation where its budget is spent.
pub fn runs_that_spend_their_budget()
    ensures { EndsAs 1 0 two_clauses first_learned outcome.Unknown }
{}

/// Over no variables a budget of 1 isn't spent, even on a clause that is new.
pub fn budgets_over_no_variables()
    ensures new { AreNew (record two_clauses { vars = 0 }) first_learned }
    ensures spent { IsSpent 1 0 (record two_clauses { vars = 0 }) first_learned → ⊥ }
{}

/// Of a predicate that isn't on flows nothing is said, whatever an edge carries.
pub fn flows_for_other_predicates()
    ensures told { IsFlowFor (single (edge 1 0 1 5)) (true ∷ []) (kind.Reach 0 1) (λ _. 6) }
    ensures decides { IsDecidedBy (single (edge 1 0 1 5)) (true ∷ []) (kind.Reach 0 1) (λ _. 6) }
{}

/// What is lost was given to an edge of the graph. A place without an edge has the variable 0.
pub fn flows_beyond_the_edges()
    ensures { GivesToLost (single (edge 1 0 1 5)) (pos 0) (λ _. 1) → ⊥ }
{}
