//! Worked rows: which wrong predicate a verdict names, and in which line, what a line adds to those before it, which
//! values and steps a text gives, and the names of reasons.

ghost use Rattle.std.specs.Prelude.{◌≡◌, [], ◌∷◌, true, false, pos, codes, Some, None};
ghost use Rattle.mono_base.specs.Literal.{value_in};
ghost use Rattle.mono_io.specs.Worked.{steady_shelf};
ghost use Rattle.mono_steps.specs.declared.lemma.Witness.TheVariants as by;
ghost use Rattle.mono_steps.specs.declared.step.Step.TheVariants as step;
ghost use Rattle.mono_steps.specs.WorkedLemmas.{chain, minus, of_1};
ghost use Rattle.mono_answer.specs.declared.item.Item.TheVariants as item;
ghost use Rattle.mono_answer.specs.declared.kind.Kind.TheVariants as kind;
ghost use Rattle.mono_check.specs.Answers.{SaysModel, HasSteps};
ghost use Rattle.mono_check.specs.Atoms.{IsWrongAtom};
ghost use Rattle.mono_check.specs.FromShelf.{Feeds, IsUnfed, IsVerdictFrom};
ghost use Rattle.mono_check.specs.Names.{reason_name};
ghost use Rattle.mono_check.specs.SoFar.{AtFault, Nothing, OfModel, model_more, no_steps, no_values, steps_more};
ghost use Rattle.mono_check.specs.Values.{ends_in};
ghost use Rattle.mono_check.specs.Worked.{alone, left, two_edges};
ghost use Rattle.mono_check.specs.Verdicts.{Decided, IsVerdict};
ghost use Rattle.mono_check.specs.declared.reason.Reason.TheVariants as reason;
ghost use Rattle.mono_check.specs.declared.verdict.Verdict.TheVariants as verdict;
ghost use Rattle.mono_rows.specs.Cyclic.{two_predicates};
ghost use Rattle.mono_rows.specs.FedCheckers.{checker_behind};

/// Where all clauses are true, the first predicate whose variable is wrong is named, in the line of the ending 0.
pub fn wrong_predicate()
    ensures wrong { IsVerdict (two_edges []) (codes "s SATISFIABLE\nv 1 2 -3\nv 0\nv\n") (verdict.Rejected 3 (reason.AtomWrong 1)) }
    ensures line_of_the_values { IsVerdict (two_edges []) (codes "s SATISFIABLE\nv 1 2 -3\nv 0\nv\n") (verdict.Rejected 2 (reason.AtomWrong 1)) → ⊥ }
    ensures last_line { IsVerdict (two_edges []) (codes "s SATISFIABLE\nv 1 2 -3\nv 0\nv\n") (verdict.Rejected 4 (reason.AtomWrong 1)) → ⊥ }
    ensures other_predicate { IsVerdict (two_edges []) (codes "s SATISFIABLE\nv 1 2 -3\nv 0\nv\n") (verdict.Rejected 3 (reason.AtomWrong 2)) → ⊥ }
    ensures no_model { IsVerdict (two_edges []) (codes "s SATISFIABLE\nv 1 2 -3\nv 0\nv\n") verdict.Model → ⊥ }
{}

/// The first wrong predicate is named, by its place among the predicates from 1. A variable is wrong where it is true and the
/// predicate fails, and where it is false and the predicate holds.
pub fn first_of_two_predicates()
    ensures both_right { IsVerdict two_predicates (codes "s SATISFIABLE\nv 1 2 3 -4 0\n") verdict.Model }
    ensures second_wrong { IsVerdict two_predicates (codes "s SATISFIABLE\nv 1 2 3 4 0\n") (verdict.Rejected 2 (reason.AtomWrong 2)) }
    ensures not_the_first { IsVerdict two_predicates (codes "s SATISFIABLE\nv 1 2 3 4 0\n") (verdict.Rejected 2 (reason.AtomWrong 1)) → ⊥ }
    ensures not_0 { IsVerdict two_predicates (codes "s SATISFIABLE\nv 1 2 -3 -4 0\n") (verdict.Rejected 2 (reason.AtomWrong 0)) → ⊥ }
    ensures first_wrong { IsVerdict two_predicates (codes "s SATISFIABLE\nv 1 2 -3 -4 0\n") (verdict.Rejected 2 (reason.AtomWrong 1)) }
    ensures not_the_second { IsVerdict two_predicates (codes "s SATISFIABLE\nv 1 2 -3 -4 0\n") (verdict.Rejected 2 (reason.AtomWrong 2)) → ⊥ }
    ensures both_wrong { IsVerdict two_predicates (codes "s SATISFIABLE\nv 1 2 -3 4 0\n") (verdict.Rejected 2 (reason.AtomWrong 1)) }
    ensures not_the_later { IsVerdict two_predicates (codes "s SATISFIABLE\nv 1 2 -3 4 0\n") (verdict.Rejected 2 (reason.AtomWrong 2)) → ⊥ }
    ensures first_true_and_fails { IsVerdict two_predicates (codes "s SATISFIABLE\nv -1 2 3 4 0\n") (verdict.Rejected 2 (reason.AtomWrong 1)) }
    ensures false_and_fails { IsVerdict two_predicates (codes "s SATISFIABLE\nv -1 2 -3 4 0\n") (verdict.Rejected 2 (reason.AtomWrong 1)) → ⊥ }
    ensures behind_one_that_fails { IsVerdict two_predicates (codes "s SATISFIABLE\nv -1 2 3 -4 0\n") (verdict.Rejected 2 (reason.AtomWrong 2)) → ⊥ }
{}

/// What is told of a model's predicates: that none is wrong, or the first that is.
pub fn first_wrong_predicate()
    ensures none { IsWrongAtom two_predicates (value_in (true ∷ true ∷ true ∷ false ∷ [])) None }
    ensures not_none { IsWrongAtom two_predicates (value_in (true ∷ true ∷ true ∷ true ∷ [])) None → ⊥ }
    ensures second { IsWrongAtom two_predicates (value_in (true ∷ true ∷ true ∷ true ∷ [])) (Some 2) }
    ensures not_the_first { IsWrongAtom two_predicates (value_in (true ∷ true ∷ true ∷ true ∷ [])) (Some 1) → ⊥ }
    ensures not_beyond { IsWrongAtom two_predicates (value_in (true ∷ true ∷ true ∷ false ∷ [])) (Some 3) → ⊥ }
{}

/// A line of values adds its literals behind those before it, the line of the first ending 0 stays, and a step adds its
/// clause behind those before it. Chains are counted, lemmas aren't.
pub fn line_behind_lines()
    ensures values { model_more 5 (Some (item.Values (minus 2 ∷ []))) (record { lits = pos 1 ∷ []; end = None; last = 2 })
        ≡ record { lits = pos 1 ∷ minus 2 ∷ []; end = None; last = 5 } }
    ensures end { model_more 5 (Some (item.Values (minus 2 ∷ pos 0 ∷ []))) (record { lits = pos 1 ∷ []; end = None; last = 2 })
        ≡ record { lits = pos 1 ∷ minus 2 ∷ []; end = Some 5; last = 5 } }
    ensures behind_the_end { model_more 5 (Some (item.Values (pos 0 ∷ []))) (record { lits = pos 1 ∷ []; end = Some 3; last = 3 })
        ≡ record { lits = pos 1 ∷ []; end = Some 3; last = 5 } }
    ensures no_values { no_values 4 ≡ record { lits = []; end = None; last = 4 } }
    ensures step_ends_no_values { ends_in (Some (item.Step (chain [] (1 ∷ [])))) ≡ false }
    ensures status_ends_no_values { ends_in (Some (item.Status kind.Model)) ≡ false }
    ensures bad_line_ends_no_values { ends_in None ≡ false }
    ensures chain { steps_more 5 (Some (item.Step (chain (pos 2 ∷ []) (1 ∷ [])))) (record {
      clauses = (pos 1 ∷ []) ∷ [];
      chains = 7;
      ends_empty = true;
      last = 2;
    }) ≡ record { clauses = (pos 1 ∷ []) ∷ (pos 2 ∷ []) ∷ []; chains = 8; ends_empty = false; last = 5 } }
    ensures empty_chain { steps_more 5 (Some (item.Step (chain [] (1 ∷ [])))) (record {
      clauses = (pos 1 ∷ []) ∷ [];
      chains = 0;
      ends_empty = false;
      last = 2;
    }) ≡ record { clauses = (pos 1 ∷ []) ∷ [] ∷ []; chains = 1; ends_empty = true; last = 5 } }
    ensures lemma { steps_more 5 (Some (item.Step (step.Lemma (of_1 [] (by.Path []))))) (record {
      clauses = (pos 1 ∷ []) ∷ [];
      chains = 7;
      ends_empty = true;
      last = 2;
    }) ≡ record { clauses = (pos 1 ∷ []) ∷ [] ∷ []; chains = 7; ends_empty = false; last = 5 } }
    ensures no_steps { no_steps 4 ≡ record { clauses = []; chains = 0; ends_empty = false; last = 4 } }
{}

/// Behind the ending 0 no number comes, also where it stood in a line before.
pub fn values_behind_the_end()
    ensures number { left (OfModel (record { lits = pos 1 ∷ []; end = Some 2; last = 2 })) 2 [] (codes "v 0") ≡ Decided (verdict.Rejected 3 reason.BadLine) }
    ensures no_number { left (OfModel (record { lits = pos 1 ∷ []; end = Some 2; last = 2 })) 2 [] (codes "v")
        ≡ Decided (verdict.Rejected 2 (reason.ClauseFalse 2)) }
{}

/// A verdict from a shelf is the one on the text that was read whole, within the limit.
pub fn verdicts_from_a_shelf()
    ensures read { IsVerdictFrom (two_edges []) (codes "f") 10 (steady_shelf ((codes "f", codes "s UNKNOWN\n") ∷ []) [] None 0 0)
        (steady_shelf ((codes "f", codes "s UNKNOWN\n") ∷ []) (codes "f") (Some 10) 1 0) (verdict.Progress 0) }
    ensures other_verdict { IsVerdictFrom (two_edges []) (codes "f") 10 (steady_shelf ((codes "f", codes "s UNKNOWN\n") ∷ []) [] None 0 0)
        (steady_shelf ((codes "f", codes "s UNKNOWN\n") ∷ []) (codes "f") (Some 10) 1 0) (verdict.Progress 1) → ⊥ }
    ensures not_read { IsVerdictFrom (two_edges []) (codes "f") 10 (steady_shelf ((codes "f", codes "s UNKNOWN\n") ∷ []) [] None 0 0)
        (steady_shelf ((codes "f", codes "s UNKNOWN\n") ∷ []) (codes "f") (Some 9) 1 0) (verdict.Progress 0) → ⊥ }
    ensures other_text { IsVerdictFrom (two_edges []) (codes "f") 10 (steady_shelf ((codes "f", codes "unknown!!\n") ∷ []) [] None 0 0)
        (steady_shelf ((codes "f", codes "unknown!!\n") ∷ []) (codes "f") (Some 10) 1 0) (verdict.Progress 0) → ⊥ }
{}

/// A checker is new where it is live and was fed nothing.
pub fn unfed_checkers()
    ensures new { IsUnfed (checker_behind Nothing 0 0) }
    ensures fed { IsUnfed (checker_behind Nothing 0 1) → ⊥ }
    ensures dead { IsUnfed (record (checker_behind Nothing 0 0) { is_live = false }) → ⊥ }
{}

/// What a checker is after a line feed: it counts a line and a byte, and keeps its problem and its life.
pub fn fed_checkers()
    ensures line_uncounted { Feeds (checker_behind Nothing 0 0) (codes "\n") (checker_behind Nothing 0 1) → ⊥ }
    ensures byte_uncounted { Feeds (checker_behind Nothing 0 0) (codes "\n") (checker_behind Nothing 1 0) → ⊥ }
    ensures other_problem { Feeds (checker_behind (AtFault 1 reason.NotAnswer) 0 0) (codes "\n")
        (record (checker_behind (AtFault 1 reason.NotAnswer) 1 1) { problem = alone 2 }) → ⊥ }
    ensures dead { Feeds (checker_behind Nothing 0 0) (codes "\n") (record (checker_behind Nothing 1 1) { is_live = false }) → ⊥ }
{}

/// The values of a text are those that its lines of values say: a literal over each variable, in any order, and the ending 0.
pub fn values_of_a_text()
    ensures values { SaysModel (alone 2) (codes "s SATISFIABLE\nv -2\nv 1 0\n") (true ∷ false ∷ []) }
    ensures other_values { SaysModel (alone 2) (codes "s SATISFIABLE\nv -2\nv 1 0\n") (true ∷ true ∷ []) → ⊥ }
    ensures variable_missing { SaysModel (alone 2) (codes "s SATISFIABLE\nv 1 0\n") (true ∷ false ∷ []) → ⊥ }
    ensures variable_twice { SaysModel (alone 1) (codes "s SATISFIABLE\nv 1 -1 0\n") (true ∷ []) → ⊥ }
    ensures variable_beyond { SaysModel (alone 1) (codes "s SATISFIABLE\nv 1 2 0\n") (true ∷ []) → ⊥ }
    ensures no_end { SaysModel (alone 1) (codes "s SATISFIABLE\nv 1\n") (true ∷ []) → ⊥ }
    ensures other_line { SaysModel (alone 1) (codes "s SATISFIABLE\nv 1 0\nchain 1 0 1\n") (true ∷ []) → ⊥ }
    ensures other_kind { SaysModel (alone 1) (codes "s UNKNOWN\nv 1 0\n") (true ∷ []) → ⊥ }
{}

/// The steps of a text are those of its lines behind a status line of that kind, in order and no more.
pub fn steps_of_a_text()
    ensures steps { HasSteps 1 kind.Progress (codes "s UNKNOWN\nchain 1 0 1\nchain 1 0 2\n") (chain (pos 1 ∷ []) (1 ∷ [])
        ∷ chain (pos 1 ∷ []) (2 ∷ []) ∷ []) }
    ensures other_order { HasSteps 1 kind.Progress (codes "s UNKNOWN\nchain 1 0 1\nchain 1 0 2\n") (chain (pos 1 ∷ []) (2 ∷ [])
        ∷ chain (pos 1 ∷ []) (1 ∷ []) ∷ []) → ⊥ }
    ensures first_alone { HasSteps 1 kind.Progress (codes "s UNKNOWN\nchain 1 0 1\nchain 1 0 2\n") (chain (pos 1 ∷ []) (1 ∷ []) ∷ []) → ⊥ }
    ensures other_kind { HasSteps 1 kind.Refutation (codes "s UNKNOWN\nchain 1 0 1\n") (chain (pos 1 ∷ []) (1 ∷ []) ∷ []) → ⊥ }
    ensures values { HasSteps 1 kind.Model (codes "s SATISFIABLE\nv 1 0\n") [] → ⊥ }
{}

/// The name of each reason.
pub fn names_of_reasons()
    ensures not_answer { reason_name reason.NotAnswer ≡ codes "NotAnswer" }
    ensures bad_line { reason_name reason.BadLine ≡ codes "BadLine" }
    ensures unknown_atom { reason_name reason.UnknownAtom ≡ codes "UnknownAtom" }
    ensures wrong_kind { reason_name reason.WrongKind ≡ codes "WrongKind" }
    ensures unknown_number { reason_name reason.UnknownNumber ≡ codes "UnknownNumber" }
    ensures missing_literal { reason_name reason.MissingLiteral ≡ codes "MissingLiteral" }
    ensures witness_fails { reason_name reason.WitnessFails ≡ codes "WitnessFails" }
    ensures chain_stuck { reason_name reason.ChainStuck ≡ codes "ChainStuck" }
    ensures not_covered { reason_name reason.NotCovered ≡ codes "NotCovered" }
    ensures no_empty_clause { reason_name reason.NoEmptyClause ≡ codes "NoEmptyClause" }
    ensures model_variables { reason_name reason.ModelVariables ≡ codes "ModelVariables" }
    ensures clause_false { reason_name (reason.ClauseFalse 1) ≡ codes "ClauseFalse" }
    ensures atom_wrong { reason_name (reason.AtomWrong 1) ≡ codes "AtomWrong" }
{}
