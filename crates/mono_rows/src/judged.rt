//! Worked rows: the verdicts that values don't have, which answers a text stands for, and models and refutations that are
//! migrated.

ghost use Rattle.std.specs.Prelude.{[], ◌∷◌, pos, true, false, codes};
ghost use Rattle.mono_steps.specs.WorkedLemmas.{chain, minus};
ghost use Rattle.mono_answer.specs.declared.answer.Answer.TheVariants as answer;
ghost use Rattle.mono_answer.specs.declared.version.Version.TheVariants as version;
ghost use Rattle.mono_check.specs.Answers.{SaysModel};
ghost use Rattle.mono_check.specs.Migrations.{IsMigrated, StandsFor};
ghost use Rattle.mono_check.specs.Verdicts.{IsVerdict};
ghost use Rattle.mono_check.specs.Worked.{alone};
ghost use Rattle.mono_check.specs.declared.migrated.Migrated.TheVariants as migrated;
ghost use Rattle.mono_check.specs.declared.reason.Reason.TheVariants as reason;
ghost use Rattle.mono_check.specs.declared.verdict.Verdict.TheVariants as verdict;

/// Values that satisfy a problem are a model, and neither a refutation nor progress, and no clause is false.
pub fn verdicts_that_values_lack()
    ensures model { IsVerdict (alone 1) (codes "s SATISFIABLE\nv 1 0\n") verdict.Model }
    ensures refutation { IsVerdict (alone 1) (codes "s SATISFIABLE\nv 1 0\n") verdict.Refutation → ⊥ }
    ensures progress { IsVerdict (alone 1) (codes "s SATISFIABLE\nv 1 0\n") (verdict.Progress 0) → ⊥ }
    ensures clause_false { IsVerdict (alone 1) (codes "s SATISFIABLE\nv 1 0\n") (verdict.Rejected 2 (reason.ClauseFalse 1)) → ⊥ }
{}

/// The first variable has its literal among the values of a text, as the others have.
pub fn values_without_the_first_variable()
    ensures alone { SaysModel (alone 1) (codes "s SATISFIABLE\nv 0\n") (false ∷ []) → ⊥ }
    ensures beside_another { SaysModel (alone 2) (codes "s SATISFIABLE\nv 2 0\n") (false ∷ true ∷ []) → ⊥ }
{}

/// A text stands for the answer of its own kind with its own values or steps, whether it is accepted or not.
pub fn answers_that_texts_stand_for()
    ensures model { StandsFor (alone 1) (codes "s SATISFIABLE\nv 1 0\n") (answer.Model (true ∷ [])) }
    ensures refutation { StandsFor (alone 1) (codes "s UNSATISFIABLE\nchain 0 1\n") (answer.Refutation (chain [] (1 ∷ []) ∷ [])) }
    ensures progress { StandsFor (alone 1) (codes "s UNKNOWN\nchain 0 1\n") (answer.Progress (chain [] (1 ∷ []) ∷ [])) }
    ensures progress_for_a_refutation { StandsFor (alone 1) (codes "s UNKNOWN\nchain 0 1\n") (answer.Refutation (chain [] (1 ∷ []) ∷ [])) → ⊥ }
    ensures refutation_for_progress { StandsFor (alone 1) (codes "s UNSATISFIABLE\nchain 0 1\n") (answer.Progress (chain [] (1 ∷ []) ∷ [])) → ⊥ }
    ensures model_for_progress { StandsFor (alone 1) (codes "s SATISFIABLE\nv 1 0\n") (answer.Progress []) → ⊥ }
    ensures step_dropped { StandsFor (alone 1) (codes "s UNSATISFIABLE\nchain 0 1\n") (answer.Refutation []) → ⊥ }
{}

/// Accepted models and refutations are migrated as progress is, and not to a model or progress in their place.
pub fn migrated_models_and_refutations()
    ensures model { IsMigrated (alone 1) (codes "version 2\ns SATISFIABLE\nv 1 0\n") version.One (migrated.Text (codes "s SATISFIABLE\nv 1 0\n")) }
    ensures refutation { IsMigrated (record {
      vars = 1;
      graphs = [];
      atoms = [];
      clauses = (pos 1 ∷ []) ∷ (minus 1 ∷ []) ∷ [];
    }) (codes "s UNSATISFIABLE\nchain 0 1 2\n") version.Two (migrated.Text (codes "version 2\ns UNSATISFIABLE\nchain 0 2 1\n")) }
    ensures progress_to_a_refutation { IsMigrated (alone 1) (codes "s UNKNOWN\n") version.One (migrated.Text (codes "s UNSATISFIABLE\n")) → ⊥ }
    ensures model_to_progress { IsMigrated (alone 1) (codes "s SATISFIABLE\nv 1 0\n") version.One (migrated.Text (codes "s UNKNOWN\n")) → ⊥ }
{}
