//! Worked rows: numbers that count backwards, version lines, and answers that are migrated.

ghost use Rattle.std.specs.Prelude.{◌≡◌, ◌-◌, ◌^◌, [], ◌∷◌, pos, negsuc, true, false, codes, Some};
ghost use Rattle.mono_steps.specs.declared.step.Step.TheVariants as step;
ghost use Rattle.mono_answer.specs.declared.answer.Answer.TheVariants as answer;
ghost use Rattle.mono_answer.specs.declared.item.Item.TheVariants as item;
ghost use Rattle.mono_answer.specs.declared.kind.Kind.TheVariants as kind;
ghost use Rattle.mono_answer.specs.declared.version.Version.TheVariants as version;
ghost use Rattle.mono_answer.specs.Items.{items_of};
ghost use Rattle.mono_answer.specs.Versions.{answer_names_earlier, turned};
ghost use Rattle.mono_check.specs.declared.migrated.Migrated.TheVariants as migrated;
ghost use Rattle.mono_check.specs.declared.reason.Reason.TheVariants as reason;
ghost use Rattle.mono_check.specs.declared.verdict.Verdict.TheVariants as verdict;
ghost use Rattle.mono_check.specs.Migrations.{FitsMemory, IsMigrated};
ghost use Rattle.mono_check.specs.SoFar.{Nothing, OfSteps, OfVersion, no_steps};
ghost use Rattle.mono_check.specs.Verdicts.{Decided};
ghost use Rattle.mono_check.specs.Worked.{alone, left};

/// Each step names earlier clauses, the first and the last too, and by each of its numbers.
pub fn each_step_names_earlier_clauses()
    ensures model { answer_names_earlier 1 (answer.Model (true ∷ [])) ≡ true }
    ensures second_step { answer_names_earlier 1 (answer.Progress (step.Chain (record { clause = []; used = 1 ∷ [] })
        ∷ step.Chain (record { clause = []; used = 3 ∷ [] }) ∷ [])) ≡ false }
    ensures first_step { answer_names_earlier 1 (answer.Progress (step.Chain (record { clause = []; used = 2 ∷ [] })
        ∷ step.Chain (record { clause = []; used = 1 ∷ [] }) ∷ [])) ≡ false }
    ensures second_number { answer_names_earlier 1 (answer.Refutation (step.Chain (record { clause = []; used = 1 ∷ 2 ∷ [] }) ∷ [])) ≡ false }
    ensures first_number { answer_names_earlier 1 (answer.Refutation (step.Chain (record { clause = []; used = 2 ∷ 1 ∷ [] }) ∷ [])) ≡ false }
{}

/// The literals of a chain stand as they are written, in both versions.
pub fn clauses_stay_as_they_are()
    ensures items { items_of 1 (codes "version 2\ns UNKNOWN\nchain 1 -2 0 1\n") ≡ (2, Some (item.Status kind.Progress))
        ∷ (3, Some (item.Step (step.Chain (record { clause = pos 1 ∷ negsuc 1 ∷ []; used = 1 ∷ [] })))) ∷ [] }
    ensures step { turned 4 (step.Chain (record { clause = pos 1 ∷ negsuc 1 ∷ []; used = 1 ∷ 3 ∷ [] }))
        ≡ step.Chain (record { clause = pos 1 ∷ negsuc 1 ∷ []; used = 3 ∷ 1 ∷ [] }) }
{}

/// A version line with nothing behind it is named by its number, also behind comments and in pieces.
pub fn version_lines_alone()
    ensures in_pieces { left Nothing 4 (codes "vers") (codes "ion 2\n") ≡ Decided (verdict.Rejected 5 reason.NotAnswer) }
    ensures behind_a_comment { left Nothing 0 (codes "c") (codes "\n\nversion 2\nc\n") ≡ Decided (verdict.Rejected 3 reason.NotAnswer) }
{}

/// Behind a version line a chain's numbers count backwards from its own, over the clauses and the steps before it, and else
/// they are those of the clauses.
pub fn numbers_turned_behind()
    ensures steps { left (OfSteps version.Two false (record { clauses = (negsuc 0 ∷ []) ∷ []; chains = 1; ends_empty = false; last = 3 })) 3 []
        (codes "chain 1 0 3") ≡ Decided (verdict.Progress 2) }
    ensures first_step { left (OfVersion 1) 1 [] (codes "s UNKNOWN\nchain 1 0 2") ≡ Decided (verdict.Progress 1) }
    ensures as_written { left (OfSteps version.One false (no_steps 1)) 1 [] (codes "chain 1 0 1") ≡ Decided (verdict.Progress 1) }
{}

/// What is accepted is migrated to the version that is asked for, its chains turned by clauses and steps.
pub fn migrated_answers()
    ensures to_one { IsMigrated (alone 1) (codes "version 2\ns UNKNOWN\n") version.One (migrated.Text (codes "s UNKNOWN\n")) }
    ensures turned { IsMigrated (record {
      vars = 1;
      graphs = [];
      atoms = [];
      clauses = (pos 1 ∷ [])
          ∷ (pos 1 ∷ []) ∷ [];
    }) (codes "s UNKNOWN\nchain 1 0 1\n") version.Two (migrated.Text (codes "version 2\ns UNKNOWN\nchain 1 0 2\n")) }
    ensures rejected { IsMigrated (alone 1) (codes "s UNKNOWN\nchain 0 1\n") version.One (migrated.Text (codes "s UNKNOWN\nchain 0 1\n")) → ⊥ }
    ensures other_version { IsMigrated (alone 1) (codes "s UNKNOWN\n") version.Two (migrated.Text (codes "s UNKNOWN\n")) → ⊥ }
{}

/// Memory holds fewer than 2^64 clauses and steps, and literals of the format.
pub fn answers_in_memory()
    ensures greatest { FitsMemory (2 ^ 64 - 1) (answer.Progress []) }
    ensures too_many { FitsMemory (2 ^ 64) (answer.Progress []) → ⊥ }
    ensures one_step { FitsMemory (2 ^ 64 - 2) (answer.Progress (step.Chain (record { clause = []; used = 1 ∷ [] }) ∷ [])) }
    ensures one_step_too_many { FitsMemory (2 ^ 64 - 1) (answer.Progress (step.Chain (record { clause = []; used = 1 ∷ [] }) ∷ [])) → ⊥ }
    ensures no_literal { FitsMemory 0 (answer.Refutation (step.Chain (record { clause = pos 0 ∷ []; used = 1 ∷ [] }) ∷ [])) → ⊥ }
{}

/// The text that is printed is of the answer that was read.
pub fn other_answers()
    ensures model { IsMigrated (alone 1) (codes "s UNKNOWN\n") version.One (migrated.Text (codes "s SATISFIABLE\nv 1 0\n")) → ⊥ }
{}
