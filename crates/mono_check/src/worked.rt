//! Rows that were worked by hand, as the definitions compute them. A problem is given by its clauses over the variables
//! from 1 to a number, and an answer by its text. Of a model the values are told, which the predicates decide on.

ghost use Rattle.std.specs.Prelude.{◌≡◌, [], ◌∷◌, pos, negsuc, codes, true, false, None};
ghost use Rattle.mono_check.specs.SoFar.{Nothing, OfVersion, OfModel, OfSteps, AtFault, no_steps};
ghost use Rattle.mono_check.specs.Worked.{alone, judged, left, reached};
ghost use Rattle.mono_check.specs.Migrations.{IsMigrated, has_literals, one_line_later};
ghost use Rattle.mono_steps.specs.declared.step.Step.TheVariants as step;
ghost use Rattle.mono_steps.specs.declared.lemma.Witness.TheVariants as witness;
ghost use Rattle.mono_check.specs.declared.migrated.Migrated.TheVariants as migrated;
ghost use Rattle.mono_check.specs.Verdicts.{Decided, ValuesIn};
ghost use Rattle.mono_answer.specs.declared.version.Version.TheVariants as version;
ghost use Rattle.mono_check.specs.declared.reason.Reason.TheVariants as reason;
ghost use Rattle.mono_check.specs.declared.verdict.Verdict.TheVariants as verdict;

/// Worked refutations and progress.
pub fn worked_steps()
    ensures refutation { judged 1 ((pos 1 ∷ []) ∷ (negsuc 0 ∷ []) ∷ []) (codes "s UNSATISFIABLE\nchain 0 1 2\n") ≡ Decided verdict.Refutation }
    ensures progress { judged 2 ((pos 1 ∷ pos 2 ∷ []) ∷ (negsuc 0 ∷ pos 2 ∷ []) ∷ []) (codes "s UNKNOWN\nchain 2 0 1 2\n") ≡ Decided (verdict.Progress 1) }
    ensures both_signs { judged 1 ((pos 1 ∷ negsuc 0 ∷ []) ∷ (pos 1 ∷ []) ∷ []) (codes "s UNKNOWN\nchain 1 0 2 1\n") ≡ Decided (verdict.Progress 1) }
    ensures no_steps { judged 1 ((pos 1 ∷ []) ∷ (negsuc 0 ∷ []) ∷ []) (codes "s UNKNOWN") ≡ Decided (verdict.Progress 0) }
    ensures empty_clause_counts { judged 1 ((pos 1 ∷ []) ∷ (negsuc 0 ∷ []) ∷ []) (codes "s UNKNOWN\nchain 0 1 2") ≡ Decided (verdict.Progress 1) }
    ensures one_clause { judged 2 ((pos 1 ∷ []) ∷ []) (codes "s UNKNOWN\nchain 2 1 0 1") ≡ Decided (verdict.Progress 1) }
    ensures names_a_step { judged 2 ((pos 1 ∷ pos 2 ∷ []) ∷ (negsuc 0 ∷ pos 2 ∷ [])
        ∷ (negsuc 1 ∷ []) ∷ []) (codes "s UNSATISFIABLE\nc two steps\n\nchain 2 0 1 2\nchain 0 4 3\n") ≡ Decided verdict.Refutation }
    ensures names_the_first_step { judged 2 ((pos 1 ∷ []) ∷ (negsuc 0 ∷ pos 2 ∷ [])
        ∷ (negsuc 1 ∷ []) ∷ []) (codes "s UNSATISFIABLE\nchain 2 0 1 2\nchain -2 0 3\nchain 0 4 3\n") ≡ Decided verdict.Refutation }
    ensures blanks { judged 1 ((pos 1 ∷ []) ∷ (negsuc 0 ∷ []) ∷ []) (codes "c\n\n s\tUNSATISFIABLE\r\nchain  -0 001 2") ≡ Decided verdict.Refutation }
{}

/// Worked models.
pub fn worked_models()
    ensures model { judged 2 ((pos 1 ∷ negsuc 1 ∷ []) ∷ []) (codes "s SATISFIABLE\nv 1 -2 0\n") ≡ ValuesIn 2 (true ∷ false ∷ []) }
    ensures lines { judged 2 ((pos 1 ∷ negsuc 1 ∷ []) ∷ []) (codes "s SATISFIABLE\nv\nv -2\nv 1\nv 0\nv\n") ≡ ValuesIn 5 (true ∷ false ∷ []) }
    ensures no_variables { judged 0 [] (codes "s SATISFIABLE\nv 0") ≡ ValuesIn 2 [] }
    ensures clause_false { judged 2 ((pos 1 ∷ []) ∷ (pos 2 ∷ []) ∷ (negsuc 0 ∷ []) ∷ []) (codes "s SATISFIABLE\nv 1 -2 0")
        ≡ Decided (verdict.Rejected 2 (reason.ClauseFalse 2)) }
    ensures missing { judged 2 [] (codes "s SATISFIABLE\nv 1 0") ≡ Decided (verdict.Rejected 2 reason.ModelVariables) }
    ensures twice { judged 2 [] (codes "s SATISFIABLE\nv 1 2\nv 2 0") ≡ Decided (verdict.Rejected 3 reason.ModelVariables) }
    ensures both_signs { judged 2 [] (codes "s SATISFIABLE\nv 1 2 -1 0") ≡ Decided (verdict.Rejected 2 reason.ModelVariables) }
    ensures beyond { judged 2 [] (codes "s SATISFIABLE\nv 1 2 -3 0") ≡ Decided (verdict.Rejected 2 reason.ModelVariables) }
    ensures no_end { judged 1 [] (codes "s SATISFIABLE\nv 1\nc 0\n") ≡ Decided (verdict.Rejected 2 reason.BadLine) }
    ensures no_lines { judged 1 [] (codes "\ns SATISFIABLE\n") ≡ Decided (verdict.Rejected 2 reason.BadLine) }
    ensures number_behind_end { judged 1 [] (codes "s SATISFIABLE\nv 1 1 0 1") ≡ Decided (verdict.Rejected 2 reason.BadLine) }
    ensures second_end { judged 1 [] (codes "s SATISFIABLE\nv 1 0\nv 0") ≡ Decided (verdict.Rejected 3 reason.BadLine) }
    ensures numbers_behind_end { judged 2 [] (codes "s SATISFIABLE\nv 0 1 2\nv 0") ≡ Decided (verdict.Rejected 2 reason.BadLine) }
    ensures end_behind_empty_line { judged 1 [] (codes "s SATISFIABLE\nv 1 0\nv\nv 0") ≡ Decided (verdict.Rejected 4 reason.BadLine) }
    ensures behind_a_comment { judged 1 [] (codes "s SATISFIABLE\nc\nv 2 0") ≡ Decided (verdict.Rejected 3 reason.ModelVariables) }
    ensures too_large { judged 1 [] (codes "s SATISFIABLE\nv 2 1000001 0") ≡ Decided (verdict.Rejected 2 reason.BadLine) }
    ensures lemma_word { judged 1 [] (codes "s SATISFIABLE\npath 1 1 0") ≡ Decided (verdict.Rejected 2 reason.BadLine) }
    ensures step { judged 1 ((pos 1 ∷ []) ∷ []) (codes "s SATISFIABLE\nchain 1 0 1") ≡ Decided (verdict.Rejected 2 reason.BadLine) }
    ensures step_before_values { judged 1 ((pos 1 ∷ []) ∷ []) (codes "s SATISFIABLE\nchain 1 0 1\nv 1 0") ≡ Decided (verdict.Rejected 2 reason.BadLine) }
    ensures status_behind_values { judged 1 [] (codes "s SATISFIABLE\nv 1 0\ns SATISFIABLE") ≡ Decided (verdict.Rejected 3 reason.BadLine) }
    ensures unknown_behind_values { judged 1 [] (codes "s SATISFIABLE\nv 1 0\nx") ≡ Decided (verdict.Rejected 3 reason.BadLine) }
{}

/// Worked rejections.
pub fn worked_rejections()
    ensures empty { judged 1 [] [] ≡ Decided (verdict.Rejected 1 reason.NotAnswer) }
    ensures comments_alone { judged 1 [] (codes "c s UNKNOWN\n\n") ≡ Decided (verdict.Rejected 1 reason.NotAnswer) }
    ensures no_status { judged 1 [] (codes "c x\nv 1 0\n") ≡ Decided (verdict.Rejected 2 reason.NotAnswer) }
    ensures lemma_first { judged 1 [] (codes "path 1 1 0\n") ≡ Decided (verdict.Rejected 1 reason.NotAnswer) }
    ensures unknown_status { judged 1 [] (codes "s OPTIMUM\n") ≡ Decided (verdict.Rejected 1 reason.NotAnswer) }
    ensures long_status { judged 1 [] (codes "s UNKNOWN 1\n") ≡ Decided (verdict.Rejected 1 reason.NotAnswer) }
    ensures second_status { judged 1 [] (codes "s UNKNOWN\ns UNKNOWN\n") ≡ Decided (verdict.Rejected 2 reason.BadLine) }
    ensures values { judged 1 [] (codes "s UNKNOWN\nv 1 0\n") ≡ Decided (verdict.Rejected 2 reason.BadLine) }
    ensures unknown_word { judged 1 [] (codes "s UNKNOWN\nchains 0 1\n") ≡ Decided (verdict.Rejected 2 reason.BadLine) }
    ensures no_steps { judged 1 [] (codes "s UNSATISFIABLE\n") ≡ Decided (verdict.Rejected 1 reason.NoEmptyClause) }
    ensures no_empty_clause { judged 2 ((pos 1 ∷ []) ∷ (negsuc 0 ∷ []) ∷ []) (codes "s UNSATISFIABLE\nchain 0 1 2\nchain 2 1 0 1\nc\n")
        ≡ Decided (verdict.Rejected 3 reason.NoEmptyClause) }
    ensures stuck { judged 2 ((pos 1 ∷ pos 2 ∷ []) ∷ (negsuc 0 ∷ negsuc 1 ∷ []) ∷ []) (codes "s UNSATISFIABLE\nchain 0 1 2\n")
        ≡ Decided (verdict.Rejected 2 reason.ChainStuck) }
    ensures uncovered { judged 1 ((pos 1 ∷ []) ∷ []) (codes "s UNSATISFIABLE\nchain 0 1\n") ≡ Decided (verdict.Rejected 2 reason.NotCovered) }
    ensures own_number { judged 1 ((pos 1 ∷ []) ∷ []) (codes "s UNSATISFIABLE\nchain 0 2\n") ≡ Decided (verdict.Rejected 2 reason.UnknownNumber) }
    ensures beyond { judged 1 ((pos 1 ∷ []) ∷ []) (codes "s UNKNOWN\nchain 1 -2 0 1\n") ≡ Decided (verdict.Rejected 2 reason.UnknownNumber) }
    ensures no_end { judged 1 ((pos 1 ∷ []) ∷ []) (codes "s UNKNOWN\nchain 1\n") ≡ Decided (verdict.Rejected 2 reason.BadLine) }
    ensures no_numbers { judged 1 ((pos 1 ∷ []) ∷ []) (codes "s UNKNOWN\nchain 1 0\n") ≡ Decided (verdict.Rejected 2 reason.BadLine) }
    ensures signed_number { judged 1 ((pos 1 ∷ []) ∷ []) (codes "s UNKNOWN\nchain 1 0 -1\n") ≡ Decided (verdict.Rejected 2 reason.BadLine) }
    ensures too_large { judged 1 ((pos 1 ∷ []) ∷ []) (codes "s UNKNOWN\nchain 1000001 0 1\n") ≡ Decided (verdict.Rejected 2 reason.BadLine) }
    ensures greatest_number { judged 1 ((pos 1 ∷ []) ∷ []) (codes "s UNKNOWN\nchain 1 0 18446744073709551615\n")
        ≡ Decided (verdict.Rejected 2 reason.UnknownNumber) }
    ensures number_too_large { judged 1 ((pos 1 ∷ []) ∷ []) (codes "s UNKNOWN\nchain 1 0 18446744073709551616\n")
        ≡ Decided (verdict.Rejected 2 reason.BadLine) }
    ensures long_number { judged 1 ((pos 1 ∷ []) ∷ []) (codes "s UNKNOWN\nchain 1 0 0000000000000000000000000000000000000001\n")
        ≡ Decided (verdict.Progress 1) }
    ensures long_literal { judged 1 ((pos 1 ∷ []) ∷ []) (codes "s UNKNOWN\nchain 1000000000000000000000000000000000000000 0 1\n")
        ≡ Decided (verdict.Rejected 2 reason.BadLine) }
    ensures first_fault { judged 1 ((pos 1 ∷ []) ∷ []) (codes "s UNKNOWN\nchain 0 1\nbad\n") ≡ Decided (verdict.Rejected 2 reason.NotCovered) }
{}

/// Worked lemmas, over two edges in a row that are there while node 0 is said not to reach node 2.
pub fn worked_lemmas()
    ensures refutation { reached (codes "s UNSATISFIABLE\npath 1 -1 -2 3 0 1 2\nchain 0 4 1 2 3\n") ≡ Decided verdict.Refutation }
    ensures progress { reached (codes "s UNKNOWN\npath 1 -1 -2 3 0 1 2\nchain 3 0 4 1 2\n") ≡ Decided (verdict.Progress 1) }
    ensures lemmas_alone { reached (codes "s UNKNOWN\ncut 1 1 -3 0 0\ncut 1 2 -3 0 1 0\n") ≡ Decided (verdict.Progress 0) }
    ensures ends_in_lemma { reached (codes "s UNSATISFIABLE\npath 1 -1 -2 3 0 1 2\nchain 0 4 1 2 3\ncut 1 1 -3 0 0\n")
        ≡ Decided (verdict.Rejected 4 reason.NoEmptyClause) }
    ensures no_end { reached (codes "s UNSATISFIABLE\npath 1 -1 -2 3") ≡ Decided (verdict.Rejected 2 reason.BadLine) }
    ensures unknown_atom { reached (codes "s UNSATISFIABLE\npath 2 3 0") ≡ Decided (verdict.Rejected 2 reason.UnknownAtom) }
    ensures atom_from_one { reached (codes "s UNSATISFIABLE\npath 0 3 0") ≡ Decided (verdict.Rejected 2 reason.UnknownAtom) }
    ensures wrong_kind { reached (codes "s UNSATISFIABLE\nflow 1 3 0") ≡ Decided (verdict.Rejected 2 reason.WrongKind) }
    ensures kind_before_numbers { reached (codes "s UNSATISFIABLE\nflow 1 4 0 9 9") ≡ Decided (verdict.Rejected 2 reason.WrongKind) }
    ensures unknown_edge { reached (codes "s UNSATISFIABLE\npath 1 -1 3 0 3") ≡ Decided (verdict.Rejected 2 reason.UnknownNumber) }
    ensures unknown_variable { reached (codes "s UNSATISFIABLE\npath 1 4 3 0 1 2") ≡ Decided (verdict.Rejected 2 reason.UnknownNumber) }
    ensures unknown_node { reached (codes "s UNSATISFIABLE\ncut 1 1 -3 0 0 3") ≡ Decided (verdict.Rejected 2 reason.UnknownNumber) }
    ensures missing_edge { reached (codes "s UNSATISFIABLE\npath 1 -1 3 0 1 2") ≡ Decided (verdict.Rejected 2 reason.MissingLiteral) }
    ensures missing_cut_edge { reached (codes "s UNSATISFIABLE\ncut 1 -3 0 0") ≡ Decided (verdict.Rejected 2 reason.MissingLiteral) }
    ensures missing_own { reached (codes "s UNSATISFIABLE\npath 1 -1 -2 0 1 2") ≡ Decided (verdict.Rejected 2 reason.MissingLiteral) }
    ensures walk_ends_early { reached (codes "s UNSATISFIABLE\npath 1 -1 3 0 1") ≡ Decided (verdict.Rejected 2 reason.WitnessFails) }
    ensures set_lacks_start { reached (codes "s UNSATISFIABLE\ncut 1 1 -3 0 1") ≡ Decided (verdict.Rejected 2 reason.WitnessFails) }
    ensures values_among_steps { reached (codes "s UNSATISFIABLE\npath 1 -1 -2 3 0 1 2\nv 1 0\n") ≡ Decided (verdict.Rejected 3 reason.BadLine) }
    ensures clause_before_atoms { reached (codes "s SATISFIABLE\nv 1 2 3 0") ≡ Decided (verdict.Rejected 2 (reason.ClauseFalse 3)) }
    ensures left_to_atoms { reached (codes "s SATISFIABLE\nv 1 2 -3\nv 0\nv") ≡ ValuesIn 3 (true ∷ true ∷ false ∷ []) }
{}

/// Worked answers that come in two pieces.
pub fn worked_pieces()
    ensures nothing { left Nothing 0 [] [] ≡ Decided (verdict.Rejected 1 reason.NotAnswer) }
    ensures status { left Nothing 1 (codes "s UNKN") (codes "OWN\n") ≡ Decided (verdict.Progress 0) }
    ensures number { left Nothing 4 (codes "b") (codes "ad\n") ≡ Decided (verdict.Rejected 5 reason.NotAnswer) }
    ensures returns { left Nothing 0 (codes "s UNKNOWN\r") (codes "\nchain 0 1 2") ≡ Decided (verdict.Progress 1) }
    ensures blank { left Nothing 0 (codes "s UNKNOWN") (codes "\n\n bad") ≡ Decided (verdict.Rejected 3 reason.BadLine) }
    ensures token { left (OfSteps version.One false (no_steps 1)) 1 (codes "chain 0 1") (codes "2\n") ≡ Decided (verdict.Rejected 2 reason.UnknownNumber) }
    ensures values { left (OfModel (record { lits = pos 1 ∷ []; end = None; last = 2 })) 2 (codes "v") (codes " 0\n")
        ≡ Decided (verdict.Rejected 3 (reason.ClauseFalse 2)) }
    ensures twice { left (OfModel (record { lits = pos 1 ∷ []; end = None; last = 2 })) 2 (codes "v -1") (codes " 0")
        ≡ Decided (verdict.Rejected 3 reason.ModelVariables) }
    ensures no_end { left (OfModel (record { lits = pos 1 ∷ []; end = None; last = 2 })) 4 [] (codes "c 0") ≡ Decided (verdict.Rejected 2 reason.BadLine) }
    ensures steps { left (OfSteps version.One true (record { clauses = (pos 1 ∷ []) ∷ []; chains = 1; ends_empty = false; last = 2 })) 2
        (codes "chain 0 ") (codes "3 2") ≡ Decided verdict.Refutation }
    ensures no_empty_clause { left (OfSteps version.One true (record {
      clauses = (pos 1 ∷ []) ∷ [];
      chains = 1;
      ends_empty = false;
      last = 2;
    })) 4 [] [] ≡ Decided (verdict.Rejected 2 reason.NoEmptyClause) }
    ensures fault { left (AtFault 2 reason.BadLine) 9 (codes "s ") (codes "UNKNOWN\n") ≡ Decided (verdict.Rejected 2 reason.BadLine) }
{}

/// Worked answers of version 2.
pub fn worked_versions()
    ensures refutation { reached (codes "version 2\ns UNSATISFIABLE\npath 1 -1 -2 3 0 1 2\nchain 0 1 4 3 2\n") ≡ Decided verdict.Refutation }
    ensures forwards { reached (codes "s UNSATISFIABLE\npath 1 -1 -2 3 0 1 2\nchain 0 4 3 2 1\n") ≡ Decided verdict.Refutation }
    ensures not_backwards { reached (codes "version 2\ns UNSATISFIABLE\npath 1 -1 -2 3 0 1 2\nchain 0 4 3 2 1\n")
        ≡ Decided (verdict.Rejected 4 reason.ChainStuck) }
    ensures own_number { reached (codes "version 2\ns UNSATISFIABLE\npath 1 -1 -2 3 0 1 2\nchain 0 0\n") ≡ Decided (verdict.Rejected 4 reason.UnknownNumber) }
    ensures number_before_the_first { reached (codes "version 2\ns UNSATISFIABLE\npath 1 -1 -2 3 0 1 2\nchain 0 5\n")
        ≡ Decided (verdict.Rejected 4 reason.UnknownNumber) }
    ensures progress { judged 2 ((pos 1 ∷ pos 2 ∷ []) ∷ (negsuc 0 ∷ pos 2 ∷ []) ∷ []) (codes "version 2\ns UNKNOWN\nchain 2 0 1 2\nchain 2 0 1\n")
        ≡ Decided (verdict.Progress 2) }
    ensures model { judged 2 ((pos 1 ∷ negsuc 1 ∷ []) ∷ []) (codes "version 2\ns SATISFIABLE\nv 1 -2 0\n") ≡ ValuesIn 3 (true ∷ false ∷ []) }
    ensures version_alone { judged 1 [] (codes "c\nversion 2\n") ≡ Decided (verdict.Rejected 2 reason.NotAnswer) }
    ensures version_three { judged 1 [] (codes "version 3\ns UNKNOWN\n") ≡ Decided (verdict.Rejected 1 reason.NotAnswer) }
    ensures leading_zero { judged 1 [] (codes "version 02\ns UNKNOWN\n") ≡ Decided (verdict.Rejected 1 reason.NotAnswer) }
    ensures twice { judged 1 [] (codes "version 2\nversion 2\ns UNKNOWN\n") ≡ Decided (verdict.Rejected 2 reason.NotAnswer) }
    ensures too_late { judged 1 [] (codes "s UNKNOWN\nversion 2\n") ≡ Decided (verdict.Rejected 2 reason.BadLine) }
    ensures pieces { left Nothing 0 (codes "vers") (codes "ion 2\ns UNSATISFIABLE\nchain 0 2 1") ≡ Decided verdict.Refutation }
    ensures version_kept { left (OfVersion 1) 1 [] (codes "s UNSATISFIABLE\nchain 0 2 1") ≡ Decided verdict.Refutation }
    ensures nothing_behind { left (OfVersion 3) 4 [] (codes "c\n") ≡ Decided (verdict.Rejected 3 reason.NotAnswer) }
    ensures steps_kept { left (OfSteps version.Two true (record { clauses = (pos 1 ∷ []) ∷ []; chains = 1; ends_empty = false; last = 3 })) 3
        (codes "chain 0 1 ") (codes "2") ≡ Decided verdict.Refutation }
{}

/// Worked migrations of answers to a problem without clauses or predicates over one variable, and what they don't give.
pub fn worked_migrations()
    ensures later { one_line_later (verdict.Rejected 2 reason.BadLine) ≡ verdict.Rejected 3 reason.BadLine }
    ensures as_it_is { one_line_later (verdict.Progress 2) ≡ verdict.Progress 2 }
    ensures rejected { IsMigrated (alone 1) (codes "s UNKNOWN\nx\n") version.Two (migrated.Rejected 2 reason.BadLine) }
    ensures not_rejected { IsMigrated (alone 1) (codes "s UNKNOWN\n") version.Two (migrated.Rejected 1 reason.NotAnswer) → ⊥ }
    ensures progress { IsMigrated (alone 1) (codes "c\ns UNKNOWN\n") version.Two (migrated.Text (codes "version 2\ns UNKNOWN\n")) }
{}

/// Worked steps whose chains' literals are literals of the format, and one whose aren't. Lemmas may have any.
pub fn worked_steps_in_memory()
    ensures literals { has_literals (step.Chain (record { clause = pos 1 ∷ negsuc 0 ∷ []; used = [] })) ≡ true }
    ensures zero { has_literals (step.Chain (record { clause = pos 1 ∷ pos 0 ∷ []; used = 1 ∷ [] })) ≡ false }
    ensures lemma { has_literals (step.Lemma (record { atom = 1; clause = pos 0 ∷ []; witness = witness.Path [] })) ≡ true }
{}
