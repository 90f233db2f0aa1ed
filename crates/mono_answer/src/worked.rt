//! Rows that were worked by hand: what the definitions make of a line, and of an answer.

ghost use Rattle.std.specs.Prelude.{◌≡◌, [], ◌∷◌, pos, negsuc, true, false, codes, Some, None, Ok, Err};
ghost use Rattle.mono_text.specs.Text.{tokens_of};
ghost use Rattle.mono_steps.specs.declared.lemma.Witness.TheVariants as witness;
ghost use Rattle.mono_steps.specs.declared.step.Step.TheVariants as step;
ghost use Rattle.mono_answer.specs.declared.kind.Kind.TheVariants as kind;
ghost use Rattle.mono_answer.specs.declared.item.Item.TheVariants as item;
ghost use Rattle.mono_answer.specs.declared.item.ItemRefusal.TheVariants as refusal;
ghost use Rattle.mono_answer.specs.declared.answer.Answer.TheVariants as answer;
ghost use Rattle.mono_answer.specs.declared.version.Version.TheVariants as version;
ghost use Rattle.mono_answer.specs.Items.{item_of, items_of, first_line_of};
ghost use Rattle.mono_answer.specs.Versions.{is_version_two, turned, answer_names_earlier};
ghost use Rattle.mono_answer.specs.Readings.{IsReading};
ghost use Rattle.mono_answer.specs.Printed.{answer_text, answer_text_as, answer_items, in_lines, is_within_format, is_within_format_as, is_step_within};

/// Status lines, and lines of values.
pub fn status_and_values()
    ensures model { item_of (tokens_of (codes "s SATISFIABLE")) ≡ Some (item.Status kind.Model) }
    ensures refutation { item_of (tokens_of (codes " s\tUNSATISFIABLE\r")) ≡ Some (item.Status kind.Refutation) }
    ensures progress { item_of (tokens_of (codes "s UNKNOWN")) ≡ Some (item.Status kind.Progress) }
    ensures no_kind { item_of (tokens_of (codes "s")) ≡ None }
    ensures long { item_of (tokens_of (codes "s UNKNOWN 1")) ≡ None }
    ensures other { item_of (tokens_of (codes "s satisfiable")) ≡ None }
    ensures values { item_of (tokens_of (codes "v 1 -2 0")) ≡ Some (item.Values (pos 1 ∷ negsuc 1 ∷ pos 0 ∷ [])) }
    ensures no_values { item_of (tokens_of (codes "v")) ≡ Some (item.Values []) }
    ensures behind_zero { item_of (tokens_of (codes "v 0 -0 3")) ≡ Some (item.Values (pos 0 ∷ pos 0 ∷ pos 3 ∷ [])) }
    ensures no_number { item_of (tokens_of (codes "v 1 +2 0")) ≡ None }
    ensures greatest { item_of (tokens_of (codes "v -1000000")) ≡ Some (item.Values (negsuc 999999 ∷ [])) }
    ensures too_large { item_of (tokens_of (codes "v 1000001 0")) ≡ None }
{}

/// Lines of lemmas, each word once.
pub fn lemma_words()
    ensures path { item_of (tokens_of (codes "path 1 -1 3 0 1 2"))
        ≡ Some (item.Step (step.Lemma (record { atom = 1; clause = negsuc 0 ∷ pos 3 ∷ []; witness = witness.Path (1 ∷ 2 ∷ []) }))) }
    ensures cut { item_of (tokens_of (codes "cut 1 1 -3 0 0"))
        ≡ Some (item.Step (step.Lemma (record { atom = 1; clause = pos 1 ∷ negsuc 2 ∷ []; witness = witness.Cut (0 ∷ []) }))) }
    ensures label { item_of (tokens_of (codes "label 2 3 -4 0 0 0 1 5"))
        ≡ Some (item.Step (step.Lemma (record {
          atom = 2;
          clause = pos 3 ∷ negsuc 3 ∷ [];
          witness = witness.Label (record { node = 0; value = 0 } ∷ record { node = 1; value = 5 } ∷ []);
        }))) }
    ensures flow { item_of (tokens_of (codes "flow 1 3 0 1 7"))
        ≡ Some (item.Step (step.Lemma (record { atom = 1; clause = pos 3 ∷ []; witness = witness.Flow (record { edge = 1; amount = 7 } ∷ []) }))) }
    ensures flowcut { item_of (tokens_of (codes "flowcut 2 -4 0 0"))
        ≡ Some (item.Step (step.Lemma (record { atom = 2; clause = negsuc 3 ∷ []; witness = witness.FlowCut (0 ∷ []) }))) }
    ensures tree { item_of (tokens_of (codes "tree 1 1 0"))
        ≡ Some (item.Step (step.Lemma (record { atom = 1; clause = pos 1 ∷ []; witness = witness.Tree [] }))) }
    ensures split { item_of (tokens_of (codes "split 1 1 -2 0 0"))
        ≡ Some (item.Step (step.Lemma (record { atom = 1; clause = pos 1 ∷ negsuc 1 ∷ []; witness = witness.Split (0 ∷ []) }))) }
    ensures least { item_of (tokens_of (codes "least 1 -4 0 1 2"))
        ≡ Some (item.Step (step.Lemma (record { atom = 1; clause = negsuc 3 ∷ []; witness = witness.Least (1 ∷ 2 ∷ []) }))) }
    ensures cycle { item_of (tokens_of (codes "cycle 1 -1 -3 0 1 1"))
        ≡ Some (item.Step (step.Lemma (record { atom = 1; clause = negsuc 0 ∷ negsuc 2 ∷ []; witness = witness.Cycle (1 ∷ 1 ∷ []) }))) }
    ensures order { item_of (tokens_of (codes "order 1 1 3 0 1 0"))
        ≡ Some (item.Step (step.Lemma (record { atom = 1; clause = pos 1 ∷ pos 3 ∷ []; witness = witness.Order (1 ∷ 0 ∷ []) }))) }
{}

/// What lines of lemmas may leave out, and what they may not.
pub fn lemma_lines()
    ensures empty_clause { item_of (tokens_of (codes "path 0 0 0"))
        ≡ Some (item.Step (step.Lemma (record { atom = 0; clause = []; witness = witness.Path (0 ∷ []) }))) }
    ensures no_predicate { item_of (tokens_of (codes "path")) ≡ None }
    ensures no_zero { item_of (tokens_of (codes "path 1 -1 -2 3")) ≡ None }
    ensures negative_name { item_of (tokens_of (codes "cut 1 -1 0 -2")) ≡ None }
    ensures odd { item_of (tokens_of (codes "label 1 -1 0 0 0 1")) ≡ None }
    ensures odd_amounts { item_of (tokens_of (codes "flow 1 1 0 1")) ≡ None }
    ensures greatest_name { item_of (tokens_of (codes "tree 4294967295 0 4294967295"))
        ≡ Some (item.Step (step.Lemma (record { atom = 4294967295; clause = []; witness = witness.Tree (4294967295 ∷ []) }))) }
    ensures name_too_large { item_of (tokens_of (codes "tree 1 0 4294967296")) ≡ None }
    ensures node_too_large { item_of (tokens_of (codes "order 1 0 0 4294967296")) ≡ None }
    ensures negative_edge { item_of (tokens_of (codes "cycle 1 0 1 -1")) ≡ None }
    ensures cycle_without_edges { item_of (tokens_of (codes "cycle 1 0"))
        ≡ Some (item.Step (step.Lemma (record { atom = 1; clause = []; witness = witness.Cycle [] }))) }
    ensures predicate_too_large { item_of (tokens_of (codes "tree 4294967296 0")) ≡ None }
    ensures greatest_value { item_of (tokens_of (codes "label 1 0 2 1152921504606846976"))
        ≡ Some (item.Step (step.Lemma (record {
          atom = 1;
          clause = [];
          witness = witness.Label (record { node = 2; value = 1152921504606846976 } ∷ []);
        }))) }
    ensures value_too_large { item_of (tokens_of (codes "label 1 0 2 1152921504606846977")) ≡ None }
    ensures amount_too_large { item_of (tokens_of (codes "flow 1 0 2 1152921504606846977")) ≡ None }
    ensures other_word { item_of (tokens_of (codes "paths 1 0")) ≡ None }
{}

/// Lines of chains.
pub fn chain_lines()
    ensures chain { item_of (tokens_of (codes "chain 1 -2 0 3 4"))
        ≡ Some (item.Step (step.Chain (record { clause = pos 1 ∷ negsuc 1 ∷ []; used = 3 ∷ 4 ∷ [] }))) }
    ensures empty { item_of (tokens_of (codes "chain 0 0")) ≡ Some (item.Step (step.Chain (record { clause = []; used = 0 ∷ [] }))) }
    ensures none { item_of (tokens_of (codes "chain 1 0")) ≡ None }
    ensures no_zero { item_of (tokens_of (codes "chain 1 2")) ≡ None }
    ensures greatest { item_of (tokens_of (codes "chain 0 18446744073709551615"))
        ≡ Some (item.Step (step.Chain (record { clause = []; used = 18446744073709551615 ∷ [] }))) }
    ensures too_large { item_of (tokens_of (codes "chain 0 18446744073709551616")) ≡ None }
{}

/// The items of a text, and what reading one of its lines gives.
pub fn items_of_texts()
    ensures numbered { items_of 0 (codes "c x\n\ns UNKNOWN\nchain\n") ≡ (3, Some (item.Status kind.Progress)) ∷ (4, None) ∷ [] }
    ensures blank { IsReading (tokens_of (codes " ")) (Ok None) }
    ensures comment { IsReading (tokens_of (codes "c 1")) (Ok None) }
    ensures item { IsReading (tokens_of (codes "v")) (Ok (Some (item.Values []))) }
    ensures bad { IsReading (tokens_of (codes "chain")) (Err refusal.BadLine) }
    ensures not_blank { IsReading (tokens_of (codes "chain")) (Ok None) → ⊥ }
    ensures not_item { IsReading (tokens_of (codes "chain")) (Ok (Some (item.Values []))) → ⊥ }
    ensures not_bad { IsReading (tokens_of (codes "v")) (Err refusal.BadLine) → ⊥ }
    ensures comment_not_bad { IsReading (tokens_of (codes "c")) (Err refusal.BadLine) → ⊥ }
{}

/// Printed answers, and their items.
pub fn printed_answers()
    ensures model { answer_text (answer.Model (true ∷ false ∷ [])) ≡ codes "s SATISFIABLE\nv 1 -2 0\n" }
    ensures no_variables { answer_text (answer.Model []) ≡ codes "s SATISFIABLE\nv 0\n" }
    ensures progress { answer_text (answer.Progress []) ≡ codes "s UNKNOWN\n" }
    ensures refutation { answer_text (answer.Refutation
        (step.Lemma (record { atom = 1; clause = negsuc 0 ∷ pos 3 ∷ []; witness = witness.Label (record { node = 4; value = 5 } ∷ []) })
        ∷ step.Chain (record { clause = []; used = 4 ∷ 1 ∷ [] }) ∷ [])) ≡ codes "s UNSATISFIABLE\nlabel 1 -1 3 0 4 5\nchain 0 4 1\n" }
    ensures flow { answer_text (answer.Progress
        (step.Lemma (record { atom = 2; clause = []; witness = witness.Flow (record { edge = 6; amount = 7 } ∷ []) }) ∷ []))
        ≡ codes "s UNKNOWN\nflow 2 0 6 7\n" }
    ensures items { in_lines (answer_items (answer.Model (true ∷ []))) ≡ (1, Some (item.Status kind.Model))
        ∷ (2, Some (item.Values (pos 1 ∷ pos 0 ∷ []))) ∷ [] }
{}

/// Answers that the format can write, and answers that it can't.
pub fn answers_within_the_format()
    ensures chain { is_step_within (step.Chain (record { clause = pos 1000000 ∷ negsuc 999999 ∷ []; used = 18446744073709551615 ∷ [] })) ≡ true }
    ensures no_clause_named { is_step_within (step.Chain (record { clause = []; used = [] })) ≡ false }
    ensures number_too_large { is_step_within (step.Chain (record { clause = []; used = 18446744073709551616 ∷ [] })) ≡ false }
    ensures zero { is_step_within (step.Chain (record { clause = pos 0 ∷ []; used = 1 ∷ [] })) ≡ false }
    ensures literal_too_large { is_step_within (step.Chain (record { clause = negsuc 1000000 ∷ []; used = 1 ∷ [] })) ≡ false }
    ensures lemma { is_step_within (step.Lemma (record {
      atom = 4294967295;
      clause = [];
      witness = witness.Label (record { node = 4294967295; value = 1152921504606846976 } ∷ []);
    })) ≡ true }
    ensures value_too_large { is_step_within
        (step.Lemma (record { atom = 1; clause = []; witness = witness.Flow (record { edge = 1; amount = 1152921504606846977 } ∷ []) })) ≡ false }
    ensures node_too_large { is_step_within (step.Lemma (record { atom = 1; clause = []; witness = witness.Cut (4294967296 ∷ []) })) ≡ false }
    ensures node_of_an_order_too_large { is_step_within (step.Lemma (record { atom = 1; clause = []; witness = witness.Order (0 ∷ 4294967296 ∷ []) })) ≡ false }
    ensures edge_of_a_cycle_too_large { is_step_within (step.Lemma (record { atom = 1; clause = []; witness = witness.Cycle (4294967296 ∷ []) })) ≡ false }
    ensures atom_too_large { is_step_within (step.Lemma (record { atom = 4294967296; clause = []; witness = witness.Tree [] })) ≡ false }
    ensures lemma_literal { is_step_within (step.Lemma (record { atom = 1; clause = pos 0 ∷ []; witness = witness.Tree [] })) ≡ false }
    ensures steps { is_within_format (answer.Progress (step.Chain (record { clause = []; used = [] }) ∷ [])) ≡ false }
    ensures all_steps { is_within_format (answer.Refutation (step.Chain (record { clause = []; used = 1 ∷ [] })
        ∷ step.Chain (record { clause = []; used = [] }) ∷ [])) ≡ false }
    ensures values { is_within_format (answer.Model (true ∷ [])) ≡ true }
{}

/// Version lines, and lines that are none.
pub fn version_lines()
    ensures exact { is_version_two (tokens_of (codes " version\t2\r")) ≡ true }
    ensures one { is_version_two (tokens_of (codes "version 1")) ≡ false }
    ensures three { is_version_two (tokens_of (codes "version 3")) ≡ false }
    ensures leading_zero { is_version_two (tokens_of (codes "version 02")) ≡ false }
    ensures no_number { is_version_two (tokens_of (codes "version")) ≡ false }
    ensures long { is_version_two (tokens_of (codes "version 2 2")) ≡ false }
    ensures capital { is_version_two (tokens_of (codes "Version 2")) ≡ false }
    ensures blank { is_version_two (tokens_of []) ≡ false }
    ensures no_item { item_of (tokens_of (codes "version 2")) ≡ None }
{}

/// Items of answers of version 2: a chain's numbers count backwards from its step, and lemmas are steps too.
pub fn items_of_version_two()
    ensures turned { items_of 3 (codes "version 2\ns UNKNOWN\nchain 1 0 1 3\n") ≡ (2, Some (item.Status kind.Progress))
        ∷ (3, Some (item.Step (step.Chain (record { clause = pos 1 ∷ []; used = 3 ∷ 1 ∷ [] })))) ∷ [] }
    ensures as_written { items_of 3 (codes "s UNKNOWN\nchain 1 0 1 3\n") ≡ (1, Some (item.Status kind.Progress))
        ∷ (2, Some (item.Step (step.Chain (record { clause = pos 1 ∷ []; used = 1 ∷ 3 ∷ [] })))) ∷ [] }
    ensures behind_a_lemma { items_of 3 (codes "version 2\ns UNKNOWN\ntree 1 0\nchain 0 1\n") ≡ (2, Some (item.Status kind.Progress))
        ∷ (3, Some (item.Step (step.Lemma (record { atom = 1; clause = []; witness = witness.Tree [] }))))
        ∷ (4, Some (item.Step (step.Chain (record { clause = []; used = 4 ∷ [] })))) ∷ [] }
    ensures own_and_beyond { items_of 1 (codes "version 2\ns UNKNOWN\nchain 0 0 2 3 18446744073709551615\n") ≡ (2, Some (item.Status kind.Progress))
        ∷ (3, Some (item.Step (step.Chain (record { clause = []; used = 2 ∷ 0 ∷ 0 ∷ 0 ∷ [] })))) ∷ [] }
    ensures limit { items_of 1 (codes "version 2\ns UNKNOWN\nchain 0 18446744073709551616\n") ≡ (2, Some (item.Status kind.Progress)) ∷ (3, None) ∷ [] }
    ensures behind_blanks { items_of 1 (codes "c x\n\nversion 2\nc\ns UNKNOWN\n") ≡ (5, Some (item.Status kind.Progress)) ∷ [] }
    ensures second { items_of 1 (codes "version 2\nversion 2\ns UNKNOWN\n") ≡ (2, None) ∷ (3, Some (item.Status kind.Progress)) ∷ [] }
    ensures too_late { items_of 1 (codes "s UNKNOWN\nversion 2\n") ≡ (1, Some (item.Status kind.Progress)) ∷ (2, None) ∷ [] }
    ensures nothing_behind { items_of 1 (codes "version 2\n") ≡ [] }
    ensures named_line { first_line_of (codes "c\nversion 2\ns UNKNOWN\n") ≡ 2 }
    ensures line_one { first_line_of (codes "c\ns UNKNOWN\n") ≡ 1 }
    ensures no_line { first_line_of (codes "c\n") ≡ 1 }
{}

/// Answers in both versions, and whether their chains name earlier clauses.
pub fn printed_versions()
    ensures two { answer_text_as (answer.Refutation (step.Lemma (record { atom = 1; clause = pos 3 ∷ []; witness = witness.Path (1 ∷ 2 ∷ []) })
        ∷ step.Chain (record { clause = []; used = 4 ∷ 1 ∷ [] }) ∷ [])) version.Two 3
        ≡ codes "version 2\ns UNSATISFIABLE\npath 1 3 0 1 2\nchain 0 1 4\n" }
    ensures one { answer_text_as (answer.Refutation (step.Chain (record { clause = []; used = 2 ∷ 1 ∷ [] }) ∷ [])) version.One 2
        ≡ codes "s UNSATISFIABLE\nchain 0 2 1\n" }
    ensures model { answer_text_as (answer.Model (true ∷ [])) version.Two 9 ≡ codes "version 2\ns SATISFIABLE\nv 1 0\n" }
    ensures order_kept { answer_text_as (answer.Progress
        (step.Chain (record { clause = pos 2 ∷ pos 1 ∷ pos 2 ∷ []; used = 1 ∷ 2 ∷ 1 ∷ [] }) ∷ [])) version.Two 2
        ≡ codes "version 2\ns UNKNOWN\nchain 2 1 2 0 2 1 2\n" }
    ensures earlier { answer_names_earlier 1 (answer.Progress (step.Chain (record { clause = []; used = 1 ∷ [] })
        ∷ step.Chain (record { clause = []; used = 2 ∷ 1 ∷ [] }) ∷ [])) ≡ true }
    ensures own { answer_names_earlier 1 (answer.Progress (step.Chain (record { clause = []; used = 2 ∷ [] }) ∷ [])) ≡ false }
    ensures zero { answer_names_earlier 1 (answer.Refutation (step.Chain (record { clause = []; used = 0 ∷ [] }) ∷ [])) ≡ false }
    ensures behind_a_lemma { answer_names_earlier 1 (answer.Refutation (step.Lemma (record { atom = 1; clause = []; witness = witness.Tree [] })
        ∷ step.Chain (record { clause = []; used = 2 ∷ [] }) ∷ [])) ≡ true }
    ensures within { is_within_format_as version.Two 1 (answer.Progress (step.Chain (record { clause = []; used = 1 ∷ [] }) ∷ [])) ≡ true }
    ensures not_within { is_within_format_as version.Two 1 (answer.Progress (step.Chain (record { clause = []; used = 2 ∷ [] }) ∷ [])) ≡ false }
    ensures within_one { is_within_format_as version.One 1 (answer.Progress (step.Chain (record { clause = []; used = 2 ∷ [] }) ∷ [])) ≡ true }
{}
