//! Worked rows: the printed lines of lemmas, what printed answers say, and numbers that the format can't write.

ghost use Rattle.std.specs.Prelude.{◌≡◌, ◌^◌, [], ◌∷◌, Bool, List, length, true, false, pos, codes, Some, None};
ghost use Rattle.mono_text.specs.Text.{tokens_of};
ghost use Rattle.mono_graph.specs.Worked.{amount, label};
ghost use Rattle.mono_steps.specs.declared.lemma.Witness.TheVariants as by;
ghost use Rattle.mono_steps.specs.declared.step.Step.TheVariants as step;
ghost use Rattle.mono_steps.specs.WorkedLemmas.{chain, minus, of_1};
ghost use Rattle.mono_answer.specs.declared.answer.Answer.TheVariants as answer;
ghost use Rattle.mono_answer.specs.declared.item.Item.TheVariants as item;
ghost use Rattle.mono_answer.specs.declared.kind.Kind.TheVariants as kind;
ghost use Rattle.mono_answer.specs.declared.version.Version.TheVariants as version;
ghost use Rattle.mono_answer.specs.Behind.{behind};
ghost use Rattle.mono_answer.specs.Items.{item_of, items_of};
ghost use Rattle.mono_answer.specs.Printed.{answer_items, answer_text, in_lines_as, is_step_within, is_within_format, is_within_format_as, is_witness_within};
ghost use Rattle.mono_rows.specs.PrintedLemmas.{text_of_lemma};

/// Each number of a list stands behind a space.
pub fn numbers_behind_spaces()
    ensures two { behind (codes "1" ∷ codes "-20" ∷ []) ≡ codes " 1 -20" }
    ensures none { behind [] ≡ [] }
{}

/// The line of a lemma, for each word. Lists stand as they are held, repeats and zeros too.
pub fn printed_lemmas()
    ensures path { text_of_lemma (by.Path (2 ∷ 1 ∷ 2 ∷ [])) ≡ codes "s UNKNOWN\npath 2 3 -1 0 2 1 2\n" }
    ensures cut { text_of_lemma (by.Cut (0 ∷ 3 ∷ [])) ≡ codes "s UNKNOWN\ncut 2 3 -1 0 0 3\n" }
    ensures label { text_of_lemma (by.Label (label 3 1 ∷ label 0 7 ∷ [])) ≡ codes "s UNKNOWN\nlabel 2 3 -1 0 3 1 0 7\n" }
    ensures flow { text_of_lemma (by.Flow (amount 3 1 ∷ amount 2 0 ∷ [])) ≡ codes "s UNKNOWN\nflow 2 3 -1 0 3 1 2 0\n" }
    ensures flow_cut { text_of_lemma (by.FlowCut (3 ∷ 0 ∷ [])) ≡ codes "s UNKNOWN\nflowcut 2 3 -1 0 3 0\n" }
    ensures tree { text_of_lemma (by.Tree (2 ∷ 1 ∷ [])) ≡ codes "s UNKNOWN\ntree 2 3 -1 0 2 1\n" }
    ensures split { text_of_lemma (by.Split (0 ∷ 0 ∷ [])) ≡ codes "s UNKNOWN\nsplit 2 3 -1 0 0 0\n" }
    ensures least { text_of_lemma (by.Least (2 ∷ 1 ∷ [])) ≡ codes "s UNKNOWN\nleast 2 3 -1 0 2 1\n" }
    ensures cycle { text_of_lemma (by.Cycle (2 ∷ 1 ∷ [])) ≡ codes "s UNKNOWN\ncycle 2 3 -1 0 2 1\n" }
    ensures order { text_of_lemma (by.Order (1 ∷ 0 ∷ [])) ≡ codes "s UNKNOWN\norder 2 3 -1 0 1 0\n" }
    ensures empty_path { answer_text (answer.Progress (step.Lemma (of_1 [] (by.Path [])) ∷ [])) ≡ codes "s UNKNOWN\npath 1 0\n" }
    ensures empty_label { answer_text (answer.Progress (step.Lemma (of_1 [] (by.Label [])) ∷ [])) ≡ codes "s UNKNOWN\nlabel 1 0\n" }
    ensures empty_order { answer_text (answer.Progress (step.Lemma (of_1 [] (by.Order [])) ∷ [])) ≡ codes "s UNKNOWN\norder 1 0\n" }
{}

/// What a refutation and progress say: the status, and each step in order.
pub fn items_of_steps()
    ensures refutation { answer_items (answer.Refutation (step.Lemma (of_1 [] (by.Cycle (1 ∷ []))) ∷ chain [] (2 ∷ []) ∷ []))
        ≡ item.Status kind.Refutation ∷ item.Step (step.Lemma (of_1 [] (by.Cycle (1 ∷ [])))) ∷ item.Step (chain [] (2 ∷ [])) ∷ [] }
    ensures progress { answer_items (answer.Progress (chain (pos 1 ∷ []) (2 ∷ []) ∷ [])) ≡ item.Status kind.Progress
        ∷ item.Step (chain (pos 1 ∷ []) (2 ∷ [])) ∷ [] }
    ensures no_steps { answer_items (answer.Progress []) ≡ item.Status kind.Progress ∷ [] }
    ensures last_line_without_an_end { items_of 0 (codes "s UNKNOWN\nchain 0 2") ≡ (1, Some (item.Status kind.Progress))
        ∷ (2, Some (item.Step (chain [] (2 ∷ [])))) ∷ [] }
    ensures bad_last_line { items_of 0 (codes "s UNKNOWN\nx") ≡ (1, Some (item.Status kind.Progress)) ∷ (2, None) ∷ [] }
    ensures no_lines { items_of 0 [] ≡ [] }
{}

/// Each node, edge, label and amount of a witness is within the format, also the last and the first.
pub fn witnesses_within_the_format()
    ensures path { is_witness_within (by.Path (0 ∷ 4294967296 ∷ [])) ≡ false }
    ensures cut { is_witness_within (by.Cut (0 ∷ 4294967296 ∷ [])) ≡ false }
    ensures label { is_witness_within (by.Label (label 0 0 ∷ label 4294967296 0 ∷ [])) ≡ false }
    ensures label_of_a_node_too_large { is_witness_within (by.Label (label 4294967296 0 ∷ label 0 0 ∷ [])) ≡ false }
    ensures label_too_great { is_witness_within (by.Label (label 0 0 ∷ label 1 1152921504606846977 ∷ [])) ≡ false }
    ensures labels { is_witness_within (by.Label (label 4294967295 1152921504606846976 ∷ label 0 0 ∷ [])) ≡ true }
    ensures flow { is_witness_within (by.Flow (amount 1 0 ∷ amount 4294967296 0 ∷ [])) ≡ false }
    ensures amount_too_great { is_witness_within (by.Flow (amount 1 1152921504606846977 ∷ amount 2 0 ∷ [])) ≡ false }
    ensures amounts { is_witness_within (by.Flow (amount 4294967295 1152921504606846976 ∷ amount 1 0 ∷ [])) ≡ true }
    ensures flow_cut { is_witness_within (by.FlowCut (0 ∷ 4294967296 ∷ [])) ≡ false }
    ensures tree { is_witness_within (by.Tree (0 ∷ 4294967296 ∷ [])) ≡ false }
    ensures split { is_witness_within (by.Split (0 ∷ 4294967296 ∷ [])) ≡ false }
    ensures least { is_witness_within (by.Least (0 ∷ 4294967296 ∷ [])) ≡ false }
    ensures cycle { is_witness_within (by.Cycle (0 ∷ 4294967296 ∷ [])) ≡ false }
    ensures order { is_witness_within (by.Order (0 ∷ 4294967296 ∷ [])) ≡ false }
    ensures greatest_names { is_witness_within (by.Path (4294967295 ∷ 0 ∷ [])) ≡ true }
    ensures none { is_witness_within (by.Order []) ≡ true }
{}

/// Each literal and each number of a chain is within the format, and each step of an answer.
pub fn steps_within_the_format()
    ensures second_literal { is_step_within (chain (pos 1 ∷ pos 1000001 ∷ []) (1 ∷ [])) ≡ false }
    ensures first_literal { is_step_within (chain (pos 0 ∷ pos 1 ∷ []) (1 ∷ [])) ≡ false }
    ensures second_number { is_step_within (chain (pos 1 ∷ []) (1 ∷ 18446744073709551616 ∷ [])) ≡ false }
    ensures lemma_literal { is_step_within (step.Lemma (of_1 (pos 1 ∷ minus 1000001 ∷ []) (by.Order []))) ≡ false }
    ensures second_step { is_within_format (answer.Progress (chain [] (1 ∷ []) ∷ chain [] [] ∷ [])) ≡ false }
    ensures first_step { is_within_format (answer.Progress (chain [] [] ∷ chain [] (1 ∷ []) ∷ [])) ≡ false }
    ensures no_steps { is_within_format (answer.Refutation []) ≡ true }
    ensures greatest_model { (values : List Bool) → length values ≡ 1000000 → is_within_format (answer.Model values) ≡ true }
    ensures model_too_long { (values : List Bool) → length values ≡ 1000001 → is_within_format (answer.Model values) ≡ false }
{}

/// Items stand one a line from line 1 on, or behind the version line.
pub fn items_in_lines()
    ensures version_one { in_lines_as version.One (item.Status kind.Progress ∷ item.Values [] ∷ []) ≡ (1, Some (item.Status kind.Progress))
        ∷ (2, Some (item.Values [])) ∷ [] }
    ensures version_two { in_lines_as version.Two (item.Status kind.Progress ∷ item.Values [] ∷ []) ≡ (2, Some (item.Status kind.Progress))
        ∷ (3, Some (item.Values [])) ∷ [] }
{}

/// The nodes and edges of labels and flows are names, and what stands behind them goes up to 2^60.
pub fn limits_of_lists()
    ensures node { item_of (tokens_of (codes "label 1 0 4294967295 0"))
        ≡ Some (item.Step (step.Lemma (of_1 [] (by.Label (label 4294967295 0 ∷ []))))) }
    ensures node_too_large { item_of (tokens_of (codes "label 1 0 4294967296 0")) ≡ None }
    ensures edge { item_of (tokens_of (codes "flow 1 0 4294967295 1152921504606846976"))
        ≡ Some (item.Step (step.Lemma (of_1 [] (by.Flow (amount 4294967295 1152921504606846976 ∷ []))))) }
    ensures edge_too_large { item_of (tokens_of (codes "flow 1 0 4294967296 0")) ≡ None }
{}

/// In version 2 it is the numbers that are printed that are within the format, and not those that are held.
pub fn printed_numbers_are_within()
    ensures held_too_large { is_within_format_as version.Two (2 ^ 64) (answer.Progress (chain [] (2 ^ 64 ∷ []) ∷ [])) ≡ true }
    ensures printed_too_large { is_within_format_as version.Two (2 ^ 64) (answer.Progress (chain [] (1 ∷ []) ∷ [])) ≡ false }
{}
