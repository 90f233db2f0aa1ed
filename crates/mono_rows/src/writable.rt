//! Worked rows: the greatest names in each witness, answers of version 1 that the format can't write, and lines for which
//! memory is missing.

ghost use Rattle.std.specs.Prelude.{◌≡◌, [], ◌∷◌, pos, true, false, codes, Err};
ghost use Rattle.mono_text.specs.Text.{tokens_of};
ghost use Rattle.mono_steps.specs.declared.lemma.Witness.TheVariants as by;
ghost use Rattle.mono_steps.specs.WorkedLemmas.{chain};
ghost use Rattle.mono_answer.specs.declared.answer.Answer.TheVariants as answer;
ghost use Rattle.mono_answer.specs.declared.item.ItemRefusal.TheVariants as refusal;
ghost use Rattle.mono_answer.specs.declared.version.Version.TheVariants as version;
ghost use Rattle.mono_answer.specs.Printed.{is_within_format_as, is_witness_within};
ghost use Rattle.mono_answer.specs.Readings.{IsReading};

/// The greatest number of a node or an edge is within the format in each witness that is a list of them.
pub fn greatest_names_in_witnesses()
    ensures path { is_witness_within (by.Path (0 ∷ 4294967295 ∷ [])) ≡ true }
    ensures cut { is_witness_within (by.Cut (0 ∷ 4294967295 ∷ [])) ≡ true }
    ensures flow_cut { is_witness_within (by.FlowCut (0 ∷ 4294967295 ∷ [])) ≡ true }
    ensures tree { is_witness_within (by.Tree (0 ∷ 4294967295 ∷ [])) ≡ true }
    ensures split { is_witness_within (by.Split (0 ∷ 4294967295 ∷ [])) ≡ true }
    ensures least { is_witness_within (by.Least (0 ∷ 4294967295 ∷ [])) ≡ true }
    ensures cycle { is_witness_within (by.Cycle (0 ∷ 4294967295 ∷ [])) ≡ true }
    ensures order { is_witness_within (by.Order (0 ∷ 4294967295 ∷ [])) ≡ true }
{}

/// In version 1 the numbers that are held are below 2^64, no literal is 0, and each chain names a clause.
pub fn held_numbers_are_within()
    ensures no_clause_named { is_within_format_as version.One 1 (answer.Progress (chain [] [] ∷ [])) ≡ false }
    ensures no_literal { is_within_format_as version.One 1 (answer.Refutation (chain (pos 0 ∷ []) (1 ∷ []) ∷ [])) ≡ false }
    ensures number_too_large { is_within_format_as version.One 1 (answer.Refutation (chain [] (18446744073709551616 ∷ []) ∷ [])) ≡ false }
    ensures greatest_number { is_within_format_as version.One 1 (answer.Refutation (chain [] (18446744073709551615 ∷ []) ∷ [])) ≡ true }
{}

/// Memory may be missing at any line, whatever it says.
pub fn lines_without_memory()
    ensures blank { IsReading (tokens_of (codes " ")) (Err refusal.Memory) }
    ensures item { IsReading (tokens_of (codes "v 1 0")) (Err refusal.Memory) }
    ensures bad { IsReading (tokens_of (codes "chain")) (Err refusal.Memory) }
{}
