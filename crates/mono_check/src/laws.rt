//! What verdicts show, and what searches of graphs show of predicates.

ghost use Rattle.std.specs.Prelude.{◌≡◌, ◌↔◌, ◌<◌, ◌^◌, ℕ, ℤ, Bool, List, IsTrue, length, not};
ghost use Rattle.mono_base.specs.Literal.{value_in};
ghost use Rattle.mono_cycles.specs.Found.{IsCycleOrOrder, is_cycle_found};
ghost use Rattle.mono_cycles.specs.declared.finder.CycleOrOrder.{CycleOrOrder};
ghost use Rattle.mono_flows.specs.Answers.{Passes as PassesFlow, is_flow_found};
ghost use Rattle.mono_flows.specs.declared.found.FlowOrCut.{FlowOrCut};
ghost use Rattle.mono_graph.specs.Digraph.{Digraph, HasEnds};
ghost use Rattle.mono_graph.specs.declared.limit.Limit.TheVariants as limit;
ghost use Rattle.mono_paths.specs.Found.{HasBound, IsPathOrCut, IsPathOrLabels, is_light_found, is_path_found};
ghost use Rattle.mono_paths.specs.declared.find.PathOrCut.{PathOrCut};
ghost use Rattle.mono_paths.specs.declared.find.PathOrLabels.{PathOrLabels};
ghost use Rattle.mono_problem.specs.declared.atom.Predicate.TheVariants as predicate;
ghost use Rattle.mono_problem.specs.Instance.{Instance};
ghost use Rattle.mono_problem.specs.WellFormed.{IsInstance};
ghost use Rattle.mono_problem.specs.Holds.{HasNoModel, Holds, Satisfies};
ghost use Rattle.mono_steps.specs.Steps.{are_justified, is_refutation};
ghost use Rattle.mono_steps.specs.declared.step.Step.{Step};
ghost use Rattle.mono_trees.specs.Found.{Passes as PassesTree, is_tree_found};
ghost use Rattle.mono_trees.specs.declared.finder.TreeFound.{TreeFound};
ghost use Rattle.mono_answer.specs.declared.kind.Kind.TheVariants as kind;
ghost use Rattle.mono_answer.specs.declared.answer.Answer.{Answer};
ghost use Rattle.mono_answer.specs.declared.version.Version.{Version};
ghost use Rattle.mono_answer.specs.declared.version.Version.TheVariants as version;
ghost use Rattle.mono_answer.specs.Versions.{answer_names_earlier};
ghost use Rattle.mono_answer.specs.Printed.{answer_text_as};
ghost use Rattle.mono_check.specs.Answers.{SaysModel, HasSteps};
ghost use Rattle.mono_check.specs.Migrations.{FitsMemory, MigratesTo, StandsFor, one_line_later};
ghost use Rattle.mono_steps.specs.Journals.{chain_count};
ghost use Rattle.mono_check.specs.Verdicts.{IsVerdict};
ghost use Rattle.mono_check.specs.declared.verdict.Verdict.{Verdict};
ghost use Rattle.mono_check.specs.declared.verdict.Verdict.TheVariants as verdict;

/// A text has at most one verdict.
pub fn one_verdict()
    ensures { (p : Instance) (text : List ℕ) (v w : Verdict) → IsVerdict p text v → IsVerdict p text w → v ≡ w }
{}

/// The verdict is a refutation exactly where the text claims one, and its steps are one.
pub fn accepted_refutations()
    ensures { (p : Instance) (text : List ℕ) → IsVerdict p text verdict.Refutation
        ↔ ((steps : List Step) × HasSteps (length p.clauses) kind.Refutation text steps × IsTrue (is_refutation p steps)) }
{}

/// The verdict is progress exactly where the text claims it, and its steps are justified. The number is that of the steps
/// that are chains.
pub fn accepted_progress()
    ensures { (p : Instance) (text : List ℕ) (n : ℕ) → IsVerdict p text (verdict.Progress n)
        ↔ ((steps : List Step) × HasSteps (length p.clauses) kind.Progress text steps × IsTrue (are_justified p steps) × (n ≡ chain_count steps)) }
{}

/// The verdict is a model exactly where the text gives values to the variables, and they satisfy the problem.
pub fn accepted_models()
    ensures { (p : Instance) (text : List ℕ) → IsVerdict p text verdict.Model ↔ ((a : List Bool) × SaysModel p text a × Satisfies p (value_in a)) }
{}

/// Where a model is accepted, some assignment satisfies the problem.
pub fn accepted_model_satisfies()
    ensures { (p : Instance) (text : List ℕ) → IsVerdict p text verdict.Model → (a : ℕ → Bool) × Satisfies p a }
{}

/// Where a refutation is accepted, no assignment satisfies the problem.
pub fn accepted_refutation_means_no_model()
    ensures { (p : Instance) (text : List ℕ) → IsInstance p → IsVerdict p text verdict.Refutation → HasNoModel p }
{}

/// An answer's texts in both versions have the same verdict, but that a rejection names a line further in version 2, where its
/// chains name numbers from 1 to the one before their own. This is so of every answer that memory holds, also of one with
/// numbers beyond the format's limits.
pub fn versions_are_judged_alike()
    ensures { (p : Instance) (a : Answer) (v : Verdict) → FitsMemory (length p.clauses) a → IsTrue (answer_names_earlier (length p.clauses) a)
        → IsVerdict p (answer_text_as a version.One (length p.clauses)) v
        ↔ IsVerdict p (answer_text_as a version.Two (length p.clauses)) (one_line_later v) }
{}

/// What an accepted answer is migrated to, in either version, is accepted: it has the same verdict and stands for the same
/// answer. So migrating it once more, to either version, gives what migrating the answer itself gives. The answer's text is no
/// longer than any that memory holds.
pub fn migrated_answers_are_accepted()
    ensures verdict { (p : Instance) (text other : List ℕ) (v : Version) (w : Verdict) → IsInstance p → length text < 2 ^ 63
        → MigratesTo p text v other → IsVerdict p text w → IsVerdict p other w }
    ensures answer { (p : Instance) (text other : List ℕ) (v : Version) (a : Answer) → IsInstance p → length text < 2 ^ 63
        → MigratesTo p text v other → StandsFor p text a → StandsFor p other a }
    ensures again { (p : Instance) (text other third : List ℕ) (v w : Version) → IsInstance p → length text < 2 ^ 63
        → MigratesTo p text v other → MigratesTo p text w third → MigratesTo p other w third }
{}

/// An accepted answer of version 1 in its printed form, which is the text that it is migrated to in version 1, gives the same
/// bytes again once it was migrated to version 2 and back, and what it was migrated to is migrated back. The text is no longer
/// than any that memory holds.
pub fn migrated_there_and_back()
    ensures same { (p : Instance) (text there back : List ℕ) → IsInstance p → length text < 2 ^ 63 → MigratesTo p text version.One text
        → MigratesTo p text version.Two there → MigratesTo p there version.One back → back ≡ text }
    ensures comes_back { (p : Instance) (text there : List ℕ) → IsInstance p → length text < 2 ^ 63 → MigratesTo p text version.One text
        → MigratesTo p text version.Two there → MigratesTo p there version.One text }
{}

/// What a search of a graph finds decides the predicate: it is a walk, a flow or a tree exactly where the predicate holds, and an
/// order exactly where no cycle is there.
pub fn what_is_found_decides_predicates()
    ensures reach { (g : Digraph) (P : List Bool) (u v : ℕ) (found : PathOrCut) → IsPathOrCut g P u v found
        → IsTrue (is_path_found found) ↔ Holds g P (predicate.Reach u v) }
    ensures steps { (g : Digraph) (P : List Bool) (u v : ℕ) (most : ℤ) (found : PathOrLabels) → HasBound (limit.Steps most)
        → IsPathOrLabels g P u v (limit.Steps most) found → IsTrue (is_light_found found) ↔ Holds g P (predicate.Steps u v most) }
    ensures distance { (g : Digraph) (P : List Bool) (u v : ℕ) (most : ℤ) (found : PathOrLabels) → HasBound (limit.Weight most)
        → IsPathOrLabels g P u v (limit.Weight most) found → IsTrue (is_light_found found) ↔ Holds g P (predicate.Distance u v most) }
    ensures flow { (g : Digraph) (P : List Bool) (s t : ℕ) (least : ℤ) (found : FlowOrCut) → HasEnds g → s < g.nodes
        → PassesFlow g P s t least found → IsTrue (is_flow_found found) ↔ Holds g P (predicate.Flow s t least) }
    ensures tree { (g : Digraph) (P : List Bool) (most : ℤ) (found : TreeFound) → PassesTree g P most found
        → IsTrue (is_tree_found found) ↔ Holds g P (predicate.Tree most) }
    ensures acyclic { (g : Digraph) (P : List Bool) (found : CycleOrOrder) → IsCycleOrOrder g P found
        → IsTrue (not (is_cycle_found found)) ↔ Holds g P predicate.Acyclic }
{}
