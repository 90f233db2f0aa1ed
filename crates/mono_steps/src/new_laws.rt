//! What new learned clauses are like, and that there are only so many.

ghost use Rattle.std.specs.Prelude.{◌≡◌, ◌≢◌, ◌↔◌, ℕ, ◌^◌, ◌<◌, ◌≤◌, ℤ, neg_ℤ, false, not, ◌==◌};
ghost use Rattle.std.specs.Prelude.{List, [], ◌∷◌, ◌++◌, length, map, take, count_by, slice_get, Some, IsTrue};
ghost use Rattle.std.specs.List.{list_all, AllPairs};
ghost use Rattle.mono_base.specs.Literal.{has_lit, lit_at, within, without, is_same_set, has_opposites};
ghost use Rattle.mono_base.specs.Partial.{is_partial, is_false_in, unit_quiet};
ghost use Rattle.mono_problem.specs.Instance.{Instance};
ghost use Rattle.mono_steps.specs.declared.lemma.Lemma.{Lemma};
ghost use Rattle.mono_steps.specs.declared.step.Chain.{Chain};
ghost use Rattle.mono_steps.specs.declared.step.Step.{Step};
ghost use Rattle.mono_steps.specs.declared.step.Step.TheVariants as step;
ghost use Rattle.mono_steps.specs.ChainSteps.{names_vars};
ghost use Rattle.mono_steps.specs.Codes.{code};
ghost use Rattle.mono_steps.specs.Journals.{chain_clauses, chain_count, known_clauses, has_no_empty, lemma_steps};
ghost use Rattle.mono_steps.specs.New.{IsNewClause, IsNewChain, HasNewChains, AreNew, contains_one};
ghost use Rattle.mono_steps.specs.Propagated.{is_propagated, has_false};
ghost use Rattle.mono_steps.specs.Steps.{clauses_after, is_empty_chain, is_full_chain, are_justified};

/// Steps are new where each chain is new after the clauses and the steps before its place.
pub fn new_step_by_step()
    ensures { (p : Instance) (steps : List Step) → AreNew p steps
        ↔ ((k : ℕ) (c : Chain) → slice_get steps k ≡ Some (step.Chain c)
        → IsNewChain (clauses_after p (take k steps)) (known_clauses p (take k steps)) c) }
{}

/// Unit propagation doesn't give a new clause: whoever assumes its literals but one false, and propagates units over the
/// clauses known before, gets neither that one nor a false clause.
pub fn new_clauses_are_not_propagated()
    ensures { (known : List (List ℤ)) (c : List ℤ) → IsNewClause known c
        → (l : ℤ) × IsTrue (has_lit c l) × ((t : List ℤ) → IsTrue (is_propagated known (map neg_ℤ (without c l)) t)
        → (has_lit t l ≡ false) × (has_false known t ≡ false)) }
{}

/// A new clause isn't empty, and never has a literal and its negation.
pub fn new_clauses_are_plain()
    ensures nonempty { (known : List (List ℤ)) (c : List ℤ) → IsNewClause known c → (length c == 0) ≡ false }
    ensures one_sign { (known : List (List ℤ)) (c : List ℤ) → IsNewClause known c → has_opposites c ≡ false }
{}

/// The clause of a new chain contains no clause of the problem, and none of an earlier chain. So no two chains have the
/// same clause.
pub fn new_clauses_contain_none_before()
    ensures problem { (p : Instance) (steps : List Step) → AreNew p steps → IsTrue (list_all (λ c. not (contains_one p.clauses c)) (chain_clauses steps)) }
    ensures chains { (p : Instance) (steps : List Step) → AreNew p steps → AllPairs (λ d c. within d c ≡ false) (chain_clauses steps) }
    ensures differ { (p : Instance) (steps : List Step) → AreNew p steps → AllPairs (λ d c. is_same_set d c ≡ false) (chain_clauses steps) }
{}

/// Chains stay new where lemmas join them, where a new chain does, and where the empty clause does; and so do the first
/// ones of them.
pub fn chains_stay_new()
    ensures none { (p : Instance) → HasNewChains p [] }
    ensures lemmas { (p : Instance) (steps : List Step) (ls : List Lemma) → HasNewChains p steps → HasNewChains p (steps ++ lemma_steps ls) }
    ensures chain { (p : Instance) (steps : List Step) (c : Chain) → HasNewChains p steps
        → IsNewChain (clauses_after p steps) (known_clauses p steps) c → HasNewChains p (steps ++ step.Chain c ∷ []) }
    ensures empty { (p : Instance) (steps : List Step) (s : Step) → HasNewChains p steps → IsTrue (is_empty_chain s) → HasNewChains p (steps ++ s ∷ []) }
    ensures front { (p : Instance) (steps more : List Step) → HasNewChains p (steps ++ more) → HasNewChains p steps }
{}

/// What a search learns is new. Its literals but one are false before a decision; that one is false from the decision on;
/// and before the decision unit propagation has nothing to do.
pub fn learned_clauses_are_new()
    ensures { (known : List (List ℤ)) (trail c : List ℤ) (start place : ℕ) → IsTrue (is_partial trail) → start ≤ place → place < length trail
        → IsTrue (has_lit c (neg_ℤ (lit_at trail place)))
        → ((m : ℤ) → IsTrue (has_lit c m) → m ≢ neg_ℤ (lit_at trail place) → IsTrue (is_false_in (take start trail) m))
        → IsTrue (unit_quiet known (take start trail)) → IsNewClause known c }
{}

/// A clause's code is below 3 to the number of variables. Where a clause has each variable with one sign, its code tells
/// its literals, and is 0 for the empty clause alone.
pub fn codes_tell_clauses()
    ensures below { (vars : ℕ) (c : List ℤ) → code vars c < 3 ^ vars }
    ensures same { (p : Instance) (c d : List ℤ) → IsTrue (names_vars p c) → has_opposites c ≡ false → code p.vars c ≡ code p.vars d → IsTrue (within c d) }
    ensures zero { (p : Instance) (c : List ℤ) → IsTrue (names_vars p c) → has_opposites c ≡ false → code p.vars c ≡ 0 → IsTrue (length c == 0) }
{}

/// New chains are fewer than 3 to the number of variables, and so is a budget of chains that they use up.
pub fn fewer_new_chains_than_codes()
    ensures fewer { (p : Instance) (steps : List Step) → IsTrue (are_justified p steps) → AreNew p steps → chain_count steps < 3 ^ p.vars }
    ensures budget { (p : Instance) (steps : List Step) (budget : ℕ) → IsTrue (are_justified p steps) → AreNew p steps → budget ≤ chain_count steps
        → budget < 3 ^ p.vars }
{}

/// Where no chain has the empty clause, the chains are those whose clause isn't empty.
pub fn chains_are_counted()
    ensures { (steps : List Step) → IsTrue (has_no_empty steps) → count_by is_full_chain steps ≡ chain_count steps }
{}
