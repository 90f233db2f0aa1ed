//! Worked rows: boards, extended problems, steps with new numbers, and what is refused.

ghost use Rattle.std.specs.Prelude.{◌≡◌, ℕ, ◌+◌, true, false, [], ◌∷◌, ◌++◌, length, pos, Some, None};
ghost use Rattle.mono_base.specs.declared.limits.TheConstants.{MAX_CLAUSES, MAX_LITERALS};
ghost use Rattle.mono_problem.specs.Instance.{Instance, literals_total};
ghost use Rattle.mono_steps.specs.Worked.{clauses_over};
ghost use Rattle.mono_steps.specs.WorkedLemmas.{minus};
ghost use Rattle.mono_portfolio.specs.declared.event.Event.TheVariants as event;
ghost use Rattle.mono_portfolio.specs.declared.event.Reply.TheVariants as reply;
ghost use Rattle.mono_portfolio.specs.Extended.{board_clause, extended, has_chain, passes_limits};
ghost use Rattle.mono_portfolio.specs.Moved.{moved_number, moved};
ghost use Rattle.mono_portfolio.specs.Preferred.{preferred};
ghost use Rattle.mono_portfolio.specs.Refusals.{lacks_worker, has_taken, is_full, refusal};
ghost use Rattle.mono_portfolio.specs.TeamView.{TeamView, worker_at, over, after_give, with_made};
ghost use Rattle.mono_search.specs.Worked.{two_clauses, first_learned, learned_behind_a_lemma};
ghost use Rattle.mono_portfolio.specs.Worked.{made, on_the_board, worker, team, two_workers};

/// Clauses are numbered through the problem and the board.
pub fn clauses_by_number()
    ensures own { board_clause two_clauses first_learned 2 ≡ pos 1 ∷ minus 2 ∷ [] }
    ensures given { board_clause two_clauses first_learned 3 ≡ pos 1 ∷ [] }
    ensures none { board_clause two_clauses first_learned 4 ≡ [] }
{}

/// Chains of the board have numbers that can be taken: no lemma, no clause of the problem, and no number behind the board.
pub fn chains_by_number()
    ensures chain { has_chain two_clauses learned_behind_a_lemma 4 ≡ true }
    ensures lemma { has_chain two_clauses learned_behind_a_lemma 3 ≡ false }
    ensures own { has_chain two_clauses learned_behind_a_lemma 2 ≡ false }
    ensures zero { has_chain two_clauses learned_behind_a_lemma 0 ≡ false }
    ensures past { has_chain two_clauses learned_behind_a_lemma 5 ≡ false }
{}

/// Taken clauses stand behind the problem's own, in the order in which they were taken.
pub fn extended_problems()
    ensures order { extended two_clauses learned_behind_a_lemma (4 ∷ 3 ∷ [])
        ≡ clauses_over 2 ((pos 1 ∷ pos 2 ∷ []) ∷ (pos 1 ∷ minus 2 ∷ []) ∷ (pos 1 ∷ []) ∷ (pos 2 ∷ []) ∷ []) }
    ensures none { extended two_clauses first_learned [] ≡ two_clauses }
{}

/// A problem passes the limits with one clause or one literal more than an input may have.
pub fn problems_beyond_the_limits()
    ensures just { (p : Instance) → length p.clauses ≡ MAX_CLAUSES → literals_total p ≡ MAX_LITERALS → passes_limits p ≡ false }
    ensures clauses { (p : Instance) → length p.clauses ≡ MAX_CLAUSES + 1 → passes_limits p ≡ true }
    ensures literals { (p : Instance) → length p.clauses ≡ 1 → literals_total p ≡ MAX_LITERALS + 1 → passes_limits p ≡ true }
{}

/// Of two clauses and the taken ones 7 and 4, a number of the problem stays, the places of the taken clauses become 7 and 4,
/// and steps are numbered on from a board of six.
pub fn moved_numbers()
    ensures own { moved_number 2 (7 ∷ 4 ∷ []) 6 2 ≡ 2 }
    ensures first_taken { moved_number 2 (7 ∷ 4 ∷ []) 6 3 ≡ 7 }
    ensures last_taken { moved_number 2 (7 ∷ 4 ∷ []) 6 4 ≡ 4 }
    ensures step { moved_number 2 (7 ∷ 4 ∷ []) 6 5 ≡ 9 }
    ensures steps { moved two_clauses made (4 ∷ []) learned_behind_a_lemma ≡ on_the_board }
    ensures bare { moved two_clauses learned_behind_a_lemma [] [] ≡ learned_behind_a_lemma }
{}

/// The first worker prefers no variable to be true, the second each second one, the third each third one.
pub fn preferred_literals()
    ensures none { preferred 0 6 ≡ [] }
    ensures second { preferred 1 6 ≡ pos 2 ∷ pos 4 ∷ pos 6 ∷ [] }
    ensures third { preferred 2 7 ≡ pos 3 ∷ pos 6 ∷ [] }
{}

/// A worker's problem has what that worker took, and giving adds its steps, renumbered, behind the board.
pub fn states_of_teams()
    ensures took { over two_workers 0 ≡ extended two_clauses learned_behind_a_lemma (4 ∷ []) }
    ensures took_nothing { over two_workers 1 ≡ two_clauses }
    ensures made { with_made two_workers 0 first_learned ≡ team learned_behind_a_lemma (worker (4 ∷ []) first_learned ∷ worker [] first_learned ∷ []) }
    ensures gave { after_give two_workers 1 ≡ team (learned_behind_a_lemma ++ first_learned) (worker (4 ∷ []) [] ∷ worker [] [] ∷ []) }
{}

/// A worker that isn't there is told before a slice of nothing.
pub fn refused_runs()
    ensures no_worker { refusal two_workers (event.Run 2 0) ≡ Some reply.NoWorker }
    ensures no_slice { refusal two_workers (event.Run 1 0) ≡ Some reply.ZeroSlice }
    ensures served { refusal two_workers (event.Run 1 1) ≡ None }
{}

/// Only a worker that made something may give.
pub fn refused_gifts()
    ensures no_worker { refusal two_workers (event.Give 2) ≡ Some reply.NoWorker }
    ensures nothing { refusal two_workers (event.Give 0) ≡ Some reply.NothingMade }
    ensures served { refusal two_workers (event.Give 1) ≡ None }
{}

/// A worker may take a chain that another worker took. That it took it itself is told before that there is no room.
pub fn refused_takings()
    ensures no_worker { refusal two_workers (event.Take 2 9) ≡ Some reply.NoWorker }
    ensures lemma { refusal two_workers (event.Take 0 3) ≡ Some reply.NoStep }
    ensures again { refusal two_workers (event.Take 0 4) ≡ Some reply.AlreadyTaken }
    ensures served { refusal two_workers (event.Take 1 4) ≡ None }
    ensures room { is_full two_workers 1 4 ≡ false }
    ensures no_room { (s : TeamView) (w n : ℕ) → passes_limits (extended s.problem s.board ((worker_at s w).taken ++ n ∷ [])) ≡ true → is_full s w n ≡ true }
    ensures again_first { (s : TeamView) (w n : ℕ) → lacks_worker s w ≡ false → has_chain s.problem s.board n ≡ true → has_taken s w n ≡ true
        → is_full s w n ≡ true → refusal s (event.Take w n) ≡ Some reply.AlreadyTaken }
    ensures full { (s : TeamView) (w n : ℕ) → lacks_worker s w ≡ false → has_chain s.problem s.board n ≡ true → has_taken s w n ≡ false
        → is_full s w n ≡ true → refusal s (event.Take w n) ≡ Some reply.Full }
{}
