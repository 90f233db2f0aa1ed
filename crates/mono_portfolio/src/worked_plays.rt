//! Worked rows: plays, and what holds of them.

ghost use Rattle.std.specs.Prelude.{◌≡◌, true, false, List, [], ◌∷◌, ◌++◌, pos};
ghost use Rattle.mono_problem.specs.Instance.{Instance};
ghost use Rattle.mono_steps.specs.declared.step.Step.{Step};
ghost use Rattle.mono_steps.specs.Worked.{clauses_over};
ghost use Rattle.mono_steps.specs.WorkedLemmas.{chain};
ghost use Rattle.mono_portfolio.specs.declared.event.Event.TheVariants as event;
ghost use Rattle.mono_portfolio.specs.declared.event.Reply.TheVariants as reply;
ghost use Rattle.mono_portfolio.specs.Extended.{extended, passes_limits};
ghost use Rattle.mono_portfolio.specs.TeamView.{WorkerView, TeamView, start, IsWorker, IsTeam};
ghost use Rattle.mono_portfolio.specs.Plays.{Answers, Plays};
ghost use Rattle.mono_portfolio.specs.Soundness.{given, refuted_last, IsSoundPlay, IsPlay};
ghost use Rattle.mono_search.specs.Worked.{two_clauses, both_signs, learned_clause, first_learned, learned_behind_a_lemma};
ghost use Rattle.mono_portfolio.specs.Worked.{some_lemma, made};
ghost use Rattle.mono_portfolio.specs.Worked.{on_the_board, worker, team, two_workers, events, refuted_by, replies, at_end};

use crate::laws::every_play_is_sound;

/// A slice, given and taken, and the refusals in their order.
pub fn small_play()
    ensures { Plays (start two_clauses 2) events replies at_end }
{}

/// A reply stands for each event, and for one that can come.
pub fn plays_with_other_replies()
    ensures other { Plays (start two_clauses 2) (event.Run 0 1 ∷ []) (reply.Taken ∷ []) at_end → ⊥ }
    ensures fewer { Plays (start two_clauses 2) (event.Run 5 1 ∷ []) [] (start two_clauses 2) → ⊥ }
    ensures more { Plays (start two_clauses 2) [] (reply.NoWorker ∷ []) (start two_clauses 2) → ⊥ }
    ensures after_a_refusal { Plays (start two_clauses 2) (event.Run 5 1 ∷ []) (reply.NoWorker ∷ []) at_end → ⊥ }
{}

/// A slice has as many chains as were asked for, and fewer than 3 to the number of variables. A refutation has no step that its last
/// one doesn't rest on.
pub fn answers_to_runs()
    ensures fewer_chains { Answers (start two_clauses 2) (event.Run 0 2) reply.Slice (team [] (worker [] first_learned ∷ worker [] [] ∷ [])) → ⊥ }
    ensures beyond { (t : TeamView) → Answers (start two_clauses 2) (event.Run 0 9) reply.Slice t → ⊥ }
    ensures no_refutation { Answers (start two_clauses 2) (event.Run 0 1) reply.Unsat (team [] (worker [] first_learned ∷ worker [] [] ∷ [])) → ⊥ }
    ensures refuted { Answers (start both_signs 1) (event.Run 0 1) reply.Unsat (refuted_by (chain [] (1 ∷ 2 ∷ []) ∷ [])) }
    ensures idle_step { Answers (start both_signs 1) (event.Run 0 1) reply.Unsat
        (refuted_by (chain (pos 1 ∷ []) (1 ∷ []) ∷ chain [] (1 ∷ 2 ∷ []) ∷ [])) → ⊥ }
    ensures false_clause { (t : TeamView) → Answers (start two_clauses 2) (event.Run 0 1) (reply.Model (false ∷ true ∷ [])) t → ⊥ }
    ensures model_keeps_made { Answers two_workers (event.Run 1 1) (reply.Model (true ∷ false ∷ [])) two_workers → ⊥ }
    ensures other_worker { Answers (start two_clauses 2) (event.Run 0 1) reply.Slice (team [] (worker [] [] ∷ worker [] first_learned ∷ [])) → ⊥ }
{}

/// All that the worker made joins the board, and is the worker's no more.
pub fn answers_to_gifts()
    ensures with_lemmas { Answers (team learned_behind_a_lemma (worker (4 ∷ []) made ∷ [])) (event.Give 0) (reply.Given 4)
        (team (learned_behind_a_lemma ++ on_the_board) (worker (4 ∷ []) [] ∷ [])) }
    ensures count { (t : TeamView) → Answers two_workers (event.Give 1) (reply.Given 2) t → ⊥ }
    ensures kept { Answers two_workers (event.Give 1) (reply.Given 1)
        (team (some_lemma ∷ learned_clause ∷ learned_clause ∷ []) (worker (4 ∷ []) [] ∷ worker [] first_learned ∷ [])) → ⊥ }
    ensures not_joined { Answers two_workers (event.Give 1) (reply.Given 1) (team learned_behind_a_lemma (worker (4 ∷ []) [] ∷ worker [] [] ∷ [])) → ⊥ }
{}

/// What is taken stands last, and what the worker made before is gone. The other worker's list stays.
pub fn answers_to_takings()
    ensures taken { Answers two_workers (event.Take 1 4) reply.Taken (team learned_behind_a_lemma (worker (4 ∷ []) [] ∷ worker (4 ∷ []) [] ∷ [])) }
    ensures kept { Answers two_workers (event.Take 1 4) reply.Taken
        (team learned_behind_a_lemma (worker (4 ∷ []) [] ∷ worker (4 ∷ []) first_learned ∷ [])) → ⊥ }
    ensures not_taken { Answers two_workers (event.Take 1 4) reply.Taken (team learned_behind_a_lemma (worker (4 ∷ []) [] ∷ worker [] [] ∷ [])) → ⊥ }
    ensures by_the_other { Answers two_workers (event.Take 1 4) reply.Taken
        (team learned_behind_a_lemma (worker (4 ∷ 4 ∷ []) [] ∷ worker [] first_learned ∷ [])) → ⊥ }
{}

/// A worker's last reply is Unsat until it is asked again. What others are asked changes nothing.
pub fn last_replies()
    ensures others { refuted_last 0 false (event.Run 0 1 ∷ event.Run 1 1 ∷ event.Take 1 3 ∷ []) (reply.Unsat ∷ reply.Slice ∷ reply.Taken ∷ []) ≡ true }
    ensures asked_again { refuted_last 0 false (event.Run 0 1 ∷ event.Take 0 3 ∷ []) (reply.Unsat ∷ reply.NoStep ∷ []) ≡ false }
    ensures of_another { refuted_last 1 false (event.Run 0 1 ∷ []) (reply.Unsat ∷ []) ≡ false }
    ensures joined { given (reply.Slice ∷ reply.Given 2 ∷ reply.Unsat ∷ reply.Given 1 ∷ []) ≡ 3 }
{}

/// The small play is sound, as each one is.
pub fn small_play_is_sound()
    ensures { IsSoundPlay two_clauses events replies first_learned }
{
    every_play_is_sound();
    small_play();
}

/// A team's problem is one, its board is justified, and each worker took chains of it for which there is room, and made
/// justified steps.
pub fn states_of_plays()
    ensures reached { IsTeam at_end }
    ensures no_problem { IsTeam (record { problem = clauses_over 0 ((pos 1 ∷ []) ∷ []); board = []; workers = [] }) → ⊥ }
    ensures board { IsTeam two_workers → ⊥ }
    ensures no_chain { IsTeam (team first_learned (worker (2 ∷ []) [] ∷ [])) → ⊥ }
    ensures no_room { (p : Instance) (board : List Step) (x : WorkerView) → passes_limits (extended p board x.taken) ≡ true → IsWorker p board x → ⊥ }
    ensures made { IsTeam (team [] (worker [] (chain [] (1 ∷ 2 ∷ []) ∷ []) ∷ [])) → ⊥ }
{
    small_play();
}

/// The small play is one of two workers, with the board that it leaves.
pub fn whole_plays()
    ensures small { IsPlay two_clauses 2 events replies first_learned }
    ensures other_board { IsPlay two_clauses 2 [] [] first_learned → ⊥ }
    ensures other_replies { IsPlay two_clauses 2 [] (reply.Taken ∷ []) [] → ⊥ }
{
    small_play();
}

/// A worker gives what it made with its reply Unsat: the board is a refutation then.
pub fn refuted_play_is_sound()
    ensures { IsSoundPlay both_signs (event.Run 0 1 ∷ event.Give 0 ∷ []) (reply.Unsat ∷ reply.Given 1 ∷ []) (chain [] (1 ∷ 2 ∷ []) ∷ []) }
{}

/// No board with an unjustified step, no model that leaves a clause false, no two answers, and no gift of a refutation
/// that isn't one.
pub fn unsound_plays()
    ensures board { IsSoundPlay two_clauses [] [] (chain [] (1 ∷ 2 ∷ []) ∷ []) → ⊥ }
    ensures model { IsSoundPlay two_clauses (event.Run 0 1 ∷ []) (reply.Model (false ∷ true ∷ []) ∷ []) [] → ⊥ }
    ensures both { IsSoundPlay two_clauses (event.Run 0 1 ∷ event.Run 1 1 ∷ []) (reply.Model (true ∷ true ∷ []) ∷ reply.Unsat ∷ []) [] → ⊥ }
    ensures refutation { IsSoundPlay two_clauses (event.Run 0 1 ∷ event.Give 0 ∷ []) (reply.Unsat ∷ reply.Given 1 ∷ []) first_learned → ⊥ }
{}
