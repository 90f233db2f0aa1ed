//! What holds of boards and plays by their definitions.

ghost use Rattle.std.specs.Prelude.{◌≡◌, ◌↔◌, ℕ, Bool, List, [], ◌++◌, IsTrue, All};
ghost use Rattle.mono_problem.specs.Instance.{Instance};
ghost use Rattle.mono_problem.specs.WellFormed.{IsInstance};
ghost use Rattle.mono_problem.specs.Holds.{Satisfies};
ghost use Rattle.mono_steps.specs.declared.step.Step.{Step};
ghost use Rattle.mono_steps.specs.Steps.{are_justified, is_refutation};
ghost use Rattle.mono_portfolio.specs.declared.event.Event.{Event};
ghost use Rattle.mono_portfolio.specs.declared.event.Reply.{Reply};
ghost use Rattle.mono_portfolio.specs.Extended.{extended, has_chain};
ghost use Rattle.mono_portfolio.specs.Moved.{moved};
ghost use Rattle.mono_portfolio.specs.TeamView.{TeamView, start};
ghost use Rattle.mono_portfolio.specs.Plays.{Plays};
ghost use Rattle.mono_portfolio.specs.Soundness.{IsSoundPlay};

/// The clauses of justified steps follow from the problem: an assignment satisfies it exactly where it satisfies the
/// problem with some of them behind its own.
pub fn taken_clauses_follow()
    ensures { (p : Instance) (board : List Step) (taken : List ℕ) (a : ℕ → Bool) → IsInstance p → IsTrue (are_justified p board)
        → All (λ n. IsTrue (has_chain p board n)) taken
        → Satisfies p a ↔ Satisfies (extended p board taken) a }
{}

/// Steps that are justified over the extended problem are justified over the problem itself, behind the board.
pub fn moved_steps_are_justified()
    ensures { (p : Instance) (board : List Step) (taken : List ℕ) (steps : List Step) → IsTrue (are_justified p board)
        → All (λ n. IsTrue (has_chain p board n)) taken
        → IsTrue (are_justified (extended p board taken) steps) → IsTrue (are_justified p (board ++ moved p steps taken board)) }
{}

/// A refutation of the extended problem makes the board one of the problem itself.
pub fn moved_refutations_refute()
    ensures { (p : Instance) (board : List Step) (taken : List ℕ) (steps : List Step) → IsTrue (are_justified p board)
        → All (λ n. IsTrue (has_chain p board n)) taken
        → IsTrue (is_refutation (extended p board taken) steps) → IsTrue (is_refutation p (board ++ moved p steps taken board)) }
{}

/// Whatever the events are, the board is justified, each model satisfies the problem, a Give that comes next after Unsat
/// leaves a refutation, and no play has both a model and Unsat.
pub fn every_play_is_sound()
    ensures { (p : Instance) (workers : ℕ) (events : List Event) (replies : List Reply) (t : TeamView) → IsInstance p
        → Plays (start p workers) events replies t → IsSoundPlay p events replies t.board }
{}
