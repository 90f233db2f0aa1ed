//! Worked rows: pieces and boards of teams, how they end, what their plays show, and which variables their workers prefer to be true.

ghost use Rattle.std.specs.Prelude.{◌≡◌, ◌<◌, ◌^◌, ℕ, true, false, List, [], ◌∷◌, length, pos, IsTrue};
ghost use Rattle.mono_problem.specs.Instance.{Instance};
ghost use Rattle.mono_steps.specs.declared.step.Step.{Step};
ghost use Rattle.mono_steps.specs.Steps.{are_justified};
ghost use Rattle.mono_search.specs.Worked.{both_signs, first_learned, two_clauses};
ghost use Rattle.mono_portfolio.specs.declared.event.Event.TheVariants as event;
ghost use Rattle.mono_portfolio.specs.declared.event.Reply.TheVariants as reply;
ghost use Rattle.mono_portfolio.specs.Ends.{IsRefutationOfTurn};
ghost use Rattle.mono_portfolio.specs.Outcomes.{IsBoardOfRounds};
ghost use Rattle.mono_portfolio.specs.Preferred.{preferred, prefers};
ghost use Rattle.mono_portfolio.specs.Rounds.{AreRounds, IsPiece};
ghost use Rattle.mono_portfolio.specs.Searched.{Tells};
ghost use Rattle.mono_portfolio.specs.Soundness.{IsSoundPlay};
ghost use Rattle.mono_portfolio.specs.Worked.{some_lemma};
ghost use Rattle.mono_search_rows.specs.Worked.{over_seven};

/// A piece of a board is what a worker learned, and no other list of as many steps.
pub fn pieces_of_boards()
    ensures as_many { IsPiece 1 two_clauses [] [] (some_lemma ∷ []) → ⊥ }
    ensures none { IsPiece 1 two_clauses [] [] [] → ⊥ }
{}

/// A board of rounds has what the workers gave in them, over more variables than two.
pub fn boards_of_rounds()
    ensures no_round { IsBoardOfRounds over_seven 2 0 [] }
    ensures nobody { IsBoardOfRounds over_seven 0 1 [] }
    ensures nothing_given { IsBoardOfRounds over_seven 1 1 [] → ⊥ }
    ensures given_in_no_round { IsBoardOfRounds over_seven 2 0 first_learned → ⊥ }
    ensures few_variables { IsBoardOfRounds two_clauses 2 0 [] → ⊥ }
    ensures six_variables { (board : List Step) → IsBoardOfRounds (record two_clauses { vars = 6 }) 1 0 board → ⊥ }
    ensures of_as_many { (p : Instance) (board : List Step) (workers rounds : ℕ) → IsBoardOfRounds p workers rounds board
        → (last : List ℕ) × AreRounds 1000 p workers rounds [] [] last board }
    ensures justified { (p : Instance) (board : List Step) (workers rounds : ℕ) → IsBoardOfRounds p workers rounds board → IsTrue (are_justified p board) }
    ensures short { (p : Instance) (board : List Step) (workers rounds : ℕ) → IsBoardOfRounds p workers rounds board → length board < 2 ^ 63 }
{}

/// A gift behind Unsat is a refutation, whichever worker gives it. No play has a model and Unsat, whichever comes first.
pub fn what_plays_show()
    ensures gift_of_another { IsSoundPlay two_clauses (event.Run 1 1 ∷ event.Give 1 ∷ []) (reply.Unsat ∷ reply.Given 1 ∷ []) first_learned → ⊥ }
    ensures model_last { IsSoundPlay two_clauses (event.Run 0 1 ∷ event.Run 1 1 ∷ []) (reply.Unsat ∷ reply.Model (true ∷ true ∷ []) ∷ []) [] → ⊥ }
    ensures model_between { IsSoundPlay two_clauses (event.Run 0 1 ∷ event.Run 1 1 ∷ event.Run 0 1 ∷ [])
        (reply.Slice ∷ reply.Model (true ∷ true ∷ []) ∷ reply.Unsat ∷ []) [] → ⊥ }
    ensures model_alone { IsSoundPlay two_clauses (event.Run 0 1 ∷ []) (reply.Model (true ∷ false ∷ []) ∷ []) [] }
    ensures unsat_alone { IsSoundPlay both_signs (event.Run 2 1 ∷ []) (reply.Unsat ∷ []) [] }
{}

/// The first worker prefers no variable to be true, and each next one those that one more than its number divides.
pub fn preferred_variables()
    ensures fourth { preferred 3 8 ≡ pos 4 ∷ pos 8 ∷ [] }
    ensures its_own { prefers 3 4 ≡ true }
    ensures one_below { prefers 3 3 ≡ false }
    ensures no_multiple { prefers 3 6 ≡ false }
    ensures second { prefers 1 2 ≡ true }
    ensures first { prefers 0 4 ≡ false }
    ensures fifth { preferred 4 4 ≡ [] }
{}

/// In each turn before the last one a worker gave a thousand clauses, and over one variable there aren't as many.
pub fn turns_before_a_refutation()
    ensures { (board : List Step) → (h : IsRefutationOfTurn both_signs 2 2 board) → h.before ≡ [] }
{}

/// A worker that tells a model made nothing.
pub fn nothing_made_with_a_model()
    ensures { Tells two_clauses two_clauses 1 (reply.Model (true ∷ false ∷ [])) first_learned → ⊥ }
{}
