//! Worked rows: rounds.

ghost use Rattle.std.specs.Prelude.{◌≡◌, ℕ, true, false, [], ◌∷◌, List};
ghost use Rattle.mono_problem.specs.Instance.{Instance};
ghost use Rattle.mono_steps.specs.declared.step.Step.{Step};
ghost use Rattle.mono_portfolio.specs.Extended.{extended, passes_limits};
ghost use Rattle.mono_portfolio.specs.Rounds.{short_chains, taking, IsRound, AreRounds, Rounds};
ghost use Rattle.mono_search.specs.Worked.{two_clauses, learned_clause, first_learned, learned_behind_a_lemma};
ghost use Rattle.mono_portfolio.specs.Worked.{long_and_short, four_clauses, given_first, given_next};

/// Chains of at most 8 literals are taken by all, the empty one too. No lemma is.
pub fn short_ones()
    ensures numbers { short_chains 3 long_and_short ≡ 4 ∷ 6 ∷ [] }
    ensures none { short_chains 3 [] ≡ [] }
{}

/// They are taken in order, behind what was taken before. One that finds no room is passed over.
pub fn taken_by_all()
    ensures behind { taking two_clauses learned_behind_a_lemma (4 ∷ []) (3 ∷ 4 ∷ []) ≡ 4 ∷ 3 ∷ 4 ∷ [] }
    ensures last { taking two_clauses learned_behind_a_lemma (4 ∷ []) (3 ∷ []) ≡ 4 ∷ 3 ∷ [] }
    ensures no_room { (p : Instance) (board : List Step) (n : ℕ) → passes_limits (extended p board (n ∷ [])) ≡ true → taking p board [] (n ∷ []) ≡ [] }
    ensures room { (p : Instance) (board : List Step) (n : ℕ) → passes_limits (extended p board (n ∷ [])) ≡ false → taking p board [] (n ∷ []) ≡ n ∷ [] }
    ensures no_room_beside { (p : Instance) (board : List Step) (m n : ℕ) → passes_limits (extended p board (m ∷ n ∷ [])) ≡ true
        → taking p board (m ∷ []) (n ∷ []) ≡ m ∷ [] }
    ensures passed_over { (p : Instance) (board : List Step) (m n k : ℕ) → passes_limits (extended p board (m ∷ n ∷ [])) ≡ true
        → passes_limits (extended p board (m ∷ k ∷ [])) ≡ false → taking p board (m ∷ []) (n ∷ k ∷ []) ≡ m ∷ k ∷ [] }
{}

/// In one round two workers that each learn one clause add two pieces, the second behind the first. Behind it both are taken.
pub fn small_round()
    ensures two { AreRounds 1 two_clauses 2 1 [] [] (3 ∷ 4 ∷ []) (learned_clause ∷ learned_clause ∷ []) }
    ensures one_piece { (last : List ℕ) → AreRounds 1 two_clauses 2 1 [] [] last first_learned → ⊥ }
    ensures another_board { (last : List ℕ) → AreRounds 1 two_clauses 0 1 [] [] last first_learned → ⊥ }
    ensures not_taken { AreRounds 1 two_clauses 2 1 [] [] [] (learned_clause ∷ learned_clause ∷ []) → ⊥ }
    ensures taken_in_no_round { AreRounds 1 two_clauses 2 0 [] [] (3 ∷ []) [] → ⊥ }
{}

/// What was given in a round is taken behind it: the second chain names it by its number.
pub fn two_small_rounds()
    ensures { AreRounds 1 four_clauses 1 2 [] [] (5 ∷ 6 ∷ []) (given_first ∷ given_next ∷ []) }
{}

/// Over two variables there aren't a thousand clauses to be learned, so no worker has a turn that ends without an answer.
pub fn played_rounds()
    ensures thousand { (p : Instance) (board : List Step) (workers rounds : ℕ) → Rounds p board workers rounds
        → (last : List ℕ) × AreRounds 1000 p workers rounds [] [] last board }
    ensures none { Rounds two_clauses [] 2 0 }
    ensures none_more { Rounds two_clauses first_learned 2 0 → ⊥ }
    ensures nobody { IsRound 1000 two_clauses 0 [] first_learned first_learned }
    ensures one { (board : List Step) → Rounds two_clauses board 1 1 → ⊥ }
{}
