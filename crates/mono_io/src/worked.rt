//! Rows that were worked by hand, as the definitions compute them.

ghost use Rattle.std.specs.Prelude.{◌≡◌, ◌^◌, ◌-◌, ℕ, [], ◌∷◌, true, false, Some, None, Ok, Err, codes};
ghost use Rattle.mono_io.specs.FaultPlan.{next_is_listed, is_over, succeeded, failed};
ghost use Rattle.mono_io.specs.Faults.{counted, HasCause};
ghost use Rattle.mono_io.specs.FileShelf.{IsReadOn};
ghost use Rattle.mono_io.specs.MemoryShelf.{left_to_read};
ghost use Rattle.mono_io.specs.MemorySink.{free_room};
ghost use Rattle.mono_io.specs.Reading.{IsRead, IsTooLong, IsNotRead, IsGivenUp};
ghost use Rattle.mono_io.specs.Shelf.{text_named, told_text, chosen_text, Lacks, moved, advanced, GivesNext};
ghost use Rattle.mono_io.specs.Sink.{AppendsPrefix};
ghost use Rattle.mono_io.specs.Texts.{Puts};
ghost use Rattle.mono_io.specs.Worked.{two_texts, steady_shelf};

/// A count rises by one, and stands at the last value of a `u64`.
pub fn worked_counts()
    ensures rises { counted 0 ≡ 1 }
    ensures last { counted (2 ^ 64 - 2) ≡ 2 ^ 64 - 1 }
    ensures stands { counted (2 ^ 64 - 1) ≡ 2 ^ 64 - 1 }

    ensures failed { HasCause {T = ℕ} {E = ℕ} 3 4 (Err 0) }
    ensures succeeded { HasCause {T = ℕ} {E = ℕ} 3 3 (Ok 0) }
    ensures without_cause { ¬ HasCause {T = ℕ} {E = ℕ} 3 3 (Err 0) }
    ensures counted_twice { ¬ HasCause {T = ℕ} {E = ℕ} 3 5 (Err 0) }
    ensures hidden { ¬ HasCause {T = ℕ} {E = ℕ} 3 4 (Ok 0) }
{}

/// Texts are found by name, the first of a name.
pub fn worked_texts()
    ensures named { text_named (codes "f") two_texts ≡ Some (codes "ab") }
    ensures first { text_named (codes "g") two_texts ≡ Some [] }
    ensures absent { text_named (codes "h") two_texts ≡ None }
    ensures told { told_text (Some two_texts) (codes "f") ≡ Some (codes "ab") }
    ensures untold { told_text None (codes "f") ≡ None }
    ensures chosen { chosen_text (steady_shelf two_texts (codes "f") None 0 0) ≡ Some (codes "ab") }

    ensures lacks { Lacks (Some two_texts) (codes "h") }
    ensures lacks_none { ¬ Lacks (Some two_texts) (codes "g") }
    ensures tells_nothing { ¬ Lacks None (codes "h") }

    ensures put { ¬ Puts [] ((codes "f", codes "a") ∷ []) (codes "f") (codes "b") }
    ensures kept { ¬ Puts two_texts ((codes "h", codes "a") ∷ []) (codes "h") (codes "a") }
{}

/// What one call of `read` or `write` gives or takes.
pub fn worked_pieces()
    ensures took { moved {E = ℕ} (Ok 3) ≡ 3 }
    ensures took_none { moved {E = ℕ} (Err 3) ≡ 0 }
    ensures on { advanced 3 (Some 4) ≡ Some 7 }
    ensures nowhere { advanced 3 None ≡ None }

    ensures next { GivesNext (codes "abcd") 1 (codes "bcz") 2 }
    ensures end { GivesNext (codes "abcd") 4 (codes "z") 0 }
    ensures no_room { GivesNext (codes "abcd") 1 [] 0 }
    ensures other_byte { ¬ GivesNext (codes "abcd") 1 (codes "bbz") 2 }
    ensures early_end { ¬ GivesNext (codes "abcd") 3 (codes "z") 0 }
    ensures behind_end { ¬ GivesNext (codes "abcd") 4 (codes "") 1 }

    ensures none { AppendsPrefix (Some (codes "x")) (Some (codes "x")) (codes "ab") }
    ensures some { AppendsPrefix (Some (codes "x")) (Some (codes "xa")) (codes "ab") }
    ensures all { ¬ AppendsPrefix (Some (codes "x")) (Some (codes "xab")) (codes "ab") }
    ensures not_the_first { ¬ AppendsPrefix (Some (codes "x")) (Some (codes "xb")) (codes "ab") }
    ensures lost { ¬ AppendsPrefix (Some (codes "x")) (Some (codes "")) (codes "ab") }
    ensures more { ¬ AppendsPrefix (Some (codes "x")) (Some (codes "xabc")) (codes "ab") }
    ensures no_longer_told { ¬ AppendsPrefix (Some (codes "x")) None (codes "ab") }

    ensures read_on { IsReadOn (Some (codes "abc")) (Some 1) (Some (codes "bc")) }
    ensures at_its_end { IsReadOn (Some (codes "abc")) (Some 3) (Some []) }
    ensures untold { IsReadOn None (Some 1) None }
    ensures nothing_open { IsReadOn (Some (codes "abc")) None None }
    ensures read_twice { ¬ IsReadOn (Some (codes "abc")) (Some 1) (Some (codes "abc")) }
    ensures skipped { ¬ IsReadOn (Some (codes "abc")) (Some 1) (Some (codes "c")) }
    ensures behind_its_end { ¬ IsReadOn (Some (codes "abc")) (Some 4) (Some []) }
    ensures rest_untold { ¬ IsReadOn (Some (codes "abc")) (Some 1) None }
{}

/// The text `ab` of the name `f`, read whole from a steady shelf.
pub fn worked_readings()
    ensures read { IsRead (codes "f") 2 (steady_shelf two_texts [] None 0 0) (steady_shelf two_texts (codes "f") (Some 2) 1 0) (codes "ab") }
    ensures beyond { ¬ IsRead (codes "f") 1 (steady_shelf two_texts [] None 0 0) (steady_shelf two_texts (codes "f") (Some 2) 1 0) (codes "ab") }
    ensures cut { ¬ IsRead (codes "f") 2 (steady_shelf two_texts [] None 0 0) (steady_shelf two_texts (codes "f") (Some 1) 1 0) (codes "a") }
    ensures other_place { ¬ IsRead (codes "f") 2 (steady_shelf two_texts [] None 0 0) (steady_shelf two_texts (codes "f") (Some 1) 1 0) (codes "ab") }
    ensures twice { ¬ IsRead (codes "f") 2 (steady_shelf two_texts [] None 0 0) (steady_shelf two_texts (codes "f") (Some 2) 2 0) (codes "ab") }
    ensures hidden { ¬ IsRead (codes "f") 2 (steady_shelf two_texts [] None 0 0) (steady_shelf two_texts (codes "f") (Some 2) 1 1) (codes "ab") }
    ensures lost { ¬ IsRead (codes "f") 2 (steady_shelf two_texts [] None 0 0) (steady_shelf [] (codes "f") (Some 2) 1 0) (codes "ab") }
    ensures unsteady { ¬ IsRead (codes "f") 2 (steady_shelf two_texts [] None 0 0)
        (record (steady_shelf two_texts (codes "f") (Some 2) 1 0) { steady = false }) (codes "ab") }

    ensures too_long { IsTooLong (codes "f") 1 (steady_shelf two_texts [] None 0 0) (steady_shelf two_texts (codes "f") (Some 2) 1 0) }
    ensures at_limit { ¬ IsTooLong (codes "f") 2 (steady_shelf two_texts [] None 0 0) (steady_shelf two_texts (codes "f") (Some 3) 1 0) }
    ensures other_end { ¬ IsTooLong (codes "f") 1 (steady_shelf two_texts [] None 0 0) (steady_shelf two_texts (codes "f") (Some 1) 1 0) }
    ensures too_long_hidden { ¬ IsTooLong (codes "f") 1 (steady_shelf two_texts [] None 0 0) (steady_shelf two_texts (codes "f") (Some 2) 1 1) }

    ensures missing { IsNotRead (codes "h") 2 (steady_shelf two_texts [] None 0 0) (steady_shelf two_texts [] None 1 1) }
    ensures there { ¬ IsNotRead (codes "f") 2 (steady_shelf two_texts [] None 0 0) (steady_shelf two_texts [] None 1 1) }
    ensures no_cause { ¬ IsNotRead (codes "h") 2 (steady_shelf two_texts [] None 0 0) (steady_shelf two_texts [] None 1 0) }
    ensures two_causes { ¬ IsNotRead (codes "h") 2 (steady_shelf two_texts [] None 0 0) (steady_shelf two_texts [] None 1 2) }
    ensures chosen_still { ¬ IsNotRead (codes "h") 2 (steady_shelf two_texts [] None 0 0) (steady_shelf two_texts [] (Some 0) 1 1) }
    ensures cut_off { IsNotRead (codes "f") 2 (record (steady_shelf two_texts [] None 0 0) { steady = false })
        (record (steady_shelf two_texts (codes "f") (Some 1) 1 1) { steady = false }) }
    ensures read_beyond { ¬ IsNotRead (codes "f") 2 (record (steady_shelf two_texts [] None 0 0) { steady = false })
        (record (steady_shelf two_texts (codes "f") (Some 3) 1 1) { steady = false }) }

    ensures given_up { IsGivenUp 2 (steady_shelf two_texts [] None 0 0) (steady_shelf two_texts (codes "f") (Some 2) 1 0) }
    ensures given_up_at_a_fault { ¬ IsGivenUp 2 (steady_shelf two_texts [] None 0 0) (steady_shelf two_texts (codes "f") (Some 2) 1 1) }
    ensures given_up_beyond { ¬ IsGivenUp 2 (steady_shelf two_texts [] None 0 0) (steady_shelf two_texts (codes "f") (Some 3) 1 0) }
{}

/// Objects in memory: which calls fail, what is left to read, and what still fits.
pub fn worked_memory()
    ensures listed { next_is_listed (record { calls = 2; listed = 1 ∷ 3 ∷ []; faults = 0 }) ≡ true }
    ensures not_listed { next_is_listed (record { calls = 2; listed = 2 ∷ 4 ∷ []; faults = 0 }) ≡ false }
    ensures no_number { next_is_listed (record { calls = 2 ^ 64 - 1; listed = 2 ^ 64 ∷ []; faults = 0 }) ≡ false }
    ensures over { is_over (record { calls = 2; listed = 1 ∷ 2 ∷ []; faults = 0 }) ≡ true }
    ensures not_over { is_over (record { calls = 2; listed = 3 ∷ 1 ∷ []; faults = 0 }) ≡ false }
    ensures succeeds { succeeded (record { calls = 2; listed = 3 ∷ []; faults = 5 }) ≡ record { calls = 3; listed = 3 ∷ []; faults = 5 } }
    ensures fails { failed (record { calls = 2; listed = 3 ∷ []; faults = 5 }) ≡ record { calls = 3; listed = 3 ∷ []; faults = 6 } }

    ensures left { left_to_read (record {
      texts = two_texts;
      chosen = codes "f";
      place = Some 1;
      most = 9;
      begun = 1;
      plan = record { calls = 2; listed = []; faults = 0 };
    }) ≡ codes "b" }
    ensures room { free_room (record { bytes = codes "abc"; room = 10; most = 2; plan = record { calls = 2; listed = []; faults = 0 } }) ≡ 7 }
{}
