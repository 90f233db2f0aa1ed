//! Worked rows: what reading a text from a shelf comes to.

ghost use Rattle.std.specs.Prelude.{◌≡◌, ◌-◌, ◌^◌, [], ◌∷◌, ℕ, true, false, codes, Some, None, Ok, Err};
ghost use Rattle.mono_io.specs.declared.refusal.ReadRefusal.TheVariants as unread;
ghost use Rattle.mono_io.specs.FaultPlan.{is_over, next_is_listed};
ghost use Rattle.mono_io.specs.Reading.{IsGivenUp, IsNotRead, IsRead, IsReadInto, IsTooLong};
ghost use Rattle.mono_io.specs.Shelf.{ReadsNext};
ghost use Rattle.mono_io.specs.Worked.{steady_shelf, two_texts};
ghost use Rattle.mono_check.specs.declared.refusal.CheckRefusal.TheVariants as refusal;
ghost use Rattle.mono_check.specs.FromShelf.{refusal_of};

/// A text that is handed on was read whole, within the limit, and what was taken is that text.
pub fn text_that_is_taken()
    ensures taken { IsReadInto (codes "f") 2 (steady_shelf two_texts [] None 0 0)
        (steady_shelf two_texts (codes "f") (Some 2) 1 0) (λ text. text ≡ codes "ab") }
    ensures other_text { IsReadInto (codes "f") 2 (steady_shelf two_texts [] None 0 0)
        (steady_shelf two_texts (codes "f") (Some 2) 1 0) (λ text. text ≡ codes "a") → ⊥ }
    ensures not_to_its_end { IsReadInto (codes "f") 2 (steady_shelf two_texts [] None 0 0)
        (steady_shelf two_texts (codes "f") (Some 1) 1 0) (λ text. text ≡ codes "ab") → ⊥ }
{}

/// The name was begun exactly once, also where the text is too long, wasn't read, or was given up.
pub fn names_begun_once()
    ensures too_long { ¬ IsTooLong (codes "f") 1 (steady_shelf two_texts [] None 0 0) (steady_shelf two_texts (codes "f") (Some 2) 2 0) }
    ensures not_read { ¬ IsNotRead (codes "h") 2 (steady_shelf two_texts [] None 0 0) (steady_shelf two_texts [] None 0 1) }
    ensures given_up { ¬ IsGivenUp 2 (steady_shelf two_texts [] None 0 0) (steady_shelf two_texts (codes "f") (Some 2) 2 0) }
{}

/// A reading may fail behind the last byte of the limit, and a text that isn't told may be any.
pub fn readings_that_tell_little()
    ensures cut_off_at_the_limit { IsNotRead (codes "f") 2 (record (steady_shelf two_texts [] None 0 0) { steady = false })
        (record (steady_shelf two_texts (codes "f") (Some 2) 1 1) { steady = false }) }
    ensures untold { IsRead (codes "f") 2 (record (steady_shelf [] [] None 0 0) { texts = None; steady = false })
        (record (steady_shelf [] (codes "f") (Some 2) 1 0) { texts = None; steady = false }) (codes "ab") }
{}

/// The next bytes of a told text come into the front of the buffer. Of one that isn't told nothing is said.
pub fn bytes_that_are_read()
    ensures next { ReadsNext {E = ℕ} (Some (codes "abc")) (Some 1) (codes "bcz") (Ok 2) }
    ensures another { ReadsNext {E = ℕ} (Some (codes "abc")) (Some 1) (codes "bdz") (Ok 2) → ⊥ }
    ensures untold { ReadsNext {E = ℕ} None (Some 1) (codes "bdz") (Ok 2) }
    ensures failed { ReadsNext {E = ℕ} (Some (codes "abc")) (Some 1) (codes "bdz") (Err 0) }
{}

/// Why a text wasn't read is why there is no verdict on it.
pub fn refusals()
    ensures memory { refusal_of unread.Memory ≡ refusal.Memory }
    ensures fault { refusal_of unread.Fault ≡ refusal.Fault }
    ensures too_long { refusal_of unread.TooLong ≡ refusal.TooLong }
{}

/// The call that comes next is the one behind those that were made, up to the last one that a `u64` numbers. No listed call is to
/// come once each was made.
pub fn calls_that_are_listed()
    ensures third { next_is_listed (record { calls = 2; listed = 3 ∷ []; faults = 0 }) ≡ true }
    ensures first_is_over { next_is_listed (record { calls = 2; listed = 1 ∷ []; faults = 0 }) ≡ false }
    ensures last { next_is_listed (record { calls = 2 ^ 64 - 2; listed = (2 ^ 64 - 1) ∷ []; faults = 0 }) ≡ true }
    ensures beyond { next_is_listed (record { calls = 2 ^ 64 - 1; listed = (2 ^ 64) ∷ []; faults = 0 }) ≡ false }
    ensures second_to_come { is_over (record { calls = 2; listed = 1 ∷ 3 ∷ []; faults = 0 }) ≡ false }
    ensures none_to_come { is_over (record { calls = 3; listed = 1 ∷ 3 ∷ []; faults = 0 }) ≡ true }
{}
