//! What holds of runs by the definitions alone.

ghost use Rattle.std.specs.Prelude.{◌≡◌, ◌≢◌, ◌<◌, ◌+◌, ◌^◌, ◌↔◌, ℕ, ℤ, List, Option, Some, IsTrue};
ghost use Rattle.mono_base.specs.declared.limits.TheConstants.{MAX_INPUT_BYTES, MAX_ANSWER_BYTES};
ghost use Rattle.mono_io.specs.Faults.{counted};
ghost use Rattle.mono_io.specs.Shelf.{Texts, ShelfView};
ghost use Rattle.mono_answer.specs.declared.version.Version.{Version};
ghost use Rattle.mono_words.specs.declared.command.TheConstants.{MAX_MIGRATED_BYTES};
ghost use Rattle.mono_words.specs.declared.command.Command.{Command as CommandOf};
ghost use Rattle.mono_words.specs.declared.command.Command.TheVariants as command;
ghost use Rattle.mono_forms.specs.declared.ending.Ending.{Ending as EndingOf};
ghost use Rattle.mono_forms.specs.declared.ending.Ending.TheVariants as ending;
ghost use Rattle.mono_forms.specs.Runs.{Ends, AreAlike, IsSolving};

/// Over the same told texts one command comes to one ending: over steady shelves whatever it is, and over other ones where
/// neither run met a read fault. Want of memory alone is free, and which answer is found: but two answers don't
/// contradict each other. So each ending comes exactly where its definition says.
pub fn one_ending()
    ensures alike { (found : Option CommandOf) (held : Texts) (old new old' new' : ShelfView) (e e' : EndingOf) → old.texts ≡ Some held
        → old'.texts ≡ Some held → (e ≡ ending.ReadFault → IsTrue old.steady) → (e' ≡ ending.ReadFault → IsTrue old'.steady) → Ends found old new e
        → Ends found old' new' e' → e ≢ ending.Memory → e' ≢ ending.Memory → AreAlike e e' }
    ensures same { (found : Option CommandOf) (held : Texts) (old new old' new' : ShelfView) (e e' : EndingOf) → ¬ IsSolving found
        → old.texts ≡ Some held → old'.texts ≡ Some held → (e ≡ ending.ReadFault → IsTrue old.steady) → (e' ≡ ending.ReadFault → IsTrue old'.steady)
        → Ends found old new e → Ends found old' new' e' → e ≢ ending.Memory → e' ≢ ending.Memory → e ≡ e' }
{}

/// A run ends too long exactly where the shelf stands one byte behind the limit of the file that was begun last, whether
/// or not the shelf tells its texts. The count of begins tells which file that is.
pub fn too_long_by_place()
    ensures solve { (file : List ℕ) (budget : ℕ) (old new : ShelfView) (e : EndingOf) → Ends (Some (command.Solve file budget)) old new e
        → e ≢ ending.Memory → (e ≡ ending.TooLong) ↔ (new.place ≡ Some (MAX_INPUT_BYTES + 1)) }
    ensures print { (file : List ℕ) (old new : ShelfView) (e : EndingOf) → Ends (Some (command.Print file)) old new e → e ≢ ending.Memory
        → (e ≡ ending.TooLong) ↔ (new.place ≡ Some (MAX_INPUT_BYTES + 1)) }
    ensures team { (file : List ℕ) (workers rounds : ℕ) (old new : ShelfView) (e : EndingOf)
        → Ends (Some (command.Team file workers rounds)) old new e → e ≢ ending.Memory → (e ≡ ending.TooLong)
        ↔ (new.place ≡ Some (MAX_INPUT_BYTES + 1)) }
    ensures core { (file : List ℕ) (lits : List ℤ) (old new : ShelfView) (e : EndingOf) → Ends (Some (command.Core file lits)) old new e
        → e ≢ ending.Memory → (e ≡ ending.TooLong) ↔ (new.place ≡ Some (MAX_INPUT_BYTES + 1)) }
    ensures best { (file : List ℕ) (n : ℕ) (old new : ShelfView) (e : EndingOf) → Ends (Some (command.Best file n)) old new e → e ≢ ending.Memory
        → (e ≡ ending.TooLong) ↔ (new.place ≡ Some (MAX_INPUT_BYTES + 1)) }
    ensures ask { (file : List ℕ) (n : ℕ) (b : ℤ) (old new : ShelfView) (e : EndingOf) → Ends (Some (command.Ask file n b)) old new e
        → e ≢ ending.Memory → (e ≡ ending.TooLong) ↔ (new.place ≡ Some (MAX_INPUT_BYTES + 1)) }
    ensures file_with { (file answer : List ℕ) (lits : List ℤ) (old new : ShelfView) (e : EndingOf)
        → Ends (Some (command.CheckWith file answer lits)) old new e → e ≢ ending.Memory → old.begun + 2 < 2 ^ 64 → new.begun ≡ counted old.begun
        → (e ≡ ending.TooLong) ↔ (new.place ≡ Some (MAX_INPUT_BYTES + 1)) }
    ensures answer_with { (file answer : List ℕ) (lits : List ℤ) (old new : ShelfView) (e : EndingOf)
        → Ends (Some (command.CheckWith file answer lits)) old new e → e ≢ ending.Memory → old.begun + 2 < 2 ^ 64
        → new.begun ≡ counted (counted old.begun) → (e ≡ ending.TooLong) ↔ (new.place ≡ Some (MAX_ANSWER_BYTES + 1)) }
    ensures file { (file answer : List ℕ) (old new : ShelfView) (e : EndingOf) → Ends (Some (command.Check file answer)) old new e → e ≢ ending.Memory
        → old.begun + 2 < 2 ^ 64 → new.begun ≡ counted old.begun → (e ≡ ending.TooLong) ↔ (new.place ≡ Some (MAX_INPUT_BYTES + 1)) }
    ensures answer { (file answer : List ℕ) (old new : ShelfView) (e : EndingOf) → Ends (Some (command.Check file answer)) old new e
        → e ≢ ending.Memory → old.begun + 2 < 2 ^ 64 → new.begun ≡ counted (counted old.begun) → (e ≡ ending.TooLong)
        ↔ (new.place ≡ Some (MAX_ANSWER_BYTES + 1)) }
    ensures migrated_file { (file answer : List ℕ) (v : Version) (old new : ShelfView) (e : EndingOf)
        → Ends (Some (command.Migrate file answer v)) old new e → e ≢ ending.Memory → old.begun + 2 < 2 ^ 64 → new.begun ≡ counted old.begun
        → (e ≡ ending.TooLong) ↔ (new.place ≡ Some (MAX_INPUT_BYTES + 1)) }
    ensures migrated_answer { (file answer : List ℕ) (v : Version) (old new : ShelfView) (e : EndingOf)
        → Ends (Some (command.Migrate file answer v)) old new e → e ≢ ending.Memory → old.begun + 2 < 2 ^ 64 → new.begun ≡ counted (counted old.begun)
        → (e ≡ ending.TooLong) ↔ (new.place ≡ Some (MAX_MIGRATED_BYTES + 1)) }
{}
