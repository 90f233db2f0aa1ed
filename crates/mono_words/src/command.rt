//! Commands.

use mono_answer::Version;
use mono_base::{Lit, Name, Row};
use mono_gen::GenKind;

/// The budget of `solve` where no other one is given, of `gen` with `--solve`, and of what `core` and `best` tell as spent.
pub const DEFAULT_BUDGET: u64 = 100_000;

/// Bytes of an answer that is migrated: 2^30. It is kept whole until its text is made.
pub const MAX_MIGRATED_BYTES: u64 = 1 << 30;

const _: () = prove!(MAX_MIGRATED_BYTES == 1_073_741_824);

/// The most assumptions of `core` and of `check-with`.
pub const MAX_ASSUMPTIONS: usize = 1_000;

/// The most workers of `team`.
pub const MAX_WORKERS: u32 = 8;

/// The most rounds of `team`.
pub const MAX_ROUNDS: u32 = 100;

/// What a user asks for.
#[derive(Drop)]
pub enum Command {
    /// `solve FILE` or `solve FILE --conflicts N`: look for a model or a refutation. At most so many clauses are learned
    /// from conflicts; the budget is at least 1.
    Solve {
        file: Name,
        budget: u64,
    },
    /// `check FILE ANSWER`: judge the answer for the input.
    Check {
        file: Name,
        answer: Name,
    },
    /// `migrate FILE ANSWER VERSION`: print an accepted answer in that version, or judge it where it isn't accepted.
    Migrate {
        file: Name,
        answer: Name,
        version: Version,
    },
    /// `print FILE`: print the input in its printed form.
    Print {
        file: Name,
    },
    /// `gen KIND SIZE SEED`: print the generated input of a kind, a size from 2 to 100 and a seed. With `--solve` it is
    /// solved, with the budget of `solve`, and summed up.
    Gen {
        kind: GenKind,
        size: u32,
        seed: u64,
        solve: bool,
    },
    /// `core FILE LIT..`: look for a minimal set of these assumptions under which the input has no model. There are 1 to 1,000.
    Core {
        file: Name,
        lits: Row<Lit>,
    },
    /// `check-with FILE ANSWER LIT..`: judge the answer for the input under these assumptions. There are 1 to 1,000.
    CheckWith {
        file: Name,
        answer: Name,
        lits: Row<Lit>,
    },
    /// `best FILE ATOM`: look for the best bound of the predicate of this number, from 1 to 100,000.
    Best {
        file: Name,
        atom: u32,
    },
    /// `ask FILE ATOM B`: print the input that asks for this bound of the predicate.
    Ask {
        file: Name,
        atom: u32,
        bound: i64,
    },
    /// `team FILE K R`: K workers, 1 to 8, look for a model or a refutation. They search and give what they learned in turn,
    /// for R rounds, 1 to 100.
    Team {
        file: Name,
        workers: u32,
        rounds: u32,
    },
}
