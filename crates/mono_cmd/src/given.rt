//! The words behind the program's name, as a machine gives them.

ghost use Rattle.std.specs.Prelude.{◌≡◌, Some, None, IfSome, IfOk, IsErrOf, IsSome, map, string_bytes};

use std::alloc::Global;
use std::rt::Env;
use std::{env, io};

/// Why the words aren't given.
#[derive(Clone, Copy, Debug, PartialEq, Eq)]
pub enum WordsRefusal {
    /// No memory was found for them.
    Memory,
    /// One of them isn't text.
    NotText,
}

/// The words behind the program's name.
pub trait Words {
    ghost use Rattle.std.specs.Prelude.{ℕ, List, Option};

    /// The words, where that is told: each of them, or that one isn't text.
    ghost told: { Self → Option (Option (List (List ℕ))) };

    /// All of them, in their order. Where they are told, memory is wanting only for words that are text.
    fn list(&self, alloc: Global) -> Result<Vec<String>, WordsRefusal>
        ensures words { IfOk result (λ words. IfSome (told self.now) (λ given. given ≡ Some (map string_bytes words.items))) }
        ensures not_text { IsErrOf result WordsRefusal.NotText → IfSome (told self.now) (λ given. given ≡ None) }
        ensures memory { IsErrOf result WordsRefusal.Memory → IfSome (told self.now) (λ given. IsSome given) };
}

/// The words of the process. What they are, it doesn't tell.
#[derive(Drop)]
pub struct SystemWords<'a, R: Env + AllocGlobal> {
    system: &'a R,
}

impl<'a, R: Env + AllocGlobal> SystemWords<'a, R> {
    /// The words that this system gives.
    pub fn new(system: &'a R) -> Self {
        SystemWords { system }
    }
}

impl<'a, R: Env + AllocGlobal> Words for SystemWords<'a, R> {
    ghost told = { λ _. None };

    fn list(&self, alloc: Global) -> Result<Vec<String>, WordsRefusal> {
        match arguments(self.system, alloc) {
            Ok(words) => Ok(words),
            Err(error) => match error.kind() {
                io::ErrorKind::OutOfMemory => Err(WordsRefusal::Memory),
                _ => Err(WordsRefusal::NotText),
            },
        }
    }
}

/// The arguments without the first one, the program's name.
fn arguments<R: Env + AllocGlobal>(system: &R, alloc: Global) -> io::Result<Vec<String>> {
    let mut all = env::args(system)?;
    let _program = all.next();
    Ok(all.collect(alloc)?)
}
