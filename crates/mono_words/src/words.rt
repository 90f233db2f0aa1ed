//! The words of a command line, read by hand.

ghost use Rattle.std.specs.Prelude.{◌≡◌, ◌≤◌, ◌∷◌, ◌&&◌, [], nat_le, All, IfOk, IfSome, IsSome, OnErr, is_some, map, option_map, string_bytes};
ghost use Rattle.std.specs.List.{list_all};
ghost use Rattle.mono_base.specs.declared.limits.TheConstants.{MAX_VARS};
ghost use Rattle.mono_base.specs.Literal.{IsLitWithin};
ghost use Rattle.mono_words.specs.declared.command.TheConstants.{MAX_ASSUMPTIONS};
ghost use Rattle.mono_words.specs.Commands.{team_command as teaming, from_one, IsWithinRange, Tells, command_of, short_command as short, core_command as core_of, check_with_command as check_with_of, assumptions_of, lit_of, lits_of, budgeted_command as budgeted, bound_of as bound_named, best_command as best_of, ask_command as ask_of, check_command as checking, migrate_command as migrating, version_of as version_named, kind_of as kind_named, size_of as size_named, seed_of as seed_named, gen_command as generating, is_file_name as is_name};

use crate::command::{Command, DEFAULT_BUDGET, MAX_ASSUMPTIONS, MAX_ROUNDS, MAX_WORKERS};
use mono_answer::Version;
use mono_base::limits::{MAX_ATOMS, MAX_BOUND, MAX_VARS};
use mono_base::{Lit, Name, Row};
use mono_gen::GenKind;
use mono_text::{natural, signed};
use std::alloc::{AllocError, Global};

/// The command that the words behind the program's name are: `None` exactly where they are no command. Those take no memory.
pub fn command(alloc: Global, words: &[String]) -> Result<Option<Command>, AllocError>
    ensures { Tells (command_of (map string_bytes words.now)) result }
{
    let [verb, rest @ ..] = words else {
        return Ok(None);
    };
    if verb.as_str() == "core" {
        return core_command(alloc, rest);
    }
    if verb.as_str() == "check-with" {
        return check_with_command(alloc, rest);
    }
    short_command(alloc, words)
}

/// The command of words that name no assumptions.
fn short_command(alloc: Global, words: &[String]) -> Result<Option<Command>, AllocError>
    ensures { Tells (short (map string_bytes words.now)) result }
{
    match words {
        [verb, file] => file_command(alloc, verb.as_str(), file.as_str()),
        [verb, first, second] => {
            three_words(alloc, verb.as_str(), first.as_str(), second.as_str())
        }
        [verb, first, second, third] => four_words(
            alloc,
            verb.as_str(),
            first.as_str(),
            second.as_str(),
            third.as_str(),
        ),
        [verb, first, second, third, option] => Ok(solved_command(
            verb.as_str(),
            first.as_str(),
            second.as_str(),
            third.as_str(),
            option.as_str(),
        )),
        _ => Ok(None),
    }
}

/// Whether a word is the name of a file: it isn't empty and doesn't begin with `-`.
fn is_file_name(word: &str) -> bool
    ensures { result ≡ is_name word.now }
{
    match word.as_bytes() {
        [] => false,
        [first, ..] => *first != b'-',
    }
}

/// The name of a file, as the word spells it.
fn name(alloc: Global, word: &str) -> Result<Name, AllocError>
    ensures { IfOk result (λ name. name ≡ word.now) }
{
    Ok(Name::from_string(String::from_str(alloc, word)?))
}

/// The names of FILE and ANSWER, as the words spell them.
fn names(alloc: Global, file: &str, answer: &str) -> Result<(Name, Name), AllocError>
    ensures { IfOk result (λ names. names ≡ (file.now, answer.now)) }
{
    let file = name(alloc, file)?;
    let answer = name(alloc, answer)?;
    Ok((file, answer))
}

/// `solve FILE` or `print FILE`.
fn file_command(alloc: Global, verb: &str, file: &str) -> Result<Option<Command>, AllocError>
    ensures { Tells (short (verb.now ∷ file.now ∷ [])) result }
{
    if !is_file_name(file) {
        return Ok(None);
    }
    if verb == "solve" {
        let file = name(alloc, file)?;
        return Ok(Some(Command::Solve {
            file,
            budget: DEFAULT_BUDGET,
        }));
    }
    if verb == "print" {
        let file = name(alloc, file)?;
        return Ok(Some(Command::Print { file }));
    }
    Ok(None)
}

/// `check FILE ANSWER` or `best FILE ATOM`.
fn three_words(
    alloc: Global,
    verb: &str,
    first: &str,
    second: &str,
) -> Result<Option<Command>, AllocError>
    ensures { Tells (short (verb.now ∷ first.now ∷ second.now ∷ [])) result }
{
    if verb == "best" {
        return best_command(alloc, first, second);
    }
    check_command(alloc, verb, first, second)
}

/// `check FILE ANSWER`.
fn check_command(
    alloc: Global,
    verb: &str,
    file: &str,
    answer: &str,
) -> Result<Option<Command>, AllocError>
    ensures { Tells (checking verb.now file.now answer.now) result }
{
    if verb != "check" || !is_file_name(file) || !is_file_name(answer) {
        return Ok(None);
    }
    let (file, answer) = names(alloc, file, answer)?;
    Ok(Some(Command::Check { file, answer }))
}

/// The version that a word names.
fn named_version(word: &str) -> Option<Version>
    ensures { result ≡ version_named word.now }
{
    if word == "1" {
        return Some(Version::One);
    }
    if word == "2" {
        return Some(Version::Two);
    }
    None
}

/// `migrate FILE ANSWER VERSION`.
fn migrate_command(
    alloc: Global,
    file: &str,
    answer: &str,
    word: &str,
) -> Result<Option<Command>, AllocError>
    ensures { Tells (migrating file.now answer.now word.now) result }
{
    if !is_file_name(file) || !is_file_name(answer) {
        return Ok(None);
    }
    match named_version(word) {
        None => Ok(None),
        Some(version) => {
            let (file, answer) = names(alloc, file, answer)?;
            Ok(Some(Command::Migrate {
                file,
                answer,
                version,
            }))
        }
    }
}

/// The number that a word is: a natural from 1 to the limit.
fn from_one(word: &str, most: u64) -> Option<u64>
    ensures value { result ≡ from_one most word.now }
    ensures some { IfSome result (λ n. (1 ≤ n) × (n ≤ most)) }
{
    match natural(word.as_bytes(), most) {
        Ok(0) => None,
        Ok(number) => Some(number),
        Err(_) => None,
    }
}

/// `solve FILE --conflicts N`.
fn budgeted_command(
    alloc: Global,
    verb: &str,
    file: &str,
    option: &str,
    number: &str,
) -> Result<Option<Command>, AllocError>
    ensures { Tells (budgeted verb.now file.now option.now number.now) result }
{
    if verb != "solve" || !is_file_name(file) || option != "--conflicts" {
        return Ok(None);
    }
    match from_one(number, u64::MAX) {
        None => Ok(None),
        Some(budget) => {
            let file = name(alloc, file)?;
            Ok(Some(Command::Solve { file, budget }))
        }
    }
}

/// The kind that a word names.
fn kind(word: &str) -> Option<GenKind>
    ensures { result ≡ kind_named word.now }
{
    if word == "grid" {
        return Some(GenKind::Grid);
    }
    if word == "wall" {
        return Some(GenKind::Wall);
    }
    None
}

/// The size that a word is: a natural from 2 to 100.
fn size(word: &str) -> Option<u32>
    ensures value { result ≡ size_named word.now }
    ensures some { IfSome result (λ n. (2 ≤ n) × (n ≤ 100)) }
{
    match natural(word.as_bytes(), 100) {
        Ok(size) => { if size < 2 { None } else { Some(size as u32) } }
        Err(_) => None,
    }
}

/// The seed that a word is: a natural up to 2^64 - 1.
fn seed(word: &str) -> Option<u64>
    ensures { result ≡ seed_named word.now }
{
    match natural(word.as_bytes(), u64::MAX) {
        Ok(seed) => Some(seed),
        Err(_) => None,
    }
}

/// `gen KIND SIZE SEED`, of what the words behind `gen` are, and whether the input is solved.
fn gen_command(
    kind: Option<GenKind>,
    size: Option<u32>,
    seed: Option<u64>,
    solve: bool,
) -> Option<Command>
    requires { IfSome size (λ n. (2 ≤ n) × (n ≤ 100)) }
    ensures form { result ≡ generating kind size seed solve }
    ensures ranges { IfSome result IsWithinRange }
{
    match (kind, size, seed) {
        (Some(kind), Some(size), Some(seed)) => Some(Command::Gen {
            kind,
            size,
            seed,
            solve,
        }),
        _ => None,
    }
}

/// `gen KIND SIZE SEED --solve`.
fn solved_command(
    verb: &str,
    first: &str,
    second: &str,
    third: &str,
    option: &str,
) -> Option<Command>
    ensures form { result ≡ short (verb.now ∷ first.now ∷ second.now ∷ third.now ∷ option.now ∷ []) }
    ensures ranges { IfSome result IsWithinRange }
{
    if verb != "gen" || option != "--solve" {
        return None;
    }
    gen_command(kind(first), size(second), seed(third), true)
}

/// `gen KIND SIZE SEED`, `migrate FILE ANSWER VERSION`, `ask FILE ATOM B`, `team FILE K R` or `solve FILE --conflicts N`.
fn four_words(
    alloc: Global,
    verb: &str,
    first: &str,
    second: &str,
    third: &str,
) -> Result<Option<Command>, AllocError>
    ensures { Tells (short (verb.now ∷ first.now ∷ second.now ∷ third.now ∷ [])) result }
{
    if verb == "gen" {
        return Ok(gen_command(kind(first), size(second), seed(third), false));
    }
    if verb == "migrate" {
        return migrate_command(alloc, first, second, third);
    }
    if verb == "ask" {
        return ask_command(alloc, first, second, third);
    }
    if verb == "team" {
        return team_command(alloc, first, second, third);
    }
    budgeted_command(alloc, verb, first, second, third)
}

/// The bound that a word is: a signed number of a magnitude up to 2^53 + 1.
fn bound(word: &str) -> Option<i64>
    ensures { result ≡ bound_named word.now }
{
    match signed(word.as_bytes(), MAX_BOUND + 1) {
        Ok(bound) => Some(bound),
        Err(_) => None,
    }
}

/// `best FILE ATOM`.
fn best_command(alloc: Global, file: &str, number: &str) -> Result<Option<Command>, AllocError>
    ensures { Tells (best_of file.now number.now) result }
{
    if !is_file_name(file) {
        return Ok(None);
    }
    let Some(atom) = from_one(number, u64::from(MAX_ATOMS)) else {
        return Ok(None);
    };
    let file = name(alloc, file)?;
    Ok(Some(Command::Best {
        file,
        atom: atom as u32,
    }))
}

/// `ask FILE ATOM B`.
fn ask_command(
    alloc: Global,
    file: &str,
    number: &str,
    word: &str,
) -> Result<Option<Command>, AllocError>
    ensures { Tells (ask_of file.now number.now word.now) result }
{
    if !is_file_name(file) {
        return Ok(None);
    }
    let Some(atom) = from_one(number, u64::from(MAX_ATOMS)) else {
        return Ok(None);
    };
    let Some(bound) = bound(word) else {
        return Ok(None);
    };
    let file = name(alloc, file)?;
    Ok(Some(Command::Ask {
        file,
        atom: atom as u32,
        bound,
    }))
}

/// `team FILE K R`.
fn team_command(
    alloc: Global,
    file: &str,
    workers: &str,
    rounds: &str,
) -> Result<Option<Command>, AllocError>
    ensures { Tells (teaming file.now workers.now rounds.now) result }
{
    if !is_file_name(file) {
        return Ok(None);
    }
    let Some(workers) = from_one(workers, u64::from(MAX_WORKERS)) else {
        return Ok(None);
    };
    let Some(rounds) = from_one(rounds, u64::from(MAX_ROUNDS)) else {
        return Ok(None);
    };
    let file = name(alloc, file)?;
    Ok(Some(Command::Team {
        file,
        workers: workers as u32,
        rounds: rounds as u32,
    }))
}

/// The literal that a word is.
fn lit(word: &str) -> Option<Lit>
    ensures { result ≡ lit_of word.now }
{
    match signed(word.as_bytes(), u64::from(MAX_VARS)) {
        Ok(number) => Lit::new(number as i32),
        Err(_) => None,
    }
}

/// The 1 to 1,000 literals that the words are. Other words take no memory.
fn assumptions(alloc: Global, words: &[String]) -> Result<Option<Vec<Lit>>, AllocError>
    ensures ok { IfOk result (λ found. option_map (λ lits. lits.items) found ≡ assumptions_of (map string_bytes words.now)) }
    ensures within { IfOk result (λ found. IfSome found (λ lits. All (IsLitWithin MAX_VARS) lits.items)) }
    ensures err { OnErr result (IsSome (assumptions_of (map string_bytes words.now))) }
{
    if are_assumptions(words) {
        return literals(alloc, words);
    }
    Ok(None)
}

/// Whether the words are 1 to 1,000 literals.
fn are_assumptions(words: &[String]) -> bool
    ensures { result ≡ is_some (assumptions_of (map string_bytes words.now)) }
{
    is_number(words.len()) && are_lits(words)
}

/// Whether so many assumptions are taken.
fn is_number(count: usize) -> bool
    ensures { result ≡ (nat_le 1 count && nat_le count MAX_ASSUMPTIONS) }
{
    1 <= count && count <= MAX_ASSUMPTIONS
}

/// The literals that the words are, where each is one.
fn literals(alloc: Global, words: &[String]) -> Result<Option<Vec<Lit>>, AllocError>
    ensures value { IfOk result (λ found. option_map (λ lits. lits.items) found ≡ lits_of (map string_bytes words.now)) }
    ensures within { IfOk result (λ found. IfSome found (λ lits. All (IsLitWithin MAX_VARS) lits.items)) }
{
    let mut lits = Vec::with_capacity(alloc, words.len())?;
    for place in 0..words.len() {
        match lit(words[place].as_str()) {
            Some(lit) => lits.push(lit)?,
            None => return Ok(None),
        }
    }
    Ok(Some(lits))
}

/// Whether each word is a literal.
fn are_lits(words: &[String]) -> bool
    ensures { result ≡ list_all (λ word. is_some (lit_of (string_bytes word))) words.now }
{
    words.iter().all(|word| lit(word.as_str()).is_some())
}

/// `core FILE LIT..`, of the words behind `core`.
fn core_command(alloc: Global, words: &[String]) -> Result<Option<Command>, AllocError>
    ensures { Tells (core_of (map string_bytes words.now)) result }
{
    match words {
        [] => Ok(None),
        [file, lits @ ..] => core_with(alloc, file.as_str(), lits),
    }
}

/// `core FILE LIT..`, of the word that names FILE and the words of the literals.
fn core_with(alloc: Global, file: &str, words: &[String]) -> Result<Option<Command>, AllocError>
    ensures { Tells (core_of (file.now ∷ map string_bytes words.now)) result }
{
    if !is_file_name(file) {
        return Ok(None);
    }
    let Some(lits) = assumptions(alloc, words)? else {
        return Ok(None);
    };
    let file = name(alloc, file)?;
    Ok(Some(Command::Core {
        file,
        lits: Row::from_vec(lits),
    }))
}

/// `check-with FILE ANSWER LIT..`, of the words behind `check-with`.
fn check_with_command(alloc: Global, words: &[String]) -> Result<Option<Command>, AllocError>
    ensures { Tells (check_with_of (map string_bytes words.now)) result }
{
    let [file, answer, lits @ ..] = words else {
        return Ok(None);
    };
    check_with(alloc, file.as_str(), answer.as_str(), lits)
}

/// `check-with FILE ANSWER LIT..`, of the words that name FILE and ANSWER and the words of the literals.
fn check_with(
    alloc: Global,
    file: &str,
    answer: &str,
    words: &[String],
) -> Result<Option<Command>, AllocError>
    ensures { Tells (check_with_of (file.now ∷ answer.now ∷ map string_bytes words.now)) result }
{
    if !is_file_name(file) || !is_file_name(answer) {
        return Ok(None);
    }
    let Some(lits) = assumptions(alloc, words)? else {
        return Ok(None);
    };
    let (file, answer) = names(alloc, file, answer)?;
    Ok(Some(Command::CheckWith {
        file,
        answer,
        lits: Row::from_vec(lits),
    }))
}
