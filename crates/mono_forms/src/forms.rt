//! What a run comes to: the words, FILE and its form, and what the command asks of it.
//!
//! Each step answers what the next one needs, or the ending of the run: `?` ends it there. So a command is a few lines.

ghost use Rattle.std.specs.Prelude.{◌≡◌, ◌≤◌, List, ℕ, Some, None, All, MatchResult, map, string_bytes};
ghost use Rattle.mono_base.specs.declared.limits.TheConstants.{MAX_VARS};
ghost use Rattle.mono_base.specs.Literal.{IsLitWithin};
ghost use Rattle.mono_io.specs.Shelf.{ShelfView};
ghost use Rattle.mono_problem.specs.Instance.{Instance};
ghost use Rattle.mono_gnf.specs.Faults.{first_fault};
ghost use Rattle.mono_gnf.specs.Stands.{Stands};
ghost use Rattle.mono_words.specs.declared.command.TheConstants.{DEFAULT_BUDGET, MAX_ROUNDS, MAX_WORKERS};
ghost use Rattle.mono_forms.specs.declared.summary.Summary.{Summary as SummaryOf};
ghost use Rattle.mono_forms.specs.Solved.{IsSummary};
ghost use Rattle.mono_words.specs.Commands.{IsWithinRange, command_of};
ghost use Rattle.mono_forms.specs.Runs.{Ends, EndsAtFile, HasProblem, IsGenerated};

use crate::asking::{ask_ending, best_ending, printed};
use crate::ending::Ending;
use crate::solving::{answer_to, core_of};
use crate::summary::sum_up;
use crate::teaming::team_answer;
use mono_answer::Version;
use mono_base::limits::{MAX_ANSWER_BYTES, MAX_INPUT_BYTES};
use mono_base::{Lit, Row};
use mono_check::{Migrated, Verdict, migrate, verdict_from};
use mono_core::{has_room, with_lits};
use mono_gen::{GenKind, generate};
use mono_gnf::{GnfFault, GnfRefusal, read_gnf};
use mono_io::{Shelf, read_whole};
use mono_problem::Problem;
use mono_words::command::{Command, MAX_MIGRATED_BYTES};
use mono_words::words::command;
use std::alloc::Global;

/// What the run of these words over this shelf comes to, with nothing written yet.
///
/// The first refusal in the order of the steps decides. Want of memory is the ending only where no call of the shelf had
/// failed and of the file that was begun last no byte beyond its limit was read.
pub fn ending_of<S: Shelf>(alloc: Global, words: &[String], shelf: &mut S) -> Ending
    ensures { Ends (command_of (map string_bytes words.now)) (S.seen shelf.old) (S.seen shelf.new) result }
{
    match carry_out(alloc, words, shelf) {
        Ok(ending) => ending,
        Err(ending) => ending,
    }
}

/// What the command of the words comes to. Where a step ends the run, its ending is the error.
fn carry_out<S: Shelf>(alloc: Global, words: &[String], shelf: &mut S) -> Result<Ending, Ending>
    ensures { let ends = Ends (command_of (map string_bytes words.now)) (S.seen shelf.old) (S.seen shelf.new) in MatchResult result ends ends }
{
    match command(alloc, words)? {
        None => Ok(Ending::Words),
        Some(command) => obey(alloc, shelf, &command),
    }
}

/// What a command comes to.
fn obey<S: Shelf>(alloc: Global, shelf: &mut S, command: &Command) -> Result<Ending, Ending>
    requires { IsWithinRange command.now }
    ensures { let ends = Ends (Some command.now) (S.seen shelf.old) (S.seen shelf.new) in MatchResult result ends ends }
{
    match command {
        Command::Solve { file, budget } => solve(alloc, shelf, file.as_str(), *budget),
        Command::Check { file, answer } => check(alloc, shelf, file.as_str(), answer.as_str()),
        Command::Migrate {
            file,
            answer,
            version,
        } => migration(alloc, shelf, file.as_str(), answer.as_str(), *version),
        Command::Print { file } => print(alloc, shelf, file.as_str()),
        Command::Gen {
            kind,
            size,
            seed,
            solve,
        } => generated(alloc, *kind, *size, *seed, *solve),
        Command::Core { file, lits } => narrow(alloc, shelf, file.as_str(), lits.as_slice()),
        Command::Best { file, atom } => best(alloc, shelf, file.as_str(), *atom),
        Command::Ask { file, atom, bound } => asked(alloc, shelf, file.as_str(), *atom, *bound),
        Command::CheckWith { file, answer, lits } => {
            check_with(
                alloc,
                shelf,
                file.as_str(),
                answer.as_str(),
                lits.as_slice(),
            )
        }
        Command::Team {
            file,
            workers,
            rounds,
        } => team(alloc, shelf, file.as_str(), *workers, *rounds),
    }
}

/// `solve FILE`, with this budget.
fn solve<S: Shelf>(alloc: Global, shelf: &mut S, file: &str, budget: u64) -> Result<Ending, Ending>
    requires { 1 ≤ budget }
    ensures { let ends = Ends (Some (Command.Solve file.now budget)) (S.seen shelf.old) (S.seen shelf.new) in MatchResult result ends ends }
{
    let answer = answer_to(alloc, &read_problem(alloc, shelf, file)?, budget)?;
    Ok(Ending::Solved(answer))
}

/// `check FILE ANSWER`.
fn check<S: Shelf>(alloc: Global, shelf: &mut S, file: &str, answer: &str) -> Result<Ending, Ending>
    ensures { let ends = Ends (Some (Command.Check file.now answer.now)) (S.seen shelf.old) (S.seen shelf.new) in MatchResult result ends ends }
{
    let problem = read_problem(alloc, shelf, file)?;
    let verdict = verdict_from(alloc, &problem, shelf, answer, MAX_ANSWER_BYTES)?;
    Ok(Ending::Judged(verdict))
}

/// `migrate FILE ANSWER VERSION`.
fn migration<S: Shelf>(
    alloc: Global,
    shelf: &mut S,
    file: &str,
    answer: &str,
    version: Version,
) -> Result<Ending, Ending>
    ensures { let ends = Ends (Some (Command.Migrate file.now answer.now version)) (S.seen shelf.old) (S.seen shelf.new) in MatchResult result ends ends }
{
    let input = read_problem(alloc, shelf, file)?;
    migrated(alloc, shelf, &input, answer, version)
}

/// What `migrate` comes to behind FILE. It only borrows the problem, as `judged_with` does.
fn migrated<S: Shelf>(
    alloc: Global,
    shelf: &mut S,
    problem: &Problem,
    answer: &str,
    version: Version,
) -> Result<Ending, Ending>
    ensures { (file : List ℕ) (old : ShelfView) → HasProblem file old (S.seen shelf.old) problem.now
        → let ends = Ends (Some (Command.Migrate file answer.now version)) old (S.seen shelf.new) in MatchResult result ends ends }
{
    let text = read_whole(alloc, shelf, answer, MAX_MIGRATED_BYTES)?;
    match migrate(alloc, problem, text.as_slice(), version)? {
        Migrated::Text(text) => Ok(Ending::Printed(text)),
        Migrated::Rejected { line, reason } => {
            Ok(Ending::Judged(Verdict::Rejected { line, reason }))
        }
    }
}

/// `core FILE LIT..`.
fn narrow<S: Shelf>(
    alloc: Global,
    shelf: &mut S,
    file: &str,
    lits: &[Lit],
) -> Result<Ending, Ending>
    requires { All (IsLitWithin MAX_VARS) lits.now }
    ensures { let ends = Ends (Some (Command.Core file.now lits.now)) (S.seen shelf.old) (S.seen shelf.new) in MatchResult result ends ends }
{
    let input = read_problem(alloc, shelf, file)?;
    if !has_room(&input, lits) {
        return Ok(too_many());
    }
    Ok(Ending::Narrowed(core_of(alloc, &input, lits)?))
}

/// `check-with FILE ANSWER LIT..`.
fn check_with<S: Shelf>(
    alloc: Global,
    shelf: &mut S,
    file: &str,
    answer: &str,
    lits: &[Lit],
) -> Result<Ending, Ending>
    requires { All (IsLitWithin MAX_VARS) lits.now }
    ensures { let ends = Ends (Some (Command.CheckWith file.now answer.now lits.now)) (S.seen shelf.old) (S.seen shelf.new) in MatchResult result ends ends }
{
    let input = read_problem(alloc, shelf, file)?;
    judged_with(alloc, shelf, &input, answer, lits)
}

/// What `check-with` comes to behind FILE.
fn judged_with<S: Shelf>(
    alloc: Global,
    shelf: &mut S,
    input: &Problem,
    answer: &str,
    lits: &[Lit],
) -> Result<Ending, Ending>
    requires { All (IsLitWithin MAX_VARS) lits.now }
    ensures { (file : List ℕ) (old : ShelfView) → HasProblem file old (S.seen shelf.old) input.now
        → let ends = Ends (Some (Command.CheckWith file answer.now lits.now)) old (S.seen shelf.new) in MatchResult result ends ends }
{
    if !has_room(input, lits) {
        return Ok(too_many());
    }
    let assumed = with_lits(input, lits)?;
    let verdict = verdict_from(alloc, &assumed, shelf, answer, MAX_ANSWER_BYTES)?;
    Ok(Ending::Judged(verdict))
}

/// `best FILE ATOM`.
fn best<S: Shelf>(alloc: Global, shelf: &mut S, file: &str, atom: u32) -> Result<Ending, Ending>
    ensures { let ends = Ends (Some (Command.Best file.now atom)) (S.seen shelf.old) (S.seen shelf.new) in MatchResult result ends ends }
{
    let input = read_problem(alloc, shelf, file)?;
    Ok(best_ending(alloc, &input, atom)?)
}

/// `ask FILE ATOM B`.
fn asked<S: Shelf>(
    alloc: Global,
    shelf: &mut S,
    file: &str,
    atom: u32,
    bound: i64,
) -> Result<Ending, Ending>
    ensures { let ends = Ends (Some (Command.Ask file.now atom bound)) (S.seen shelf.old) (S.seen shelf.new) in MatchResult result ends ends }
{
    let input = read_problem(alloc, shelf, file)?;
    Ok(ask_ending(alloc, &input, atom, bound)?)
}

/// There is no room for one more clause of each assumption: no line is named.
fn too_many() -> Ending
    ensures { result ≡ Ending.Refused 0 GnfFault.TooMany }
{
    Ending::Refused {
        line: 0,
        fault: GnfFault::TooMany,
    }
}

/// `team FILE K R`.
fn team<S: Shelf>(
    alloc: Global,
    shelf: &mut S,
    file: &str,
    workers: u32,
    rounds: u32,
) -> Result<Ending, Ending>
    requires workers { (1 ≤ workers) × (workers ≤ MAX_WORKERS) }
    requires rounds { (1 ≤ rounds) × (rounds ≤ MAX_ROUNDS) }
    ensures { let ends = Ends (Some (Command.Team file.now workers rounds)) (S.seen shelf.old) (S.seen shelf.new) in MatchResult result ends ends }
{
    let answer = team_answer(alloc, &read_problem(alloc, shelf, file)?, workers, rounds)?;
    Ok(Ending::Solved(answer))
}

/// `print FILE`.
fn print<S: Shelf>(alloc: Global, shelf: &mut S, file: &str) -> Result<Ending, Ending>
    ensures { let ends = Ends (Some (Command.Print file.now)) (S.seen shelf.old) (S.seen shelf.new) in MatchResult result ends ends }
{
    let input = read_problem(alloc, shelf, file)?;
    Ok(printed(alloc, &input)?)
}

/// `gen KIND SIZE SEED`, with `--solve` or without: no file is read.
fn generated(
    alloc: Global,
    kind: GenKind,
    size: u32,
    seed: u64,
    solve: bool,
) -> Result<Ending, Ending>
    requires low { 2 ≤ size }
    requires high { size ≤ 100 }
    ensures { MatchResult result (IsGenerated kind size seed solve) (λ e. e ≡ Ending.Memory) }
{
    let text = generate(alloc, kind, size, seed)?;
    if solve {
        return summed(alloc, text.as_slice());
    }
    Ok(Ending::Printed(Row::from_vec(text)))
}

/// Solves the problem that a text without fault stands for, and sums it up.
fn summed(alloc: Global, text: &[u8]) -> Result<Ending, Ending>
    requires { first_fault text.now ≡ None }
    ensures { MatchResult result (λ e. (p : Instance) × (s : SummaryOf) × Stands text.now p × (e ≡ Ending.Summed s)
        × IsSummary p DEFAULT_BUDGET s) (λ e. e ≡ Ending.Memory) }
{
    match read_gnf(alloc, text) {
        Ok(problem) => Ok(Ending::Summed(sum_up(alloc, &problem)?)),
        Err(GnfRefusal::Memory) => Err(Ending::Memory),
        Err(GnfRefusal::At { line: _, fault: _ }) => unreachable!(),
    }
}

/// The problem that FILE stands for.
fn read_problem<S: Shelf>(alloc: Global, shelf: &mut S, file: &str) -> Result<Problem, Ending>
    ensures { MatchResult result (HasProblem file.now (S.seen shelf.old) (S.seen shelf.new)) (EndsAtFile file.now (S.seen shelf.old) (S.seen shelf.new)) }
{
    let text = read_whole(alloc, shelf, file, MAX_INPUT_BYTES)?;
    Ok(read_gnf(alloc, text.as_slice())?)
}
