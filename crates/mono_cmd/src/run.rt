//! The whole program: words, a shelf of files and a sink in, a status out.
//!
//! The order is: the words; FILE is read, then its form; what the command asks of it is done, or ANSWER is read to its end and
//! judged; the text is written.
//! The first refusal in this order decides. All text is made before the first write, so with want of memory nothing was written.

ghost use Rattle.std.specs.Prelude.{◌≡◌, ◌≢◌, map, string_bytes};
ghost use Rattle.mono_io.specs.Faults.{counted};
ghost use Rattle.mono_words.specs.Commands.{command_of};
ghost use Rattle.mono_cmd.specs.Promises.{RunView, IsRun};

use mono_forms::{Status, ending_of, write_ending};
use mono_io::{Shelf, Sink};
use std::alloc::Global;

/// Runs the program: reads the files that the words name from the shelf, and writes the answer to the sink.
///
/// - `Words` comes exactly where the words are no command, a failing write aside.
/// - `Refused` comes, a failing write and want of memory aside, exactly where FILE was read whole and has a first fault, whose
///   line and name are written; and, with line 0, where there is no room for the assumptions of `core` and `check-with`, or
///   where `best` and `ask` can't ask for a bound of the predicate.
/// - With `solve`, `Satisfiable` comes only with the text of a satisfying model, `Unsatisfiable` only with that of a justified
///   refutation, `Unknown` only with that of justified progress: exactly as many nonempty learned clauses as the budget, each
///   new, and only where the budget is below 3^V, V being the number of variables. So it is of `team`, whose `Unknown` comes
///   with the board of all rounds.
/// - `gen` with `--solve` ends as `solve` does on the generated input, with the six lines of its summary. The last one is
///   the checker's verdict on the answer; with `Unknown` the progress follows.
/// - With `core`, `Satisfiable` comes only with a model under all assumptions, `Unsatisfiable` only with a core of them, what
///   was found of each literal of it and a refutation under it, `Unknown` only with progress under all of them.
/// - With `best`, `Satisfiable` comes only with the best bound, values that meet it and a refutation of the next one, or with
///   values whose flow is beyond every bound; `Unsatisfiable` only with a refutation of the weakest bound; `Unknown` only with
///   the bound on which the budget was spent, and progress.
/// - `Accepted` and `Rejected` come by the verdict on ANSWER for the problem that FILE stands for, with `check-with` for
///   that problem under the assumptions. `Printed` comes with the problem's printed form, with that of the one that asks for a
///   bound, with an accepted ANSWER's text in a version, or with the generated input of a kind, a size and a seed.
/// - `ReadFault` comes only where the shelf's count of failed calls rose by one, at FILE, or at ANSWER where FILE has no fault.
///   Over a steady shelf it comes only for a file that the shelf lacks.
/// - `TooLong` comes only for a file with more bytes than its limit: the shelf's place is limit + 1 then.
/// - `WriteFault` comes only where the sink's count of failed calls rose by one; a prefix of the text that was due was written,
///   and not all of it.
/// - With `Memory` nothing was written, no call of the shelf or the sink had failed, and of the file that was begun last no
///   byte beyond its limit was read. So it never comes in place of `Words`, `ReadFault` or `TooLong`. What a run comes to otherwise
///   takes memory on the way.
pub fn run<S: Shelf, K: Sink>(alloc: Global, words: &[String], shelf: &mut S, out: &mut K) -> Status
    // The run comes to an ending in the order above, and writes its text; what that shows, `IsRun` says family by family.
    ensures promises { let run : RunView = record {
      command = command_of (map string_bytes words.now);
      old = S.seen shelf.old;
      new = S.seen shelf.new;
      status = result;
      before = K.written out.old;
      now = K.written out.new;
    } in IsRun run }
    ensures write_fault { result ≡ Status.WriteFault → K.faults out.new ≡ counted (K.faults out.old) }
    ensures no_write_fault { result ≢ Status.WriteFault → K.faults out.new ≡ K.faults out.old }
{
    let ending = ending_of(alloc, words, shelf);
    write_ending(alloc, ending, out)
}
