//! Answers that are read from a shelf and judged on the way.
//!
//! They are read to their end, also behind a line at fault, so that an answer beyond the limit and a fault of the shelf are
//! told before what is wrong with a line.

ghost use Rattle.std.specs.Prelude.{◌≡◌, ◌≤◌, ◌+◌, ◌↔◌, Some, IfOk, IsErrOf};
ghost use Rattle.mono_io.specs.Reading.{IsTooLong, IsNotRead, IsGivenUp};
ghost use Rattle.mono_check.specs.FromShelf.{IsVerdictFrom};

use crate::{CheckRefusal, Checker, Verdict};
use mono_io::{GREATEST_LIMIT, Shelf, read_into};
use mono_problem::Problem;
use std::alloc::{AllocError, Global};

/// The verdict on the answer of that name: it begins the name once, and reads to the end.
///
/// - `TooLong` comes exactly where the shelf's place is limit + 1 as the call ends. It is never beyond that.
/// - `Fault` comes only where the shelf's count of faults rose in this call, by one, at the first call that failed. Over a
///   steady shelf it comes only for a name that the shelf lacks.
/// - `Memory` comes where no memory was found. No call of the shelf had failed.
///
/// The shelf stands where the calls that were made left it.
pub fn verdict_from<S: Shelf>(
    alloc: Global,
    problem: &Problem,
    shelf: &mut S,
    name: &str,
    limit: u64,
) -> Result<Verdict, CheckRefusal>
    requires { limit ≤ GREATEST_LIMIT }

    ensures ok { IfOk result (IsVerdictFrom problem.now name.now limit (S.seen shelf.old) (S.seen shelf.new)) }
    ensures too_long { IsErrOf result CheckRefusal.TooLong → IsTooLong name.now limit (S.seen shelf.old) (S.seen shelf.new) }
    ensures fault { IsErrOf result CheckRefusal.Fault → IsNotRead name.now limit (S.seen shelf.old) (S.seen shelf.new) }
    ensures memory { IsErrOf result CheckRefusal.Memory → IsGivenUp limit (S.seen shelf.old) (S.seen shelf.new) }

    ensures exactly { IsErrOf result CheckRefusal.TooLong ↔ ((S.seen shelf.new).place ≡ Some (limit + 1)) }
{
    let mut checker = Checker::unfed(alloc, problem);
    read_into(alloc, shelf, name, limit, &mut checker)?;
    Ok(checker.finish()?)
}
