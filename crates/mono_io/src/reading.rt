//! Reading the whole of a text, up to a limit, over any shelf.

ghost use Rattle.std.specs.Prelude.{◌≡◌, ◌≤◌, ◌+◌, ◌↔◌, Some, IfOk, IsErrOf};
ghost use Rattle.mono_io.specs.Reading.{IsRead, IsTooLong, IsNotRead, IsGivenUp};

use crate::{ReadRefusal, Shelf, read_into};
use std::alloc::Global;

/// The greatest limit that a reading may be given: 2^40 bytes.
pub const GREATEST_LIMIT: u64 = 1 << 40;

const _: () = prove!(GREATEST_LIMIT == 1_099_511_627_776);

/// Reads the text of that name from its beginning to its end: it begins the name once, and reads.
///
/// - `TooLong` comes exactly where the shelf's place is limit + 1 as the call ends. It is never beyond that.
/// - `Fault` comes only where the shelf's count of faults rose in this call, by one, at the first call that failed. Over a
///   steady shelf it comes only for a name that the shelf lacks.
/// - `Memory` comes where no memory was found for the bytes.
///
/// The shelf stands where the calls that were made left it.
pub fn read_whole<S: Shelf>(
    alloc: Global,
    shelf: &mut S,
    name: &str,
    limit: u64,
) -> Result<Vec<u8>, ReadRefusal>
    requires { limit ≤ GREATEST_LIMIT }

    ensures ok { IfOk result (λ bytes. IsRead name.now limit (S.seen shelf.old) (S.seen shelf.new) bytes.items) }
    ensures too_long { IsErrOf result ReadRefusal.TooLong → IsTooLong name.now limit (S.seen shelf.old) (S.seen shelf.new) }
    ensures fault { IsErrOf result ReadRefusal.Fault → IsNotRead name.now limit (S.seen shelf.old) (S.seen shelf.new) }
    ensures memory { IsErrOf result ReadRefusal.Memory → IsGivenUp limit (S.seen shelf.old) (S.seen shelf.new) }

    ensures exactly { IsErrOf result ReadRefusal.TooLong ↔ ((S.seen shelf.new).place ≡ Some (limit + 1)) }
{
    let mut text = Vec::new(alloc);
    read_into(alloc, shelf, name, limit, &mut text)?;
    Ok(text)
}
