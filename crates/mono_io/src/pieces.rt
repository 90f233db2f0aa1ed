//! A text that is handed to a consumer piece by piece, over any shelf.
//!
//! Each turn of the loop asks for one piece, of at most `PIECE` bytes and of no byte beyond the first one behind the limit.
//! So it takes a byte, ends, or fails: there are at most limit + 1 turns that take something.

ghost use Rattle.std.specs.Prelude.{◌≡◌, ◌<◌, ◌≤◌, ◌+◌, ◌↔◌, Some, IsTrue, IfOk, IfSome, OnOk, IsErrOf, length};
ghost use Rattle.mono_io.specs.Faults.{counted};
ghost use Rattle.mono_io.specs.Reading.{IsReadInto, IsTooLong, IsNotRead, IsGivenUp, KeepsChoice, HasTakenAll};
ghost use Rattle.mono_io.specs.Shelf.{chosen_text};

use crate::reading::GREATEST_LIMIT;
use crate::{Consumer, ReadRefusal, Shelf};
use std::alloc::{AllocError, Global};

/// The most bytes that one read is asked for.
const PIECE: usize = 1 << 16;

/// Hands the text of that name to a consumer, from its beginning to its end: it begins the name once, and reads.
///
/// - `TooLong` comes exactly where the shelf's place is limit + 1 as the call ends. It is never beyond that.
/// - `Fault` comes only where the shelf's count of faults rose in this call, by one, at the first call that failed. Over a
///   steady shelf it comes only for a name that the shelf lacks.
/// - `Memory` comes where no memory was found, for a piece or by the consumer. No call of the shelf had failed.
///
/// The shelf stands where the calls that were made left it.
pub fn read_into<S: Shelf, C: Consumer>(
    alloc: Global,
    shelf: &mut S,
    name: &str,
    limit: u64,
    consumer: &mut C,
) -> Result<(), ReadRefusal>
    requires limit { limit ≤ GREATEST_LIMIT }
    requires new { C.is_new consumer.old }

    ensures ok { OnOk result (IsReadInto name.now limit (S.seen shelf.old) (S.seen shelf.new) (λ text. C.takes consumer.old text consumer.new)) }
    ensures too_long { IsErrOf result ReadRefusal.TooLong → IsTooLong name.now limit (S.seen shelf.old) (S.seen shelf.new) }
    ensures fault { IsErrOf result ReadRefusal.Fault → IsNotRead name.now limit (S.seen shelf.old) (S.seen shelf.new) }
    ensures memory { IsErrOf result ReadRefusal.Memory → IsGivenUp limit (S.seen shelf.old) (S.seen shelf.new) }

    ensures exactly { IsErrOf result ReadRefusal.TooLong ↔ ((S.seen shelf.new).place ≡ Some (limit + 1)) }
{
    shelf.begin(name)?;
    let mut buffer = zeros(alloc, PIECE)?;
    take_rest(shelf, &mut buffer, consumer, limit)?;
    Ok(())
}

fn zeros(alloc: Global, count: usize) -> Result<Vec<u8>, AllocError>
    ensures { IfOk result (λ buffer. length buffer.items ≡ count) }
{
    vec![in alloc; 0; count]
}

/// Hands the chosen text on piece by piece, to its end.
fn take_rest<S: Shelf, C: Consumer>(
    shelf: &mut S,
    buffer: &mut [u8],
    consumer: &mut C,
    limit: u64,
) -> Result<(), ReadRefusal>
    requires room { 0 < length buffer.old }
    requires small { limit ≤ GREATEST_LIMIT }
    requires new { C.is_new consumer.old }
    requires place { (S.seen shelf.old).place ≡ Some 0 }

    ensures whole { OnOk result (HasTakenAll (S.seen shelf.new) limit (λ bytes. C.takes consumer.old bytes consumer.new)) }

    ensures too_long { IsErrOf result ReadRefusal.TooLong ↔ ((S.seen shelf.new).place ≡ Some (limit + 1)) }
    ensures longer { IsErrOf result ReadRefusal.TooLong → IfSome (chosen_text (S.seen shelf.old)) (λ whole. limit < length whole) }
    ensures no_further { IfSome (S.seen shelf.new).place (λ place. place ≤ limit + 1) }

    ensures fault { IsErrOf result ReadRefusal.Fault → (S.seen shelf.new).faults ≡ counted (S.seen shelf.old).faults }
    ensures others { ¬ IsErrOf result ReadRefusal.Fault → (S.seen shelf.new).faults ≡ (S.seen shelf.old).faults }
    ensures sure { IsTrue (S.seen shelf.old).steady → ¬ IsErrOf result ReadRefusal.Fault }

    ensures choice { KeepsChoice (S.seen shelf.old) (S.seen shelf.new) }
{
    let mut taken = 0;
    'pieces: loop {
        let room = limit as usize + 1 - taken;
        let most = buffer.len().min(room);
        let count = shelf.read(&mut buffer[..most])?;
        if count == 0 {
            return Ok(());
        }
        if count == room {
            return Err(ReadRefusal::TooLong);
        }
        consumer.consume(&buffer[..count])?;
        taken += count;
    }
}
