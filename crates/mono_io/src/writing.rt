//! Writing all of a text, over any sink.
ghost use Rattle.std.specs.Prelude.{OnOk, OnErr};
ghost use Rattle.std.specs.Io.KnownBytes.{Appends};
ghost use Rattle.mono_io.specs.Faults.{HasCause};
ghost use Rattle.mono_io.specs.Sink.{AppendsPrefix};

use crate::{Failed, Sink};

/// Appends all the bytes. It takes no memory.
///
/// `Failed` comes only where the sink's count of faults rose in this call, at the first write that failed. A
/// prefix of the bytes was appended then, and not all of them.
pub fn write_whole<K: Sink>(sink: &mut K, bytes: &[u8]) -> Result<(), Failed>
    ensures whole { OnOk result (Appends (K.written sink.old) (K.written sink.new) bytes.now) }
    ensures prefix { OnErr result (AppendsPrefix (K.written sink.old) (K.written sink.new) bytes.now) }
    ensures cause { HasCause (K.faults sink.old) (K.faults sink.new) result }
{
    let mut rest = bytes;
    while !rest.is_empty() {
        let count = sink.write(rest)?;
        rest = &rest[count..];
    }
    Ok(())
}
