//! The reader of inputs.

ghost use Rattle.std.specs.Prelude.{◌≡◌};
ghost use Rattle.mono_gnf.specs.Stands.{Reads};

use crate::GnfRefusal;
use crate::reader::Reader;
use crate::refusal::Stop;
use mono_problem::Problem;
use mono_text::Lines;
use std::alloc::Global;

/// The problem that the text stands for, or the first line at fault with its fault.
///
/// The format is that of DIMACS CNF with lines for graphs and for predicates over them, modelled on MonoSAT's GNF.
/// The text is read once, from its first line to its last, or to its first fault.
pub fn read_gnf(alloc: Global, text: &[u8]) -> Result<Problem, GnfRefusal>
    ensures { Reads text.now result }
{
    let mut reader = Reader::new(alloc);
    let mut lines = Lines::new(text);
    while let Some(line) = lines.next() {
        match reader.read_line(&line) {
            Ok(()) => {}
            Err(Stop::Memory) => return Err(GnfRefusal::Memory),
            Err(Stop::Fault(fault)) => {
                return Err(GnfRefusal::At {
                    line: line.number,
                    fault,
                });
            }
        }
    }
    reader.finish()
}
