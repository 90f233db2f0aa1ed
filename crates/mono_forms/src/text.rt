//! The text that a run writes.

ghost use Rattle.std.specs.Prelude.{◌≡◌};
ghost use Rattle.mono_forms.specs.Texts.{bytes_of};

use crate::line::LINE_BYTES;
use arrayvec::ArrayString;

/// A text to write. Only an owned one took memory.
#[derive(Drop)]
pub enum Text {
    /// A text of constants.
    Fixed(&'static [u8]),
    /// A line with a number or a name in it, which stands in the value itself.
    Line(ArrayString<LINE_BYTES>),
    /// Any other text.
    Owned(Vec<u8>),
}

impl Text {
    /// The bytes to write.
    pub fn as_slice(&self) -> &[u8]
        ensures { result.now ≡ bytes_of self.now }
    {
        match self {
            Text::Fixed(bytes) => bytes,
            Text::Line(line) => line.as_str().as_bytes(),
            Text::Owned(bytes) => bytes.as_slice(),
        }
    }
}
