//! Why a literal was forced.

use mono_base::Lit;

/// By what does the atom at a place force a literal under the first so many literals seen?
#[derive(Clone, Copy)]
pub struct Question {
    /// The place of the atom.
    pub place: u32,
    /// The literal.
    pub lit: Lit,
    /// How many first literals there are.
    pub kept: usize,
}
