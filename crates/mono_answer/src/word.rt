//! The words with which lines of lemmas begin, one for each kind of witness.

ghost use Rattle.std.specs.Prelude.{◌≡◌};
ghost use Rattle.mono_answer.specs.Items.{word_of};
ghost use Rattle.mono_answer.specs.Printed.{word_text, word_for};

use mono_steps::Witness;

/// A lemma's word.
#[derive(Clone, Copy)]
pub(crate) enum Word {
    Path,
    Cut,
    Label,
    Flow,
    FlowCut,
    Tree,
    Split,
    Least,
    Cycle,
    Order,
}

/// The word that a token is.
pub(crate) fn word_named(token: &[u8]) -> Option<Word>
    ensures { result ≡ word_of token.now }
{
    if token == b"path".as_slice() {
        Some(Word::Path)
    } else if token == b"cut".as_slice() {
        Some(Word::Cut)
    } else if token == b"label".as_slice() {
        Some(Word::Label)
    } else if token == b"flow".as_slice() {
        Some(Word::Flow)
    } else if token == b"flowcut".as_slice() {
        Some(Word::FlowCut)
    } else if token == b"tree".as_slice() {
        Some(Word::Tree)
    } else if token == b"split".as_slice() {
        Some(Word::Split)
    } else if token == b"least".as_slice() {
        Some(Word::Least)
    } else if token == b"cycle".as_slice() {
        Some(Word::Cycle)
    } else if token == b"order".as_slice() {
        Some(Word::Order)
    } else {
        None
    }
}

/// The word of a witness's kind.
pub(crate) fn word_for(witness: &Witness) -> Word
    ensures { result ≡ word_for witness.now }
{
    match witness {
        Witness::Path(_) => Word::Path,
        Witness::Cut(_) => Word::Cut,
        Witness::Label(_) => Word::Label,
        Witness::Flow(_) => Word::Flow,
        Witness::FlowCut(_) => Word::FlowCut,
        Witness::Tree(_) => Word::Tree,
        Witness::Split(_) => Word::Split,
        Witness::Least(_) => Word::Least,
        Witness::Cycle(_) => Word::Cycle,
        Witness::Order(_) => Word::Order,
    }
}

impl Word {
    pub(crate) fn text(self) -> &'static [u8]
        ensures { result.now ≡ word_text self }
    {
        match self {
            Word::Path => b"path",
            Word::Cut => b"cut",
            Word::Label => b"label",
            Word::Flow => b"flow",
            Word::FlowCut => b"flowcut",
            Word::Tree => b"tree",
            Word::Split => b"split",
            Word::Least => b"least",
            Word::Cycle => b"cycle",
            Word::Order => b"order",
        }
    }
}
