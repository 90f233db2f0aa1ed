//! Lines of an answer, read one by one.
//!
//! A line is read alone: nothing here looks at the problem or at the lines before. Its bytes are read once.

ghost use Rattle.std.specs.Prelude.{◌≡◌, ◌∷◌, IfOk, option_map};
ghost use Rattle.mono_text.specs.Text.{tokens_of};
ghost use Rattle.mono_answer.specs.declared.item.Item.TheVariants as says;
ghost use Rattle.mono_answer.specs.Items.{values_of, status_of, chain_of, names_of, labels_of, amounts_of, witness_of, lemma_of, item_of};
ghost use Rattle.mono_answer.specs.Readings.{IsReading};

use crate::kind::kind_named;
use crate::lists::{
    MAX_NAME, read_amounts, read_clause_numbers, read_labels, read_literals, read_names,
    read_values,
};
use crate::word::{Word, word_named};
use crate::{Item, ItemRefusal};
use mono_base::{Lit, Row};
use mono_graph::{Amount, Label};
use mono_steps::{Chain, Clause, Lemma, Step, Witness, WitnessList};
use mono_text::{Line, Tokens, is_comment};
use std::alloc::{AllocError, Global};
use std::mem::replace;

/// Room for the lists of a line.
struct Room {
    alloc: Global,
    lits: Vec<Lit>,
    values: Vec<i32>,
    names: Vec<u32>,
    labels: Vec<Label>,
    amounts: Vec<Amount>,
    used: Vec<u64>,
}

impl Drop for Room {
    fn drop(self) {
        let Room {
            alloc: _,
            lits: _,
            values: _,
            names: _,
            labels: _,
            amounts: _,
            used: _,
        } = self;
    }
}

/// Reads lines of answers, with room that is kept from line to line.
///
/// A list of an item that is done with may be given back, so that the next line needs no memory for its own.
#[derive(Drop)]
pub struct ItemReader {
    room: Room,
}

fn status(mut tokens: Tokens<'_>) -> Option<Item>
    ensures { result ≡ status_of tokens.entry }
{
    match tokens.next() {
        None => None,
        Some(token) => match tokens.next() {
            Some(_) => None,
            None => match kind_named(token) {
                Some(kind) => Some(Item::Status(kind)),
                None => None,
            },
        },
    }
}

impl Room {
    fn values(&mut self, mut tokens: Tokens<'_>) -> Result<Option<Item>, AllocError>
        ensures { IfOk result (λ read. read ≡ option_map says.Values (values_of tokens.entry)) }
    {
        let mut values = replace(&mut self.values, Vec::new(self.alloc));
        if !read_values(&mut values, &mut tokens)? {
            return Ok(None);
        }
        Ok(Some(Item::Values(Row::from_vec(values))))
    }

    #[inline(always)]
    fn chain(&mut self, mut tokens: Tokens<'_>) -> Result<Option<Item>, AllocError>
        ensures { IfOk result (λ read. read ≡ chain_of tokens.entry) }
    {
        if !read_literals(&mut self.lits, &mut tokens)? {
            return Ok(None);
        }
        let mut used = replace(&mut self.used, Vec::new(self.alloc));
        if !read_clause_numbers(&mut used, &mut tokens)? || used.is_empty() {
            return Ok(None);
        }
        let clause = Clause::from_lits(self.alloc, self.lits.as_slice())?;
        let used = Row::from_vec(used);
        Ok(Some(Item::Step(Step::Chain(Chain { clause, used }))))
    }

    fn names(&mut self, tokens: &mut Tokens<'_>) -> Result<Option<Row<u32>>, AllocError>
        ensures { IfOk result (λ names. names ≡ names_of tokens.old) }
    {
        let mut names = replace(&mut self.names, Vec::new(self.alloc));
        if !read_names(&mut names, tokens)? {
            return Ok(None);
        }
        Ok(Some(Row::from_vec(names)))
    }

    fn labels(&mut self, tokens: &mut Tokens<'_>) -> Result<Option<Row<Label>>, AllocError>
        ensures { IfOk result (λ labels. labels ≡ labels_of tokens.old) }
    {
        let mut labels = replace(&mut self.labels, Vec::new(self.alloc));
        if !read_labels(&mut labels, tokens)? {
            return Ok(None);
        }
        Ok(Some(Row::from_vec(labels)))
    }

    fn amounts(&mut self, tokens: &mut Tokens<'_>) -> Result<Option<Row<Amount>>, AllocError>
        ensures { IfOk result (λ amounts. amounts ≡ amounts_of tokens.old) }
    {
        let mut amounts = replace(&mut self.amounts, Vec::new(self.alloc));
        if !read_amounts(&mut amounts, tokens)? {
            return Ok(None);
        }
        Ok(Some(Row::from_vec(amounts)))
    }

    fn witness(
        &mut self,
        word: Word,
        tokens: &mut Tokens<'_>,
    ) -> Result<Option<Witness>, AllocError>
        ensures { IfOk result (λ witness. witness ≡ witness_of word tokens.old) }
    {
        match word {
            Word::Path => match self.names(tokens)? {
                Some(edges) => Ok(Some(Witness::Path(edges))),
                None => Ok(None),
            },
            Word::Cut => match self.names(tokens)? {
                Some(nodes) => Ok(Some(Witness::Cut(nodes))),
                None => Ok(None),
            },
            Word::Label => match self.labels(tokens)? {
                Some(labels) => Ok(Some(Witness::Label(labels))),
                None => Ok(None),
            },
            Word::Flow => match self.amounts(tokens)? {
                Some(amounts) => Ok(Some(Witness::Flow(amounts))),
                None => Ok(None),
            },
            Word::FlowCut => match self.names(tokens)? {
                Some(nodes) => Ok(Some(Witness::FlowCut(nodes))),
                None => Ok(None),
            },
            Word::Tree => match self.names(tokens)? {
                Some(edges) => Ok(Some(Witness::Tree(edges))),
                None => Ok(None),
            },
            Word::Split => match self.names(tokens)? {
                Some(nodes) => Ok(Some(Witness::Split(nodes))),
                None => Ok(None),
            },
            Word::Least => match self.names(tokens)? {
                Some(edges) => Ok(Some(Witness::Least(edges))),
                None => Ok(None),
            },
            Word::Cycle => match self.names(tokens)? {
                Some(edges) => Ok(Some(Witness::Cycle(edges))),
                None => Ok(None),
            },
            Word::Order => match self.names(tokens)? {
                Some(nodes) => Ok(Some(Witness::Order(nodes))),
                None => Ok(None),
            },
        }
    }

    fn lemma(&mut self, word: Word, mut tokens: Tokens<'_>) -> Result<Option<Item>, AllocError>
        ensures { IfOk result (λ read. read ≡ lemma_of word tokens.entry) }
    {
        let Some(Ok(atom)) = tokens.next_natural(MAX_NAME) else {
            return Ok(None);
        };
        if !read_literals(&mut self.lits, &mut tokens)? {
            return Ok(None);
        }
        let clause = Clause::from_lits(self.alloc, self.lits.as_slice())?;
        match self.witness(word, &mut tokens)? {
            None => Ok(None),
            Some(witness) => Ok(Some(Item::Step(Step::Lemma(Lemma {
                atom: atom as u32,
                clause,
                witness,
            })))),
        }
    }

    /// What a line says by its first token and those behind it, or `None` where the grammar has no such line.
    #[inline(always)]
    fn item(&mut self, first: &[u8], tokens: Tokens<'_>) -> Result<Option<Item>, AllocError>
        ensures { IfOk result (λ read. read ≡ item_of (first.now ∷ tokens.entry)) }
    {
        if first == b"chain".as_slice() {
            self.chain(tokens)
        } else if first == b"s".as_slice() {
            Ok(status(tokens))
        } else if first == b"v".as_slice() {
            self.values(tokens)
        } else {
            match word_named(first) {
                None => Ok(None),
                Some(word) => self.lemma(word, tokens),
            }
        }
    }
}

impl ItemReader {
    /// A reader without room. It takes none before it reads.
    pub fn new(alloc: Global) -> ItemReader {
        ItemReader {
            room: Room {
                alloc,
                lits: Vec::new(alloc),
                values: Vec::new(alloc),
                names: Vec::new(alloc),
                labels: Vec::new(alloc),
                amounts: Vec::new(alloc),
                used: Vec::new(alloc),
            },
        }
    }

    /// What the line says. `None` exactly where it is blank or a comment; `BadLine` exactly where the grammar has no such
    /// line.
    #[inline(always)]
    pub fn read(&mut self, line: &Line<'_>) -> Result<Option<Item>, ItemRefusal>
        ensures { IsReading (tokens_of line.now.text.now) result }
    {
        let mut tokens = line.tokens();
        let Some(first) = tokens.next() else {
            return Ok(None);
        };
        if is_comment(first) {
            return Ok(None);
        }
        match self.room.item(first, tokens) {
            Err(_) => Err(ItemRefusal::Memory),
            Ok(None) => Err(ItemRefusal::BadLine),
            Ok(Some(item)) => Ok(Some(item)),
        }
    }

    /// Takes the list of a `v` line back.
    pub fn reuse_values(&mut self, values: Row<i32>) {
        self.room.values = values.into_vec();
    }

    /// Takes the list of a chain back.
    pub fn reuse_used(&mut self, used: Row<u64>) {
        self.room.used = used.into_vec();
    }

    /// Takes the list of a witness back.
    pub fn reuse_witness(&mut self, witness: Witness) {
        match witness.into_list() {
            WitnessList::Numbers(names) => self.room.names = names.into_vec(),
            WitnessList::Labels(labels) => self.room.labels = labels.into_vec(),
            WitnessList::Amounts(amounts) => self.room.amounts = amounts.into_vec(),
        }
    }
}

/// What the line says. `None` exactly where it is blank or a comment; `BadLine` exactly where the grammar has no such line.
///
/// An [`ItemReader`] serves many lines with less memory.
pub fn read_item(alloc: Global, line: &Line<'_>) -> Result<Option<Item>, ItemRefusal>
    ensures { IsReading (tokens_of line.now.text.now) result }
{
    ItemReader::new(alloc).read(line)
}
