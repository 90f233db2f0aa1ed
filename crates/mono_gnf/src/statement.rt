//! What a word line says, by its tokens alone.
//!
//! The first token is the word. Each word has a form: a row of fields, each with its limit.

ghost use Rattle.std.specs.Prelude.{◌≡◌, ◌<◌, ◌≤◌, ◌∷◌, bytes_eq, slice_index, ℕ, IfOk};
ghost use Rattle.mono_gnf.specs.Statements.{word_of, header_of, graph_of, edge_of, edge_from, reach_of, bounded_by, bounded_of, tree_of, acyclic_of, form_of, statement_of, at_most, at_least};
ghost use Rattle.mono_gnf.specs.Within.{IsBounded, IsWithin};
ghost use Rattle.mono_problem.specs.WellFormed.{IsMost, IsLeast};

use crate::GnfFault;
use mono_base::limits::{MAX_BOUND, MAX_NODES, MAX_VARS, MAX_WEIGHT};
use mono_problem::Predicate;
use mono_text::{FieldRefusal, NumberRefusal, Tokens, fields_left, first_fields};

/// The limit of a variable and of a number of variables.
const VARS: u64 = MAX_VARS as u64;

/// The limit of a number of nodes.
const NODES: u64 = MAX_NODES as u64;

/// The limit of an identity, a node and a number that is advice: what 32 bits hold.
const WIDE: u64 = u32::MAX as u64;

/// The limits of the fields of each form, in order.
const HEADER: [u64; 2] = [VARS, WIDE];

const DIGRAPH: [u64; 3] = [NODES, WIDE, WIDE];

const ENDS: [u64; 4] = [WIDE, WIDE, WIDE, VARS];

const BOUNDED: [u64; 5] = [WIDE, WIDE, WIDE, VARS, MAX_BOUND];

const TREE: [u64; 3] = [WIDE, VARS, MAX_BOUND];

const ACYCLIC: [u64; 2] = [WIDE, VARS];

/// What the bound of a predicate between two nodes is on: the steps of a walk, its weight, or the value of a flow.
#[derive(Clone, Copy)]
pub(crate) enum BoundedKind {
    Steps,
    Distance,
    Flow,
}

/// The words of word lines. The flag of a bound says that the bound itself is excluded.
#[derive(Clone, Copy)]
pub(crate) enum Word {
    Header,
    Digraph,
    Edge,
    Reach,
    Bounded(BoundedKind, bool),
    Tree(bool),
    Acyclic,
}

/// What a word line says. Graphs are named by their identities.
#[derive(Clone, Copy)]
pub(crate) enum Statement {
    Header {
        vars: u32,
    },
    Graph {
        id: u32,
        nodes: u32,
    },
    Edge {
        graph: u32,
        from: u32,
        to: u32,
        var: u32,
        weight: u64,
    },
    Atom {
        graph: u32,
        var: u32,
        predicate: Predicate,
    },
}

pub(crate) fn is(token: &[u8], word: &[u8]) -> bool
    ensures { result ≡ bytes_eq token.now word.now }
{
    token == word
}

fn word_named(token: &[u8]) -> Option<Word>
    ensures { result ≡ word_of token.now }
{
    if is(token, b"p") {
        Some(Word::Header)
    } else if is(token, b"digraph") {
        Some(Word::Digraph)
    } else if is(token, b"edge") {
        Some(Word::Edge)
    } else if is(token, b"reach") {
        Some(Word::Reach)
    } else if is(token, b"distance_leq") {
        Some(Word::Bounded(BoundedKind::Steps, false))
    } else if is(token, b"distance_lt") {
        Some(Word::Bounded(BoundedKind::Steps, true))
    } else if is(token, b"weighted_distance_leq") {
        Some(Word::Bounded(BoundedKind::Distance, false))
    } else if is(token, b"weighted_distance_lt") {
        Some(Word::Bounded(BoundedKind::Distance, true))
    } else if is(token, b"maximum_flow_geq") {
        Some(Word::Bounded(BoundedKind::Flow, false))
    } else if is(token, b"maximum_flow_gt") {
        Some(Word::Bounded(BoundedKind::Flow, true))
    } else if is(token, b"mst_weight_leq") {
        Some(Word::Tree(false))
    } else if is(token, b"mst_weight_lt") {
        Some(Word::Tree(true))
    } else if is(token, b"acyclic") {
        Some(Word::Acyclic)
    } else {
        None
    }
}

impl From<FieldRefusal> for GnfFault {
    ghost use Rattle.std.specs.Prelude.{◌≡◌};
    ghost use Rattle.mono_gnf.specs.Statements.{fault_of};

    ghost from_gives = { λ refusal fault. fault ≡ fault_of refusal };

    fn from(refusal: FieldRefusal) -> GnfFault {
        match refusal {
            FieldRefusal::Count => GnfFault::FieldCount,
            FieldRefusal::NotNumber(_) => GnfFault::NotNumber,
            FieldRefusal::TooLarge(_) => GnfFault::TooLarge,
        }
    }
}

impl From<NumberRefusal> for GnfFault {
    ghost use Rattle.std.specs.Prelude.{◌≡◌};
    ghost use Rattle.mono_gnf.specs.Statements.{number_fault_of};

    ghost from_gives = { λ refusal fault. fault ≡ number_fault_of refusal };

    fn from(refusal: NumberRefusal) -> GnfFault {
        match refusal {
            NumberRefusal::NotNumber => GnfFault::NotNumber,
            NumberRefusal::TooLarge => GnfFault::TooLarge,
        }
    }
}

fn header(mut tokens: Tokens<'_>) -> Result<Statement, GnfFault>
    ensures value { result ≡ header_of tokens.entry }
    ensures within { IfOk result IsWithin }
{
    if let Some(name) = tokens.next() {
        if !(is(name, b"cnf") || is(name, b"gnf")) {
            return Err(GnfFault::UnknownWord);
        }
    }
    let f = fields_left(tokens, &HEADER)?;
    Ok(Statement::Header { vars: f[0] as u32 })
}

fn digraph(mut tokens: Tokens<'_>) -> Result<Statement, GnfFault>
    ensures value { result ≡ graph_of tokens.entry }
    ensures within { IfOk result IsWithin }
{
    if tokens.left() == DIGRAPH.len() + 1 {
        if let Some(weight_word) = tokens.next() {
            if !is(weight_word, b"int") {
                return Err(GnfFault::WeightWord);
            }
        }
    }
    let f = fields_left(tokens, &DIGRAPH)?;
    Ok(Statement::Graph {
        id: f[2] as u32,
        nodes: f[0] as u32,
    })
}

/// What an edge line says by its ends and its variable, and its weight.
fn edge_from(
    ends: Result<[u64; 4], FieldRefusal>,
    weight: Result<u64, NumberRefusal>,
) -> Result<Statement, GnfFault>
    requires ends { IfOk ends (λ fs. (k : ℕ) → k < 4 → slice_index fs k ≤ slice_index ENDS k) }
    requires weight { IfOk weight (λ w. w ≤ MAX_WEIGHT) }
    ensures value { result ≡ edge_from ends weight }
    ensures within { IfOk result IsWithin }
{
    let f = ends?;
    let weight = weight?;
    Ok(Statement::Edge {
        graph: f[0] as u32,
        from: f[1] as u32,
        to: f[2] as u32,
        var: f[3] as u32,
        weight,
    })
}

/// An edge's weight is the field behind its ends and its variable, or 1 where the line ends there.
fn edge(mut tokens: Tokens<'_>) -> Result<Statement, GnfFault>
    ensures value { result ≡ edge_of tokens.entry }
    ensures within { IfOk result IsWithin }
{
    let ends = first_fields(&mut tokens, &ENDS);
    match tokens.next_natural(MAX_WEIGHT) {
        None => edge_from(ends, Ok(1)),
        Some(weight) => match tokens.next() {
            None => edge_from(ends, weight),
            Some(_) => Err(GnfFault::FieldCount),
        },
    }
}

fn reach(tokens: Tokens<'_>) -> Result<Statement, GnfFault>
    ensures value { result ≡ reach_of tokens.entry }
    ensures within { IfOk result IsWithin }
{
    let f = fields_left(tokens, &ENDS)?;
    Ok(Statement::Atom {
        graph: f[0] as u32,
        var: f[3] as u32,
        predicate: Predicate::Reach {
            from: f[1] as u32,
            to: f[2] as u32,
        },
    })
}

/// The greatest number within the bound, which is -1 where 0 is excluded.
fn most(strict: bool, bound: u64) -> i64
    requires { bound ≤ MAX_BOUND }
    ensures value { result ≡ at_most strict bound }
    ensures within { IsMost result }
{
    if strict {
        bound as i64 - 1
    } else {
        bound as i64
    }
}

/// The least number within the bound.
fn least(strict: bool, bound: u64) -> i64
    requires { bound ≤ MAX_BOUND }
    ensures value { result ≡ at_least strict bound }
    ensures within { IsLeast result }
{
    if strict {
        bound as i64 + 1
    } else {
        bound as i64
    }
}

impl BoundedKind {
    /// The predicate between two nodes whose bound is on this.
    fn predicate(self, strict: bool, from: u32, to: u32, bound: u64) -> Predicate
        requires { bound ≤ MAX_BOUND }
        ensures value { result ≡ bounded_by self strict from to bound }
        ensures within { IsBounded result }
    {
        match self {
            BoundedKind::Steps => Predicate::Steps {
                from,
                to,
                most: most(strict, bound),
            },
            BoundedKind::Distance => Predicate::Distance {
                from,
                to,
                most: most(strict, bound),
            },
            BoundedKind::Flow => Predicate::Flow {
                source: from,
                sink: to,
                least: least(strict, bound),
            },
        }
    }
}

fn bounded(tokens: Tokens<'_>, measure: BoundedKind, strict: bool) -> Result<Statement, GnfFault>
    ensures value { result ≡ bounded_of measure strict tokens.entry }
    ensures within { IfOk result IsWithin }
{
    let f = fields_left(tokens, &BOUNDED)?;
    Ok(Statement::Atom {
        graph: f[0] as u32,
        var: f[3] as u32,
        predicate: measure.predicate(strict, f[1] as u32, f[2] as u32, f[4]),
    })
}

fn tree(tokens: Tokens<'_>, strict: bool) -> Result<Statement, GnfFault>
    ensures value { result ≡ tree_of strict tokens.entry }
    ensures within { IfOk result IsWithin }
{
    let f = fields_left(tokens, &TREE)?;
    Ok(Statement::Atom {
        graph: f[0] as u32,
        var: f[1] as u32,
        predicate: Predicate::Tree {
            most: most(strict, f[2]),
        },
    })
}

fn acyclic(tokens: Tokens<'_>) -> Result<Statement, GnfFault>
    ensures value { result ≡ acyclic_of tokens.entry }
    ensures within { IfOk result IsWithin }
{
    let f = fields_left(tokens, &ACYCLIC)?;
    Ok(Statement::Atom {
        graph: f[0] as u32,
        var: f[1] as u32,
        predicate: Predicate::Acyclic,
    })
}

/// What a line says by its word and the tokens behind it, or the first check of its text that it fails.
#[tactic(auto, unfolding(crate::specs::Statements::statement_of))]
pub(crate) fn statement_in(word: &[u8], tokens: Tokens<'_>) -> Result<Statement, GnfFault>
    ensures value { result ≡ statement_of (word.now ∷ tokens.entry) }
    ensures within { IfOk result IsWithin }
{
    match word_named(word) {
        None => Err(GnfFault::UnknownWord),
        Some(Word::Header) => header(tokens),
        Some(Word::Digraph) => digraph(tokens),
        Some(Word::Edge) => edge(tokens),
        Some(Word::Reach) => reach(tokens),
        Some(Word::Bounded(measure, strict)) => bounded(tokens, measure, strict),
        Some(Word::Tree(strict)) => tree(tokens, strict),
        Some(Word::Acyclic) => acyclic(tokens),
    }
}
