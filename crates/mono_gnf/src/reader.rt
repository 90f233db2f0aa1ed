//! One pass over the lines of an input.
//!
//! The lines so far say a problem in the making, the literals of a clause that is open, and whether there was a header.
//! A line is checked against these alone, so no line costs more for what came before it.

ghost use Rattle.std.specs.Prelude.{◌≡◌, ◌≢◌, ◌<◌, ◌≤◌, ◌||◌, ◌==◌, length, pos, nat_abs, false, IfOk};
ghost use Rattle.std.specs.Char.{is_ascii_digit};
ghost use Rattle.mono_text.specs.Text.{tokens_of};
ghost use Rattle.mono_gnf.specs.Reading.{Seen, nothing_seen, has_ends, has_same_ends, put_header, put_graph, put_edge, put_edge_at, put_atom, put_atom_at, put, put_number, put_read, read_numbers, read_tokens};
ghost use Rattle.mono_gnf.specs.Lines.{begins_number as begins_number_line};
ghost use Rattle.mono_gnf.specs.Moves.{Moves, Finishes};
ghost use Rattle.mono_gnf.specs.Within.{IsWithin};

use crate::refusal::Stop;
use crate::statement::{Statement, statement_in};
use crate::{GnfFault, GnfRefusal};
use mono_base::Lit;
use mono_base::limits::{
    MAX_ATOMS, MAX_CLAUSES, MAX_EDGES, MAX_GRAPHS, MAX_LITERALS, MAX_NODES, MAX_VARS,
};
use mono_problem::{Draft, Predicate, Problem};
use mono_text::{Line, NumberRefusal, Tokens, is_comment};
use std::alloc::Global;
use std::marker::Model;

/// The limit of a variable.
const VARS: u64 = MAX_VARS as u64;

/// What the lines so far say.
#[derive(Drop)]
pub(crate) struct Reader {
    draft: Draft,
    /// The literals of the open clause.
    row: Vec<Lit>,
    /// The number of the last line that has a literal, 0 where none has.
    last: u64,
    has_header: bool,
}

impl Model for Reader {
    ghost use Rattle.std.specs.Prelude.{◌≤◌, ◌+◌, length};
    ghost use Rattle.mono_problem.specs.Instance.{literals_total};
    ghost use Rattle.mono_base.specs.declared.limits.TheConstants.{MAX_LITERALS};
    ghost use Rattle.mono_gnf.specs.Reading.{Seen};

    ghost Value = { Seen };

    ghost view = { λ r. record { problem = r.draft; row = r.row.items; last = r.last; header = r.has_header } };

    ghost invariant = { λ r. literals_total r.draft + length r.row.items ≤ MAX_LITERALS };
}

/// Whether a graph of so many nodes has the nodes that the predicate names.
fn has_nodes(nodes: u32, predicate: Predicate) -> bool
    ensures { result ≡ has_ends nodes predicate }
{
    match predicate {
        Predicate::Reach { from, to } => from < nodes && to < nodes,
        Predicate::Steps { from, to, most: _ } => from < nodes && to < nodes,
        Predicate::Distance { from, to, most: _ } => from < nodes && to < nodes,
        Predicate::Flow {
            source,
            sink,
            least: _,
        } => source < nodes && sink < nodes,
        Predicate::Tree { most: _ } => true,
        Predicate::Acyclic => true,
    }
}

/// Whether the predicate is a flow from a node to itself.
fn same_ends(predicate: Predicate) -> bool
    ensures { result ≡ has_same_ends predicate }
{
    match predicate {
        Predicate::Flow {
            source,
            sink,
            least: _,
        } => source == sink,
        _ => false,
    }
}

fn begins_number(byte: u8) -> bool
    ensures { result ≡ (is_ascii_digit byte || byte == 45) }
{
    byte.is_ascii_digit() || byte == b'-'
}

impl Reader {
    /// Before the first line.
    pub(crate) fn new(alloc: Global) -> Reader
        ensures { result ≡ nothing_seen }
    {
        Reader {
            draft: Draft::new(alloc),
            row: Vec::new(alloc),
            last: 0,
            has_header: false,
        }
    }

    fn put_header(&mut self, vars: u32) -> Result<(), Stop>
        requires { vars ≤ MAX_VARS }
        ensures { Moves (put_header self.old vars) self.new result }
    {
        if self.has_header {
            return Err(Stop::Fault(GnfFault::SecondHeader));
        }
        self.has_header = true;
        self.draft.raise_vars(vars);
        Ok(())
    }

    fn put_graph(&mut self, id: u32, nodes: u32) -> Result<(), Stop>
        requires { nodes ≤ MAX_NODES }
        ensures { Moves (put_graph self.old id nodes) self.new result }
    {
        if self.draft.graph_of(id).is_some() {
            return Err(Stop::Fault(GnfFault::DuplicateGraph));
        }
        if nodes == 0 {
            return Err(Stop::Fault(GnfFault::NodeOutOfRange));
        }
        let totals = self.draft.totals();
        if totals.graphs >= MAX_GRAPHS || totals.nodes + nodes > MAX_NODES {
            return Err(Stop::Fault(GnfFault::TooMany));
        }
        self.draft.add_graph(id, nodes)?;
        Ok(())
    }

    fn put_edge_at(
        &mut self,
        place: u32,
        from: u32,
        to: u32,
        var: u32,
        weight: u64,
    ) -> Result<(), Stop>
        requires place { place < length self.old.problem.graphs }
        requires within { IsWithin (Statement.Edge 0 from to var weight) }
        ensures { Moves (put_edge_at self.old place from to var weight) self.new result }
    {
        let nodes = self.draft.nodes_of(place);
        if from >= nodes || to >= nodes {
            return Err(Stop::Fault(GnfFault::NodeOutOfRange));
        }
        if var == 0 {
            return Err(Stop::Fault(GnfFault::BadVariable));
        }
        if self.draft.totals().edges >= MAX_EDGES {
            return Err(Stop::Fault(GnfFault::TooMany));
        }
        self.draft.add_edge(place, from, to, var, weight)?;
        Ok(())
    }

    fn put_edge(
        &mut self,
        graph: u32,
        from: u32,
        to: u32,
        var: u32,
        weight: u64,
    ) -> Result<(), Stop>
        requires { IsWithin (Statement.Edge graph from to var weight) }
        ensures { Moves (put_edge self.old graph from to var weight) self.new result }
    {
        match self.draft.graph_of(graph) {
            None => Err(Stop::Fault(GnfFault::UnknownGraph)),
            Some(place) => self.put_edge_at(place, from, to, var, weight),
        }
    }

    fn put_atom_at(&mut self, place: u32, var: u32, predicate: Predicate) -> Result<(), Stop>
        requires place { place < length self.old.problem.graphs }
        requires within { IsWithin (Statement.Atom 0 var predicate) }
        ensures { Moves (put_atom_at self.old place var predicate) self.new result }
    {
        let nodes = self.draft.nodes_of(place);
        if !has_nodes(nodes, predicate) {
            return Err(Stop::Fault(GnfFault::NodeOutOfRange));
        }
        if var == 0 {
            return Err(Stop::Fault(GnfFault::BadVariable));
        }
        if same_ends(predicate) {
            return Err(Stop::Fault(GnfFault::SameEnds));
        }
        if self.draft.totals().atoms >= MAX_ATOMS {
            return Err(Stop::Fault(GnfFault::TooMany));
        }
        self.draft.add_atom(place, var, predicate)?;
        Ok(())
    }

    fn put_atom(&mut self, graph: u32, var: u32, predicate: Predicate) -> Result<(), Stop>
        requires { IsWithin (Statement.Atom graph var predicate) }
        ensures { Moves (put_atom self.old graph var predicate) self.new result }
    {
        match self.draft.graph_of(graph) {
            None => Err(Stop::Fault(GnfFault::UnknownGraph)),
            Some(place) => self.put_atom_at(place, var, predicate),
        }
    }

    fn put(&mut self, statement: Statement) -> Result<(), Stop>
        requires { IsWithin statement }
        ensures { Moves (put self.old statement) self.new result }
    {
        match statement {
            Statement::Header { vars } => self.put_header(vars),
            Statement::Graph { id, nodes } => self.put_graph(id, nodes),
            Statement::Edge {
                graph,
                from,
                to,
                var,
                weight,
            } => self.put_edge(graph, from, to, var, weight),
            Statement::Atom {
                graph,
                var,
                predicate,
            } => self.put_atom(graph, var, predicate),
        }
    }

    fn end_clause(&mut self) -> Result<(), Stop>
        ensures { Moves (put_number self.old.last self.old (pos 0)) self.new result }
    {
        if self.draft.totals().clauses >= MAX_CLAUSES {
            return Err(Stop::Fault(GnfFault::TooMany));
        }
        self.draft.add_clause(self.row.as_slice())?;
        self.row.clear();
        Ok(())
    }

    fn add_literal(&mut self, lit: Lit, line: u64) -> Result<(), Stop>
        requires { lit ≢ pos 0 }
        ensures { Moves (put_number line self.old lit) self.new result }
    {
        if self.draft.totals().literals as usize + self.row.as_slice().len()
            >= MAX_LITERALS as usize
        {
            return Err(Stop::Fault(GnfFault::TooMany));
        }
        match self.row.push(lit) {
            Ok(()) => {}
            Err(_) => return Err(Stop::Memory),
        }
        self.last = line;
        Ok(())
    }

    fn put_number(&mut self, number: Result<i64, NumberRefusal>, line: u64) -> Result<(), Stop>
        requires { IfOk number (λ z. nat_abs z ≤ MAX_VARS) }
        ensures { Moves (put_read line self.old number) self.new result }
    {
        match number {
            Err(refusal) => Err(Stop::Fault(GnfFault::from(refusal))),
            Ok(number) => match Lit::new(number as i32) {
                None => self.end_clause(),
                Some(lit) => self.add_literal(lit, line),
            },
        }
    }

    fn read_numbers(&mut self, mut tokens: Tokens<'_>, line: u64) -> Result<(), Stop>
        ensures { Moves (read_numbers line self.old tokens.entry) self.new result }
    {
        while let Some(number) = tokens.next_signed(VARS) {
            match self.put_number(number, line) {
                Ok(()) => {}
                Err(stop) => return Err(stop),
            }
        }
        Ok(())
    }

    /// What the tokens of a line say that is blank, a comment or a word line. The line is that of the number.
    fn read_words(&mut self, mut tokens: Tokens<'_>, line: u64) -> Result<(), Stop>
        requires { begins_number_line tokens ≡ false }
        ensures { Moves (read_tokens line self.old tokens.entry) self.new result }
    {
        let Some(word) = tokens.next() else {
            return Ok(());
        };
        if is_comment(word) {
            return Ok(());
        }
        if !self.row.as_slice().is_empty() {
            return Err(Stop::Fault(GnfFault::OpenClause));
        }
        match statement_in(word, tokens) {
            Ok(statement) => self.put(statement),
            Err(fault) => Err(Stop::Fault(fault)),
        }
    }

    /// The line's numbers, or what it says.
    pub(crate) fn read_line(&mut self, line: &Line<'_>) -> Result<(), Stop>
        ensures { Moves (read_tokens line.now.number self.old (tokens_of line.now.text.now)) self.new result }
    {
        let mut tokens = line.tokens();
        match tokens.first_byte() {
            Some(byte) if begins_number(byte) => self.read_numbers(tokens, line.number),
            _ => self.read_words(tokens, line.number),
        }
    }

    /// The problem, where no clause is open.
    pub(crate) fn finish(self) -> Result<Problem, GnfRefusal>
        ensures { Finishes self result }
    {
        if !self.row.as_slice().is_empty() {
            return Err(GnfRefusal::At {
                line: self.last,
                fault: GnfFault::UnfinishedClause,
            });
        }
        match self.draft.finish() {
            Ok(problem) => Ok(problem),
            Err(_) => Err(GnfRefusal::Memory),
        }
    }
}
