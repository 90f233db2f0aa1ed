//! The edges of a graph that are surely present, and those that are possibly present.
//!
//! A literal comes and goes in proportion to the edges that its variable switches, and takes no memory. Whoever keeps where
//! these edges stand needs no look-up for either.

ghost use Rattle.std.specs.Prelude.{◌≡◌, ◌^◌, ◌<◌, ◌≤◌, [], length, IfOk};
ghost use Rattle.mono_base.specs.Literal.{var_of};
ghost use Rattle.mono_graph.specs.Digraph.{has};
ghost use Rattle.mono_bounds.specs.Bound.{assigned, unassigned, edge_vars, IsBoundUnder};
ghost use Rattle.mono_bounds.specs.Index.{within, ArePlacesOf, IsSpanOf};

use crate::index::Index;
use crate::span::Span;
use mono_base::Lit;
use mono_graph::{Graph, Part};
use std::alloc::{AllocError, Global};
use std::marker::Model;

/// Two parts by the values of the edges' variables: the edges whose variable is true, and those whose variable isn't
/// false. At first no variable has a value.
pub struct Bounds {
    vars: Index,
    under: Part,
    over: Part,
}

impl Drop for Bounds {
    fn drop(self) {
        let Bounds {
            vars: _,
            under: _,
            over: _,
        } = self;
    }
}

impl Model for Bounds {
    ghost use Rattle.mono_bounds.specs.Bound.{Bound, HasPlaces};

    ghost Value = { Bound };

    ghost view = { λ b. record { vars = b.vars.keys; places = b.vars.places; under = b.under; over = b.over } };

    ghost invariant = { λ b. HasPlaces b.vars.keys b.under b.over };
}

/// The variables of the edges.
pub fn vars_of(alloc: Global, graph: &Graph) -> Result<Vec<u32>, AllocError>
    ensures vars { IfOk result (λ v. v.items ≡ edge_vars graph.now) }
    ensures few { length graph.now.edges < 2 ^ 32 }
{
    graph.known();
    let mut vars = Vec::new(alloc);
    for place in 0..graph.edge_count() {
        let edge = graph.edge(place);
        vars.push(edge.var)?;
    }
    Ok(vars)
}

impl Bounds {
    /// The bounds of a graph where no variable has a value.
    pub fn new(alloc: Global, graph: &Graph) -> Result<Bounds, AllocError>
        ensures { IfOk result (λ b. IsBoundUnder b (edge_vars graph.now) []) }
    {
        let vars = vars_of(alloc, graph)?;
        Bounds::of_vars(alloc, vars)
    }

    /// The bounds of a graph whose edges have these variables, where no variable has a value.
    pub fn of_vars(alloc: Global, vars: Vec<u32>) -> Result<Bounds, AllocError>
        requires { length vars.items < 2 ^ 32 }
        ensures { IfOk result (λ b. IsBoundUnder b vars.items []) }
    {
        let count = vars.len() as u32;
        let index = Index::new(alloc, vars)?;
        let under = Part::none(alloc, count)?;
        let over = Part::all(alloc, count)?;
        Ok(Bounds {
            vars: index,
            under,
            over,
        })
    }

    /// Whether some place has the variable.
    pub fn has(&self, var: u32) -> bool
        ensures { result ≡ has self.now.vars var }
    {
        self.vars.has(var)
    }

    /// The places of the edges of a variable.
    pub fn places_of(&self, var: u32) -> &[u32]
        ensures { ArePlacesOf self.now.vars var result.now }
    {
        self.vars.places_of(var)
    }

    /// The surely present edges.
    pub fn under(&self) -> &Part
        ensures part { result.now ≡ self.now.under }
        ensures size { length self.now.under ≡ length self.now.vars }
    {
        &self.under
    }

    /// The possibly present edges.
    pub fn over(&self) -> &Part
        ensures part { result.now ≡ self.now.over }
        ensures size { length self.now.over ≡ length self.now.vars }
    {
        &self.over
    }

    /// Where the edges of a variable stand.
    pub fn find(&self, var: u32) -> Span
        ensures { IsSpanOf self.now.vars self.now.places var result }
    {
        self.vars.find(var)
    }

    /// The places of the edges that stand there.
    pub fn places_at(&self, span: Span) -> &[u32]
        requires { span.end ≤ length self.now.places }
        ensures { result.now ≡ within self.now.places span }
    {
        self.vars.places_at(span)
    }

    /// The literal becomes true, the edges of whose variable stand there.
    pub fn assign_at(&mut self, lit: Lit, span: Span)
        requires { IsSpanOf self.old.vars self.old.places (var_of lit) span }
        ensures { self.new ≡ assigned self.old lit }
    {
        if lit.is_positive() {
            self.vars.switch(&mut self.under, span, true);
        } else {
            self.vars.switch(&mut self.over, span, false);
        }
    }

    /// The variable of a literal that is true, whose edges stand there, has no value again.
    pub fn undo_at(&mut self, lit: Lit, span: Span)
        requires { IsSpanOf self.old.vars self.old.places (var_of lit) span }
        ensures { self.new ≡ unassigned self.old lit }
    {
        if lit.is_positive() {
            self.vars.switch(&mut self.under, span, false);
        } else {
            self.vars.switch(&mut self.over, span, true);
        }
    }

    /// The literal becomes true. Its variable has no value so far, or is no edge's, and then nothing changes.
    pub fn assign(&mut self, lit: Lit)
        ensures { self.new ≡ assigned self.old lit }
    {
        let span = self.find(lit.var());
        self.assign_at(lit, span);
    }

    /// The variable of a literal that is true has no value again. Where it is no edge's, nothing changes.
    pub fn undo(&mut self, lit: Lit)
        ensures { self.new ≡ unassigned self.old lit }
    {
        let span = self.find(lit.var());
        self.undo_at(lit, span);
    }
}
