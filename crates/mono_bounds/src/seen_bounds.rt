//! The bounds of a list of literals.
//!
//! Of each literal it is kept where the places of its variable stand. So a literal is looked up once, when it comes: none that
//! goes, or that comes again, asks for a look-up.

ghost use Rattle.std.specs.Prelude.{◌≡◌, ◌<◌, ◌≤◌, ◌++◌, ◌∷◌, ◌^◌, [], length, take, IfOk, IsTrue, if◌then◌else◌};
ghost use Rattle.mono_base.specs.Literal.{var_of};
ghost use Rattle.mono_base.specs.Partial.{is_partial};
ghost use Rattle.mono_bounds.specs.Bound.{assigned, IsBoundUnder};
ghost use Rattle.mono_bounds.specs.Index.{within, IsSpanOf};
ghost use Rattle.mono_bounds.specs.SeenBounds.{span_at, AreSpansOf, IsSeenBound};

use crate::bounds::Bounds;
use crate::span::Span;
use mono_base::Lit;
use mono_graph::Part;
use std::alloc::{AllocError, Global};
use std::marker::Model;

/// The bounds of a list of literals. Contracts see the bounds, where the places of each literal's variable stand, and for how
/// many literals there is room.
#[derive(Drop)]
pub struct SeenBounds {
    bounds: Bounds,
    /// By place of a literal, where the places of its variable stand.
    spans: Vec<Span>,
}

impl Model for SeenBounds {
    ghost use Rattle.std.specs.Prelude.{vec_capacity};
    ghost use Rattle.mono_bounds.specs.SeenBounds.{SeenBound};

    ghost Value = { SeenBound };

    ghost view = { λ s. record { bound = s.bounds; spans = s.spans.items; cells = vec_capacity s.spans } };
}

/// The bounds go back from all literals to the first ones.
fn undo_bounds_to(bounds: &mut Bounds, spans: &[Span], lits: &[Lit], kept: usize)
    requires kept { kept ≤ length lits.now }
    requires partial { IsTrue (is_partial lits.now) }
    requires bounds { IsBoundUnder bounds.old bounds.old.vars lits.now }
    requires spans { AreSpansOf bounds.old lits.now spans.now }
    ensures places { bounds.new.places ≡ bounds.old.places }
    ensures bounds { IsBoundUnder bounds.new bounds.old.vars (take kept lits.now) }
{
    let mut at = lits.len();
    'back: while at > kept {
        at -= 1;
        bounds.undo_at(lits[at], spans[at]);
    }
}

/// The bounds come from the first literals to all of them again.
fn advance(bounds: &mut Bounds, spans: &[Span], lits: &[Lit], kept: usize)
    requires kept { kept ≤ length lits.now }
    requires partial { IsTrue (is_partial lits.now) }
    requires bounds { IsBoundUnder bounds.old bounds.old.vars (take kept lits.now) }
    requires spans { AreSpansOf bounds.old lits.now spans.now }
    ensures places { bounds.new.places ≡ bounds.old.places }
    ensures bounds { IsBoundUnder bounds.new bounds.old.vars lits.now }
{
    for at in kept..lits.len() {
        bounds.assign_at(lits[at], spans[at]);
    }
}

impl SeenBounds {
    /// The bounds of places with these variables under no literal, with room for so many literals.
    pub fn new(alloc: Global, vars: Vec<u32>, cells: usize) -> Result<SeenBounds, AllocError>
        requires { length vars.items < 2 ^ 32 }
        ensures bounds { IfOk result (λ s. IsSeenBound s vars.items []) }
        ensures cells { IfOk result (λ s. cells ≤ s.cells) }
    {
        let spans = Vec::with_capacity(alloc, cells)?;
        let bounds = Bounds::of_vars(alloc, vars)?;
        Ok(SeenBounds { bounds, spans })
    }

    /// The bounds.
    pub fn bounds(&self) -> &Bounds
        ensures { result.now ≡ self.now.bound }
    {
        &self.bounds
    }

    /// The surely present places, or the possibly present ones.
    pub fn part(&self, surely: bool) -> &Part
        ensures part { result.now ≡ (if surely then self.now.bound.under else self.now.bound.over) }
        ensures size { length result.now ≡ length self.now.bound.vars }
    {
        if surely {
            self.bounds.under()
        } else {
            self.bounds.over()
        }
    }

    /// The places of the variable of the literal at a place.
    pub fn places(&self, at: usize) -> &[u32]
        requires at { at < length self.now.spans }
        requires fits { (span_at self.now.spans at).end ≤ length self.now.bound.places }
        ensures { result.now ≡ within self.now.bound.places (span_at self.now.spans at) }
    {
        self.bounds.places_at(self.spans[at])
    }

    /// One more literal, the places of whose variable stand there.
    pub fn assign(&mut self, lit: Lit, span: Span)
        requires room { length self.old.spans < self.old.cells }
        requires span { IsSpanOf self.old.bound.vars self.old.bound.places (var_of lit) span }
        ensures bound { self.new.bound ≡ assigned self.old.bound lit }
        ensures spans { self.new.spans ≡ self.old.spans ++ span ∷ [] }
        ensures cells { self.old.cells ≤ self.new.cells }
    {
        self.bounds.assign_at(lit, span);
        self.spans.push_reserved(span);
    }

    /// The literals, which are these, are cut to the first `kept`.
    pub fn undo_to(&mut self, lits: &[Lit], kept: usize)
        requires kept { kept ≤ length lits.now }
        requires partial { IsTrue (is_partial lits.now) }
        requires bound { IsBoundUnder self.old.bound self.old.bound.vars lits.now }
        requires spans { AreSpansOf self.old.bound lits.now self.old.spans }
        ensures bound { IsBoundUnder self.new.bound self.old.bound.vars (take kept lits.now) }
        ensures places { self.new.bound.places ≡ self.old.bound.places }
        ensures spans { self.new.spans ≡ take kept self.old.spans }
        ensures cells { self.new.cells ≡ self.old.cells }
    {
        undo_bounds_to(&mut self.bounds, self.spans.as_slice(), lits, kept);
        self.spans.truncate(kept);
    }

    /// The bounds go back to the first `kept` literals of these for a while.
    pub fn go_back(&mut self, lits: &[Lit], kept: usize)
        requires kept { kept ≤ length lits.now }
        requires partial { IsTrue (is_partial lits.now) }
        requires bound { IsBoundUnder self.old.bound self.old.bound.vars lits.now }
        requires spans { AreSpansOf self.old.bound lits.now self.old.spans }
        ensures bound { IsBoundUnder self.new.bound self.old.bound.vars (take kept lits.now) }
        ensures same { self.new ≡ record self.old { bound = self.new.bound } }
        ensures places { self.new.bound.places ≡ self.old.bound.places }
    {
        undo_bounds_to(&mut self.bounds, self.spans.as_slice(), lits, kept);
    }

    /// They come to all literals again.
    pub fn come_again(&mut self, lits: &[Lit], kept: usize)
        requires kept { kept ≤ length lits.now }
        requires partial { IsTrue (is_partial lits.now) }
        requires bound { IsBoundUnder self.old.bound self.old.bound.vars (take kept lits.now) }
        requires spans { AreSpansOf self.old.bound lits.now self.old.spans }
        ensures bound { IsBoundUnder self.new.bound self.old.bound.vars lits.now }
        ensures same { self.new ≡ record self.old { bound = self.new.bound } }
        ensures places { self.new.bound.places ≡ self.old.bound.places }
    {
        advance(&mut self.bounds, self.spans.as_slice(), lits, kept);
    }
}
