//! Parts of a graph: sets of its edges.
//!
//! A part has a byte for each place, so that an edge comes and goes in constant time.

ghost use Rattle.std.specs.Prelude.{◌≡◌, ◌<◌, ◌==◌, ◌&&◌, ◌||◌, ℕ, true, false, not, if◌then◌else◌, IfOk, length};
ghost use Rattle.mono_graph.specs.Digraph.{present};

use std::alloc::{AllocError, Global};
use std::marker::Model;

/// A set of places of a graph: the edges that are present.
#[derive(Drop)]
pub struct Part {
    held: Vec<bool>,
}

impl Model for Part {
    ghost use Rattle.std.specs.Prelude.{List, Bool};

    ghost Value = { List Bool };

    ghost view = { λ p. p.held.items };
}

impl Part {
    /// The part of a graph with this many edges that has none of them.
    pub fn none(alloc: Global, edges: u32) -> Result<Self, AllocError>
        ensures size { IfOk result (λ part. length part ≡ edges) }
        ensures places { IfOk result (λ part. (k : ℕ) → present part k ≡ false) }
    {
        Ok(Part {
            held: vec![in alloc; false; edges as usize]?,
        })
    }

    /// The part of a graph with this many edges that has each of them.
    pub fn all(alloc: Global, edges: u32) -> Result<Self, AllocError>
        ensures size { IfOk result (λ part. length part ≡ edges) }
        ensures places { IfOk result (λ part. (k : ℕ) → k < edges → present part k ≡ true) }
    {
        Ok(Part {
            held: vec![in alloc; true; edges as usize]?,
        })
    }

    /// Whether the place is in the part.
    pub fn has(&self, place: u32) -> bool
        requires { place < length self.now }
        ensures { result ≡ present self.now place }
    {
        self.held[place as usize]
    }

    /// Puts the place into the part.
    pub fn put(&mut self, place: u32)
        requires { place < length self.old }
        ensures size { length self.new ≡ length self.old }
        ensures places { (k : ℕ) → present self.new k ≡ (k == place || present self.old k) }
    {
        self.held[place as usize] = true;
    }

    /// Takes the place out of the part.
    pub fn take(&mut self, place: u32)
        requires { place < length self.old }
        ensures size { length self.new ≡ length self.old }
        ensures places { (k : ℕ) → present self.new k ≡ (not (k == place) && present self.old k) }
    {
        self.held[place as usize] = false;
    }

    /// Puts the place into the part, or takes it out.
    pub fn set(&mut self, place: u32, on: bool)
        requires { place < length self.old }
        ensures size { length self.new ≡ length self.old }
        ensures places { (k : ℕ) → present self.new k ≡ (if k == place then on else present self.old k) }
    {
        if on {
            self.put(place);
        } else {
            self.take(place);
        }
    }

    /// Puts the place into the part, where that is asked for.
    pub fn put_if(&mut self, place: u32, asked: bool)
        requires { place < length self.old }
        ensures size { length self.new ≡ length self.old }
        ensures places { (k : ℕ) → present self.new k ≡ ((k == place && asked) || present self.old k) }
    {
        if asked {
            self.put(place);
        }
    }
}
