//! What a theory keeps of its atoms with the surely present edges, or with the possibly present ones.

ghost use Rattle.std.specs.Prelude.{◌≡◌, ◌<◌, ◌≤◌, [], length, not, pos, int_lt, IfOk, IfSome};

use crate::{Evidence, Force, Frame, Kind, Question, Threat};
use std::alloc::{AllocError, Global};

/// What is kept of the atoms of a frame on one side, from one question to the next.
///
/// A side is that of the surely present edges or that of the possibly present ones, and stays so. The surely present edges only
/// grow while literals come, and lose the last of them while literals go. The possibly present ones only go while literals come,
/// and get the last of them back while literals go. What is kept may lag behind the literals seen: `force` looks at those that
/// came since.
pub trait Side<K: Kind>: Drop {
    ghost use Rattle.std.specs.Prelude.{Bool, ℕ, ℤ};
    ghost use Rattle.mono_theory.specs.Evidences.{shown_by};
    ghost use Rattle.mono_theory.specs.Questions.{IsAnswer, predicate_in};
    ghost use Rattle.mono_theory.specs.Supports.{AreCovered, SideIs};
    ghost use Rattle.mono_theory.specs.Theories.{Facts, but_last, cut_to, last_seen};
    ghost use Rattle.mono_theory.specs.Threats.{IsThreat};

    /// Whether the side is that of the possibly present edges.
    ghost possible: { Self → Bool };

    /// What is kept is right where a frame has these facts.
    ghost is_right: { Self → Facts → Type 0 };

    /// What stays of it, from before to after, when one more literal is seen.
    ghost keeps: { Facts → ℤ → Self → Self → Type 0 };

    /// What stays of it, from before to after, when the list is cut to so many first literals.
    ghost keeps_back: { Facts → ℕ → Self → Self → Type 0 };

    /// What is kept decides of each atom what the edges of the side show of its predicate.
    ghost decides: { Self → Facts → Type 0 };

    /// The frame has seen one more literal, its last one. It takes no memory.
    fn assign(&mut self, frame: &Frame)
        requires some { 0 < length frame.now.seen }
        requires right { is_right self.old (but_last frame.now) }
        ensures sign { possible self.new ≡ possible self.old }
        ensures keeps { keeps (but_last frame.now) (last_seen frame.now) self.old self.new }
        ensures right { is_right self.new frame.now };

    /// The frame is about to be cut to its first `kept` literals. It takes no memory.
    fn undo_to(&mut self, frame: &Frame, kept: usize)
        requires right { is_right self.old frame.now }
        requires within { kept ≤ length frame.now.seen }
        ensures sign { possible self.new ≡ possible self.old }
        ensures keeps { keeps_back frame.now kept self.old self.new }
        ensures right { is_right self.new (cut_to kept frame.now) };

    /// An atom's literal that the edges of the side force and that isn't true, if there is one.
    fn force(&mut self, alloc: Global, kind: &mut K, frame: &Frame) -> Result<Force, AllocError>
        requires size { K.nodes kind.old ≡ frame.now.graph.nodes }
        requires covered { AreCovered K.covers frame.now.atoms }
        requires right { is_right self.old frame.now }
        ensures size { K.nodes kind.new ≡ K.nodes kind.old }
        ensures sign { possible self.new ≡ possible self.old }
        ensures right { is_right self.new frame.now }
        ensures answer { IfOk result (SideIs frame.now (possible self.old)) }
        ensures decided { IfOk result (λ answer. answer ≡ Force.Quiet → decides self.new frame.now) };

    /// What answers a question, where the edges of the side force its literal: what is kept, or else what a search finds.
    fn explain(
        &self,
        alloc: Global,
        kind: &mut K,
        frame: &mut Frame,
        question: Question,
    ) -> Result<Evidence, AllocError>
        requires size { K.nodes kind.old ≡ frame.old.graph.nodes }
        requires covered { AreCovered K.covers frame.old.atoms }
        requires right { is_right self.now frame.old }
        requires place { question.place < length frame.old.atoms }
        requires kept { question.kept ≤ length frame.old.seen }
        requires its { shown_by (predicate_in frame.old question) (int_lt (pos 0) question.lit) ≡ not (possible self.now) }
        ensures size { K.nodes kind.new ≡ K.nodes kind.old }
        ensures same { frame.new ≡ frame.old }
        ensures evidence { IfOk result (IsAnswer frame.old question) };

    /// An open edge that would break an atom if it were present, on the side of the surely present edges, or absent, on the other
    /// one, if one is at hand. No promise is made that one is found.
    fn threat(&mut self, alloc: Global, frame: &Frame) -> Result<Option<Threat>, AllocError>
        requires covered { AreCovered K.covers frame.now.atoms }
        requires right { is_right self.old frame.now }
        ensures sign { possible self.new ≡ possible self.old }
        ensures right { is_right self.new frame.now }
        ensures threat { IfOk result (λ found. IfSome found (IsThreat frame.now (possible self.old))) }
    {
        frame.known();
        let _ = alloc;
        Ok(None)
    }

    /// Whether the variable would better be decided true. The answer is free: nothing rests on it but how long a search takes.
    fn prefers(&self, frame: &Frame, var: u32) -> bool
        requires { is_right self.now frame.now }
    {
        frame.known();
        let _ = var;
        false
    }

    /// The variable of an open edge that the atom at a place would have present, if it has to hold and there is one. The answer is
    /// free: nothing rests on it but how long a search takes.
    fn wanted(&self, frame: &Frame, place: u32) -> Option<u32>
        requires right { is_right self.now frame.now }
        requires place { place < length frame.now.atoms }
    {
        frame.known();
        let _ = place;
        None
    }
}

/// What is kept on a side that may be either one.
pub trait NewSide<K: Kind>: Side<K> {
    ghost use Rattle.std.specs.Prelude.{◌≡◌, []};
    ghost use Rattle.mono_theory.specs.Supports.{AreCovered};

    /// Nothing is kept yet, and nothing was seen. The side is that of the possibly present edges, or that of the surely present
    /// ones.
    fn of_frame(alloc: Global, frame: &Frame, possible: bool) -> Result<Self, AllocError>
        requires covered { AreCovered K.covers frame.now.atoms }
        requires unseen { frame.now.seen ≡ [] }
        ensures sign { IfOk result (λ side. Self.possible side ≡ possible) }
        ensures right { IfOk result (λ side. Self.is_right side frame.now) };
}
