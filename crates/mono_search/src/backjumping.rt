//! Going back to a lower level.

ghost use Rattle.std.specs.Prelude.{◌≡◌, ◌≤◌, length, min, drop, All};
ghost use Rattle.mono_base.specs.Literal.{IsLitWithin};
ghost use Rattle.mono_trail.specs.Moves.{lowered};
ghost use Rattle.mono_trail.specs.TrailView.{IsSoundTrail, count_to};
ghost use Rattle.mono_clauses.specs.Store.{FollowsBelow};
ghost use Rattle.mono_search.specs.Theories.{HaveSeen, having_seen};
ghost use Rattle.mono_search.specs.State.{IsConsistent, IsReady};
ghost use Rattle.mono_search.specs.Runs.{Releases};

use crate::state::State;
use crate::theories::Theories;
use mono_base::Lit;
use mono_theory::Theory;
use mono_trail::{Order, Trail};

impl<'p, T: Theory> State<'p, T> {
    /// All decisions are taken back.
    pub(crate) fn restart(&mut self)
        requires whole { IsConsistent self.old }
        requires follows { FollowsBelow self.old.store self.old.trail }
        requires level { 1 ≤ self.old.trail.level }
        ensures problem { self.new.theories.problem ≡ self.old.theories.problem }
        ensures steps { self.new.steps ≡ self.old.steps }
        ensures back { self.new.trail ≡ lowered 0 self.old.trail }
        ensures order { Releases self.old.order self.new.order (drop (count_to 0 self.old.trail.marks) self.old.trail.lits) }
        ensures ready { IsReady self.new }
    {
        backjump(&mut self.theories, &mut self.trail, &mut self.order, 0);
    }
}

/// Theories, trail and order go back to a level. It costs the literals that are dropped, the theories that they concern, and what
/// these undo for them.
pub(crate) fn backjump<T: Theory>(
    theories: &mut Theories<'_, T>,
    trail: &mut Trail,
    order: &mut Order,
    level: u32,
)
    requires level { level ≤ trail.old.level }
    requires vars { trail.old.vars ≡ length order.old.waits }
    requires problem { theories.old.problem.vars ≡ trail.old.vars }
    requires shown { HaveSeen theories.old trail.old.lits }
    ensures trail { trail.new ≡ lowered level trail.old }
    ensures theories { theories.new ≡ having_seen theories.old trail.old.lits (min theories.old.handed (count_to level trail.old.marks)) }
    ensures order { Releases order.old order.new (drop (count_to level trail.old.marks) trail.old.lits) }
    ensures sound { IsSoundTrail trail.new }
{
    trail.known();
    let kept = trail.count_to(level);
    release(order, &trail.lits()[kept..]);
    let fewer = kept.min(theories.handed());
    theories.undo_to(trail.lits(), fewer);
    trail.backjump(level);
    trail.known();
}

/// The variables of dropped literals wait to be decided again. Their signs are saved.
fn release(order: &mut Order, lits: &[Lit])
    requires { All (IsLitWithin (length order.old.waits)) lits.now }
    ensures { Releases order.old order.new lits.now }
{
    for lit in lits {
        order.save(*lit);
        order.give_back(lit.var());
    }
}
