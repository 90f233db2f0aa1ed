//! The atoms that lose their support: those that stand on an edge that a literal changes.

ghost use Rattle.std.specs.Prelude.{◌≡◌, ◌≢◌, ◌<◌, ℕ, List, All, IsTrue, length};
ghost use Rattle.mono_graph.specs.Digraph.{has};
ghost use Rattle.mono_theory.specs.declared.stage.Stage.TheVariants as stage;
ghost use Rattle.mono_theory.specs.Sound.{evidence_at};
ghost use Rattle.mono_theory.specs.Stages.{stage_at};
ghost use Rattle.mono_theory.specs.Watching.{AreBelow, AreInvalidated, NoneStandsOn, RestsAt, watching};

use crate::kept_evidence::KeptEvidence;
use crate::stages::Stages;
use crate::watch::Watch;
use crate::watchers::Watchers;

/// The atom doesn't stand on the edge any more.
fn invalidate_one(supports: &KeptEvidence, stages: &mut Stages, watch: Watch, edge: u32)
    requires count { length stages.old ≡ length supports.now }
    requires known { watch.atom < length supports.now }
    ensures fewer { (ks : List ℕ) → IsTrue (has ks edge) → AreInvalidated supports.now ks stages.old stages.new }
    ensures gone { RestsAt (evidence_at supports.now watch.atom) watch.place edge → stage_at stages.new watch.atom ≢ stage.Stands }
{
    if !stages.is_standing(watch.atom) {
        return;
    }
    if supports.rests_by(watch, edge) {
        stages.wait(watch.atom);
    }
}

/// None of the atoms that watch the edge stands on it any more.
fn invalidate_at(supports: &KeptEvidence, stages: &mut Stages, watches: &[Watch], edge: u32)
    requires count { length stages.old ≡ length supports.now }
    requires known { All (λ w. w.atom < length supports.now) watches.now }
    ensures fewer { (ks : List ℕ) → IsTrue (has ks edge) → AreInvalidated supports.now ks stages.old stages.new }
    ensures none { NoneStandsOn supports.now stages.new watches.now edge }
{
    for watch in watches {
        invalidate_one(supports, stages, *watch, edge);
    }
}

/// No atom stands on one of the edges any more.
pub(crate) fn invalidate(
    supports: &KeptEvidence,
    watchers: &Watchers,
    stages: &mut Stages,
    edges: &[u32],
)
    requires count { length stages.old ≡ length supports.now }
    requires below { AreBelow (length supports.now) watchers.now }
    requires edges { All (λ k. k < length watchers.now) edges.now }
    ensures fewer { AreInvalidated supports.now edges.now stages.old stages.new }
    ensures none { (k : ℕ) → IsTrue (has edges.now k) → NoneStandsOn supports.now stages.new (watching watchers.now k) k }
{
    for edge in edges {
        invalidate_at(supports, stages, watchers.list(*edge), *edge);
    }
}
