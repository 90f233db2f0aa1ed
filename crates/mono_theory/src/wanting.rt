//! The edges that atoms would have present: those in the support of an atom whose variable is true.

ghost use Rattle.std.specs.Prelude.{◌≡◌, ◌<◌, All, length};
ghost use Rattle.mono_theory.specs.Watching.{AreBelow};

use crate::frame::Frame;
use crate::kept_evidence::KeptEvidence;
use crate::watch::Watch;
use crate::watchers::Watchers;

/// Whether one of the atoms that watch the edge has it in its support, and its variable is true. Each of them takes one look.
fn wants(frame: &Frame, supports: &KeptEvidence, watches: &[Watch], edge: u32) -> bool
    requires count { length supports.now ≡ length frame.now.atoms }
    requires known { All (λ w. w.atom < length frame.now.atoms) watches.now }
{
    for watch in watches {
        if frame.is_true(watch.atom as usize) && supports.rests_by(*watch, edge) {
            return true;
        }
    }
    false
}

/// Whether the support of an atom whose variable is true has one of the edges.
pub(crate) fn any_wants(
    frame: &Frame,
    supports: &KeptEvidence,
    watchers: &Watchers,
    edges: &[u32],
) -> bool
    requires count { length supports.now ≡ length frame.now.atoms }
    requires below { AreBelow (length frame.now.atoms) watchers.now }
    requires edges { All (λ k. k < length watchers.now) edges.now }
{
    for edge in edges {
        if wants(frame, supports, watchers.list(*edge), *edge) {
            return true;
        }
    }
    false
}

/// The variable of the first of these edges that is open.
pub(crate) fn first_open(frame: &Frame, edges: &[u32]) -> Option<u32>
    requires { All (λ k. k < length frame.now.graph.edges) edges.now }
{
    for edge in edges {
        if frame.part(true).has(*edge) && !frame.part(false).has(*edge) {
            return Some(frame.graph().edge(*edge).var);
        }
    }
    None
}
