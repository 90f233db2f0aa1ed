//! The nodes between which walks are to lead.

ghost use Rattle.std.specs.Prelude.{◌≡◌, ◌<◌, IsTrue};
ghost use Rattle.mono_graph.specs.Digraph.{Digraph};
ghost use Rattle.mono_problem.specs.WellFormed.{IsOver};
ghost use Rattle.mono_reach.specs.Marks.{first_node, last_node};
ghost use Rattle.mono_reach.specs.Reaches.{is_reach};

use mono_problem::Predicate;

/// The nodes between which a walk is to lead.
pub(crate) fn ends_of(predicate: Predicate) -> (u32, u32)
    requires { IsTrue (is_reach predicate) }
    ensures first { result.0 ≡ first_node predicate }
    ensures last { result.1 ≡ last_node predicate }
    ensures known { (g : Digraph) → IsOver g predicate → result.0 < g.nodes }
{
    match predicate {
        Predicate::Reach { from, to } => (from, to),
        _ => unreachable!(),
    }
}
