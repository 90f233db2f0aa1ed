//! The nodes that are reached from the first nodes of the atoms along the surely present edges.
//!
//! Each node is kept with the number of literals after which it was reached, and with the walk by which it was (Ramalingam and
//! Reps 1996). An atom's predicate holds with the surely present edges exactly where its last node is reached.

use crate::reach::Reach;
use mono_dynamic::{ReachedNodes, WalkTarget};
use mono_theory::{ShowsWalks, SureRows};
use std::alloc::{AllocError, Global};

/// Rows are kept where the different first nodes times the nodes of the graph are at most so many.
///
/// A row takes 20 bytes for each node of the graph, so all rows of a theory take at most 160 MB.
pub const MOST_REACHED: usize = 8_000_000;

/// The rows of reached nodes of the atoms' first nodes.
pub type ReachedRows = SureRows<ReachedNodes>;

impl ShowsWalks<Reach> for ReachedNodes {
    ghost use Rattle.mono_dynamic.specs.RowsAlong.{shows_reached, IsFree, IsReachedRow};
    ghost use Rattle.mono_dynamic.proofs.RowsAlong.{reached_exact, reached_fits, reached_goes_back, reached_grows, reached_newly, reached_same, reached_starts, reached_still};
    ghost use Rattle.mono_reach.specs.Reaches.{reach_is_free};

    const MOST_CELLS: usize = MOST_REACHED;

    ghost size = { λ r. r.nodes };

    ghost along = { IsReachedRow };

    ghost can_show = { IsFree };

    ghost shows = { shows_reached };

    fn shows(&self, target: WalkTarget) -> bool {
        self.has(target.node)
    }

    fn walk_within(
        &self,
        alloc: Global,
        target: WalkTarget,
        stamp: u32,
    ) -> Result<Option<Vec<u32>>, AllocError> {
        let Some(reached) = self.reached_after(target.node) else {
            return Ok(None);
        };
        if reached > stamp {
            return Ok(None);
        }
        let walk = self.walk_to(alloc, target.node)?;
        Ok(Some(walk))
    }

    ghost serves = { reach_is_free };

    ghost starts = { reached_starts };

    ghost is_fit = { reached_fits };

    ghost same = { reached_same };

    ghost still = { reached_still };

    ghost grows = { reached_grows };

    ghost goes_back = { reached_goes_back };

    ghost exact = { reached_exact };

    ghost newly = { reached_newly };
}
