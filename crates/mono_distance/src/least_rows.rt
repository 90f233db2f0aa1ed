//! The labels of nodes from the first nodes of the atoms along the surely present edges.
//!
//! Each label that fell is kept with the number of literals after which it did (Ramalingam and Reps 1996). An atom's predicate
//! holds with the surely present edges exactly where the label of its last node is within its bound.

ghost use Rattle.std.specs.Prelude.{length};

use crate::distance::Distance;
use mono_dynamic::{LeastCosts, WalkTarget};
use mono_theory::{ShowsWalks, SureRows};
use std::alloc::{AllocError, Global};

/// Rows are kept where the different rows times the nodes of the graph are at most so many labels.
///
/// A row takes 16 bytes for each node of the graph, and 48 each time that a label falls, until the literals that came with it
/// go.
pub const MAX_LABELS: usize = 8_000_000;

/// The rows of labels from the atoms' first nodes.
pub type LeastRows = SureRows<LeastCosts>;

impl ShowsWalks<Distance> for LeastCosts {
    ghost use Rattle.mono_dynamic.specs.RowsAlong.{shows_least, IsLeastRow};
    ghost use Rattle.mono_dynamic.proofs.RowsAlong.{least_exact, least_fits, least_goes_back, least_grows, least_newly, least_row_same, least_row_still, least_starts};

    const MOST_CELLS: usize = MAX_LABELS;

    ghost size = { λ t. length t.labels };

    ghost along = { IsLeastRow };

    ghost can_show = { λ _. Unit {0} };

    ghost shows = { shows_least };

    fn shows(&self, target: WalkTarget) -> bool {
        let label = self.label(target.node);
        target.limit.admits(label as u128)
    }

    fn walk_within(
        &self,
        alloc: Global,
        target: WalkTarget,
        stamp: u32,
    ) -> Result<Option<Vec<u32>>, AllocError> {
        let label = self.label_after(target.node, stamp);
        if !target.limit.admits(label as u128) {
            return Ok(None);
        }
        let walk = self.walk_to(alloc, target.node, stamp)?;
        Ok(Some(walk))
    }

    ghost serves = { λ q covered. tt };

    ghost starts = { least_starts };

    ghost is_fit = { least_fits };

    ghost same = { least_row_same };

    ghost still = { least_row_still };

    ghost grows = { least_grows };

    ghost goes_back = { least_goes_back };

    ghost exact = { least_exact };

    ghost newly = { least_newly };
}
