//! Lists of the nodes that were visited and of what edges carry.

ghost use Rattle.std.specs.Prelude.{◌≡◌, ◌<◌, All, IfOk, length, map};
ghost use Rattle.mono_flows.specs.Drained.{AreDrained};

use crate::visit::Visit;
use mono_graph::Amount;
use std::alloc::{AllocError, Global};

/// The nodes of the visits.
pub(crate) fn visited_nodes(alloc: Global, visits: &[Visit]) -> Result<Vec<u32>, AllocError>
    ensures { IfOk result (λ nodes. nodes.items ≡ map (λ v. v.node) visits.now) }
{
    visits.iter().map(|visit| visit.node).collect(alloc)
}

/// Lists what the touched edges carry, where that is something, each once, and lets them carry nothing from then on.
pub(crate) fn drain(
    alloc: Global,
    amounts: &mut Vec<u64>,
    touched: &[u32],
) -> Result<Vec<Amount>, AllocError>
    requires { All (λ k. k < length amounts.old.items) touched.now }
    ensures len { length amounts.new.items ≡ length amounts.old.items }
    ensures drained { IfOk result (λ listed. AreDrained amounts.old.items amounts.new.items touched.now listed.items) }
{
    let mut listed = Vec::new(alloc);
    for place in touched {
        let amount = amounts[*place as usize];
        if amount > 0 {
            listed.push(Amount {
                edge: *place,
                amount,
            })?;
            amounts[*place as usize] = 0;
        }
    }
    Ok(listed)
}
