//! A flow that grows until it carries what is asked for.
//!
//! At every moment it is a flow of the value that it says: no edge carries more than it can, and all nodes but the
//! source and the sink are balanced. No amount exceeds the value, and no value exceeds what is asked for, which is at
//! most 2^53 + 1, so no sum overflows.

ghost use Rattle.std.specs.Prelude.{◌≡◌, ◌<◌, ◌-◌, OnOk, length};
ghost use Rattle.mono_flows.specs.Flowing.{IsFlow, IsFlowTowards};
ghost use Rattle.mono_flows.specs.Rooms.{HasRoomFor, IsClearRoom};
ghost use Rattle.mono_flows.specs.Visits.{IsAugmentingPath};
ghost use Rattle.mono_flows.specs.Residual.{amount_of};

use crate::edge_room::EdgeRoom;
use crate::network::Network;
use crate::visit::Visit;
use std::alloc::{AllocError, Global};

/// What each edge carries, by place, and how much that brings from the source to the sink.
#[derive(Drop)]
pub(crate) struct Flow {
    pub amounts: Vec<u64>,
    pub value: u64,
    /// Edges with each one that carries something, perhaps more than once.
    pub touched: Vec<u32>,
}

impl Flow {
    /// The flow that carries nothing. Its amounts are taken from the room.
    pub fn none(alloc: Global, network: &Network, room: &mut EdgeRoom) -> Self
        requires clear { IsClearRoom room.old }
        requires fits { HasRoomFor (length network.now.graph.now.edges) room.old }
        ensures flow { IsFlow network.now result }
        ensures value { result.value ≡ 0 }
        ensures clear { IsClearRoom room.new }
    {
        let _ = network;
        let amounts = room.take_amounts(alloc);
        let touched = Vec::new(alloc);
        Flow {
            amounts,
            value: 0,
            touched,
        }
    }

    /// Carries more along an augmenting path: as much as its last visit says.
    pub fn augment(
        &mut self,
        network: &Network,
        path: &[Visit],
        goal: u64,
    ) -> Result<(), AllocError>
        requires flow { IsFlowTowards network.now goal self.old }
        requires path { IsAugmentingPath network.now.graph.now network.now.part.now
            (amount_of self.old.amounts.items) network.now.source network.now.sink (goal - self.old.value) path.now }
        ensures flow { OnOk result (IsFlowTowards network.now goal self.new) }
        ensures more { OnOk result (self.old.value < self.new.value) }
    {
        let _ = network;
        let _ = goal;
        let mut at = path.len() - 1;
        let extra = path[at].residual;
        while at > 0 {
            let visit = path[at];
            let place = visit.edge.place as usize;
            self.touched.push(visit.edge.place)?;
            if visit.edge.back {
                self.amounts[place] -= extra;
            } else {
                self.amounts[place] += extra;
            }
            at = visit.before;
        }
        self.value += extra;
        Ok(())
    }
}
