//! A flow without the edges that are lost.
//!
//! What a lost edge carried is sent round, from its start to its end, over the residual edges near it. Where they have no
//! room for all of it, the rest is taken back. It came from the source along edges that carry something, and went on to
//! the sink along such edges: where more enters a node than leaves it, less is carried by the edges that enter it, and
//! where less does, by those that leave it (the excess and the deficit of a preflow). All this costs what the edges at the
//! nodes on these ways do. That the rest is a flow is tested afterwards, and nothing that is claimed here rests on it.

ghost use Rattle.std.specs.Prelude.{◌≡◌, ◌≢◌, ◌<◌, All, IfOk, length};
ghost use Rattle.mono_flows.specs.Mending.{IsPreflow};
ghost use Rattle.mono_flows.specs.Residual.{amount_of};
ghost use Rattle.mono_flows.specs.Visits.{IsAugmentingPath, IsFlowSearch};

use crate::kept_flow::{edges_of, put_amounts};
use crate::listing::drain;
use crate::network::{Network, ResidualEdge};
use crate::search::AugmentingSearch;
use crate::visit::Visit;
use mono_graph::Amount;
use std::alloc::{AllocError, Global};
use std::mem;

/// How much more enters a node than leaves it, or how much less.
#[derive(Clone, Copy)]
struct Imbalance {
    node: u32,
    amount: u64,
    is_excess: bool,
}

/// What each edge carries, by place, and what is to be taken back still.
struct Preflow {
    amounts: Vec<u64>,
    /// Edges with each one that carries something, perhaps more than once.
    touched: Vec<u32>,
    pending: Vec<Imbalance>,
}

impl Drop for Preflow {
    fn drop(self) {
        let Preflow {
            amounts: _,
            touched: _,
            pending: _,
        } = self;
    }
}

/// A table of so many amounts: this one, if it has that length.
fn fitted(alloc: Global, spare: Vec<u64>, edges: usize) -> Result<Vec<u64>, AllocError>
    ensures { IfOk result (λ amounts. length amounts.items ≡ edges) }
{
    if spare.len() == edges {
        return Ok(spare);
    }
    Ok(vec![in alloc; 0; edges]?)
}

impl Preflow {
    /// What the list carries, in a table where nothing is carried; nothing is to be taken back yet.
    fn of(
        alloc: Global,
        network: &Network,
        spare: Vec<u64>,
        listed: &[Amount],
    ) -> Result<Self, AllocError>
        requires { All (λ a. a.edge < length network.now.graph.now.edges) listed.now }
        ensures { IfOk result (IsPreflow network.now.graph.now) }
    {
        let edges = network.graph.edge_count() as usize;
        let touched = edges_of(alloc, listed)?;
        let mut amounts = fitted(alloc, spare, edges)?;
        put_amounts(&mut amounts, listed);
        Ok(Preflow {
            amounts,
            touched,
            pending: Vec::new(alloc),
        })
    }

    /// What a lost edge carried is missing at its ends from now on.
    fn miss(&mut self, network: &Network, lost: Amount) -> Result<(), AllocError>
        requires known { lost.edge < length network.now.graph.now.edges }
        requires flow { IsPreflow network.now.graph.now self.old }
        ensures { IsPreflow network.now.graph.now self.new }
    {
        network.graph.known();
        let edge = network.graph.edge(lost.edge);
        self.pending.push(Imbalance {
            node: edge.from,
            amount: lost.amount,
            is_excess: true,
        })?;
        self.pending.push(Imbalance {
            node: edge.to,
            amount: lost.amount,
            is_excess: false,
        })?;
        Ok(())
    }

    /// Carries more along a path that a search found: as much as its last visit says.
    fn carry(&mut self, network: &Network, path: &[Visit], most: u64) -> Result<u64, AllocError>
        requires flow { IsPreflow network.now.graph.now self.old }
        requires path { IsAugmentingPath network.now.graph.now network.now.part.now
            (amount_of self.old.amounts.items) network.now.source network.now.sink most path.now }
        ensures { IsPreflow network.now.graph.now self.new }
    {
        let _ = network;
        let _ = most;
        let mut at = path.len() - 1;
        let extra = path[at].residual;
        while at > 0 {
            let visit = path[at];
            let place = visit.edge.place as usize;
            self.touched.push(visit.edge.place)?;
            if visit.edge.back {
                self.amounts[place] = self.amounts[place].saturating_sub(extra);
            } else {
                self.amounts[place] = self.amounts[place].saturating_add(extra);
            }
            at = visit.before;
        }
        Ok(extra)
    }

    /// Sends an amount along paths from the source to the sink, as long as there are any. What is left then.
    fn send(
        &mut self,
        network: &Network,
        search: &mut AugmentingSearch,
        amount: u64,
    ) -> Result<u64, AllocError>
        requires apart { network.now.source ≢ network.now.sink }
        requires flow { IsPreflow network.now.graph.now self.old }
        requires search { IsFlowSearch network.now.graph.now.nodes search.old }
        ensures flow { IsPreflow network.now.graph.now self.new }
        ensures search { IsFlowSearch network.now.graph.now.nodes search.new }
    {
        let mut left = amount;
        while left > 0 {
            if !search.find_path(network, &self.amounts, left)? {
                return Ok(left);
            }
            let sent = self.carry(network, &search.visits, left)?;
            if sent == 0 {
                return Ok(left);
            }
            left = left.saturating_sub(sent);
        }
        Ok(0)
    }

    /// Sends what a lost edge carried round. What is left of it then.
    fn send_round(
        &mut self,
        network: &Network,
        search: &mut AugmentingSearch,
        lost: Amount,
    ) -> Result<u64, AllocError>
        requires known { lost.edge < length network.now.graph.now.edges }
        requires flow { IsPreflow network.now.graph.now self.old }
        requires search { IsFlowSearch network.now.graph.now.nodes search.old }
        ensures flow { IsPreflow network.now.graph.now self.new }
        ensures search { IsFlowSearch network.now.graph.now.nodes search.new }
    {
        network.graph.known();
        let edge = network.graph.edge(lost.edge);
        if edge.from == edge.to {
            return Ok(0);
        }
        let gap = Network {
            graph: network.graph,
            part: network.part,
            source: edge.from,
            sink: edge.to,
        };
        self.send(&gap, search, lost.amount)
    }

    /// Lets the listed edges that aren't present carry nothing. What one carried is sent round. Where that fails for one,
    /// the flow falls, and what the others carry is taken back with it.
    fn replace_lost(
        &mut self,
        network: &Network,
        search: &mut AugmentingSearch,
        listed: &[Amount],
    ) -> Result<(), AllocError>
        requires known { All (λ a. a.edge < length network.now.graph.now.edges) listed.now }
        requires flow { IsPreflow network.now.graph.now self.old }
        requires search { IsFlowSearch network.now.graph.now.nodes search.old }
        ensures flow { IsPreflow network.now.graph.now self.new }
        ensures search { IsFlowSearch network.now.graph.now.nodes search.new }
    {
        let mut falls = false;
        for old in listed {
            if !network.part.has(old.edge) {
                let amount = mem::replace(&mut self.amounts[old.edge as usize], 0);
                let mut lost = Amount {
                    edge: old.edge,
                    amount,
                };
                if !falls {
                    lost.amount = self.send_round(network, search, lost)?;
                    falls = lost.amount > 0;
                }
                self.miss(network, lost)?;
            }
        }
        Ok(())
    }

    /// Takes what is left, or as much as there is, from what an edge carries. It is missing at the edge's other end from
    /// then on. What is left after that.
    fn take_at(
        &mut self,
        network: &Network,
        edge: ResidualEdge,
        left: u64,
    ) -> Result<u64, AllocError>
        requires place { edge.place < length network.now.graph.now.edges }
        requires flow { IsPreflow network.now.graph.now self.old }
        ensures { IsPreflow network.now.graph.now self.new }
    {
        let taken = left.min(self.amounts[edge.place as usize]);
        if taken == 0 {
            return Ok(left);
        }
        self.amounts[edge.place as usize] -= taken;
        self.pending.push(Imbalance {
            node: network.end(edge),
            amount: taken,
            is_excess: edge.back,
        })?;
        Ok(left - taken)
    }

    /// Takes what is too much at a node from what these edges carry. It is missing at their other ends from then on.
    fn take_from(
        &mut self,
        network: &Network,
        at: Imbalance,
        places: &[u32],
    ) -> Result<(), AllocError>
        requires places { All (λ k. k < length network.now.graph.now.edges) places.now }
        requires flow { IsPreflow network.now.graph.now self.old }
        ensures { IsPreflow network.now.graph.now self.new }
    {
        let mut left = at.amount;
        for place in places {
            let edge = ResidualEdge {
                place: *place,
                back: at.is_excess,
            };
            left = self.take_at(network, edge, left)?;
        }
        Ok(())
    }

    /// Takes an excess back from the edges that enter its node, and a deficit from those that leave it. The source and
    /// the sink need no balance.
    fn balance(&mut self, network: &Network, at: Imbalance) -> Result<(), AllocError>
        requires node { at.node < network.now.graph.now.nodes }
        requires flow { IsPreflow network.now.graph.now self.old }
        ensures { IsPreflow network.now.graph.now self.new }
    {
        if at.node == network.source || at.node == network.sink {
            return Ok(());
        }
        let graph = network.graph;
        if at.is_excess {
            self.take_from(network, at, graph.entering(at.node))
        } else {
            self.take_from(network, at, graph.leaving(at.node))
        }
    }

    /// Takes back all that is pending, and what that brings.
    fn balance_all(&mut self, network: &Network) -> Result<(), AllocError>
        requires { IsPreflow network.now.graph.now self.old }
        ensures { IsPreflow network.now.graph.now self.new }
    {
        // Each step but those at edges lost makes some amount less, so there are few; but nothing rests on that.
        for _step in 0..u64::MAX {
            let Some(at) = self.pending.pop() else {
                return Ok(());
            };
            self.balance(network, at)?;
        }
        Ok(())
    }
}

/// What is left of the flow when the edges that aren't present are lost. The room is a table in which nothing is carried,
/// and is left so.
pub(crate) fn mend(
    alloc: Global,
    network: &Network,
    search: &mut AugmentingSearch,
    room: &mut Vec<u64>,
    listed: &[Amount],
) -> Result<Vec<Amount>, AllocError>
    requires known { All (λ a. a.edge < length network.now.graph.now.edges) listed.now }
    requires search { IsFlowSearch network.now.graph.now.nodes search.old }
    ensures known { IfOk result (λ left. All (λ a. a.edge < length network.now.graph.now.edges) left.items) }
    ensures search { IsFlowSearch network.now.graph.now.nodes search.new }
{
    let spare = mem::replace(room, Vec::new(alloc));
    let mut flow = Preflow::of(alloc, network, spare, listed)?;
    flow.replace_lost(network, search, listed)?;
    flow.balance_all(network)?;
    let left = drain(alloc, &mut flow.amounts, &flow.touched)?;
    *room = mem::replace(&mut flow.amounts, Vec::new(alloc));
    Ok(left)
}
