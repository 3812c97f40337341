ghost use Rattle.std.specs.Prelude.{◌≡◌, ℕ, ◌+◌, ◌*◌, ◌<◌, ◌≤◌, ◌&&◌, true, nat_lt, slice_index};
ghost use Rattle.theory.specs.Network.{Lawful, Limited};
ghost use Rattle.types.specs.NodeSets.{has};
ghost use Rattle.links.specs.Links.{network_of, rising, IsNodeCount};
ghost use Rattle.routes.specs.Costs.{network_in, put};
ghost use Rattle.routes.specs.Neighbours.{LinkedEach};

use crate::table::{CELLS, cell, row_of};
use crate::view::View;
use links::Topology;
use types::{Change, Link, MAX_NODES, NodeId, NodeSet};

/// What the links of a network cost, in a table with a row for each node, and the neighbours of each node.
#[derive(Drop)]
pub struct CostMatrix {
    nodes: u8,
    // 0 where there is no link
    costs: [u16; CELLS],
    neighbours: [NodeSet; MAX_NODES],
    ghost few: { IsNodeCount nodes },
    ghost lawful: { Lawful (network_in nodes costs) },
    ghost limited: { Limited (network_in nodes costs) },
    ghost linked: { LinkedEach nodes costs neighbours },
}

impl CostMatrix {
    ghost use Rattle.std.specs.Prelude.{◌≡◌, ℕ, ◌+◌, ◌*◌, ◌<◌, ◌≤◌, ◌⊎◌, ◌↔◌, IsTrue, MatchOption, length, None, nat_lt, ◌≢◌};
    ghost use Rattle.theory.specs.Network.{Lawful, Limited};
    ghost use Rattle.theory.specs.NextHop.{next_hop};
    ghost use Rattle.types.specs.Change.{changed};
    ghost use Rattle.types.specs.NodeSets.{has};
    ghost use Rattle.links.specs.Links.{IsNodeCount};
    ghost use Rattle.links.specs.Topology.{network};
    ghost use Rattle.routes.specs.Costs.{link_cost, network_in, CostRow};
    ghost use Rattle.routes.specs.Distances.{Filled};
    ghost use Rattle.routes.specs.Matrix.{matrix_network};

    /// What the links of a topology cost.
    pub fn of(topology: &Topology) -> CostMatrix
        ensures { matrix_network result ≡ network topology.now }
    {
        let nodes = topology.nodes();
        CostMatrix::new(nodes, costs_of(nodes, topology.links()))
    }

    /// The matrix of a table of costs, 0 where there is no link.
    pub(crate) fn new(nodes: u8, costs: [u16; CELLS]) -> CostMatrix
        requires few { IsNodeCount nodes }
        requires lawful { Lawful (network_in nodes costs) }
        requires limited { Limited (network_in nodes costs) }
        ensures { matrix_network result ≡ network_in nodes costs }
    {
        let neighbours = neighbours_by(nodes, &costs);
        CostMatrix {
            nodes,
            costs,
            neighbours,
        }
    }

    /// How many nodes there are: 1 to 64.
    pub fn nodes(&self) -> u8
        ensures value { result ≡ (matrix_network self.now).n }
        ensures bounds { IsNodeCount result }
    {
        self.nodes
    }

    /// What the link between a and b costs, if there is one.
    pub fn cost(&self, a: NodeId, b: NodeId) -> Option<u16>
        ensures { result ≡ link_cost (matrix_network self.now) a b }
    {
        match self.costs[self.place(a, b)?] {
            0 => None,
            cost => Some(cost),
        }
    }

    /// The costs of the network that a change leads to.
    pub fn changed(&self, change: Change) -> CostMatrix
        ensures { matrix_network result ≡ changed change (matrix_network self.now) }
    {
        View::new(self, &change).to_matrix()
    }

    /// Writes the distance of each node from d, or `NEVER`, into `dist`.
    pub fn distances(&self, d: NodeId, dist: &mut [u32])
        requires node { d < (matrix_network self.now).n }
        requires size { length dist.old ≡ (matrix_network self.now).n }
        ensures { Filled (matrix_network self.now) d dist.new }
    {
        View::new(self, &Change::Nothing).distances(d, dist);
    }

    /// The next hop of a for d, where `dist` has the distances to d; none where it has another length than n.
    pub fn next_hop(&self, a: NodeId, dist: &[u32]) -> Option<NodeId>
        ensures filled { (d : ℕ) → Filled (matrix_network self.now) d dist.now →
            result ≡ next_hop (matrix_network self.now) d a }
        ensures unfit { (length dist.now ≢ (matrix_network self.now).n) → result ≡ None }
    {
        if dist.len() != self.nodes as usize || !self.has(a) {
            return None;
        }
        View::new(self, &Change::Nothing).next_hop(a, dist)
    }

    /// Is it one of the nodes?
    fn has(&self, a: NodeId) -> bool
        ensures { IsTrue result ↔ a < self.now.nodes }
    {
        a.is_below(self.nodes)
    }

    /// The cell of row a and column b, if both are nodes.
    pub(crate) fn place(&self, a: NodeId, b: NodeId) -> Option<usize>
        ensures { let n = (matrix_network self.now).n in
            MatchOption result ((n ≤ a) ⊎ (n ≤ b)) (λ i. (a < n) × (b < n) × (i ≡ a * 64 + b)) }
    {
        (self.has(a) && self.has(b)).then(|| cell(a, b))
    }

    /// What the link between two nodes costs, 0 where there is none.
    pub(crate) fn cost_of(&self, a: NodeId, b: NodeId) -> u16
        requires { (a < (matrix_network self.now).n) × (b < (matrix_network self.now).n) }
        ensures { result ≡ (matrix_network self.now).cost a b }
    {
        self.costs[cell(a, b)]
    }

    /// What the links of a node cost, node by node, 0 where there is none.
    pub(crate) fn row(&self, a: NodeId) -> &[u16]
        requires { a < (matrix_network self.now).n }
        ensures { CostRow (matrix_network self.now) a result.now }
    {
        &self.costs[row_of(a, self.nodes)]
    }

    /// The nodes to which a node has a link.
    pub(crate) fn neighbours(&self, a: NodeId) -> NodeSet
        requires { a < (matrix_network self.now).n }
        ensures { (b : ℕ) → has result b ≡ nat_lt 0 ((matrix_network self.now).cost a b) }
    {
        self.neighbours[a.index()]
    }
}

/// The table of a list of links, written from the last link to the first.
fn costs_of(nodes: u8, links: &[Link]) -> [u16; CELLS]
    requires { (nodes ≤ 64) × (rising nodes links.now ≡ true) }
    ensures { network_in nodes result ≡ network_of nodes links.now }
{
    let mut costs = [0; CELLS];
    for link in links.iter().rev() {
        put(&mut costs, link.a, link.b, link.cost);
    }
    costs
}

/// Writes what the link between a and b costs, both ways.
fn put(costs: &mut [u16; CELLS], a: NodeId, b: NodeId, cost: u16)
    requires { (a < 64) × (b < 64) }
    ensures { costs.new ≡ put a b cost costs.old }
{
    costs[cell(a, b)] = cost;
    costs[cell(b, a)] = cost;
}

/// The neighbours of each node.
fn neighbours_by(nodes: u8, costs: &[u16; CELLS]) -> [NodeSet; MAX_NODES]
    requires { nodes ≤ 64 }
    ensures { LinkedEach nodes costs.now result }
{
    let mut sets = [NodeSet::empty(); MAX_NODES];
    for a in 0..nodes {
        sets[a as usize] = linked(nodes, costs, NodeId(a));
    }
    sets
}

/// The nodes to which a node has a link.
fn linked(nodes: u8, costs: &[u16; CELLS], a: NodeId) -> NodeSet
    requires { (nodes ≤ 64) × (a < 64) }
    ensures { (b : ℕ) →
        has result b ≡ (nat_lt b nodes && nat_lt 0 (slice_index costs.now (a * 64 + b))) }
{
    let mut set = NodeSet::empty();
    for b in 0..nodes {
        let b = NodeId(b);
        if costs[cell(a, b)] > 0 {
            set.insert(b);
        }
    }
    set
}
