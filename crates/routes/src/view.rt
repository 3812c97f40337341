ghost use Rattle.std.specs.Prelude.{◌≡◌, ℕ, ◌<◌, length};
ghost use Rattle.theory.specs.Network.{joins};
ghost use Rattle.types.specs.NodeSets.{has};
ghost use Rattle.routes.specs.Dijkstra.{relaxed, AllBelow, IsNearest, RelaxesRow};

use crate::matrix::CostMatrix;
use crate::table::{CELLS, NEVER, row_of};
use types::{Change, LinkId, NodeId, NodeSet};

// Up to how many links are relaxed one by one.
const FEW: usize = 4;

/// A network as a change leaves it: the costs stay where they are. What changes is looked up in `lost` alone.
#[derive(Clone, Copy)]
pub(crate) struct View<'a> {
    costs: &'a CostMatrix,
    change: &'a Change,
}

impl<'a> View<'a> {
    ghost use Rattle.std.specs.Prelude.{◌≡◌, ℕ, ◌<◌, not, true, length, nat_lt, slice_index};
    ghost use Rattle.types.specs.Change.{changed};
    ghost use Rattle.types.specs.NodeSets.{has};
    ghost use Rattle.links.specs.Links.{IsNodeCount};
    ghost use Rattle.routes.specs.Costs.{CostRow};
    ghost use Rattle.routes.specs.Dijkstra.{AllBelow, LeastOver, Relaxes, RelaxesFor, Standing};
    ghost use Rattle.routes.specs.Distances.{DistanceRows, Filled};
    ghost use Rattle.routes.specs.Matrix.{matrix_network};
    ghost use Rattle.routes.specs.NextHops.{HopBy, HopRows, HopsBy};
    ghost use Rattle.routes.specs.View.{view_network};

    pub(crate) fn new(costs: &'a CostMatrix, change: &'a Change) -> View<'a>
        ensures before { matrix_network result.costs.now ≡ matrix_network costs.now }
        ensures network { view_network result ≡ changed change.now (matrix_network costs.now) }
        ensures nodes { (view_network result).n ≡ (matrix_network costs.now).n }
    {
        View { costs, change }
    }

    pub(crate) fn nodes(&self) -> u8
        ensures value { result ≡ (view_network self.now).n }
        ensures bounds { IsNodeCount result }
    {
        self.costs.nodes()
    }

    /// What a link costs that is there.
    fn cost(&self, a: NodeId, b: NodeId) -> u16
        requires { 0 < (view_network self.now).cost a b }
        ensures { result ≡ (view_network self.now).cost a b }
    {
        self.costs.cost_of(a, b)
    }

    /// The nodes to which a node has a link.
    pub(crate) fn neighbours(&self, a: NodeId) -> NodeSet
        requires { a < (view_network self.now).n }
        ensures { (b : ℕ) → has result b ≡ nat_lt 0 ((view_network self.now).cost a b) }
    {
        self.costs.neighbours(a).minus(self.lost(a))
    }

    /// Is a link still there after the change?
    pub(crate) fn keeps(&self, a: NodeId, b: NodeId) -> bool
        requires { 0 < (matrix_network self.now.costs.now).cost a b }
        ensures { result ≡ nat_lt 0 ((view_network self.now).cost a b) }
    {
        !self.lost(a).contains(b)
    }

    /// The nodes to which a loses its link.
    fn lost(&self, a: NodeId) -> NodeSet
        ensures { (b : ℕ) → 0 < (matrix_network self.now.costs.now).cost a b →
            has result b ≡ not (nat_lt 0 ((view_network self.now).cost a b)) }
    {
        match self.change {
            Change::Nothing => NodeSet::empty(),
            Change::LinkFails(link) => other_end(*link, a),
        }
    }

    /// The costs of the network after the change, in a matrix of its own.
    pub(crate) fn to_matrix(&self) -> CostMatrix
        ensures { matrix_network result ≡ view_network self.now }
    {
        let mut costs = [0; CELLS];
        for a in 0..self.nodes() {
            let a = NodeId(a);
            self.fill_costs(a, &mut costs[row_of(a, self.nodes())]);
        }
        CostMatrix::new(self.nodes(), costs)
    }

    /// Writes what the links of a node cost, 0 where there is none.
    fn fill_costs(&self, a: NodeId, row: &mut [u16])
        requires { (a < (view_network self.now).n) × (length row.old ≡ (view_network self.now).n) }
        ensures { CostRow (view_network self.now) a row.new }
    {
        row.fill(0);
        let mut rest = self.neighbours(a);
        while let Some(b) = rest.take_first() {
            row[b.index()] = self.cost(a, b);
        }
    }

    /// Fills row d of both tables with the distance of each node from d and its next hop for d.
    pub(crate) fn fill_rows(&self, dist: &mut [u32], hops: &mut [Option<NodeId>])
        requires { (length dist.old ≡ CELLS) × (length hops.old ≡ CELLS) }
        ensures near { DistanceRows (view_network self.now) (view_network self.now).n dist.new }
        ensures next { HopRows (view_network self.now) (view_network self.now).n hops.new }
    {
        let nodes = self.nodes();
        for d in 0..nodes {
            let d = NodeId(d);
            let row = &mut dist[row_of(d, nodes)];
            self.distances(d, row);
            self.next_hops(row, &mut hops[row_of(d, nodes)]);
        }
    }

    /// Writes the distance of each node from d, or `NEVER`, into `dist`.
    pub(crate) fn distances(&self, d: NodeId, dist: &mut [u32])
        requires { (d < (view_network self.now).n) × (length dist.old ≡ (view_network self.now).n) }
        ensures { Filled (view_network self.now) d dist.new }
    {
        dist.fill(NEVER);
        dist[d.index()] = 0;
        self.settle(NodeSet::below(self.nodes()), dist);
    }

    /// Dijkstra's algorithm: settles the nearest unsettled node, and relaxes its links to the others, until all are settled.
    pub(crate) fn settle(&self, unsettled: NodeSet, dist: &mut [u32])
        requires within { AllBelow (view_network self.now).n unsettled }
        requires size { length dist.old ≡ (view_network self.now).n }
        ensures { (d : ℕ) → Standing (view_network self.now) d unsettled dist.old →
            Filled (view_network self.now) d dist.new }
    {
        let mut unsettled = unsettled;
        while let Some(u) = nearest(unsettled, dist) {
            unsettled.remove(u);
            self.relax_from(u, unsettled, dist);
        }
    }

    /// Relaxes the links of a node that is settled, to the unsettled ones at least. Where they are many a row at once is
    /// quicker, since no turn waits for the one before; it takes in links to settled nodes, which are no nearer by them.
    fn relax_from(&self, u: NodeId, unsettled: NodeSet, dist: &mut [u32])
        requires node { u < (view_network self.now).n }
        requires size { length dist.old ≡ (view_network self.now).n }
        ensures { let here = slice_index dist.old u in
            RelaxesFor (view_network self.now) u here unsettled dist.old dist.new }
    {
        let others = self.neighbours(u).and(unsettled);
        if self.lost(u).is_empty() && others.iter().nth(FEW).is_some() {
            let here = dist[u.index()];
            relax_row(self.costs.row(u), here, dist);
        } else {
            self.relax(u, others, dist);
        }
    }

    /// Relaxes the links of a node to others: none of those is farther than by that link.
    fn relax(&self, u: NodeId, others: NodeSet, dist: &mut [u32])
        requires node { u < (view_network self.now).n }
        requires size { length dist.old ≡ (view_network self.now).n }
        requires others { (e : ℕ) → has others e ≡ true → 0 < (view_network self.now).cost u e }
        ensures { let here = slice_index dist.old u in
            Relaxes (view_network self.now) u here others dist.old dist.new }
    {
        let here = dist[u.index()];
        let mut rest = others;
        while let Some(e) = rest.take_first() {
            let there = &mut dist[e.index()];
            *there = by_link(self.cost(u, e), here, *there);
        }
    }

    /// The least distance of a node by its links to others, whose distances `dist` has; `NEVER` where there is none.
    pub(crate) fn least_over(&self, a: NodeId, others: NodeSet, dist: &[u32]) -> u32
        requires size { length dist.now ≡ (view_network self.now).n }
        requires others { (e : ℕ) → has others e ≡ true → 0 < (view_network self.now).cost a e }
        ensures { LeastOver (view_network self.now) a others dist.now result }
    {
        let mut least = NEVER;
        let mut rest = others;
        while let Some(e) = rest.take_first() {
            least = by_link(self.cost(a, e), dist[e.index()], least);
        }
        least
    }

    /// Writes the next hop of each node for d, where `dist` has the distances to d.
    fn next_hops(&self, dist: &[u32], hops: &mut [Option<NodeId>])
        requires dist { length dist.now ≡ (view_network self.now).n }
        requires hops { length hops.old ≡ (view_network self.now).n }
        ensures { HopsBy (view_network self.now) dist.now (view_network self.now).n hops.new }
    {
        for (a, hop) in hops.iter_mut().enumerate() {
            *hop = self.next_hop(NodeId(a as u8), dist);
        }
    }

    /// The lowest-numbered neighbour by which a node is as near as it can be.
    /// d itself has none, as no node is nearer, nor has a node at `NEVER`, as no link costs so much.
    pub(crate) fn next_hop(&self, a: NodeId, dist: &[u32]) -> Option<NodeId>
        requires { (a < (view_network self.now).n) × (length dist.now ≡ (view_network self.now).n) }
        ensures { HopBy (view_network self.now) dist.now a result }
    {
        let here = dist[a.index()];
        let mut found = None;
        let mut rest = self.neighbours(a);
        'nearest: while let Some(e) = rest.take_first() {
            let there = dist[e.index()];
            if there < here && here - there == u32::from(self.cost(a, e)) {
                found = Some(e);
                break 'nearest;
            }
        }
        found
    }
}

/// The node at the other end of a link from a, if a is one of its ends.
fn other_end(link: LinkId, a: NodeId) -> NodeSet
    ensures { (b : ℕ) → b < 64 → has result b ≡ joins link a b }
{
    if a == link.a {
        NodeSet::only(link.b)
    } else if a == link.b {
        NodeSet::only(link.a)
    } else {
        NodeSet::empty()
    }
}

/// Which of the nodes has the least distance, if any has one.
fn nearest(nodes: NodeSet, dist: &[u32]) -> Option<NodeId>
    requires { AllBelow (length dist.now) nodes }
    ensures { IsNearest nodes dist.now result }
{
    let mut best = NodeId(0);
    let mut least = NEVER;
    let mut rest = nodes;
    while let Some(u) = rest.take_first() {
        let there = dist[u.index()];
        if there < least {
            best = u;
            least = there;
        }
    }
    if least == NEVER { None } else { Some(best) }
}

/// Relaxes the links of a node at the distance here, by a row of what they cost.
fn relax_row(row: &[u16], here: u32, dist: &mut [u32])
    requires { length row.now ≡ length dist.old }
    ensures { RelaxesRow row.now here dist.old dist.new }
{
    for (e, cost) in row.iter().enumerate() {
        dist[e] = by_link(*cost, here, dist[e]);
    }
}

/// The lesser of the distance there and that by a link, if there is one.
fn by_link(cost: u16, here: u32, there: u32) -> u32
    ensures { result ≡ relaxed cost here there }
{
    match cost {
        0 => there,
        cost => there.min(here.saturating_add(u32::from(cost))),
    }
}
