ghost use Rattle.routes.specs.Distances.{DistanceRows};
ghost use Rattle.routes.specs.Matrix.{matrix_network};
ghost use Rattle.routes.specs.NextHops.{HopRows};

use crate::matrix::CostMatrix;
use crate::table::{CELLS, NEVER, cell, row_of};
use crate::view::View;
use links::Topology;
use std::alloc::{AllocError, Global};
use types::{Change, LinkId, MAX_NODES, NodeId, NodeSet};

/// All distances and next hops of a network, in tables: row d has those of each node for d.
#[derive(Drop)]
pub struct Routes {
    costs: CostMatrix,
    distances: [u32; CELLS],
    hops: [Option<NodeId>; CELLS],
    ghost near: { DistanceRows (matrix_network costs) costs.nodes distances },
    ghost next: { HopRows (matrix_network costs) costs.nodes hops },
}

/// The nodes that send packets for a destination: those that a change cuts off from their next hop, and the others by
/// next hop.
#[derive(Clone, Copy)]
struct Senders {
    cut: NodeSet,
    to: [NodeSet; MAX_NODES],
}

impl Routes {
    ghost use Rattle.std.specs.Prelude.{◌≡◌, ℕ, ◌+◌, ◌*◌, ◌<◌, ◌≤◌, ◌⊎◌, ◌++◌, length, IfOk, IfSome, None};
    ghost use Rattle.theory.specs.Distance.{distance};
    ghost use Rattle.theory.specs.NextHop.{next_hop, path, uses};
    ghost use Rattle.types.specs.Change.{changed};
    ghost use Rattle.links.specs.Links.{IsNodeCount};
    ghost use Rattle.links.specs.Topology.{network};
    ghost use Rattle.routes.specs.Costs.{link_cost};
    ghost use Rattle.routes.specs.Distances.{DistanceRows, Filled};
    ghost use Rattle.routes.specs.Matrix.{matrix_network};
    ghost use Rattle.routes.specs.NextHops.{HopRow, HopRows};
    ghost use Rattle.routes.specs.Routes.{routes_network};
    ghost use Rattle.routes.specs.Touched.{Sorted, Touched};
    ghost use Rattle.routes.specs.View.{view_network};

    /// The routes of a topology.
    pub fn of(topology: &Topology) -> Routes
        ensures { routes_network result ≡ network topology.now }
    {
        Routes::of_costs(CostMatrix::of(topology))
    }

    /// The routes of a network by what its links cost.
    pub fn of_costs(costs: CostMatrix) -> Routes
        ensures { routes_network result ≡ matrix_network costs }
    {
        let mut distances = [NEVER; CELLS];
        let mut hops = [None; CELLS];
        View::new(&costs, &Change::Nothing).fill_rows(&mut distances, &mut hops);
        Routes {
            costs,
            distances,
            hops,
        }
    }

    /// What the links of the network cost.
    pub fn costs(&self) -> &CostMatrix
        ensures { matrix_network result.now ≡ routes_network self.now }
    {
        &self.costs
    }

    /// How many nodes the network has: 1 to 64.
    pub fn nodes(&self) -> u8
        ensures value { result ≡ (routes_network self.now).n }
        ensures bounds { IsNodeCount result }
    {
        self.costs.nodes()
    }

    /// What the link between a and b costs, if there is one.
    pub fn link_cost(&self, a: NodeId, b: NodeId) -> Option<u16>
        ensures { result ≡ link_cost (routes_network self.now) a b }
    {
        self.costs.cost(a, b)
    }

    /// The distance of a from d, if both are nodes and there is a path.
    pub fn distance(&self, d: NodeId, a: NodeId) -> Option<u32>
        ensures inside { let z = routes_network self.now in
            (d < z.n) × (a < z.n) → result ≡ distance z d a }
        ensures outside { let z = routes_network self.now in
            (z.n ≤ d) ⊎ (z.n ≤ a) → result ≡ None }
        ensures bound { IfSome result (λ c. c ≤ 63 * 65535) }
    {
        match self.distances[self.costs.place(d, a)?] {
            NEVER => None,
            c => Some(c),
        }
    }

    /// The next hop of a for d.
    pub fn next_hop(&self, d: NodeId, a: NodeId) -> Option<NodeId>
        ensures { result ≡ next_hop (routes_network self.now) d a }
    {
        self.hops[self.costs.place(d, a)?]
    }

    /// The nodes after a on the path by next hops from a to d.
    pub fn path(&self, alloc: Global, d: NodeId, a: NodeId) -> Result<Vec<NodeId>, AllocError>
        ensures { IfOk result (λ nodes. nodes.items ≡ path (routes_network self.now) d a) }
    {
        self.follow(d, a, Vec::new(alloc))
    }

    /// Puts them behind the nodes that are there. Each step leads nearer to d.
    fn follow(
        &self,
        d: NodeId,
        a: NodeId,
        mut nodes: Vec<NodeId>,
    ) -> Result<Vec<NodeId>, AllocError>
        ensures { let more = path (routes_network self.now) d a in
            IfOk result (λ all. all.items ≡ nodes.items ++ more) }
    {
        let Some(e) = self.next_hop(d, a) else {
            return Ok(nodes);
        };
        nodes.push(e)?;
        self.follow(d, e, nodes)
    }

    /// Does the path by next hops from a to d use the link? Each step leads nearer to d.
    pub fn uses(&self, link: LinkId, d: NodeId, a: NodeId) -> bool
        ensures { result ≡ uses (routes_network self.now) link d a }
    {
        match self.next_hop(d, a) {
            Some(e) => link.joins(a, e) || self.uses(link, d, e),
            None => false,
        }
    }

    /// The routes of the network that a change leads to. Only what the change touches is computed anew.
    pub fn changed(&self, change: Change) -> Routes
        ensures { routes_network result ≡ changed change (routes_network self.now) }
    {
        let costs = self.after(&change).to_matrix();
        let mut distances = [NEVER; CELLS];
        let mut hops = [None; CELLS];
        self.fill_rows(&change, &mut distances, &mut hops);
        Routes {
            costs,
            distances,
            hops,
        }
    }

    /// Writes the distance of each node from d after a change, or `NEVER`, into `dist`.
    pub fn distances_after(&self, change: Change, d: NodeId, dist: &mut [u32])
        requires node { d < (routes_network self.now).n }
        requires size { length dist.old ≡ (routes_network self.now).n }
        ensures { Filled (changed change (routes_network self.now)) d dist.new }
    {
        self.settle(&change, d, self.touched(&change, d), dist);
    }

    /// The next hop of a for d after a change, where `dist` has the distances to d then.
    pub fn next_hop_after(&self, change: Change, a: NodeId, dist: &[u32]) -> Option<NodeId>
        requires node { a < (routes_network self.now).n }
        requires size { length dist.now ≡ (routes_network self.now).n }
        ensures { (d : ℕ) → let y = changed change (routes_network self.now) in
            Filled y d dist.now → result ≡ next_hop y d a }
    {
        self.after(&change).next_hop(a, dist)
    }

    /// The network after a change.
    fn after<'a>(&'a self, change: &'a Change) -> View<'a>
        ensures before { matrix_network result.costs.now ≡ routes_network self.now }
        ensures network { view_network result ≡ changed change.now (routes_network self.now) }
        ensures nodes { (view_network result).n ≡ (routes_network self.now).n }
    {
        View::new(&self.costs, change)
    }

    /// Fills row d of both tables with the distance of each node from d after a change and its next hop for d.
    fn fill_rows(&self, change: &Change, dist: &mut [u32], hops: &mut [Option<NodeId>])
        requires { (length dist.old ≡ CELLS) × (length hops.old ≡ CELLS) }
        ensures near { let z = routes_network self.now in
            DistanceRows (changed change.now z) z.n dist.new }
        ensures next { let z = routes_network self.now in
            HopRows (changed change.now z) z.n hops.new }
    {
        for d in 0..self.nodes() {
            let d = NodeId(d);
            let row = &mut dist[row_of(d, self.nodes())];
            self.fill_row(change, d, row, &mut hops[row_of(d, self.nodes())]);
        }
    }

    /// Fills a row of each: copies what was there before the change, and computes anew what the change touches.
    fn fill_row(&self, change: &Change, d: NodeId, dist: &mut [u32], hops: &mut [Option<NodeId>])
        requires node { d < (routes_network self.now).n }
        requires dist { length dist.old ≡ (routes_network self.now).n }
        requires hops { length hops.old ≡ (routes_network self.now).n }
        ensures near { Filled (changed change.now (routes_network self.now)) d dist.new }
        ensures next { HopRow (changed change.now (routes_network self.now)) d hops.new }
    {
        hops.copy_from_slice(self.hops_for(d));
        let touched = self.touched(change, d);
        self.settle(change, d, touched, dist);
        let view = self.after(change);
        let mut rest = touched;
        while let Some(a) = rest.take_first() {
            hops[a.index()] = view.next_hop(a, dist);
        }
    }

    /// Writes the distances from d after a change that touches just these nodes: each begins with the least over its links
    /// to nodes that it doesn't touch, and then they are settled.
    fn settle(&self, change: &Change, d: NodeId, touched: NodeSet, dist: &mut [u32])
        requires node { d < (routes_network self.now).n }
        requires size { length dist.old ≡ (routes_network self.now).n }
        requires touched { let z = routes_network self.now in
            Touched z (changed change.now z) d touched }
        ensures { Filled (changed change.now (routes_network self.now)) d dist.new }
    {
        dist.copy_from_slice(self.distances_from(d));
        let view = self.after(change);
        let mut rest = touched;
        while let Some(a) = rest.take_first() {
            dist[a.index()] = view.least_over(a, view.neighbours(a).minus(touched), dist);
        }
        view.settle(touched, dist);
    }

    /// The nodes whose path to d breaks: those that are cut off from their next hop, and those that send to one of these.
    fn touched(&self, change: &Change, d: NodeId) -> NodeSet
        requires { d < (routes_network self.now).n }
        ensures { let z = routes_network self.now in Touched z (changed change.now z) d result }
    {
        let senders = self.senders(change, d);
        let mut touched = NodeSet::empty();
        let mut rest = senders.cut;
        while let Some(a) = rest.take_first() {
            touched.insert(a);
            rest = rest.or(senders.to[a.index()].minus(touched));
        }
        touched
    }

    /// How the nodes send packets for d.
    fn senders(&self, change: &Change, d: NodeId) -> Senders
        requires { d < (routes_network self.now).n }
        ensures { let z = routes_network self.now in
            Sorted z (changed change.now z) d z.n result }
    {
        let view = self.after(change);
        let mut senders = Senders {
            cut: NodeSet::empty(),
            to: [NodeSet::empty(); MAX_NODES],
        };
        for a in 0..self.nodes() {
            let a = NodeId(a);
            match self.hop(d, a) {
                Some(e) if view.keeps(a, e) => senders.to[e.index()].insert(a),
                Some(_) => senders.cut.insert(a),
                None => {}
            }
        }
        senders
    }

    /// The next hop of a node for another, both of the network.
    fn hop(&self, d: NodeId, a: NodeId) -> Option<NodeId>
        requires { (d < (routes_network self.now).n) × (a < (routes_network self.now).n) }
        ensures { result ≡ next_hop (routes_network self.now) d a }
    {
        self.hops[cell(d, a)]
    }

    /// The distances from d as they are.
    fn distances_from(&self, d: NodeId) -> &[u32]
        requires { d < (routes_network self.now).n }
        ensures { Filled (routes_network self.now) d result.now }
    {
        &self.distances[row_of(d, self.nodes())]
    }

    /// The next hops for d as they are.
    fn hops_for(&self, d: NodeId) -> &[Option<NodeId>]
        requires { d < (routes_network self.now).n }
        ensures size { length result.now ≡ (routes_network self.now).n }
        ensures row { HopRow (routes_network self.now) d result.now }
    {
        let all = &self.hops[..];
        &all[row_of(d, self.nodes())]
    }
}
