ghost use Rattle.std.specs.Prelude.{◌<◌};
ghost use Rattle.routes.specs.Routes.{routes_network};
ghost use Rattle.router.specs.Tables.{OwnHops, OwnRepairs};

use repairs::{Entry, precompute_link};
use routes::Routes;
use std::array;
use types::{MAX_NODES, NodeId};

/// The next hop of a node for each destination.
pub(crate) fn own_hops(routes: &Routes, me: NodeId) -> [Option<NodeId>; MAX_NODES]
    ensures { OwnHops (routes_network routes.now) me (routes_network routes.now).n result }
{
    array::from_fn(|d| routes.next_hop(NodeId(d as u8), me))
}

/// A row of repairs for each neighbour; the rows of other nodes stay unused.
pub(crate) fn own_repairs(routes: &Routes, me: NodeId) -> [Entry; MAX_NODES * MAX_NODES]
    ensures { OwnRepairs (routes_network routes.now) me (routes_network routes.now).n result }
{
    let mut table = [Entry::Unused; MAX_NODES * MAX_NODES];
    for f in 0..routes.nodes() {
        let neighbour = NodeId(f);
        if routes.link_cost(me, neighbour).is_some() {
            precompute_link(routes, me, neighbour, &mut table);
        }
    }
    table
}
