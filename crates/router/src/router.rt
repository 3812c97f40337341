ghost use Rattle.std.specs.Prelude.{◌<◌};
ghost use Rattle.router.specs.Tables.{IsUnderWay, OwnRepairs};
ghost use Rattle.routes.specs.Routes.{routes_network};

use crate::tables::own_repairs;
use crate::transition::Transition;
use links::Topology;
use repairs::Entry;
use routes::Routes;
use std::alloc::Global;
use types::{LinkId, MAX_NODES, NodeId, Switched};

pub mod forward;
pub mod hear;
pub mod switch;

/// A router: its node, the routes of its list of links, and its repairs in rows of 64, a row for each neighbour. While a change
/// is under way there is a transition. Switched messages that came before it knew of the failure, and the links that it has
/// taken out, are kept in the order in which they came.
#[derive(Drop)]
pub struct Router {
    me: NodeId,
    routes: Routes,
    repairs: [Entry; MAX_NODES * MAX_NODES],
    transition: Option<Transition>,
    early: Vec<Switched>,
    removed: Vec<LinkId>,
    ghost within: { me < (routes_network routes).n },
    ghost repaired: { OwnRepairs (routes_network routes) me (routes_network routes).n repairs },
    ghost under_way: { IsUnderWay (routes_network routes) me transition },
}

impl Router {
    ghost use Rattle.std.specs.Prelude.{◌≡◌, ◌<◌, []};
    ghost use Rattle.links.specs.Links.{IsNodeCount};
    ghost use Rattle.links.specs.Topology.{network};
    ghost use Rattle.protocol.specs.Packet.{known_down};
    ghost use Rattle.protocol.specs.Router.{entry, has_link, idle, known_failure, pending_in, switched_in};
    ghost use Rattle.protocol.specs.Switching.{all_below, mark, may};
    ghost use Rattle.router.specs.Model.{model};
    ghost use Rattle.router.specs.Uses.{uses_failed};
    ghost use Rattle.routes.specs.Costs.{link_cost};
    ghost use Rattle.theory.specs.NextHop.{next_hop, uses};

    /// The router at a node of a topology, which knows of no failure.
    pub fn new(heap: Global, topology: &Topology, me: NodeId) -> Router
        requires { me < (network topology.now).n }
        ensures { model result ≡ idle (network topology.now) [] me }
    {
        let routes = Routes::of(topology);
        let repairs = own_repairs(&routes, me);
        Router {
            me,
            routes,
            repairs,
            transition: None,
            early: Vec::new(heap),
            removed: Vec::new(heap),
        }
    }

    /// Where it is.
    pub fn node(&self) -> NodeId
        ensures { result ≡ (model self.now).me }
    {
        self.me
    }

    /// How many nodes its network has: 1 to 64.
    pub fn nodes(&self) -> u8
        ensures value { result ≡ (model self.now).links.n }
        ensures bounds { IsNodeCount result }
    {
        self.routes.nodes()
    }

    /// What the link between a and b costs, if its list has one.
    pub fn link_cost(&self, a: NodeId, b: NodeId) -> Option<u16>
        ensures { result ≡ link_cost (model self.now).links a b }
    {
        self.routes.link_cost(a, b)
    }

    /// Is the link in its list?
    fn has_link(&self, link: LinkId) -> bool
        ensures { result ≡ has_link (model self.now).links link }
    {
        self.link_cost(link.a, link.b).is_some()
    }

    /// The next hop of any node for d by its list. The one that it uses itself may be newer: that is `next_hop`.
    pub fn hop_of(&self, d: NodeId, a: NodeId) -> Option<NodeId>
        ensures { result ≡ next_hop (model self.now).links d a }
    {
        self.routes.next_hop(d, a)
    }

    /// Does the path of any node to d by its list use the link? The link may be down, or not in the list.
    pub fn uses(&self, link: LinkId, d: NodeId, a: NodeId) -> bool
        ensures { result ≡ uses (model self.now).links link d a }
    {
        self.routes.uses(link, d, a)
    }

    /// The link that it knows to be down.
    pub fn failure(&self) -> Option<LinkId>
        ensures { result ≡ known_failure (model self.now) }
    {
        self.transition.as_ref().map(|transition| transition.link)
    }

    /// Does it know the link between a and b to be down?
    pub fn knows_down(&self, a: NodeId, b: NodeId) -> bool
        ensures { result ≡ known_down (model self.now) a b }
    {
        self.failure().is_some_and(|link| link.joins(a, b))
    }

    /// The next hop that it uses for an aim: its FIB entry.
    pub fn next_hop(&self, aim: NodeId) -> Option<NodeId>
        ensures { result ≡ entry (model self.now) aim }
    {
        if !aim.is_below(self.nodes()) {
            return None;
        }
        match &self.transition {
            Some(transition) if transition.has_switched(aim) => transition.hops[aim.index()],
            _ => self.routes.next_hop(aim, self.me),
        }
    }

    /// Has it switched for a destination, since it knows of the failure?
    pub fn has_switched(&self, destination: NodeId) -> bool
        ensures { result ≡ switched_in (model self.now).transition destination }
    {
        match &self.transition {
            Some(transition) => transition.has_switched(destination),
            None => false,
        }
    }

    /// Has it switched for all destinations once it switches for this one? With no failure known it has for none yet.
    pub fn is_last(&self, destination: NodeId) -> bool
        ensures { let s = model self.now in
            result ≡ all_below s.links.n (mark destination (switched_in s.transition)) }
    {
        (0..self.nodes()).all(|d| NodeId(d) == destination || self.has_switched(NodeId(d)))
    }

    /// Does it wait for a neighbour to switch for a destination?
    pub fn waits_for(&self, destination: NodeId, neighbour: NodeId) -> bool
        ensures { result ≡ pending_in (model self.now).transition destination neighbour }
    {
        match &self.transition {
            Some(transition) => transition.waits_for(destination, neighbour),
            None => false,
        }
    }

    /// May it switch for a destination?
    pub fn may_switch(&self, destination: NodeId) -> bool
        ensures { result ≡ may (model self.now) destination }
    {
        match &self.transition {
            Some(transition) => {
                destination.is_below(self.nodes())
                    && !transition.has_switched(destination)
                    && transition.pending[destination.index()].is_empty()
            }
            None => false,
        }
    }

    /// Does its path to a destination use the link that it knows to be down?
    pub fn uses_failed(&self, destination: NodeId) -> bool
        ensures { result ≡ uses_failed (model self.now) destination }
    {
        self.failure()
            .is_some_and(|link| self.uses(link, destination, self.me))
    }
}
