ghost use Rattle.std.specs.Prelude.{◌≡◌, ◌+◌, ◌*◌, ◌<◌, ◌≤◌, length};
ghost use Rattle.network.specs.FlightState.{hops_left};
ghost use Rattle.router.specs.Model.{model};

use crate::send_request::SendRequest;
use router::{Outcome, Router};
use std::alloc::{AllocError, Global};
use types::{DropReason, NodeId, Packet};

/// Whether a packet is under way, or how it has ended.
#[derive(Clone, Copy, PartialEq, Eq, Debug)]
pub enum FlightState {
    UnderWay(Packet),
    Delivered,
    Dropped(DropReason),
}

/// A packet that is played: the nodes at which it has been, the last of which is where it is; the costs of the links that it
/// has crossed, in all; and its state.
#[derive(Drop)]
pub struct Flight {
    path: Vec<NodeId>,
    spent: u32,
    state: FlightState,
    ghost begun: { 0 < length path.items },
    ghost bounded: { spent + hops_left state * 65535 ≤ 65535 * 65535 },
}

impl Flight {
    ghost use Rattle.std.specs.Prelude.{◌++◌, [], ◌∷◌, IfOk, OnErr, OnOk};
    ghost use Rattle.network.specs.Flight.{flight_in, flight_of, next_nodes, node_in, packet_of_request, path_of, spent_in, SameFlight};
    ghost use Rattle.protocol.specs.Playing.{is_under_way};
    ghost use Rattle.protocol.specs.System.{moved, UnderWay};

    /// A new packet that waits at its start.
    pub fn new(heap: Global, request: SendRequest) -> Result<Flight, AllocError>
        ensures waits { IfOk result (λ f. flight_of f ≡ UnderWay request.start 0 (packet_of_request request)) }
        ensures path { IfOk result (λ f. path_of f ≡ request.start ∷ []) }
    {
        let mut path = Vec::new(heap);
        path.push(request.start)?;
        Ok(Flight {
            path,
            spent: 0,
            state: FlightState::UnderWay(Packet::new(request.destination, request.segments)),
        })
    }

    /// The nodes at which it has been, its start first.
    pub fn path(&self) -> &[NodeId]
        ensures { result.now ≡ path_of self.now }
    {
        self.path.as_slice()
    }

    /// Where it is.
    pub fn at(&self) -> NodeId
        ensures { result ≡ node_in (flight_of self.now) }
    {
        self.path[self.path.len() - 1]
    }

    /// The costs of the links that it has crossed, in all.
    pub fn spent(&self) -> u32
        ensures { result ≡ spent_in (flight_of self.now) }
    {
        self.spent
    }

    pub fn state(&self) -> FlightState
        ensures { flight_in result (node_in (flight_of self.now)) (spent_in (flight_of self.now)) ≡ flight_of self.now }
    {
        self.state
    }

    pub fn is_under_way(&self) -> bool
        ensures { result ≡ is_under_way (flight_of self.now) }
    {
        matches!(self.state, FlightState::UnderWay(_))
    }

    /// It is handled once, by the router where it is; nothing changes where it is not under way.
    pub fn hop(&mut self, router: &Router) -> Result<(), AllocError>
        ensures moves { OnOk result (flight_of self.new ≡ moved (λ _. model router.now) (flight_of self.old)) }
        ensures path { OnOk result (path_of self.new ≡
            path_of self.old ++ next_nodes (model router.now) (flight_of self.old)) }
        ensures memory { OnErr result (SameFlight self.old self.new) }
    {
        let FlightState::UnderWay(packet) = self.state else {
            return Ok(());
        };
        match router.forward(packet) {
            Outcome::Delivered => self.state = FlightState::Delivered,
            Outcome::Dropped(reason) => self.state = FlightState::Dropped(reason),
            Outcome::Sent { to, packet } => {
                let cost = link_cost(router, self.at(), to);
                self.path.push(to)?;
                self.spent += u32::from(cost);
                self.state = FlightState::UnderWay(packet);
            }
        }
        Ok(())
    }
}

/// What the link between two nodes costs; 0 where there is none.
fn link_cost(router: &Router, from: NodeId, to: NodeId) -> u16
    ensures { result ≡ (model router.now).links.cost from to }
{
    router.link_cost(from, to).unwrap_or(0)
}
