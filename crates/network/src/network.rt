ghost use Rattle.std.specs.Prelude.{◌≡◌, ℕ, ◌+◌, ◌^◌, ◌<◌, false, true, [], IfOk, OnOk, length};
ghost use Rattle.links.specs.Links.{IsNodeCount};
ghost use Rattle.links.specs.Topology.{network};
ghost use Rattle.network.specs.Arrival.{arrival_in};
ghost use Rattle.network.specs.Errors.{OnMemory, UnlessMemory};
ghost use Rattle.network.specs.Places.{router_at, PacketsInPlace, RoutersInPlace};
ghost use Rattle.protocol.specs.Router.{idle};

use crate::arrival::Arrival;
use crate::flight::Flight;
use links::Topology;
use router::{Report, Router, RouterError};
use std::alloc::{AllocError, Global};
use types::{LinkId, Message, NodeId, Refusal, Sent};

pub mod packets;

/// A whole network: its routers by their nodes; every message that was sent, the oldest first; and the packets by their
/// numbers. How far a message is stands in a list of its own, since routers put messages behind a list of messages; one that
/// has no entry there has not arrived yet.
#[derive(Drop)]
pub struct Network {
    routers: Vec<Router>,
    said: Vec<Sent>,
    arrivals: Vec<Arrival>,
    flights: Vec<Flight>,
    ghost count: { IsNodeCount (length routers.items) },
    ghost routers_in_place: { RoutersInPlace routers.items },
    ghost packets_in_place: { PacketsInPlace routers.items flights.items },
}

impl Network {
    ghost use Rattle.std.specs.Prelude.{◌⊎◌, ◌≢◌, ◌↔◌, IfNone, IfSome, IsNone, IsSome, OnErr};
    ghost use Rattle.network.specs.Arrival.{has_come, is_over};
    ghost use Rattle.network.specs.Errors.{IfRefused};
    ghost use Rattle.network.specs.Events.{is_message_under_way, reply_to, untouched_switches, Arrives, Becomes, BothEndsAccept, IsAccepted, OneEndRefuses, OnlyTouched, Unchanged};
    ghost use Rattle.network.specs.Model.{begun, nodes_in, system};
    ghost use Rattle.protocol.specs.Failed.{Calm};
    ghost use Rattle.protocol.specs.Hearing.{hear};
    ghost use Rattle.protocol.specs.Router.{Refused};
    ghost use Rattle.protocol.specs.System.{fails, go_on, notices, run, step, Switch};
    ghost use Rattle.router.specs.Model.{model};
    ghost use Rattle.router.specs.Replies.{Judged};
    ghost use Rattle.router.specs.Uses.{uses_failed};

    /// A router for each node of a topology. No failure is known, and no message or packet is under way.
    pub fn new(heap: Global, topology: &Topology) -> Result<Network, AllocError>
        ensures system { IfOk result (λ net. system net ≡ begun (network topology.now)) }
        ensures nodes { IfOk result (λ net. nodes_in net ≡ (network topology.now).n) }
        ensures calm { IfOk result (λ net. Calm (network topology.now) (system net)) }
    {
        let routers = all_routers(heap, topology)?;
        Ok(Network {
            routers,
            said: Vec::new(heap),
            arrivals: Vec::new(heap),
            flights: Vec::new(heap),
        })
    }

    /// How many nodes it has: 1 to 64.
    pub fn nodes(&self) -> u8
        ensures value { result ≡ nodes_in self.now }
        ensures bounds { IsNodeCount result }
    {
        self.routers.len() as u8
    }

    /// The router at a node.
    pub fn router(&self, node: NodeId) -> Option<&Router>
        ensures some { IsSome result ↔ (node < nodes_in self.now) }
        ensures value { IfSome result (λ r. model r.now ≡ (system self.now).routers node) }
    {
        self.routers.get(node.index())
    }

    /// All messages that were ever sent, the oldest first.
    pub fn messages(&self) -> &[Sent]
        ensures { result.now ≡ (system self.now).said }
    {
        self.said.as_slice()
    }

    /// Was the message with this number, which counts from 0, sent, and may it still arrive?
    pub fn is_message_under_way(&self, number: usize) -> bool
        ensures { result ≡ is_message_under_way self.now number }
    {
        number < self.said.len() && self.arrival(number) != Arrival::Over
    }

    /// How far a message is.
    fn arrival(&self, number: usize) -> Arrival
        ensures { result ≡ arrival_in self.now.arrivals.items number }
    {
        self.arrivals
            .get(number)
            .copied()
            .unwrap_or(Arrival::NotYet)
    }

    /// A link fails, and both its ends notice. Where one of them refuses that, neither changes; where memory is wanting, the
    /// first may have noticed.
    pub fn fail(&mut self, link: LinkId) -> Result<(), RouterError>
        requires { link.a ≢ link.b }
        ensures fails { OnOk result (Becomes self.old self.new (fails link (system self.old))) }
        ensures accepted { OnOk result (BothEndsAccept link (system self.old)) }
        ensures refused { IfRefused result (λ f. OneEndRefuses f link (system self.old)) }
        ensures unchanged { IfRefused result (λ _. Unchanged self.old self.new) }
        ensures memory { OnMemory result (Unchanged self.old self.new ⊎
            Becomes self.old self.new (notices link link.a (system self.old))) }
    {
        let LinkId { a, b } = link;
        self.judge(a, link)?;
        self.judge(b, link)?;
        self.hear(a, a, Message::LinkDown(link))?;
        self.hear(b, b, Message::LinkDown(link))
    }

    /// What it is to the router at a node that the link has failed.
    fn judge(&self, node: NodeId, link: LinkId) -> Result<Report, Refusal>
        ensures { Judged link ((system self.now).routers node) result }
    {
        match self.router(node) {
            Some(router) => router.judge(link),
            None => Err(Refusal::NoSuchLink),
        }
    }

    /// The router at a node hears a message.
    fn hear(&mut self, node: NodeId, from: NodeId, message: Message) -> Result<(), RouterError>
        ensures ok { OnOk result (Becomes self.old self.new (go_on (system self.old) node
            (system self.old).came (hear ((system self.old).routers node) from message))) }
        ensures accepted { OnOk result (IsAccepted (hear ((system self.old).routers node) from message)) }
        ensures refused { IfRefused result (λ f.
            hear ((system self.old).routers node) from message ≡ Refused f) }
        ensures unchanged { OnErr result (Unchanged self.old self.new) }
        ensures arrivals { self.new.arrivals.items ≡ self.old.arrivals.items }
    {
        match self.routers.get_mut(node.index()) {
            Some(router) => router.hear(from, message, &mut self.said),
            None => Err(RouterError::Refused(Refusal::NoSuchLink)),
        }
    }

    /// A message arrives, and stays under way. It has arrived where the router refuses it, too. None where it is not under
    /// way: then nothing changes.
    pub fn arrive(&mut self, number: usize) -> Option<Result<(), RouterError>>
        ensures none { IsNone result ↔ (is_message_under_way self.old number ≡ false) }
        ensures unchanged { IfNone result (Unchanged self.old self.new) }
        ensures arrives { IfSome result (λ r.
            UnlessMemory r (Arrives number false self.old self.new)) }
        ensures accepted { IfSome result (λ r.
            OnOk r (IsAccepted (reply_to number (system self.old)))) }
        ensures refused { IfSome result (λ r.
            IfRefused r (λ f. reply_to number (system self.old) ≡ Refused f)) }
        ensures memory { IfSome result (λ r. OnMemory r (Unchanged self.old self.new)) }
    {
        if !self.is_message_under_way(number) {
            return None;
        }
        Some(self.bring(number, Arrival::Again))
    }

    /// A message arrives, and is no longer under way. It has arrived where the router refuses it, too. None where it is not
    /// under way: then nothing changes.
    pub fn deliver(&mut self, number: usize) -> Option<Result<(), RouterError>>
        ensures none { IsNone result ↔ (is_message_under_way self.old number ≡ false) }
        ensures unchanged { IfNone result (Unchanged self.old self.new) }
        ensures arrives { IfSome result (λ r.
            UnlessMemory r (Arrives number true self.old self.new)) }
        ensures accepted { IfSome result (λ r.
            OnOk r (IsAccepted (reply_to number (system self.old)))) }
        ensures refused { IfSome result (λ r.
            IfRefused r (λ f. reply_to number (system self.old) ≡ Refused f)) }
        ensures memory { IfSome result (λ r. OnMemory r (Unchanged self.old self.new)) }
    {
        if !self.is_message_under_way(number) {
            return None;
        }
        Some(self.bring(number, Arrival::Over))
    }

    fn bring(&mut self, number: usize, then: Arrival) -> Result<(), RouterError>
        requires come { has_come then ≡ true }
        requires under_way { is_message_under_way self.old number ≡ true }
        ensures arrives { UnlessMemory result (Arrives number (is_over then) self.old self.new) }
        ensures accepted { OnOk result (IsAccepted (reply_to number (system self.old))) }
        ensures refused { IfRefused result (λ f. reply_to number (system self.old) ≡ Refused f) }
        ensures memory { OnMemory result (Unchanged self.old self.new) }
    {
        make_room(&mut self.arrivals, number)?;
        let Sent { from, to, message } = self.said[number];
        let answer = self.hear(to, from, message);
        if wants_memory(answer) {
            return answer;
        }
        self.arrivals[number] = then;
        answer
    }

    /// A router switches for a destination if it may; else nothing changes.
    pub fn switch(&mut self, node: NodeId, destination: NodeId) -> Result<(), AllocError>
        ensures ok { OnOk result (Becomes self.old self.new
            (step (Switch node destination) (system self.old))) }
        ensures memory { OnErr result (Unchanged self.old self.new) }
    {
        match self.routers.get_mut(node.index()) {
            Some(router) => router.switch(destination, &mut self.said),
            None => Ok(()),
        }
    }

    /// A router switches for each destination to which its path does not use the link that it knows to be down, in rising
    /// order. Where memory is wanting, it has for the first of them.
    pub fn switch_untouched(&mut self, node: NodeId) -> Result<(), AllocError>
        ensures ok { OnOk result (Becomes self.old self.new
            (run (untouched_switches node (nodes_in self.old) (system self.old)) (system self.old))) }
        ensures left { OnOk result (OnlyTouched ((system self.new).routers node)) }
        ensures memory { OnErr result ((k : ℕ) × Becomes self.old self.new
            (run (untouched_switches node k (system self.old)) (system self.old))) }
    {
        for destination in 0..self.nodes() {
            self.switch_if_untouched(node, NodeId(destination))?;
        }
        Ok(())
    }

    fn switch_if_untouched(&mut self, node: NodeId, destination: NodeId) -> Result<(), AllocError>
        ensures touched { uses_failed ((system self.old).routers node) destination ≡ true →
            Unchanged self.old self.new }
        ensures untouched { OnOk result (
            uses_failed ((system self.old).routers node) destination ≡ false →
            Becomes self.old self.new (step (Switch node destination) (system self.old))) }
        ensures memory { OnErr result (Unchanged self.old self.new) }
    {
        if self.uses_failed(node, destination) {
            return Ok(());
        }
        self.switch(node, destination)
    }

    /// Does a node's path to a destination use the link that its router knows to be down?
    fn uses_failed(&self, node: NodeId, destination: NodeId) -> bool
        ensures { result ≡ uses_failed ((system self.now).routers node) destination }
    {
        self.router(node)
            .is_some_and(|router| router.uses_failed(destination))
    }
}

fn all_routers(heap: Global, topology: &Topology) -> Result<Vec<Router>, AllocError>
    ensures count { IfOk result (λ routers. length routers.items ≡ (network topology.now).n) }
    ensures idle { IfOk result (λ routers. (u : ℕ) → u < (network topology.now).n →
        router_at routers.items u ≡ idle (network topology.now) [] u) }
{
    let mut routers = Vec::new(heap);
    for node in 0..topology.nodes() {
        routers.push(Router::new(heap, topology, NodeId(node)))?;
    }
    Ok(routers)
}

/// Was there not enough memory for it?
fn wants_memory(answer: Result<(), RouterError>) -> bool
    ensures yes { OnMemory answer (result ≡ true) }
    ensures no { UnlessMemory answer (result ≡ false) }
{
    matches!(answer, Err(RouterError::Memory(_)))
}

/// An entry for a message, and for those before it.
fn make_room(arrivals: &mut Vec<Arrival>, number: usize) -> Result<(), AllocError>
    requires { number + 1 < 2 ^ 64 }
    ensures same { (k : ℕ) → arrival_in arrivals.new.items k ≡ arrival_in arrivals.old.items k }
    ensures room { OnOk result (number < length arrivals.new.items) }
{
    if arrivals.len() <= number {
        arrivals.resize(number + 1, Arrival::NotYet)?;
    }
    Ok(())
}
