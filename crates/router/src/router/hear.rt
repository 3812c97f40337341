ghost use Rattle.std.specs.Prelude.{◌≡◌, ℕ, ◌+◌, ◌<◌, ◌≤◌, ◌++◌, None, IfErr, OnErr, OnOk, is_ok, nat_lt, vec_capacity, vec_len};
ghost use Rattle.protocol.specs.Hearing.{awaited, came_early, hear, hear_down, hear_switched, learn, switched_while, tell, waits_for};
ghost use Rattle.protocol.specs.Router.{among, pending_in};
ghost use Rattle.router.specs.Hearing.{tell_one, IsSetOf, Quietly, Unwaits};
ghost use Rattle.router.specs.Model.{model};
ghost use Rattle.router.specs.Replies.{Answered, Judged, Unchanged};
ghost use Rattle.router.specs.Transition.{in_set_of};
ghost use Rattle.theory.specs.Network.{without};
ghost use Rattle.types.specs.declared.fault.Refusal.TheVariants.{NotPending};

use super::Router;
use crate::error::RouterError;
use crate::report::Report;
use crate::tables::own_hops;
use crate::transition::Transition;
use std::alloc::AllocError;
use std::array;
use types::{Change, LinkId, MAX_NODES, Message, NodeId, NodeSet, Refusal, Sent, Switched};

impl Router {
    /// It hears a message from a neighbour. What it says is put behind what was said before.
    pub fn hear(
        &mut self,
        from: NodeId,
        message: Message,
        said: &mut Vec<Sent>,
    ) -> Result<(), RouterError>
        ensures { Answered (hear (model self.old) from message)
            (model self.old) (model self.new) said.old.items said.new.items result }
    {
        match message {
            Message::LinkDown(link) => self.hear_down(link, said),
            Message::Switched(message) => self.hear_switched(from, &message),
        }
    }

    /// What it is to it that the link has failed.
    pub fn judge(&self, link: LinkId) -> Result<Report, Refusal>
        ensures { Judged link (model self.now) result }
    {
        if !self.has_link(link) {
            return if self.has_removed(link) {
                Ok(Report::Duplicate)
            } else {
                Err(Refusal::NoSuchLink)
            };
        }
        match self.failure() {
            None => Ok(Report::New),
            Some(known) if known.is_same(link) => Ok(Report::Duplicate),
            Some(_) => Err(Refusal::SecondFailure),
        }
    }

    /// Has it taken the link out?
    fn has_removed(&self, link: LinkId) -> bool
        ensures { result ≡ among link (model self.now).removed }
    {
        self.removed.iter().any(|gone| gone.is_same(link))
    }

    fn hear_down(&mut self, link: LinkId, said: &mut Vec<Sent>) -> Result<(), RouterError>
        ensures { Answered (hear_down link (model self.old))
            (model self.old) (model self.new) said.old.items said.new.items result }
    {
        match self.judge(link)? {
            Report::New => Ok(self.learn(link, said)?),
            Report::Duplicate => Ok(()),
        }
    }

    /// It learns of the failure, waits for those that have not said Switched yet, and tells its neighbours.
    fn learn(&mut self, link: LinkId, said: &mut Vec<Sent>) -> Result<(), AllocError>
        ensures learns { OnOk result (model self.new ≡ learn link (model self.old)) }
        ensures tells { OnOk result (said.new.items ≡ said.old.items ++
            tell (model self.old).links link (model self.old).me (model self.old).links.n) }
        ensures memory { OnErr result
            (Unchanged (model self.old) (model self.new) said.old.items said.new.items) }
    {
        said.reserve(MAX_NODES)?;
        self.tell(link, said);
        let surviving = self.routes.changed(Change::LinkFails(link));
        let transition = Transition {
            link,
            hops: own_hops(&surviving, self.me),
            switched: NodeSet::empty(),
            pending: self.awaited(link),
        };
        self.early.clear();
        self.transition = Some(transition);
        Ok(())
    }

    /// By destination, the neighbours that it waits for once it knows that the link has failed.
    fn awaited(&self, link: LinkId) -> [NodeSet; MAX_NODES]
        ensures { (d u : ℕ) → in_set_of result d u ≡ awaited (model self.now) link d u }
    {
        array::from_fn(|d| self.awaited_for(link, NodeId(d as u8)))
    }

    fn awaited_for(&self, link: LinkId, destination: NodeId) -> NodeSet
        ensures { IsSetOf (awaited (model self.now) link destination) result }
    {
        let mut set = NodeSet::empty();
        for u in 0..self.nodes() {
            let from = NodeId(u);
            if self.awaits(link, destination, from) {
                set.insert(from);
            }
        }
        set
    }

    /// Does it wait for a neighbour's Switched message once it knows of the failure? Not if that has come already.
    fn awaits(&self, link: LinkId, destination: NodeId, from: NodeId) -> bool
        ensures { result ≡ awaited (model self.now) link destination from }
    {
        self.would_wait(link, destination, from) && !self.came_early(link, destination, from)
    }

    /// Its own path uses the link, and so does that of the neighbour, which sends through it.
    fn would_wait(&self, link: LinkId, destination: NodeId, from: NodeId) -> bool
        ensures { result ≡ waits_for (model self.now).links link destination (model self.now).me from }
    {
        self.hop_of(destination, from) == Some(self.me)
            && self.uses(link, destination, self.me)
            && self.uses(link, destination, from)
    }

    /// Has the neighbour's Switched message come before the failure was known?
    fn came_early(&self, link: LinkId, destination: NodeId, from: NodeId) -> bool
        ensures { result ≡ came_early link destination from (model self.now).early }
    {
        self.early.iter().any(|early| {
            link.is_same(early.link) && destination == early.destination && from == early.from
        })
    }

    /// It tells each neighbour that the link has failed, but not over that link.
    fn tell(&self, link: LinkId, said: &mut Vec<Sent>)
        requires { vec_len said.old + 64 ≤ vec_capacity said.old }
        ensures { said.new.items ≡ said.old.items ++
            tell (model self.now).links link (model self.now).me (model self.now).links.n }
    {
        for k in 0..self.nodes() {
            self.tell_one(link, NodeId(k), said);
        }
    }

    fn tell_one(&self, link: LinkId, to: NodeId, said: &mut Vec<Sent>)
        requires { vec_len said.old < vec_capacity said.old }
        ensures items { said.new.items ≡ said.old.items ++
            tell_one (model self.now).links link (model self.now).me to }
        ensures len { vec_len said.new ≤ vec_len said.old + 1 }
        ensures capacity { vec_capacity said.new ≡ vec_capacity said.old }
    {
        if self.reaches(link, to) {
            said.push_reserved(Sent {
                from: self.me,
                to,
                message: Message::LinkDown(link),
            });
        }
    }

    /// Does it have a link to the node that isn't this one?
    fn reaches(&self, link: LinkId, to: NodeId) -> bool
        ensures { result ≡ nat_lt 0 ((without link (model self.now).links).cost (model self.now).me to) }
    {
        !link.joins(self.me, to) && self.link_cost(self.me, to).is_some()
    }

    /// A Switched message must come from who says it, and not be for a link that was taken out.
    fn hear_switched(&mut self, from: NodeId, message: &Switched) -> Result<(), RouterError>
        ensures { Quietly (hear_switched from message.now (model self.old))
            (model self.old) (model self.new) result }
    {
        let link = message.link;
        if !self.has_link(link) {
            let removed = self.has_removed(link);
            return Err(RouterError::Refused(if removed {
                Refusal::NotPending
            } else {
                Refusal::NoSuchLink
            }));
        }
        if from != message.from {
            return Err(RouterError::Refused(Refusal::NotPending));
        }
        match self.failure() {
            None => self.keep(message),
            Some(known) if known.is_same(link) => {
                Ok(self.unwait(message.from, message.destination)?)
            }
            Some(_) => Err(RouterError::Refused(Refusal::NotPending)),
        }
    }

    /// It keeps an early message that it would wait for.
    fn keep(&mut self, message: &Switched) -> Result<(), RouterError>
        ensures { Quietly (switched_while message.now (model self.old) None)
            (model self.old) (model self.new) result }
    {
        if !self.awaits(message.link, message.destination, message.from) {
            return Err(RouterError::Refused(Refusal::NotPending));
        }
        self.early.push(*message)?;
        Ok(())
    }

    /// It no longer waits for a neighbour.
    fn unwait(&mut self, who: NodeId, destination: NodeId) -> Result<(), Refusal>
        ensures ok { OnOk result (Unwaits who destination (model self.old) (model self.new)) }
        ensures refused { IfErr result (λ f. f ≡ NotPending) }
        ensures waits { pending_in (model self.old).transition destination who ≡ is_ok result }
        ensures stays { OnErr result (model self.new ≡ model self.old) }
    {
        match &mut self.transition {
            Some(transition) if transition.waits_for(destination, who) => {
                transition.pending[destination.index()].remove(who);
                Ok(())
            }
            _ => Err(Refusal::NotPending),
        }
    }
}
