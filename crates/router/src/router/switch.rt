ghost use Rattle.std.specs.Prelude.{◌≡◌, ◌<◌, ◌++◌, true, Some, OnErr, OnOk, vec_capacity, vec_len};
ghost use Rattle.protocol.specs.Router.{known_failure};
ghost use Rattle.protocol.specs.Switching.{may, says, switch};
ghost use Rattle.router.specs.Model.{model};
ghost use Rattle.router.specs.Replies.{Accepted, Unchanged};
ghost use Rattle.router.specs.Switching.{told, Switches, TakesOut};

use super::Router;
use crate::tables::own_repairs;
use std::alloc::AllocError;
use types::{Change, LinkId, Message, NodeId, Sent, Switched};

impl Router {
    /// It switches for a destination if it may, and says so to its old next hop, behind what was said before.
    pub fn switch(&mut self, destination: NodeId, said: &mut Vec<Sent>) -> Result<(), AllocError>
        ensures ok { OnOk result (Accepted (switch (model self.old) destination)
            (model self.old) (model self.new) said.old.items said.new.items) }
        ensures memory { OnErr result
            (Unchanged (model self.old) (model self.new) said.old.items said.new.items) }
    {
        match self.failure() {
            Some(link) if self.may_switch(destination) => self.switch_over(link, destination, said),
            _ => Ok(()),
        }
    }

    fn switch_over(
        &mut self,
        link: LinkId,
        destination: NodeId,
        said: &mut Vec<Sent>,
    ) -> Result<(), AllocError>
        requires knows { known_failure (model self.old) ≡ Some link }
        requires may { may (model self.old) destination ≡ true }
        ensures ok { OnOk result (Accepted (switch (model self.old) destination)
            (model self.old) (model self.new) said.old.items said.new.items) }
        ensures memory { OnErr result
            (Unchanged (model self.old) (model self.new) said.old.items said.new.items) }
    {
        let to = self.tells(link, destination);
        let message = Switched {
            from: self.me,
            destination,
            link,
        };
        said.reserve(1)?;
        self.change_entry(link, destination)?;
        say(said, to, message);
        Ok(())
    }

    /// Whom it tells that it has switched: its old next hop, if its path used the link, but not over that link.
    fn tells(&self, link: LinkId, destination: NodeId) -> Option<NodeId>
        ensures { told (model self.now).me destination link result ≡ says destination link (model self.now) }
    {
        if !self.uses(link, destination, self.me) {
            return None;
        }
        self.hop_of(destination, self.me)
            .filter(|hop| !link.joins(self.me, *hop))
    }

    /// It uses the new next hop for a destination; with the last destination the link is taken out.
    fn change_entry(&mut self, link: LinkId, destination: NodeId) -> Result<(), AllocError>
        requires knows { known_failure (model self.old) ≡ Some link }
        requires may { may (model self.old) destination ≡ true }
        ensures ok { OnOk result (Switches destination (model self.old) (model self.new)) }
        ensures memory { OnErr result (model self.new ≡ model self.old) }
    {
        let last = self.is_last(destination);
        match &mut self.transition {
            Some(transition) if !last => {
                transition.switched.insert(destination);
                Ok(())
            }
            _ => self.take_out(link),
        }
    }

    /// It takes the link out of its list, and keeps nothing else.
    fn take_out(&mut self, link: LinkId) -> Result<(), AllocError>
        ensures ok { OnOk result (TakesOut link (model self.old) (model self.new)) }
        ensures memory { OnErr result (model self.new ≡ model self.old) }
    {
        self.removed.push(link)?;
        self.routes = self.routes.changed(Change::LinkFails(link));
        self.repairs = own_repairs(&self.routes, self.me);
        self.transition = None;
        self.early.clear();
        Ok(())
    }
}

/// The message that it has switched, if there is anybody to tell.
fn say(said: &mut Vec<Sent>, to: Option<NodeId>, message: Switched)
    requires { vec_len said.old < vec_capacity said.old }
    ensures { said.new.items ≡ said.old.items ++ told message.from message.destination message.link to }
{
    if let Some(to) = to {
        said.push_reserved(Sent {
            from: message.from,
            to,
            message: Message::Switched(message),
        });
    }
}
