// What each command does to a network, and prints.
use crate::bad_line::{BadLine, RefusedLink, Why};
use crate::printing::{Number, PacketLine, RefusedWord, Routers, Waits, Words};
use crate::script::{Command, parse_line};
use network::{Flight, Network, SendRequest};
use router::{Router, RouterError};
use std::alloc::{AllocError, Global};
use types::{LinkId, NodeId, Refusal};

/// A network that is played, and what is printed of it.
#[derive(Drop)]
pub struct Stage {
    network: Network,
    out: String,
}

impl Stage {
    pub fn new(heap: Global, network: Network) -> Stage {
        Stage {
            network,
            out: String::new(heap),
        }
    }

    fn nodes(&self) -> u8 {
        self.network.nodes()
    }

    pub fn printed(&self) -> &str {
        self.out.as_str()
    }

    /// Plays a line of a script.
    pub fn play_line(&mut self, heap: Global, line: &[u8]) -> Result<(), BadLine> {
        match parse_line(heap, line, self.nodes()) {
            Ok(command) => self.play(command),
            Err(bad) => Err(bad),
        }
    }

    fn play(&mut self, command: Command) -> Result<(), BadLine> {
        match command {
            Command::Nothing => Ok(()),
            Command::Close(link) => self.close(link),
            Command::Words => Ok(write!(self.out, "{}", Words(&self.network))?),
            Command::Deliver(k) => self.deliver(k),
            Command::DeliverAll => self.deliver_all(),
            Command::Again(k) => self.arrive_again(k),
            Command::Over(u, d) => self.over(u, d),
            Command::OverAll => self.over_all(),
            Command::Send(request) => self.send(request),
            Command::Put(request) => self.put(request),
            Command::Hop(q) => self.hop(q),
            Command::Run(q) => self.run(q),
            Command::State => Ok(write!(self.out, "{}", Routers(&self.network))?),
        }
    }

    // The link fails, and its two ends know.
    fn close(&mut self, link: LinkId) -> Result<(), BadLine> {
        if let Err(fault) = link.check(self.nodes()) {
            let why = Why::NoLink(fault);
            return Err(BadLine::Link(RefusedLink { link, why }));
        }
        if let Err(error) = self.network.fail(link) {
            return Err(BadLine::of_link(link, error));
        }
        self.network.switch_untouched(link.a)?;
        self.network.switch_untouched(link.b)?;
        Ok(writeln!(self.out, "closed {link}")?)
    }

    // A message that there isn't, or that has arrived, is a mistake of the script's.
    fn deliver(&mut self, k: usize) -> Result<(), BadLine> {
        match self.network.deliver(k) {
            Some(answer) => self.arrived(k, answer),
            None => Err(BadLine::Message(Number(k))),
        }
    }

    // It arrives, and stays under way.
    fn arrive_again(&mut self, k: usize) -> Result<(), BadLine> {
        match self.network.arrive(k) {
            Some(answer) => self.arrived(k, answer),
            None => Err(BadLine::Message(Number(k))),
        }
    }

    // What comes of a message that has arrived. One that nobody waits for is passed over in silence.
    fn arrived(&mut self, k: usize, answer: Result<(), RouterError>) -> Result<(), BadLine> {
        match answer {
            Ok(()) => self.switch_untouched_of(k),
            Err(RouterError::Refused(Refusal::NotPending)) => Ok(()),
            Err(RouterError::Refused(refusal)) => {
                let refused = RefusedWord {
                    number: Number(k),
                    refusal,
                };
                Ok(writeln!(self.out, "{refused}")?)
            }
            Err(RouterError::Memory(error)) => Err(BadLine::Memory(error)),
        }
    }

    // The router that message k went to switches for the destinations to which its path doesn't use the failed link.
    fn switch_untouched_of(&mut self, k: usize) -> Result<(), BadLine> {
        let Some(sent) = self.network.messages().get(k) else {
            return Ok(());
        };
        let to = sent.to;
        Ok(self.network.switch_untouched(to)?)
    }

    // New messages get higher numbers than all before them, so one walk upwards leaves none under way. There are more of
    // them while it walks; the bound of the count, which is never reached, is there since a loop has to end.
    fn deliver_all(&mut self) -> Result<(), BadLine> {
        for k in 0..usize::MAX {
            if k >= self.network.messages().len() {
                break;
            }
            if let Some(answer) = self.network.deliver(k) {
                self.arrived(k, answer)?;
            }
        }
        Ok(())
    }

    fn over(&mut self, u: NodeId, d: NodeId) -> Result<(), BadLine> {
        if self.may_switch(u, d) {
            return Ok(self.network.switch(u, d)?);
        }
        match self.network.router(u) {
            Some(router) if waits(router, d) => {
                Ok(writeln!(self.out, "{}", Waits { router, d })?)
            }
            _ => Ok(()),
        }
    }

    // Round by round until none may. Each round but the last switches some router for some destination, and a router that
    // has switched for all has nothing left: so there are at most 64 * 64 rounds, and the last.
    fn over_all(&mut self) -> Result<(), BadLine> {
        for _ in 0..4097u16 {
            if !self.over_round()? {
                break;
            }
        }
        Ok(())
    }

    // Has any router switched?
    fn over_round(&mut self) -> Result<bool, BadLine> {
        let mut any = false;
        for u in NodeId::all(self.nodes()) {
            for d in NodeId::all(self.nodes()) {
                if self.may_switch(u, d) {
                    self.network.switch(u, d)?;
                    any = true;
                }
            }
        }
        Ok(any)
    }

    fn may_switch(&self, u: NodeId, d: NodeId) -> bool {
        self.network
            .router(u)
            .is_some_and(|router| router.may_switch(d))
    }

    // A packet starts at a node of the network.
    fn send(&mut self, request: SendRequest) -> Result<(), BadLine> {
        if !request.start.is_below(self.network.nodes()) {
            return Err(BadLine::Node(self.network.nodes()));
        }
        let q = self.network.send(request)?;
        Ok(self.print_packet(q)?)
    }

    fn put(&mut self, request: SendRequest) -> Result<(), BadLine> {
        if !request.start.is_below(self.network.nodes()) {
            return Err(BadLine::Node(self.network.nodes()));
        }
        let q = self.network.put(request)?;
        Ok(self.print_packet(q)?)
    }

    fn hop(&mut self, q: usize) -> Result<(), BadLine> {
        self.check_under_way(q)?;
        self.network.hop(q)?;
        Ok(self.print_packet(q)?)
    }

    fn run(&mut self, q: usize) -> Result<(), BadLine> {
        self.check_under_way(q)?;
        self.network.play(q)?;
        Ok(self.print_packet(q)?)
    }

    // A packet that there isn't, or that has ended, is a mistake of the script's.
    fn check_under_way(&self, q: usize) -> Result<(), BadLine> {
        if self.network.flight(q).is_some_and(Flight::is_under_way) {
            Ok(())
        } else {
            Err(BadLine::Packet(Number(q)))
        }
    }

    // Where a packet is, or how it ended.
    fn print_packet(&mut self, q: usize) -> Result<(), AllocError> {
        match self.network.flight(q) {
            Some(flight) => {
                let number = Number(q);
                writeln!(self.out, "{}", PacketLine { number, flight })
            }
            None => Ok(()),
        }
    }
}

// Of a router that may not switch for d: is that because it still waits for others?
fn waits(router: &Router, d: NodeId) -> bool {
    router.failure().is_some() && !router.has_switched(d)
}
