// The lines that tear prints.
use network::{Flight, FlightState, Network};
use router::Router;
use std::fmt;
use std::iter::repeat;
use types::{Message, NodeId, Refusal, Sent, Switched};

// Messages, packets and lines are meant by their indices; what is printed counts from 1.
#[derive(Clone, Copy, Debug)]
pub struct Number(pub usize);

impl fmt::Display for Number {
    fn fmt<W: fmt::Write>(&self, f: &mut fmt::Formatter<W>) -> fmt::Result {
        let number = self.0.saturating_add(1);
        write!(f, "{number}")
    }
}

// A message, from whom and to whom.
#[derive(Clone, Copy)]
struct Word(Sent);

impl fmt::Display for Word {
    fn fmt<W: fmt::Write>(&self, f: &mut fmt::Formatter<W>) -> fmt::Result {
        let Sent { from, to, message } = self.0;
        match message {
            Message::LinkDown(link) => write!(f, "{from}>{to} closed {link}"),
            Message::Switched(message) => {
                let Switched {
                    destination,
                    link,
                    ..
                } = message;
                write!(f, "{from}>{to} over {destination} {link}")
            }
        }
    }
}

// A line for each message under way.
#[derive(Clone, Copy)]
pub struct Words<'a>(pub &'a Network);

impl fmt::Display for Words<'_> {
    fn fmt<W: fmt::Write>(&self, f: &mut fmt::Formatter<W>) -> fmt::Result {
        let Words(network) = *self;
        let mut words = network
            .messages()
            .iter()
            .enumerate()
            .filter(|(k, _)| network.is_message_under_way(*k))
            .peekable();
        if words.peek().is_none() {
            return f.write_str("no words\n");
        }
        for (k, sent) in words {
            writeln!(f, "{}: {}", Number(k), Word(*sent))?;
        }
        Ok(())
    }
}

/// A message that is refused where it arrives.
#[derive(Clone, Copy)]
pub struct RefusedWord {
    pub number: Number,
    pub refusal: Refusal,
}

impl fmt::Display for RefusedWord {
    fn fmt<W: fmt::Write>(&self, f: &mut fmt::Formatter<W>) -> fmt::Result {
        write!(f, "word {} refused {}", self.number, self.refusal.number())
    }
}

// Whom a router waits for before it switches for d.
#[derive(Clone, Copy)]
pub struct Waits<'a> {
    pub router: &'a Router,
    pub d: NodeId,
}

impl fmt::Display for Waits<'_> {
    fn fmt<W: fmt::Write>(&self, f: &mut fmt::Formatter<W>) -> fmt::Result {
        let Waits { router, d } = *self;
        let u = router.node();
        write!(f, "over {u} {d}: waits for")?;
        for v in NodeId::all(router.nodes()) {
            if router.waits_for(d, v) {
                write!(f, " {v}")?;
            }
        }
        Ok(())
    }
}

/// Where a packet is, or how it ended and the whole path from its start.
#[derive(Clone, Copy)]
pub struct PacketLine<'a> {
    pub number: Number,
    pub flight: &'a Flight,
}

impl fmt::Display for PacketLine<'_> {
    fn fmt<W: fmt::Write>(&self, f: &mut fmt::Formatter<W>) -> fmt::Result {
        let PacketLine { number, flight } = *self;
        let path = Path(flight);
        let cost = flight.spent();
        match flight.state() {
            FlightState::UnderWay(_) => write!(f, "packet {number} at {}", flight.at()),
            FlightState::Delivered => write!(f, "packet {number}:{path} arrived cost {cost}"),
            FlightState::Dropped(reason) => {
                write!(
                    f,
                    "packet {number}:{path} dropped {} cost {cost}",
                    reason.number()
                )
            }
        }
    }
}

// Where a packet has been, a space before each.
#[derive(Clone, Copy)]
struct Path<'a>(&'a Flight);

impl fmt::Display for Path<'_> {
    fn fmt<W: fmt::Write>(&self, f: &mut fmt::Formatter<W>) -> fmt::Result {
        for node in self.0.path() {
            write!(f, " {node}")?;
        }
        Ok(())
    }
}

// A line for each router.
#[derive(Clone, Copy)]
pub struct Routers<'a>(pub &'a Network);

impl fmt::Display for Routers<'_> {
    fn fmt<W: fmt::Write>(&self, f: &mut fmt::Formatter<W>) -> fmt::Result {
        for u in NodeId::all(self.0.nodes()) {
            if let Some(router) = self.0.router(u) {
                let table = Table(router);
                writeln!(f, "router {u}: down {}; table{table}", Failure(router))?;
            }
        }
        Ok(())
    }
}

// The failure that a router knows of, for which destinations it has switched, and whom it waits for.
#[derive(Clone, Copy)]
struct Failure<'a>(&'a Router);

impl fmt::Display for Failure<'_> {
    fn fmt<W: fmt::Write>(&self, f: &mut fmt::Formatter<W>) -> fmt::Result {
        let router = self.0;
        match router.failure() {
            Some(link) => {
                let (switched, pending) = (SwitchedFor(router), Pending(router));
                write!(f, "{link}; switched{switched}; waits{pending}")
            }
            None => f.write_str("none; switched none; waits none"),
        }
    }
}

// The destinations that a router has switched for, a space before each.
#[derive(Clone, Copy)]
struct SwitchedFor<'a>(&'a Router);

impl fmt::Display for SwitchedFor<'_> {
    fn fmt<W: fmt::Write>(&self, f: &mut fmt::Formatter<W>) -> fmt::Result {
        let SwitchedFor(router) = *self;
        let mut switched = NodeId::all(router.nodes())
            .filter(|d| router.has_switched(*d))
            .peekable();
        if switched.peek().is_none() {
            return f.write_str(" none");
        }
        for d in switched {
            write!(f, " {d}")?;
        }
        Ok(())
    }
}

// `D<V` for each destination D for which a router waits for the neighbour V, a space before each.
#[derive(Clone, Copy)]
struct Pending<'a>(&'a Router);

impl fmt::Display for Pending<'_> {
    fn fmt<W: fmt::Write>(&self, f: &mut fmt::Formatter<W>) -> fmt::Result {
        // The pairs by `repeat`, since a closure can't give out an iterator that holds another.
        let Pending(router) = *self;
        let nodes = router.nodes();
        let mut pending = (0..nodes)
            .flat_map(|d| repeat(d).zip(0..nodes))
            .filter(|(d, v)| router.waits_for(NodeId(*d), NodeId(*v)))
            .peekable();
        if pending.peek().is_none() {
            return f.write_str(" none");
        }
        for (d, v) in pending {
            write!(f, " {d}<{v}")?;
        }
        Ok(())
    }
}

// The next hop for each destination, a space before each.
#[derive(Clone, Copy)]
struct Table<'a>(&'a Router);

impl fmt::Display for Table<'_> {
    fn fmt<W: fmt::Write>(&self, f: &mut fmt::Formatter<W>) -> fmt::Result {
        for d in NodeId::all(self.0.nodes()) {
            match self.0.next_hop(d) {
                Some(hop) => write!(f, " {hop}")?,
                None => f.write_str(" -")?,
            }
        }
        Ok(())
    }
}
