ghost use Rattle.std.specs.Prelude.{◌≡◌, ◌<◌, All, count_by};
ghost use Rattle.routes.specs.Routes.{routes_network};
ghost use Rattle.repairs.specs.Entries.{meaning};
ghost use Rattle.render.specs.LinkRepair.{is_repaired, is_used};

use crate::link_repair::{LinkRepair, link_repairs};
use links::Topology;
use repairs::{Entry, Repair};
use routes::routes::Routes;
use std::alloc::{AllocError, Global};
use std::fmt;
use types::{Link, LinkId, NodeId};

/// How many repairs a network has, which failures cut whom off, and the longest repair, in a few lines.
pub fn summary(alloc: Global, topology: &Topology) -> Result<String, AllocError> {
    topology.lawful_holds();
    let coverage = Coverage::of(alloc, &Routes::of(topology), topology.links())?;
    coverage.to_text(alloc, topology)
}

/// What the ends of links do when a link fails.
#[derive(Drop)]
struct Coverage {
    // for how many pairs of a link and a destination an end sends over the link
    used: usize,
    // for how many of them it has a repair
    repaired: usize,
    // a line for each end that is cut off from some destinations
    cut_off: String,
    longest: Option<RepairedPath>,
}

impl Coverage {
    ghost use Rattle.std.specs.Prelude.{◌<◌, All};
    ghost use Rattle.routes.specs.Routes.{routes_network};

    fn of(alloc: Global, routes: &Routes, links: &[Link]) -> Result<Coverage, AllocError>
        requires { All (λ l. 0 < (routes_network routes.now).cost l.a l.b) links.now }
    {
        let mut coverage = Coverage {
            used: 0,
            repaired: 0,
            cut_off: String::new(alloc),
            longest: None,
        };
        for link in links {
            coverage.add_link(routes, LinkId::from(*link))?;
        }
        Ok(coverage)
    }

    fn add_link(&mut self, routes: &Routes, link: LinkId) -> Result<(), AllocError>
        requires { 0 < (routes_network routes.now).cost link.a link.b }
    {
        let all = link_repairs(routes, link);
        let repairs = &all[..routes.nodes() as usize];
        self.used = self.used.saturating_add(used_count(repairs));
        self.repaired = self.repaired.saturating_add(repaired_count(repairs));
        self.add_cut_off(link, link.a, repairs)?;
        self.add_cut_off(link, link.b, repairs)?;
        for (destination, repair) in NodeId::all(routes.nodes()).zip(repairs.iter()) {
            if let Some(path) = RepairedPath::of(routes, link, destination, repair) {
                self.keep_longer(path);
            }
        }
        Ok(())
    }

    /// A line for an end of a link if it is cut off from some destinations.
    fn add_cut_off(
        &mut self,
        link: LinkId,
        end: NodeId,
        repairs: &[LinkRepair],
    ) -> Result<(), AllocError> {
        let mut cut_off = repairs
            .iter()
            .enumerate()
            .filter(|(_, repair)| repair.end == end && repair.entry == Entry::Apart)
            .peekable();
        if cut_off.peek().is_none() {
            return Ok(());
        }
        write!(self.cut_off, "cut off {link}: {end} from")?;
        for (destination, _) in cut_off {
            write!(self.cut_off, " {destination}")?;
        }
        self.cut_off.push_str("\n")
    }

    /// Keeps the path that is longer by more than it was before; the first among equals.
    fn keep_longer(&mut self, path: RepairedPath) {
        if self
            .longest
            .is_none_or(|longest| longest.added() < path.added())
        {
            self.longest = Some(path);
        }
    }

    fn to_text(&self, alloc: Global, topology: &Topology) -> Result<String, AllocError> {
        let mut out = format!(in alloc;
            "places {}\nlinks {}\nrepaired {} of {}\n",
            topology.nodes(),
            topology.links().len(),
            self.repaired,
            self.used
        )?;
        match self.cut_off.as_str() {
            "" => out.push_str("cut off none\n")?,
            lines => out.push_str(lines)?,
        }
        match &self.longest {
            None => out.push_str("longest none\n")?,
            Some(path) => writeln!(out, "longest {path}")?,
        }
        Ok(out)
    }
}

/// For how many destinations an end sends over the link.
fn used_count(repairs: &[LinkRepair]) -> usize
    ensures { result ≡ count_by (λ r. is_used (meaning r.entry)) repairs.now }
{
    repairs
        .iter()
        .filter(|repair| !matches!(repair.entry, Entry::Unused))
        .count()
}

/// For how many destinations the end that sends over the link has a repair.
fn repaired_count(repairs: &[LinkRepair]) -> usize
    ensures { result ≡ count_by (λ r. is_repaired (meaning r.entry)) repairs.now }
{
    repairs
        .iter()
        .filter(|repair| matches!(repair.entry, Entry::Via(_)))
        .count()
}

/// The path by the repair of an end of a link, beside the path over the link.
#[derive(Clone, Copy)]
struct RepairedPath {
    link: LinkId,
    end: NodeId,
    destination: NodeId,
    cost: u32,
    // over the link
    before: u32,
}

impl RepairedPath {
    /// None where the end has no repair for the destination.
    fn of(
        routes: &Routes,
        link: LinkId,
        destination: NodeId,
        repair: &LinkRepair,
    ) -> Option<RepairedPath> {
        let Entry::Via(Repair { p, q }) = repair.entry else {
            return None;
        };
        let end = repair.end;
        let to_p = routes.distance(p, end)?;
        let from_q = routes.distance(destination, q)?;
        Some(RepairedPath {
            link,
            end,
            destination,
            cost: to_p + u32::from(routes.link_cost(p, q)?) + from_q,
            before: routes.distance(destination, end)?,
        })
    }

    /// What the failure adds to the cost.
    fn added(&self) -> u32 {
        self.cost.saturating_sub(self.before)
    }
}

impl fmt::Display for RepairedPath {
    fn fmt<W: fmt::Write>(&self, f: &mut fmt::Formatter<W>) -> fmt::Result {
        write!(
            f,
            "{}: {} to {} costs {}, was {}",
            self.link, self.end, self.destination, self.cost, self.before
        )
    }
}

#[cfg(test)]
mod tests {
    use super::*;
    use std::test::Fail;

    fn link(a: u8, b: u8, cost: u16) -> Link
        ensures { result ≡ record { a = a; b = b; cost = cost } }
    {
        Link {
            a: NodeId(a),
            b: NodeId(b),
            cost,
        }
    }

    #[test]
    fn a_triangle_and_a_tail(rt: HostRuntime) -> Result<(), Fail> {
        let alloc = rt.alloc();
        //     1
        //   1/ \3
        //   0---2---3
        //     1   2
        let links = vec![in alloc; link(0, 1, 1), link(0, 2, 1), link(1, 2, 3), link(2, 3, 2)]?;
        let topology = Topology::new(4, links);
        assert_eq!(rt;
            summary(alloc, &topology)?.as_str(),
            "places 4
links 4
repaired 8 of 12
cut off 2-3: 2 from 3
cut off 2-3: 3 from 0 1 2
longest 0-1: 1 to 0 costs 4, was 1
"
        );
        Ok(())
    }
}
