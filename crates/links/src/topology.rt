ghost use Rattle.std.specs.Prelude.{◌≡◌, true};
ghost use Rattle.links.specs.Links.{rising, IsNodeCount};

use types::Link;

/// A network of 1 to 64 nodes, by its links in rising order: by the lower node, then by the higher one.
#[derive(Drop)]
pub struct Topology {
    nodes: u8,
    links: Vec<Link>,
    ghost few: { IsNodeCount nodes },
    ghost ordered: { rising nodes links.items ≡ true },
}

impl Topology {
    ghost use Rattle.std.specs.Prelude.{◌≡◌, true};
    ghost use Rattle.theory.specs.Network.{Lawful, Limited};
    ghost use Rattle.links.specs.Links.{network_of, rising, IsNodeCount, Listed};
    ghost use Rattle.links.specs.Topology.{links_of, network};

    /// Returns the network of `nodes` nodes and these links.
    pub fn new(nodes: u8, links: Vec<Link>) -> Topology
        requires few { IsNodeCount nodes }
        requires ordered { rising nodes links.items ≡ true }
        ensures network { network result ≡ network_of nodes links.items }
        ensures links { links_of result ≡ links.items }
    {
        Topology { nodes, links }
    }

    /// Returns how many nodes there are: 1 to 64.
    pub fn nodes(&self) -> u8
        ensures value { result ≡ (network self.now).n }
        ensures bounds { IsNodeCount result }
    {
        self.nodes
    }

    /// Returns the links in rising order.
    pub fn links(&self) -> &[Link]
        ensures value { result.now ≡ links_of self.now }
        ensures ordered { rising (network self.now).n result.now ≡ true }
    {
        &self.links
    }

    /// Whatever the links are, they make a lawful network within its limits, in which each of them is a link.
    pub fn lawful_holds(&self)
        ensures lawful { Lawful (network self.now) }
        ensures limited { Limited (network self.now) }
        ensures listed { Listed (links_of self.now) }
    {}
}
