ghost use Rattle.std.specs.Prelude.{◌≡◌, ◌-◌, ◌≤◌};
ghost use Rattle.std.specs.Iterator.{at_most};

use crate::node::NodeId;

/// The nodes from `next` up to `end`, which is not one of them, rising.
#[derive(Drop)]
pub struct Nodes {
    pub next: u8,
    pub end: u8,
    ghost ordered: { next ≤ end },
}

impl Iterator for Nodes {
    type Item = NodeId;

    ghost use Rattle.types.specs.Nodes.{TakesFirst};

    ghost next_gives = { λ old first new. TakesFirst old new first };

    ghost remaining = { λ s. at_most (s.end - s.next) };

    fn next(&mut self) -> Option<NodeId> {
        if self.next == self.end {
            return None;
        }
        let u = NodeId(self.next);
        self.next += 1;
        Some(u)
    }
}
