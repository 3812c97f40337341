ghost use Rattle.std.specs.Prelude.{◌≡◌, ◌+◌, ◌*◌};

use std::ops::Range;
use types::{MAX_NODES, NodeId};

/// How many entries a table has with a row and a column for each node. Tables are lent as slices.
pub const CELLS: usize = MAX_NODES * MAX_NODES;

/// Stands in a table or a row of distances where there is no path.
pub const NEVER: u32 = u32::MAX;

/// Where the entry of row a and column b stands in a table.
pub fn cell(a: NodeId, b: NodeId) -> usize
    ensures { result ≡ a * 64 + b }
{
    a.number() as usize * MAX_NODES + b.number() as usize
}

/// Where row a stands in a table, with an entry for each of so many nodes.
pub fn row_of(a: NodeId, nodes: u8) -> Range<usize>
    ensures { result ≡ record { start = a * 64; end = a * 64 + nodes } }
{
    let start = cell(a, NodeId(0));
    start..start + nodes as usize
}
