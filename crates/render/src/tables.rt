ghost use Rattle.std.specs.Prelude.{◌≡◌, ℕ, ◌<◌, ◌++◌, Some, Option, OnOk, string_bytes};
ghost use Rattle.routes.specs.Routes.{routes_network};
ghost use Rattle.render.specs.Text.{cell, cells, table, tables};

use routes::routes::Routes;
use std::alloc::AllocError;
use std::fmt;
use types::NodeId;

/// A number, or '-' for none.
#[derive(Clone, Copy)]
struct Cell(Option<u32>);

impl fmt::Display for Cell {
    ghost output = { λ c. Some (cell c.0) };

    fn fmt<W: fmt::Write>(&self, f: &mut fmt::Formatter<W>) -> fmt::Result {
        match self.0 {
            Some(number) => write!(f, "{number}"),
            None => f.write_str("-"),
        }
    }
}

/// The number of nodes, the distances and the next hops.
pub(crate) fn push_tables(out: &mut String, routes: &Routes) -> Result<(), AllocError>
    ensures { let text = tables (routes_network routes.now) in
        OnOk result (string_bytes out.new ≡ string_bytes out.old ++ text) }
{
    let nodes = routes.nodes();
    write!(out, "places {nodes}\ndistances\n")?;
    push_table(out, nodes, |a, d| routes.distance(d, a))?;
    out.push_str("tables\n")?;
    push_table(out, nodes, |a, d| {
        let hop = routes.next_hop(d, a)?;
        Some(u32::from(hop.number()))
    })
}

/// A row for each node, with a cell for each destination.
fn push_table<F: Fn(NodeId, NodeId) -> Option<u32>>(
    out: &mut String,
    nodes: u8,
    value: F,
) -> Result<(), AllocError>
    requires { F.IsAlwaysCallable value }
    ensures { (v : ℕ → ℕ → Option ℕ) →
        ((a d : ℕ) (r : Option ℕ) → a < nodes → d < nodes → F.post value a d r → r ≡ v a d) →
        OnOk result (string_bytes out.new ≡ string_bytes out.old ++ table nodes v) }
{
    for a in NodeId::all(nodes) {
        write!(out, "{a}:")?;
        push_cells(out, nodes, |d| value(a, d))?;
        out.push_str("\n")?;
    }
    Ok(())
}

/// The cells of a row, a space before each.
fn push_cells<F: Fn(NodeId) -> Option<u32>>(
    out: &mut String,
    nodes: u8,
    value: F,
) -> Result<(), AllocError>
    requires { F.IsAlwaysCallable value }
    ensures { (v : ℕ → Option ℕ) →
        ((d : ℕ) (r : Option ℕ) → d < nodes → F.post value d r → r ≡ v d) →
        let text = cells (λ d. cell (v d)) nodes in
        OnOk result (string_bytes out.new ≡ string_bytes out.old ++ text) }
{
    for d in NodeId::all(nodes) {
        write!(out, " {}", Cell(value(d)))?;
    }
    Ok(())
}
