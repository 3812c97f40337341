ghost use Rattle.std.specs.Prelude.{◌≡◌, ℕ, ◌<◌, ◌≤◌, ◌++◌, All, OnOk, Some, slice_get, slice_index_or, string_bytes};
ghost use Rattle.std.specs.List.{flat_map};
ghost use Rattle.std.specs.Option.{option_map};
ghost use Rattle.theory.specs.Repair.{laid, Unused};
ghost use Rattle.types.specs.Link.{ends_of};
ghost use Rattle.repairs.specs.Entries.{meaning};
ghost use Rattle.routes.specs.Routes.{routes_network};
ghost use Rattle.render.specs.LinkRepair.{link_repair, link_repair_of, of_sender};
ghost use Rattle.render.specs.Text.{link_row};

use repairs::{Entry, Repair, precompute_row};
use routes::routes::Routes;
use std::alloc::AllocError;
use std::{array, fmt};
use types::{Link, LinkId, MAX_NODES, NodeId};

/// The repair of the end of a link that sends over it to a destination.
#[derive(Clone, Copy, PartialEq, Eq, Debug)]
pub struct LinkRepair {
    pub end: NodeId,
    pub entry: Entry,
}

impl LinkRepair {
    ghost use Rattle.std.specs.Prelude.{◌≡◌};
    ghost use Rattle.repairs.specs.Entries.{meaning};
    ghost use Rattle.render.specs.LinkRepair.{link_repair_of, of_sender};

    /// By what both ends have: that of the end that sends over the link, and of the second where neither does.
    fn of_ends(link: LinkId, at_a: Entry, at_b: Entry) -> LinkRepair
        ensures { link_repair_of result ≡ of_sender link (meaning at_a) (meaning at_b) }
    {
        match at_a {
            Entry::Unused => LinkRepair {
                end: link.b,
                entry: at_b,
            },
            _ => LinkRepair {
                end: link.a,
                entry: at_a,
            },
        }
    }
}

impl fmt::Display for LinkRepair {
    ghost use Rattle.std.specs.Prelude.{Some};
    ghost use Rattle.render.specs.LinkRepair.{link_repair_of};
    ghost use Rattle.render.specs.Text.{link_repair_text};

    ghost output = { λ repair. Some (link_repair_text (link_repair_of repair)) };

    fn fmt<W: fmt::Write>(&self, f: &mut fmt::Formatter<W>) -> fmt::Result {
        match self.entry {
            Entry::Unused => f.write_str("unused"),
            Entry::Apart => f.write_str("apart"),
            Entry::Via(Repair { p, q }) => write!(f, "{}:{}", self.end, LinkId { a: p, b: q }),
        }
    }
}

/// For each destination the repair of the end that sends over the link. Where neither does it is the second end's, which is
/// unused, and so at the places behind the nodes.
pub fn link_repairs(routes: &Routes, link: LinkId) -> [LinkRepair; MAX_NODES]
    requires { 0 < (routes_network routes.now).cost link.a link.b }
    ensures nodes { let z = routes_network routes.now in
        (d : ℕ) → d < z.n →
        option_map link_repair_of (slice_get result d) ≡ Some (link_repair z link d) }
    ensures behind { let z = routes_network routes.now in
        (d : ℕ) → z.n ≤ d → d < MAX_NODES →
        option_map link_repair_of (slice_get result d)
        ≡ Some (record { end = link.b; laid = Unused }) }
{
    // arrays, and no Vec of a length of its own, which could fail for memory
    let at_a = row_at(routes, link.a, link.b);
    let at_b = row_at(routes, link.b, link.a);
    array::from_fn(
        |d|
            requires { d < MAX_NODES }
            ensures { link_repair_of result
                ≡ of_sender link (meaning (slice_index_or at_a d Entry.Unused))
                (meaning (slice_index_or at_b d Entry.Unused)) }
        { LinkRepair::of_ends(link, at_a[d], at_b[d]) },
    )
}

/// The repairs of s for its link to f, for each destination.
fn row_at(routes: &Routes, s: NodeId, f: NodeId) -> [Entry; MAX_NODES]
    requires { 0 < (routes_network routes.now).cost s f }
    ensures nodes { let z = routes_network routes.now in
        (d : ℕ) → d < z.n →
        meaning (slice_index_or result d Entry.Unused) ≡ laid z s f d }
    ensures behind { (d : ℕ) → (routes_network routes.now).n ≤ d →
        meaning (slice_index_or result d Entry.Unused) ≡ Unused }
{
    let mut row = [Entry::Unused; MAX_NODES];
    precompute_row(routes, s, f, &mut row[..routes.nodes() as usize]);
    row
}

/// The rows of all links.
pub(crate) fn push_link_repairs(
    out: &mut String,
    routes: &Routes,
    links: &[Link],
) -> Result<(), AllocError>
    requires { All (λ l. 0 < (routes_network routes.now).cost l.a l.b) links.now }
    ensures { let z = routes_network routes.now in
        let text = flat_map (λ l. link_row z (ends_of l)) links.now in
        OnOk result (string_bytes out.new ≡ string_bytes out.old ++ text) }
{
    for link in links {
        push_link_row(out, routes, LinkId::from(*link))?;
    }
    Ok(())
}

/// The row of a link.
fn push_link_row(out: &mut String, routes: &Routes, link: LinkId) -> Result<(), AllocError>
    requires { 0 < (routes_network routes.now).cost link.a link.b }
    ensures { let text = link_row (routes_network routes.now) link in
        OnOk result (string_bytes out.new ≡ string_bytes out.old ++ text) }
{
    let repairs = link_repairs(routes, link);
    write!(out, "{link}:")?;
    for repair in &repairs[..routes.nodes() as usize] {
        write!(out, " {repair}")?;
    }
    out.push_str("\n")
}
