//! What the programs print of a network: its plan, and a summary of its repairs.
#![tactic(auto)]

ghost use Rattle.std.specs.Prelude.{◌≡◌, ◌<◌, All, IfOk, string_bytes};
ghost use Rattle.links.specs.Topology.{network, links_of};
ghost use Rattle.routes.specs.Routes.{routes_network};
ghost use Rattle.render.specs.Text.{plan};

use crate::link_repair::push_link_repairs;
use crate::tables::push_tables;
use links::Topology;
use routes::routes::Routes;
use std::alloc::{AllocError, Global};
use types::Link;

pub mod coverage;
pub mod link_repair;
mod tables;

pub use coverage::summary;
pub use link_repair::{LinkRepair, link_repairs};

/// The plan of a network: its distances, its next-hop tables and its repairs.
pub fn plan(alloc: Global, topology: &Topology) -> Result<Vec<u8>, AllocError>
    ensures { let text = plan (network topology.now) (links_of topology.now) in
        IfOk result (λ bytes. bytes.items ≡ text) }
{
    topology.lawful_holds();
    let text = plan_of(alloc, &Routes::of(topology), topology.links())?;
    Ok(text.into_bytes())
}

/// The same from its routes.
fn plan_of(alloc: Global, routes: &Routes, links: &[Link]) -> Result<String, AllocError>
    requires { All (λ l. 0 < (routes_network routes.now).cost l.a l.b) links.now }
    ensures { IfOk result (λ text. string_bytes text ≡ plan (routes_network routes.now) links.now) }
{
    let mut out = String::new(alloc);
    push_tables(&mut out, routes)?;
    out.push_str("detours\n")?;
    push_link_repairs(&mut out, routes, links)?;
    Ok(out)
}
