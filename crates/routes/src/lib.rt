//! Distances, next hops and paths of a network, as it is and as a change leaves it.
#![tactic(auto)]

pub mod matrix;
pub mod routes;
pub mod table;
mod view;

pub use matrix::CostMatrix;
pub use routes::Routes;
pub use table::{CELLS, NEVER, cell, row_of};
