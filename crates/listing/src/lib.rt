//! Draws the list of paths of a wiring from what is left of its loads, along the links between the
//! arcs of each node: `count` tells how long the list is, `list` writes it.
#![tactic(auto)]

mod cores;
pub mod count;
pub mod linked;
pub mod links;
pub mod list;
mod path;
mod row;
mod walk;
