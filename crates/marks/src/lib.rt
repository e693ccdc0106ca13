//! The mark table: an entry for each node of a wiring and one for each place, and the links by which
//! the arcs of a node are found.
#![tactic(auto)]

pub mod arcs;
pub mod follow;
pub mod link;
pub mod mark;
