//! The tables that a choice works on, filled from a wiring: its leads linked at their nodes, both
//! lengths of every node by these links, and the arcs between which loads balance.
#![tactic(auto)]

pub mod ends;
pub mod fitted;
pub mod leads;
pub mod measure;
pub mod prepare;
