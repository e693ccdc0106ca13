//! Longest lengths to and from every node of a wiring, lead types, and the check before them.
#![tactic(auto)]

pub mod asked;
pub mod check;
pub mod measure;
pub mod pair;
pub mod table;
pub mod wording;
