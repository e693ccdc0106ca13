//! Best loads, lists and witnesses of wirings, on lent tables: nothing here allocates.
#![tactic(auto)]

pub mod best;
pub mod list;
pub mod tables;
