//! The best loads of a table of arcs, settled on lent slices, and the cut that shows their total to be
//! the least. Once the arcs are linked, `Raising` fills the load table, `Settling` turns it into the
//! best loads, `mark_cut` marks the cut, and `Cut::write_witness` lists the arcs that enter it.
#![tactic(auto)]

mod best;
mod cut;
mod first;
mod search;
mod shift;
mod step;
mod way;

pub use best::Settling;
pub use cut::{Cut, mark_cut};
pub use first::{Raising, clear};
