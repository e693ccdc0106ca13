//! The lengths to and from the nodes.
use crate::table::Lengths;

/// A table of the lengths to every node and one of the lengths from every node, both lent.
// that both are filled stays a clause: a type that says it would have to hold the wiring, and a pair is not filled
// when it is made
#[derive(Drop)]
pub struct LengthPair<'a, D> {
    pub to: Lengths<'a, D>,
    pub from: Lengths<'a, D>,
}
