//! The tables that a choice works on.
use lengths::pair::LengthPair;
use marks::mark::Mark;

/// All tables that a choice works on, lent: the lengths to and from the nodes, the loads of the places,
/// and the marks of both.
#[derive(Drop)]
pub struct Tables<'a, D> {
    pub lengths: LengthPair<'a, D>,
    pub loads: &'a mut [u16],
    pub marks: &'a mut [Mark],
}
