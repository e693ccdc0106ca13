//! The tables that a choice fills, cut to the size of a wiring.
use lengths::pair::LengthPair;
use marks::mark::Mark;

/// Both length tables, with a length for each node, and the marks, as many as there are nodes and
/// places.
// that the wiring is sound stays a clause: a struct round any wiring would carry the kind beside it and give the
// three answers of a wiring again
#[derive(Drop)]
pub struct Fitted<'t, 'a, D> {
    pub lengths: &'t mut LengthPair<'a, D>,
    pub nodes: &'t mut [Mark],
    pub places: &'t mut [Mark],
}
