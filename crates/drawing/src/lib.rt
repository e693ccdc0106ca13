//! The list of paths that is drawn from the best loads of a wiring: there is one, one only, and it
//! is a smallest cover. No function here computes anything; the contract of each is a theorem.
#![tactic(auto)]

ghost use Rattle.drawing.specs.Claims.{DrawingEnds, OneList, SameLeadsSameList};
ghost use Rattle.drawing.specs.Claims.{ListIsSmallestCover, ListByTest};
ghost use Rattle.drawing.specs.Rows.{RowsAreGiven};

use delay::Delay;

/// The number of paths on a list, and of its words.
#[derive(Clone, Copy, PartialEq, Eq, Debug)]
pub struct Counts {
    pub paths: usize,
    pub words: usize,
}

/// Drawing from loads is never stuck and ends, with as many paths as the total, and they cover
/// every lead.
pub fn drawing_ends<D: Delay>()
    ensures { DrawingEnds D.Delay.kind }
{}

/// A wiring and a kind have one list only, and the same leads have the same list.
pub fn one_list<D>()
    ensures one { OneList D }
    ensures same { SameLeadsSameList D }
{}

/// Every sound wiring has a list, and it is a smallest cover.
pub fn list_is_smallest_cover<D: Delay>()
    ensures { ListIsSmallestCover D.Delay.kind }
{}

/// Paths are shown to be the list by a test that computes.
pub fn list_by_test<D: Delay>()
    ensures { ListByTest D.Delay.kind }
{}

/// The definitions give the lists of nine small wirings.
pub fn rows_are_given()
    ensures { RowsAreGiven }
{}
