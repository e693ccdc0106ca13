//! The arcs of a wiring with their links, and what is looked up along these.
ghost use Rattle.std.specs.Prelude.{◌≡◌, nat_lt};
ghost use Rattle.marks.specs.Marks.{load_of};
ghost use Rattle.marks.specs.Shown.{shown};
ghost use Rattle.listing.specs.Whole.{Whole, Whole-prop};
ghost use Rattle.listing.specs.Looks.{outer_arc, AtArc, FoundFrom};

use marks::arcs::Arcs;
use marks::follow::ArcsAt;
use marks::mark::Mark;

/// The arcs of a wiring, and the entries of its nodes, which name the first arcs of each.
#[derive(Clone, Copy)]
pub struct Links<'a> {
    pub arcs: Arcs<'a>,
    pub nodes: &'a [Mark],
    pub ghost whole: { Whole arcs nodes.now } by { Whole-prop arcs nodes.now },
}

/// Whether the place has an end lead, which ends at the sink or, against the leads, a start lead,
/// which begins at the source.
pub(crate) fn is_outer(arcs: Arcs, place: usize, along: bool) -> bool
    ensures { result ≡ outer_arc (shown arcs.entry) along place }
{
    match arcs.marks.get(place).and_then(|mark| mark.arc) {
        Some(arc) if along => arc.end as usize == arcs.sink,
        Some(arc) => arc.begin as usize == arcs.source,
        None => false,
    }
}

/// Whether something is left at a place.
fn has_left(left: &[u16], place: usize) -> bool
    ensures { result ≡ nat_lt 0 (load_of left.now place) }
{
    left.get(place).is_some_and(|units| *units > 0)
}

impl Links<'_> {
    /// The lowest arc with something left among the arc `from` and those that follow it at its node.
    pub(crate) fn first_left(self, left: &[u16], from: Option<u16>) -> Option<u16>
        requires { AtArc (shown self.arcs) from }
        ensures { FoundFrom (shown self.entry.arcs) (load_of left.now) from result }
    {
        ArcsAt::from_link(self.arcs.marks, from, true).find(|place| has_left(left, *place as usize))
    }
}
