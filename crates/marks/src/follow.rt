//! The arcs of a node, one after another by their links.
ghost use Rattle.std.specs.Prelude.{◌≡◌, ℕ, ◌<◌, true, length, Some};
ghost use Rattle.std.specs.Iterator.{YieldsFirst, item_count};
ghost use Rattle.std.proofs.Props.{props};
ghost use Rattle.marks.specs.Links.{arc_at, Linked};
ghost use Rattle.marks.specs.Follow.{arcs_from, arcs_of, Chained};

use super::link::link_of;
use super::mark::Mark;

/// The arcs of a node in ascending place number, those that begin there or, against, those that end
/// there.
#[derive(Drop)]
pub struct ArcsAt<'a> {
    pub places: &'a [Mark],
    pub next: Option<u16>,
    pub along: bool,
    pub ghost chained: { Chained places.now along } by { Prim.hlevel props },
    pub ghost at: { (k : ℕ) → next ≡ Some k → arc_at places.now k ≡ true },
}

impl<'a> ArcsAt<'a> {
    ghost use Rattle.marks.specs.Left.{left};

    /// All arcs of the node `v`.
    pub fn of_node(nodes: &[Mark], places: &'a [Mark], v: usize, along: bool) -> Self
        requires linked { Linked places.now nodes.now 0 }
        requires node { v < length nodes.now }
        ensures { left result ≡ arcs_of places.now along v }
    {
        ArcsAt {
            places,
            next: link_of(nodes, v, along),
            along,
        }
    }

    /// The arcs from the one that `link` names on, of the same node.
    pub fn from_link(places: &'a [Mark], link: Option<u16>, along: bool) -> Self
        requires chained { Chained places.now along }
        requires at { (k : ℕ) → link ≡ Some k → arc_at places.now k ≡ true }
        ensures { left result ≡ arcs_from places.now along link }
    {
        ArcsAt {
            places,
            next: link,
            along,
        }
    }
}

impl Iterator for ArcsAt<'_> {
    type Item = u16;

    ghost use Rattle.marks.specs.Left.{left};

    ghost next_gives = { YieldsFirst left };

    ghost remaining = { item_count left };

    fn next(&mut self) -> Option<u16> {
        let k = self.next?;
        self.next = link_of(self.places, k as usize, self.along);
        Some(k)
    }
}
