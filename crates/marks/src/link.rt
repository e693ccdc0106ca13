//! The arcs of each node, linked in ascending place number.
ghost use Rattle.std.specs.Prelude.{◌≡◌, ℕ, ◌<◌, ◌≤◌, true, length, Some, None};
ghost use Rattle.marks.specs.Marks.{arc_of};
ghost use Rattle.marks.specs.Links.{arc_at, begin_at, end_at, out_at, into_at, link_at, ArcsKept, Linked, PlaceLinked};

use super::mark::{Arc, Mark};

/// The link of an entry: of a node its lowest arc, of a place the next arc of the same node; of those
/// that begin at the node, or of those that end there.
// the direction is a value: a closure for the field would have to go through every caller of a walk
pub fn link_of(marks: &[Mark], entry: usize, along: bool) -> Option<u16>
    requires { entry < length marks.now }
    ensures { result ≡ link_at marks.now along entry }
{
    if along {
        marks[entry].out
    } else {
        marks[entry].into
    }
}

/// Takes every node's links away.
fn unlink(nodes: &mut [Mark])
    ensures { (v : ℕ) → v < length nodes.new → (out_at nodes.new v ≡ None) × (into_at nodes.new v ≡ None) }
{
    for node in nodes.iter_mut() {
        node.out = None;
        node.into = None;
    }
}

/// Puts the arc at the place `k` in front of the arcs of its nodes.
fn link_place(nodes: &mut [Mark], places: &mut [Mark], k: usize, arc: Arc)
    requires place { k < length places.old }
    requires small { k < 65536 }
    requires arc { arc_of places.old k ≡ Some arc }
    requires begin { arc.begin < length nodes.old }
    requires end { arc.end < length nodes.old }
    ensures { PlaceLinked places.old nodes.old places.new nodes.new k }
{
    let u = arc.begin as usize;
    let v = arc.end as usize;
    places[k] = Mark {
        out: nodes[u].out,
        into: nodes[v].into,
        ..places[k]
    };
    nodes[u].out = Some(k as u16);
    nodes[v].into = Some(k as u16);
}

/// Links the arcs of each node, from the lowest place up.
pub fn link_arcs(nodes: &mut [Mark], places: &mut [Mark])
    requires small { length places.old ≤ 4096 }
    requires within { (k : ℕ) → arc_at places.old k ≡ true → (begin_at places.old k < length nodes.old) × (end_at places.old k < length nodes.old) }
    ensures kept { ArcsKept places.old places.new }
    ensures linked { Linked places.new nodes.new 0 }
{
    unlink(nodes);
    // by number, since a link is the number of a place
    for k in (0..places.len()).rev() {
        if let Some(arc) = places[k].arc {
            link_place(nodes, places, k, arc);
        }
    }
}
