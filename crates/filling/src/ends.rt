//! Where the arc of a lead begins and ends: start leads begin at the source, end leads end at the
//! sink, any other end of a lead stays at its node. Between these ends loads just balance.
ghost use Rattle.std.specs.Prelude.{◌≡◌, ◌<◌, ◌≤◌, not, ◌||◌, length, is_some, if◌then◌else◌};
ghost use Rattle.lengths.specs.Pairs.{marks_held, FilledIn, PairKept};
ghost use Rattle.marks.specs.Links.{link_at, Linked};
ghost use Rattle.cover.specs.Arcs.{highest_node};
ghost use Rattle.filling.specs.Leads.{LinkedLeads, NodeLinks};
ghost use Rattle.filling.specs.Ends.{EndsOf, HoldsArcs};

use delay::Delay;
use lengths::pair::LengthPair;
use marks::link::{link_arcs, link_of};
use marks::mark::{Arc, Mark};
use wiring::Wiring;

// An end of an arc: the node itself, where a core may go on through it by its leads out or, against,
// by those into it; else the pole.
fn end_or_pole(nodes: &[Mark], inner: bool, node: usize, along: bool, pole: u16) -> u16
    requires inside { node < length nodes.now }
    requires small { length nodes.now ≤ 4096 }
    ensures { result ≡ (if not inner || not (is_some (link_at nodes.now along node)) then pole else node) }
{
    if inner && link_of(nodes, node, along).is_some() {
        node as u16
    } else {
        pole
    }
}

// The arc of the lead at a place, with the lead's type. A lead that does not drain, or whose tail has no
// lead in, is a start lead and begins at the source, node 0; one that is not fed, or whose head has no
// lead out, is an end lead and ends at the sink.
fn arc_at<D: Delay, W: Wiring<D>>(
    w: &W,
    lengths: &mut LengthPair<D>,
    nodes: &[Mark],
    k: usize,
    sink: u16,
) -> Option<Arc>
    requires filled { FilledIn D.Delay.kind (W.Wiring.net w.now) lengths.old }
    requires nodes { length nodes.now ≡ (W.Wiring.net w.now).nodes }
    requires links { NodeLinks (W.Wiring.net w.now) nodes.now }
    requires sink { sink ≡ highest_node (W.Wiring.net w.now) }
    ensures ends { EndsOf (W.Wiring.net w.now) (marks_held D.Delay.kind (W.Wiring.net w.now) lengths.old) k result }
    ensures kept { PairKept lengths.old lengths.new }
{
    let lead = w.lead(k)?;
    let (drains, fed) = lengths.classify(w, k)?;
    Some(Arc {
        begin: end_or_pole(nodes, drains, lead.tail, false, 0),
        end: end_or_pole(nodes, fed, lead.head, true, sink),
        class: (drains, fed),
    })
}

// Puts the arc of every lead at its place.
fn fill_arcs<D: Delay, W: Wiring<D>>(
    w: &W,
    lengths: &mut LengthPair<D>,
    nodes: &[Mark],
    places: &mut [Mark],
    sink: u16,
)
    requires filled { FilledIn D.Delay.kind (W.Wiring.net w.now) lengths.old }
    requires nodes { length nodes.now ≡ (W.Wiring.net w.now).nodes }
    requires links { NodeLinks (W.Wiring.net w.now) nodes.now }
    requires places { length places.old ≡ (W.Wiring.net w.now).places }
    requires sink { sink ≡ highest_node (W.Wiring.net w.now) }
    ensures arcs { HoldsArcs (W.Wiring.net w.now) (marks_held D.Delay.kind (W.Wiring.net w.now) lengths.old) places.new }
    ensures kept { PairKept lengths.old lengths.new }
{
    for (k, place) in places.iter_mut().enumerate() {
        *place = Mark {
            arc: arc_at(w, lengths, nodes, k, sink),
            ..Mark::VACANT
        };
    }
}

// Puts the arc of every lead at its place, and links the arcs of each node. The marks are passed apart: while one part
// of a lent struct is read, the checker cannot follow that another part is written.
pub(crate) fn link_ends<D: Delay, W: Wiring<D>>(
    w: &W,
    lengths: &mut LengthPair<D>,
    nodes: &mut [Mark],
    places: &mut [Mark],
)
    requires filled { FilledIn D.Delay.kind (W.Wiring.net w.now) lengths.old }
    requires two { 2 ≤ (W.Wiring.net w.now).nodes }
    requires linked { LinkedLeads D.Delay.kind (W.Wiring.net w.now) nodes.old places.old }
    ensures arcs { HoldsArcs (W.Wiring.net w.now) (marks_held D.Delay.kind (W.Wiring.net w.now) lengths.old) places.new }
    ensures linked { Linked places.new nodes.new 0 }
    ensures kept { PairKept lengths.old lengths.new }
{
    let sink = (w.nodes() - 1) as u16;
    fill_arcs(w, lengths, nodes, places, sink);
    link_arcs(nodes, places);
}
