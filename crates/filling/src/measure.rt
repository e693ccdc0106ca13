//! The longest lengths to and from every node: each lead is visited once, by the links at its head.
ghost use Rattle.std.specs.Prelude.{◌≡◌, ◌≤◌, length};
ghost use Rattle.wiring.specs.Net.{Sound};
ghost use Rattle.lengths.specs.Pairs.{FilledIn, PairRefilled};
ghost use Rattle.lengths.specs.Tables.{HoldsTo, HoldsFrom, Refilled};
ghost use Rattle.filling.specs.Leads.{LinkedLeads};

use crate::leads::link_leads;
use delay::Delay;
use lengths::measure::{Measure, longer};
use lengths::pair::LengthPair;
use lengths::table::Lengths;
use marks::follow::ArcsAt;
use marks::mark::Mark;
use wiring::{Wiring, turn_round};

/// Measures a wiring whose leads are linked at their nodes: it looks at the leads into a node alone.
#[derive(Clone, Copy)]
pub struct ByLinks<'a, W> {
    pub under: &'a W,
    pub nodes: &'a [Mark],
    pub places: &'a [Mark],
}

impl<D: Delay, W: Wiring<D>> Measure<D> for ByLinks<'_, W> {
    ghost net = { λ m. W.Wiring.net m.under.now };

    ghost ready = { λ m. LinkedLeads D.Delay.kind (W.Wiring.net m.under.now) m.nodes.now m.places.now };

    ghost sound = { λ _ r. r.sound };

    fn nodes(&self) -> usize {
        self.under.nodes()
    }

    fn length_at(&self, table: &[D], v: usize) -> D {
        let mut best: Option<D> = None;
        for k in ArcsAt::of_node(self.nodes, self.places, v, false) {
            if let Some(l) = self.under.lead(k as usize) {
                best = Some(longer(best, table[l.tail].plus(l.delay)));
            }
        }
        best.unwrap_or(D::zero())
    }
}

/// Links the leads of the wiring and fills the table with To of every node; entries past the nodes
/// stay, and so do the links.
// how long the parts are is a clause here and where else they are passed apart; for the whole it is `Fits`
pub fn measure_to<D: Delay, W: Wiring<D>>(
    w: &W,
    to: &mut Lengths<D>,
    nodes: &mut [Mark],
    places: &mut [Mark],
)
    requires sound { Sound D.Delay.kind (W.Wiring.net w.now) }
    requires nodes { length nodes.old ≡ (W.Wiring.net w.now).nodes }
    requires places { length places.old ≡ (W.Wiring.net w.now).places }
    requires room { (W.Wiring.net w.now).nodes ≤ length to.old.table.now }
    ensures filled { HoldsTo D.Delay.kind (W.Wiring.net w.now) to.new.table.now }
    ensures rest { Refilled (W.Wiring.net w.now).nodes to.old to.new }
    ensures linked { LinkedLeads D.Delay.kind (W.Wiring.net w.now) nodes.new places.new }
{
    link_leads(w, nodes, places);
    to.fill(&ByLinks {
        under: w,
        nodes,
        places,
    });
}

/// Fills the table with From of every node: To of the turned view, read backwards.
pub fn measure_from<D: Delay, W: Wiring<D>>(
    w: &W,
    from: &mut Lengths<D>,
    nodes: &mut [Mark],
    places: &mut [Mark],
)
    requires sound { Sound D.Delay.kind (W.Wiring.net w.now) }
    requires nodes { length nodes.old ≡ (W.Wiring.net w.now).nodes }
    requires places { length places.old ≡ (W.Wiring.net w.now).places }
    requires room { (W.Wiring.net w.now).nodes ≤ length from.old.table.now }
    ensures filled { HoldsFrom D.Delay.kind (W.Wiring.net w.now) from.new.table.now }
    ensures rest { Refilled (W.Wiring.net w.now).nodes from.old from.new }
{
    let turned = turn_round(w);
    measure_to(&turned, from, nodes, places);
    from.turn_back(w);
}

/// Fills both tables; the leads of the wiring are linked then.
pub(crate) fn measure_both<D: Delay, W: Wiring<D>>(
    w: &W,
    lengths: &mut LengthPair<D>,
    nodes: &mut [Mark],
    places: &mut [Mark],
)
    requires sound { Sound D.Delay.kind (W.Wiring.net w.now) }
    requires nodes { length nodes.old ≡ (W.Wiring.net w.now).nodes }
    requires places { length places.old ≡ (W.Wiring.net w.now).places }
    requires to_room { (W.Wiring.net w.now).nodes ≤ length lengths.old.to.table.now }
    requires from_room { (W.Wiring.net w.now).nodes ≤ length lengths.old.from.table.now }
    ensures filled { FilledIn D.Delay.kind (W.Wiring.net w.now) lengths.new }
    ensures rest { PairRefilled (W.Wiring.net w.now).nodes lengths.old lengths.new }
    ensures linked { LinkedLeads D.Delay.kind (W.Wiring.net w.now) nodes.new places.new }
{
    measure_from(w, &mut lengths.from, nodes, places);
    measure_to(w, &mut lengths.to, nodes, places);
}
