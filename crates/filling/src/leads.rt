//! The leads of a wiring as arcs of the mark table, linked at their nodes.
ghost use Rattle.std.specs.Prelude.{◌≡◌, ◌<◌, length, Some};
ghost use Rattle.wiring.specs.declared.Lead.{Lead as LeadRecord};
ghost use Rattle.wiring.specs.Net.{Sound};
ghost use Rattle.marks.specs.Links.{Linked};
ghost use Rattle.filling.specs.Leads.{ArcOf, Leads, LinkedLeads};

use delay::Delay;
use marks::link::link_arcs;
use marks::mark::{Arc, Mark};
use wiring::{Lead, Wiring};

// The arc of a lead, from its tail to its head. Its type is not known yet.
fn lead_arc<D: Delay>(lead: Option<Lead<D>>) -> Option<Arc>
    requires { (l : LeadRecord D) → lead ≡ Some l → (l.tail < 65536) × (l.head < 65536) }
    ensures { ArcOf lead result }
{
    let lead = lead?;
    Some(Arc {
        begin: lead.tail as u16,
        end: lead.head as u16,
        class: (false, false),
    })
}

// Puts every lead at its place.
fn fill_leads<D: Delay, W: Wiring<D>>(w: &W, places: &mut [Mark])
    requires sound { Sound D.Delay.kind (W.Wiring.net w.now) }
    requires places { length places.old ≡ (W.Wiring.net w.now).places }
    ensures { Leads (W.Wiring.net w.now) places.new }
{
    for (k, place) in places.iter_mut().enumerate() {
        *place = Mark {
            arc: lead_arc(w.lead(k)),
            ..Mark::VACANT
        };
    }
}

/// Puts every lead at its place, and links the leads of each node, those out of it and those into it.
pub fn link_leads<D: Delay, W: Wiring<D>>(w: &W, nodes: &mut [Mark], places: &mut [Mark])
    requires sound { Sound D.Delay.kind (W.Wiring.net w.now) }
    requires nodes { length nodes.old ≡ (W.Wiring.net w.now).nodes }
    requires places { length places.old ≡ (W.Wiring.net w.now).places }
    ensures { LinkedLeads D.Delay.kind (W.Wiring.net w.now) nodes.new places.new }
{
    fill_leads(w, places);
    link_arcs(nodes, places);
}
