//! All that the search for loads starts from.
ghost use Rattle.std.specs.Prelude.{◌≤◌};
ghost use Rattle.wiring.specs.Net.{Sound};
ghost use Rattle.lengths.specs.Pairs.{marks_held};
ghost use Rattle.marks.specs.Links.{Linked};
ghost use Rattle.filling.specs.Leads.{LinkedLeads};
ghost use Rattle.filling.specs.Ends.{HoldsArcs};
ghost use Rattle.filling.specs.Fitted.{Fits, Measured};

use crate::ends::link_ends;
use crate::fitted::Fitted;
use crate::measure::measure_both;
use delay::Delay;
use wiring::Wiring;

impl<D: Delay> Fitted<'_, '_, D> {
    /// Fills both length tables, and the marks with the leads, linked at their nodes.
    pub fn measure<W: Wiring<D>>(&mut self, w: &W)
        requires sound { Sound D.Delay.kind (W.Wiring.net w.now) }
        requires fits { Fits (W.Wiring.net w.now) self.old }
        ensures measured { Measured D.Delay.kind (W.Wiring.net w.now) self.old self.new }
        ensures linked { LinkedLeads D.Delay.kind (W.Wiring.net w.now) self.new.nodes.now self.new.places.now }
    {
        measure_both(w, self.lengths, self.nodes, self.places);
    }

    /// Fills both length tables, and the marks with the arcs of all leads, linked at their nodes.
    /// A wiring of fewer than two nodes has no lead, and is not to be prepared.
    pub fn prepare<W: Wiring<D>>(&mut self, w: &W)
        requires sound { Sound D.Delay.kind (W.Wiring.net w.now) }
        requires two { 2 ≤ (W.Wiring.net w.now).nodes }
        requires fits { Fits (W.Wiring.net w.now) self.old }
        ensures measured { Measured D.Delay.kind (W.Wiring.net w.now) self.old self.new }
        ensures arcs { HoldsArcs (W.Wiring.net w.now) (marks_held D.Delay.kind (W.Wiring.net w.now) self.new.lengths.now) self.new.places.now }
        ensures linked { Linked self.new.places.now self.new.nodes.now 0 }
    {
        self.measure(w);
        link_ends(w, self.lengths, self.nodes, self.places);
    }
}
