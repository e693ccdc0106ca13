//! The size of the list, counted before anything is written.
ghost use Rattle.std.specs.Prelude.{◌≡◌, length};
ghost use Rattle.flow.specs.Loads.{total};
ghost use Rattle.marks.specs.Marks.{load_of};
ghost use Rattle.marks.specs.Shown.{shown};
ghost use Rattle.listing.specs.Shows.{types_in};
ghost use Rattle.listing.specs.Costs.{Extends, Cost, WordsNumber};

use crate::linked::LinkedWiring;
use crate::links::is_outer;
use crate::walk::Leads;
use delay::Delay;
use marks::arcs::Arcs;
use wiring::Wiring;

/// The number of paths of the list: what is left of the loads of the start leads.
pub fn count_paths(arcs: Arcs, left: &[u16]) -> usize
    requires { length left.now ≡ length arcs.marks.now }
    ensures { result ≡ total (shown arcs.entry) (load_of left.now) }
{
    // a loop: of a filtered chain's sum nothing is found that bounds it or says what it is
    let mut paths = 0;
    for (place, units) in left.iter().enumerate() {
        if is_outer(arcs, place, false) {
            paths += *units as usize;
        }
    }
    paths
}

impl<D: Delay, W: Wiring<D>> LinkedWiring<'_, D, W> {
    /// The number of leads that extend a core beyond the lead at a place: after it, if the core ends
    /// with it, or against the leads before it, if the core begins with it.
    fn extension(&self, place: usize, along: bool) -> usize
        ensures { Extends (W.Wiring.net self.now.wiring.now) (types_in self.now.links) along place result }
    {
        if is_outer(self.links.arcs, place, along) {
            let node = self.beyond(place, along);
            let leads = Leads {
                linked: self,
                node,
                along,
            };
            leads.count()
        } else {
            0
        }
    }

    /// The number of words that each unit of the load at a place adds to the list: one for the lead and
    /// one for each that extends the core beyond it; at a start lead also the number of the path's leads.
    fn cost(&self, place: usize) -> usize
        ensures { Cost (W.Wiring.net self.now.wiring.now) (types_in self.now.links) place result }
    {
        let starts = is_outer(self.links.arcs, place, false);
        let own = if starts { 2 } else { 1 };
        own + self.extension(place, false) + self.extension(place, true)
    }

    /// The number of words of the list that is drawn from what is left.
    pub fn count_words(&self, left: &[u16]) -> usize
        requires { length left.now ≡ length self.now.links.arcs.marks.now }
        ensures { WordsNumber (W.Wiring.net self.now.wiring.now) (types_in self.now.links) (load_of left.now) result }
    {
        let mut words = 0;
        for (place, units) in left.iter().enumerate() {
            words += *units as usize * self.cost(place);
        }
        words
    }
}
