//! Walks from node to node by lowest leads, forwards until an output or backwards until an input.
ghost use Rattle.std.specs.Prelude.{◌≡◌, if◌then◌else◌};
ghost use Rattle.std.specs.Iterator.{at_most};
ghost use Rattle.wiring.specs.Lists.{tail_at, head_node};
ghost use Rattle.listing.specs.Walks.{Reached, way, nodes_on, StepTo, WalkFits, WalkPut};
ghost use Rattle.listing.specs.Shows.{types_in};

use crate::linked::LinkedWiring;
use crate::row::WordRow;
use delay::Delay;
use marks::link::link_of;
use wiring::Wiring;

/// The leads that a walk meets from a node on.
#[derive(Drop)]
pub(crate) struct Leads<'a, D: Delay, W: Wiring<D>> {
    pub linked: &'a LinkedWiring<'a, D, W>,
    pub node: usize,
    pub along: bool,
    ghost reached: { Reached (W.Wiring.net linked.now.wiring.now) along node },
}

impl<D: Delay, W: Wiring<D>> Iterator for Leads<'_, D, W> {
    type Item = u16;

    ghost next_gives = { λ s r t. StepTo (way (W.Wiring.net s.linked.now.wiring.now) (types_in s.linked.now.links) s.along) s.node r t.node × (t.linked.now ≡ s.linked.now) × (t.along ≡ s.along) };

    ghost remaining = { λ s. at_most (nodes_on (W.Wiring.net s.linked.now.wiring.now) s.along s.node) };

    fn next(&mut self) -> Option<u16> {
        let linked = self.linked;
        let lead = link_of(linked.links.nodes, self.node, self.along)?;
        self.node = linked.beyond(lead as usize, self.along);
        Some(lead)
    }
}

impl<D: Delay, W: Wiring<D>> LinkedWiring<'_, D, W> {
    /// The node to which a lead brings one: its head or, against the lead, its tail.
    pub(crate) fn beyond(&self, lead: usize, along: bool) -> usize
        ensures { result ≡ (if along then head_node (W.Wiring.net self.now.wiring.now) lead else tail_at (W.Wiring.net self.now.wiring.now) lead) }
    {
        match self.wiring.lead(lead) {
            Some(ends) if along => ends.head,
            Some(ends) => ends.tail,
            None => 0,
        }
    }

    /// Writes the leads of the walk from the node v.
    pub(crate) fn write_walk(&self, row: &mut WordRow, v: usize, along: bool)
        requires reached { Reached (W.Wiring.net self.now.wiring.now) along v }
        requires fits { WalkFits (way (W.Wiring.net self.now.wiring.now) (types_in self.now.links) along) v row.old }
        ensures { WalkPut (way (W.Wiring.net self.now.wiring.now) (types_in self.now.links) along) (λ js. js) v row.old row.new }
    {
        let leads = Leads {
            linked: self,
            node: v,
            along,
        };
        for lead in leads {
            row.push(lead);
        }
    }
}
