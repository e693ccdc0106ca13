//! The way that a search found, read back by the marks from its end.
ghost use Rattle.std.specs.Prelude.{◌≡◌, true};
ghost use Rattle.std.specs.Iterator.{YieldsFirstBy, item_count};
ghost use Rattle.marks.specs.Marks.{reached_of};
ghost use Rattle.marks.specs.Shown.{shown};
ghost use Rattle.loads.specs.Walk.{LeadsBack};

use super::step::step_ends;
use marks::arcs::Arcs;
use marks::mark::{Mark, Step};

/// The steps by which a search came to a node, the last one first.
#[derive(Clone, Copy)]
pub struct WayBack<'a> {
    pub arcs: Arcs<'a>,
    pub nodes: &'a [Mark],
    pub at: usize,
    pub ghost reached: { reached_of nodes.now at ≡ true },
    pub ghost back: { LeadsBack (shown arcs) nodes.now },
}

impl Iterator for WayBack<'_> {
    type Item = Step;

    ghost use Rattle.loads.specs.Way.{flow_step, steps_left};

    ghost next_gives = { YieldsFirstBy flow_step steps_left };

    ghost remaining = { item_count steps_left };

    fn next(&mut self) -> Option<Step> {
        let step = self.nodes[self.at].reached?.by?;
        self.at = step_ends(self.arcs, step).0;
        Some(step)
    }
}
