//! One path: its core, and what extends it on both sides.
ghost use Rattle.std.specs.Prelude.{◌≡◌, true, reverse};
ghost use Rattle.wiring.specs.Net.{has_lead_out};
ghost use Rattle.wiring.specs.Lists.{backwards};
ghost use Rattle.marks.specs.Marks.{load_of};
ghost use Rattle.listing.specs.Shows.{types_in};
ghost use Rattle.listing.specs.Walks.{WalkFits, WalkPut};
ghost use Rattle.listing.specs.Paths.{PathFits, PathPut};

use crate::cores::lower;
use crate::linked::LinkedWiring;
use crate::row::WordRow;
use delay::Delay;
use wiring::Wiring;

impl<D: Delay, W: Wiring<D>> LinkedWiring<'_, D, W> {
    /// Writes the leads that lie backwards from the node v in the order of a path.
    fn write_behind(&self, row: &mut WordRow, v: usize)
        requires reached { has_lead_out (W.Wiring.net self.now.wiring.now) v ≡ true }
        requires fits { WalkFits (backwards (W.Wiring.net self.now.wiring.now) (types_in self.now.links)) v row.old }
        ensures { WalkPut (backwards (W.Wiring.net self.now.wiring.now) (types_in self.now.links)) reverse v row.old row.new }
    {
        let from = row.len();
        self.write_walk(row, v, false);
        row.reverse_from(from);
    }

    /// Writes the path that begins with the start lead, behind the number of its leads, and lowers
    /// what is left along its core.
    pub(crate) fn write_path(&self, left: &mut [u16], row: &mut WordRow, start: u16)
        requires { PathFits (W.Wiring.net self.now.wiring.now) (types_in self.now.links) (load_of left.old) start row.old }
        ensures { PathPut (W.Wiring.net self.now.wiring.now) (types_in self.now.links) (load_of left.old) row.old (load_of left.new) row.new }
    {
        let count = row.len();
        // The number of leads is known only when they are written.
        row.push(0);
        self.write_behind(row, self.beyond(start as usize, false));
        let from = row.len();
        let stop = self.links.write_core(left, row, start);
        lower(left, row.words_from(from));
        self.write_walk(row, self.beyond(stop as usize, true), true);
        let leads = row.len() - count - 1;
        row.set(count, leads as u16);
    }
}
