//! The whole list.
ghost use Rattle.std.specs.Prelude.{◌≡◌, ℕ, ◌≤◌, List, length};
ghost use Rattle.wiring.specs.Loads.{Loads};
ghost use Rattle.wiring.specs.Lists.{Draws, words as words_of};
ghost use Rattle.marks.specs.Marks.{load_of};
ghost use Rattle.listing.specs.Shows.{types_in};
ghost use Rattle.listing.specs.Lists.{ListPut};

use crate::linked::LinkedWiring;
use crate::row::WordRow;
use delay::Delay;
use drawing::Counts;
use marks::link::link_of;
use wiring::Wiring;

impl<D: Delay, W: Wiring<D>> LinkedWiring<'_, D, W> {
    /// Writes the list that is drawn from what is left at the start of the row, and answers its number
    /// of paths and of words. Nothing is left then.
    pub fn write_list(&self, left: &mut [u16], row: &mut [u16]) -> Counts
        requires loads { Loads (W.Wiring.net self.now.wiring.now) (types_in self.now.links) (load_of left.old) }
        requires room { (ps : List (List ℕ)) → Draws (W.Wiring.net self.now.wiring.now) (types_in self.now.links) (load_of left.old) ps → length (words_of ps) ≤ length row.old }
        ensures list { ListPut (W.Wiring.net self.now.wiring.now) (types_in self.now.links) (load_of left.old) row.old row.new result }
        ensures none { (k : ℕ) → load_of left.new k ≡ 0 }
    {
        let mut words = WordRow::new(row);
        // what is left changes as paths are drawn, so there is nothing to go over
        let mut paths = 0;
        let mut from = link_of(self.links.nodes, self.links.arcs.source, true);
        while let Some(start) = self.links.first_left(left, from) {
            self.write_path(left, &mut words, start);
            paths += 1;
            from = Some(start);
        }
        Counts {
            paths,
            words: words.len(),
        }
    }
}
