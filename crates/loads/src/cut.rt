//! The cut that shows a total to be the least, and the witness that it gives.
ghost use Rattle.std.specs.Prelude.{◌≡◌, ◌<◌, ◌≤◌, ◌++◌, length, drop};
ghost use Rattle.flow.specs.Loads.{Best, Tight};
ghost use Rattle.flow.specs.Table.{entering};
ghost use Rattle.marks.specs.Links.{Linked};
ghost use Rattle.marks.specs.Marks.{load_of, reached_of};
ghost use Rattle.marks.specs.Shown.{shown};
ghost use Rattle.loads.specs.Cut.{entered};

use super::search::search;
use marks::arcs::Arcs;
use marks::mark::Mark;

/// Marks a cut of nodes that shows the total of best loads to be the least: as many arcs enter it. It is
/// what a search from the sink reaches; the source it cannot reach.
pub fn mark_cut(arcs: Arcs, nodes: &mut [Mark], loads: &[u16])
    requires nodes { length nodes.old ≡ arcs.nodes }
    requires places { length loads.now ≡ length arcs.marks.now }
    requires linked { Linked arcs.marks.now nodes.old 0 }
    requires best { Best (shown arcs) (load_of loads.now) }
    ensures tight { Tight (shown arcs.entry) (load_of loads.now) (reached_of nodes.new) }
    ensures linked { Linked arcs.entry.marks.now nodes.new 0 }
{
    let _found = search(arcs, nodes, loads, 0, arcs.sink, arcs.source);
}

/// The arcs of a wiring, and at its nodes the cut that a search marked.
#[derive(Clone, Copy)]
pub struct Cut<'a> {
    pub arcs: Arcs<'a>,
    pub nodes: &'a [Mark],
    pub ghost sized: { length nodes.now ≡ arcs.nodes },
}

impl Cut<'_> {
    /// Whether the place `k` has an arc that enters the cut.
    fn is_entered_at(&self, k: usize) -> bool
        requires { k < length self.now.arcs.marks.now }
        ensures { result ≡ entering (shown self.now.arcs) (reached_of self.now.nodes.now) k }
    {
        let nodes = self.nodes;
        let mark = self.arcs.marks[k];
        let Some(arc) = mark.arc else {
            return false;
        };
        nodes[arc.begin as usize].reached.is_none() && nodes[arc.end as usize].reached.is_some()
    }

    /// Writes the places whose arcs enter the cut to the front of a row, ascending, and answers how
    /// many they are.
    pub fn write_witness(&self, row: &mut [u16]) -> usize
        requires { length (entered (shown self.now.arcs) self.now.nodes.now) ≤ length row.old }
        ensures row { row.new ≡ entered (shown self.now.arcs) self.now.nodes.now ++ drop (length (entered (shown self.now.arcs) self.now.nodes.now)) row.old }
        ensures count { result ≡ length (entered (shown self.now.arcs) self.now.nodes.now) }
    {
        // counted by hand: of entries written through `iter_mut` and `zip` nothing is known afterwards
        let mut count = 0;
        for k in 0..self.arcs.marks.len() {
            if self.is_entered_at(k) {
                row[count] = k as u16;
                count += 1;
            }
        }
        count
    }
}
