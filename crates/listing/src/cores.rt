//! Cores: the leads for whose sake a path is drawn, from a start lead to an end lead.
ghost use Rattle.std.specs.Prelude.{◌≡◌, ℕ, ◌≤◌, true};
ghost use Rattle.wiring.specs.Lists.{count_on, lowered};
ghost use Rattle.marks.specs.Marks.{load_of};
ghost use Rattle.marks.specs.Links.{Earliest};
ghost use Rattle.marks.specs.Shown.{shown};
ghost use Rattle.listing.specs.Looks.{begins_left};
ghost use Rattle.listing.specs.CoreWalks.{CoreFits, CorePut};

use crate::links::Links;
use crate::row::WordRow;
use marks::link::link_of;

impl Links<'_> {
    /// The lowest lead with something left that begins, as an arc, where the lead ends. At the sink, where
    /// a core ends, none begins.
    fn next_lead(self, left: &[u16], lead: u16) -> Option<u16>
        requires { (shown self.arcs).arc lead ≡ true }
        ensures { Earliest (begins_left (shown self.entry.arcs) (load_of left.now) ((shown self.entry.arcs).end lead)) 0 result }
    {
        let arc = self.arcs.marks[lead as usize].arc?;
        self.first_left(left, link_of(self.nodes, arc.end as usize, true))
    }

    /// Writes a core from its start lead on, and answers its last lead.
    pub(crate) fn write_core(self, left: &[u16], row: &mut WordRow, start: u16) -> u16
        requires arc { (shown self.arcs).arc start ≡ true }
        requires fits { CoreFits (shown self.arcs) (load_of left.now) start row.old }
        ensures { CorePut (shown self.entry.arcs) (load_of left.now) start row.old row.new result }
    {
        row.push(start);
        let mut lead = start;
        while let Some(next) = self.next_lead(left, lead) {
            row.push(next);
            lead = next;
        }
        lead
    }
}

/// Lowers what is left at each lead of a core by 1.
pub(crate) fn lower(left: &mut [u16], core: &[u16])
    requires { (k : ℕ) → count_on k core.now ≤ load_of left.old k }
    ensures { load_of left.new ≡ lowered (load_of left.old) core.now }
{
    for lead in core {
        left[*lead as usize] -= 1;
    }
}
