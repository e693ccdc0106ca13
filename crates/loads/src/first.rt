//! Loads to begin with: for each arc that has none yet, 1 more along a chain through it.
ghost use Rattle.std.specs.Prelude.{◌≡◌, ℕ, ◌<◌, ◌≤◌, true, [], ◌∷◌, length, is_some};
ghost use Rattle.flow.specs.Chains.{raised};
ghost use Rattle.flow.specs.Loads.{Loads, total};
ghost use Rattle.flow.specs.Table.{Joined};
ghost use Rattle.flow.specs.Ways.{step_from, step_to};
ghost use Rattle.marks.specs.Links.{link_at, Linked};
ghost use Rattle.marks.specs.Marks.{load_of};
ghost use Rattle.marks.specs.Shown.{shown};
ghost use Rattle.marks.proofs.Linking.{linked_prop};
ghost use Rattle.loads.specs.Raise.{RaisedOn, RaisedThrough, far_end};
ghost use Rattle.loads.specs.Steps.{over};

use super::step::step_ends;
use marks::arcs::Arcs;
use marks::link::link_of;
use marks::mark::{Mark, Step};

/// Puts no load at any place.
pub fn clear(loads: &mut [u16])
    ensures { (k : ℕ) → load_of loads.new k ≡ 0 }
{
    loads.fill(0);
}

/// The node at which a chain ends that is followed along its arcs, or against them.
fn last_node(arcs: Arcs, along: bool) -> usize
    ensures { result ≡ far_end (shown arcs.entry) along }
{
    if along { arcs.sink } else { arcs.source }
}

/// Loads of a table of arcs, while they are raised along chains. From the end of an arc that is not an
/// end of all chains another goes on.
#[derive(Drop)]
pub struct Raising<'a> {
    pub arcs: Arcs<'a>,
    pub nodes: &'a [Mark],
    pub loads: &'a mut [u16],
    pub ghost sized: { length nodes.now ≡ arcs.nodes },
    pub ghost loaded: { length loads.now ≡ length arcs.marks.now },
    pub ghost linked: { Linked arcs.marks.now nodes.now 0 } by { linked_prop arcs.marks.now nodes.now 0 },
    pub ghost joined: { ∥ Joined (shown arcs) ∥₁ },
}

impl Raising<'_> {
    ghost use Rattle.loads.specs.Stays.{Stays};

    /// Adds 1 to the load at the place `j`.
    fn raise(&mut self, j: usize)
        requires place { j < length self.old.arcs.marks.now }
        requires room { load_of self.old.loads.now j < 65535 }
        ensures stays { Stays self.old self.new }
        ensures raised { (k : ℕ) → load_of self.new.loads.now k ≡ raised (load_of self.old.loads.now) (j ∷ []) k }
    {
        self.loads[j] += 1;
    }

    /// The first arc that begins at the node `v` or, against, the first that ends there.
    fn first_arc(&self, v: usize, along: bool) -> u16
        requires node { v < self.now.arcs.nodes }
        requires some { is_some (link_at self.now.nodes.now along v) ≡ true }
        ensures arc { (shown self.now.arcs).arc result ≡ true }
        ensures from { step_from (shown self.now.arcs) (over result along) ≡ v }
    {
        link_of(self.nodes, v, along).unwrap()
    }

    /// Adds 1 to each load of a chain that goes on from a step over an arc: along the arcs to the sink,
    /// or against them to the source. It takes the first arc at each node.
    fn raise_on(&mut self, from: Step)
        requires arc { (shown self.old.arcs).arc from.place ≡ true }
        requires room { (j : ℕ) → load_of self.old.loads.now j ≤ 8192 }
        ensures stays { Stays self.old self.new }
        ensures raised { RaisedOn (shown self.old.arcs) (load_of self.old.loads.now) (load_of self.new.loads.now) from.along (step_to (shown self.old.arcs) (over from.place from.along)) (far_end (shown self.old.arcs) from.along) }
    {
        let along = from.along;
        let last = last_node(self.arcs, along);
        let mut v = step_ends(self.arcs, from).1;
        while v != last {
            let place = self.first_arc(v, along);
            self.raise(place as usize);
            v = step_ends(self.arcs, Step { place, along }).1;
        }
    }

    /// Adds 1 to each load of a chain from the source to the sink through the arc at `k`.
    fn raise_through(&mut self, k: usize)
        requires arc { (shown self.old.arcs).arc k ≡ true }
        requires room { (j : ℕ) → load_of self.old.loads.now j ≤ 4096 }
        ensures stays { Stays self.old self.new }
        ensures raised { RaisedThrough (shown self.old.arcs) (load_of self.old.loads.now) (load_of self.new.loads.now) k }
    {
        let place = k as u16;
        self.raise(k);
        self.raise_on(Step { place, along: true });
        self.raise_on(Step {
            place,
            along: false,
        });
    }

    /// Fills the load table with loads whose total is at most the number of places.
    pub fn first_loads(&mut self)
        ensures stays { Stays self.old self.new }
        ensures loads { Loads (shown self.old.arcs) (load_of self.new.loads.now) }
        ensures few { total (shown self.old.arcs) (load_of self.new.loads.now) ≤ length self.old.arcs.marks.now }
    {
        clear(self.loads);
        let marks = self.arcs.marks;
        for (k, mark) in marks.iter().enumerate() {
            if mark.arc.is_some() && self.loads[k] == 0 {
                self.raise_through(k);
            }
        }
    }
}
