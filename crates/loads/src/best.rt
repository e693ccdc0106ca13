//! Loads turned into the best loads: first the total is brought down to the least, then, with the total
//! and the loads below it kept, the load of each place in ascending number.
ghost use Rattle.std.specs.Prelude.{◌≡◌, ℕ, ◌+◌, ◌<◌, ◌≤◌, true, false, length, Some};
ghost use Rattle.std.proofs.Props.{props};
ghost use Rattle.flow.specs.Loads.{Loads, Best, total};
ghost use Rattle.marks.specs.Links.{Linked};
ghost use Rattle.marks.specs.Marks.{arc_of, load_of, reached_of};
ghost use Rattle.marks.specs.Shown.{shown};
ghost use Rattle.marks.proofs.Linking.{linked_prop};
ghost use Rattle.loads.specs.Search.{Queued, Sought};
ghost use Rattle.loads.specs.Settle.{loads_prop, Reduced, Lowered, SettledTo};

use super::search::{forget_all, forget_queued, search_fresh};
use super::shift::shift_most;
use marks::arcs::Arcs;
use marks::mark::{Arc, Mark};

/// No load is above the total, which is at most this.
const MOST: u16 = 4096;

/// Loads of a table of arcs, while they are turned into the best loads. What a search leaves is kept at
/// the nodes.
#[derive(Drop)]
pub struct Settling<'a> {
    pub arcs: Arcs<'a>,
    pub nodes: &'a mut [Mark],
    pub loads: &'a mut [u16],
    /// How many nodes the last search has in its queue, where one was made here.
    pub last: Option<usize>,
    pub ghost sized: { length nodes.now ≡ arcs.nodes },
    pub ghost loaded: { length loads.now ≡ length arcs.marks.now },
    pub ghost linked: { Linked arcs.marks.now nodes.now 0 } by { linked_prop arcs.marks.now nodes.now 0 },
    pub ghost queued: { (count : ℕ) → last ≡ Some count → Queued (shown arcs) nodes.now count } by { Prim.hlevel props },
    pub ghost balanced: { Loads (shown arcs) (load_of loads.now) } by { loads_prop (shown arcs) (load_of loads.now) },
    pub ghost few: { total (shown arcs) (load_of loads.now) ≤ 4096 },
}

// what a method leaves of what is lent stays a clause of each, here and elsewhere: no type can say it of a call
impl Settling<'_> {
    ghost use Rattle.loads.specs.Kept.{Kept};

    /// Forgets what the last search left.
    fn forget(&mut self)
        ensures kept { Kept self.old self.new }
        ensures loads { self.new.loads.now ≡ self.old.loads.now }
        ensures forgotten { (v : ℕ) → reached_of self.new.nodes.now v ≡ false }
    {
        let nodes = &mut *self.nodes;
        match self.last.take() {
            Some(count) => forget_queued(nodes, count),
            None => forget_all(nodes),
        }
    }

    /// Searches for a way of free steps from the node `from` to the node `to`, over the places from
    /// `low` on.
    fn search(&mut self, low: usize, from: usize, to: usize) -> bool
        requires from { from < self.old.arcs.nodes }
        requires to { to < self.old.arcs.nodes }
        ensures kept { Kept self.old self.new }
        ensures loads { self.new.loads.now ≡ self.old.loads.now }
        ensures sought { Sought (shown self.old.arcs) (load_of self.old.loads.now) low from to self.new.nodes.now result }
    {
        self.forget();
        let loads = &mut *self.loads;
        let searched = search_fresh(self.arcs, self.nodes, loads, low, from, to);
        self.last = Some(searched.queued);
        searched.found
    }

    /// Takes from the total what the way that a search found from the sink to the source allows.
    fn reduce_total(&mut self)
        requires { Sought (shown self.old.arcs) (load_of self.old.loads.now) 0 self.old.arcs.sink self.old.arcs.source self.old.nodes.now true }
        ensures kept { Kept self.old self.new }
        ensures reduced { Reduced (shown self.old.arcs) (load_of self.old.loads.now) (load_of self.new.loads.now) }
    {
        let nodes = &mut *self.nodes;
        let _by = shift_most(self.arcs, nodes, self.arcs.source, self.loads, MOST);
    }

    /// Takes from the load at the place `k` what the way that a search found from the begin of its arc
    /// to the end allows, and puts it on that way. The arc keeps at least 1.
    fn lower(&mut self, k: usize, arc: Arc)
        requires place { k < length self.old.arcs.marks.now }
        requires arc { arc_of self.old.arcs.marks.now k ≡ Some arc }
        requires spare { 2 ≤ load_of self.old.loads.now k }
        requires sought { Sought (shown self.old.arcs) (load_of self.old.loads.now) (k + 1) arc.begin arc.end self.old.nodes.now true }
        ensures kept { Kept self.old self.new }
        ensures lowered { Lowered (shown self.old.arcs) (load_of self.old.loads.now) (load_of self.new.loads.now) k }
    {
        let nodes = &mut *self.nodes;
        let loads = &mut *self.loads;
        let spare = loads[k] - 1;
        let by = shift_most(self.arcs, nodes, arc.end as usize, loads, spare);
        loads[k] -= by;
    }

    /// Brings the total down to the least: it is, once no way leads from the sink to the source.
    fn settle_total(&mut self)
        ensures kept { Kept self.old self.new }
        ensures settled { SettledTo (shown self.old.arcs) (load_of self.new.loads.now) 0 }
    {
        while self.search(0, self.arcs.sink, self.arcs.source) {
            self.reduce_total();
        }
    }

    /// Brings the load at the place `k` down to the least, with the total and the loads below `k` kept:
    /// so only ways over the places above `k` are searched.
    fn settle_lead(&mut self, k: usize)
        requires place { k < length self.old.arcs.marks.now }
        requires settled { SettledTo (shown self.old.arcs) (load_of self.old.loads.now) k }
        ensures kept { Kept self.old self.new }
        ensures settled { SettledTo (shown self.old.arcs) (load_of self.new.loads.now) (k + 1) }
    {
        let Some(arc) = self.arcs.marks[k].arc else {
            return;
        };
        while self.loads[k] > 1 {
            if !self.search(k + 1, arc.begin as usize, arc.end as usize) {
                return;
            }
            self.lower(k, arc);
        }
    }

    /// Turns the loads into the best loads.
    pub fn settle(&mut self)
        ensures kept { Kept self.old self.new }
        ensures best { Best (shown self.old.arcs) (load_of self.new.loads.now) }
    {
        self.settle_total();
        // by number: what is settled is the load at the number, and its arc is looked up there
        for k in 0..self.arcs.marks.len() {
            self.settle_lead(k);
        }
    }
}
