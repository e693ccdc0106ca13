//! The search for a way of free steps, breadth first. It marks the nodes that it reaches, and keeps
//! its queue in the mark table too, so it needs no memory of its own. By the links it looks at every
//! node once and at every arc twice.
ghost use Rattle.std.specs.Prelude.{◌≡◌, ℕ, ◌<◌, ◌≤◌, true, false, length, ◌==◌};
ghost use Rattle.flow.specs.Ways.{step_from, step_to};
ghost use Rattle.flow.specs.Trails.{Shut};
ghost use Rattle.marks.specs.Links.{out_at, into_at, Linked};
ghost use Rattle.marks.specs.Marks.{load_of, reached_of, depth_of};
ghost use Rattle.marks.specs.Shown.{shown};
ghost use Rattle.loads.specs.Steps.{over, Free};
ghost use Rattle.marks.proofs.Linking.{linked_prop};
ghost use Rattle.loads.specs.Search.{queued_at, stepped_of, queued_prop, Finished, Followed, Queued, Reaches, Sought};

use super::step::{is_free, step_ends};
use marks::arcs::Arcs;
use marks::follow::ArcsAt;
use marks::mark::{Mark, Reached, Step};

/// Forgets what a search left, at all nodes.
pub fn forget_all(nodes: &mut [Mark])
    ensures forgotten { (v : ℕ) → reached_of nodes.new v ≡ false }
    ensures out { out_at nodes.new ≡ out_at nodes.old }
    ensures into { into_at nodes.new ≡ into_at nodes.old }
{
    for node in nodes.iter_mut() {
        node.reached = None;
    }
}

/// Forgets what a search left, at the nodes in its queue, which are all that it reached: most searches
/// reach few.
pub fn forget_queued(nodes: &mut [Mark], count: usize)
    requires room { count ≤ length nodes.old }
    requires inside { (i : ℕ) → i < count → queued_at nodes.old i < length nodes.old }
    requires all { (v : ℕ) → reached_of nodes.old v ≡ true → ∥ ((i : ℕ) × (i < count) × (queued_at nodes.old i ≡ v)) ∥₁ }
    ensures forgotten { (v : ℕ) → reached_of nodes.new v ≡ false }
    ensures out { out_at nodes.new ≡ out_at nodes.old }
    ensures into { into_at nodes.new ≡ into_at nodes.old }
{
    // by number: the queue is kept at the entries, and leads from one to another
    for i in 0..count {
        let v = nodes[i].queued as usize;
        nodes[v].reached = None;
    }
}

/// Begins a search at the node `from`, where nothing is reached yet.
fn begin_search(nodes: &mut [Mark], from: usize)
    requires node { from < length nodes.old }
    requires small { length nodes.old ≤ 4096 }
    requires fresh { (v : ℕ) → reached_of nodes.old v ≡ false }
    ensures reached { (v : ℕ) → reached_of nodes.new v ≡ (v == from) }
    ensures depth { depth_of nodes.new from ≡ 0 }
    ensures start { stepped_of nodes.new from ≡ false }
    ensures queued { queued_at nodes.new 0 ≡ from }
    ensures out { out_at nodes.new ≡ out_at nodes.old }
    ensures into { into_at nodes.new ≡ into_at nodes.old }
{
    nodes[from].reached = Some(Reached { depth: 0, by: None });
    nodes[0].queued = from as u16;
}

/// Reaches the node `v` from the node `u` by a step, and puts it into the queue.
fn reach(nodes: &mut [Mark], u: usize, v: usize, step: Step, count: usize)
    requires from { reached_of nodes.old u ≡ true }
    requires to { v < length nodes.old }
    requires queue { count < length nodes.old }
    requires small { length nodes.old ≤ 4096 }
    requires depth { depth_of nodes.old u < 4096 }
    ensures { Reaches nodes.old nodes.new u v (over step.place step.along) count }
{
    let depth = nodes[u].reached.unwrap().depth + 1;
    nodes[v].reached = Some(Reached {
        depth,
        by: Some(step),
    });
    nodes[count].queued = v as u16;
}

/// A search for a way of free steps, over the places from `low` on. The nodes reached are queued.
#[derive(Drop)]
struct Spread<'a> {
    arcs: Arcs<'a>,
    nodes: &'a mut [Mark],
    loads: &'a [u16],
    low: usize,
    /// How many nodes are in the queue.
    count: usize,
    ghost sized: { length nodes.now ≡ arcs.nodes },
    ghost loaded: { length loads.now ≡ length arcs.marks.now },
    ghost linked: { Linked arcs.marks.now nodes.now 0 } by { linked_prop arcs.marks.now nodes.now 0 },
    ghost queued: { Queued (shown arcs) nodes.now count } by { queued_prop (shown arcs) nodes.now count },
}

impl Spread<'_> {
    ghost use Rattle.loads.specs.Went.{Went};

    /// Makes a step from a node that is reached, if its place is from `low` on, the step is free and it
    /// reaches another node.
    fn step_over(&mut self, step: Step)
        requires arc { (shown self.old.arcs).arc step.place ≡ true }
        requires from { reached_of self.old.nodes.now (step_from (shown self.old.arcs) (over step.place step.along)) ≡ true }
        ensures went { Went self.old self.new }
        ensures reaches { self.old.low ≤ step.place → Free (load_of self.old.loads.now) step.place step.along → reached_of self.new.nodes.now (step_to (shown self.old.arcs) (over step.place step.along)) ≡ true }
    {
        if (step.place as usize) < self.low {
            return;
        }
        if !is_free(self.loads, step) {
            return;
        }
        // only now: most steps end above, and need no look at the arc
        let (u, v) = step_ends(self.arcs, step);
        let mark = self.nodes[v];
        if mark.reached.is_some() {
            return;
        }
        reach(self.nodes, u, v, step, self.count);
        self.count += 1;
    }

    /// Makes all the steps along the arcs that begin at the node `v`, or all those against the arcs
    /// that end there.
    fn follow(&mut self, v: usize, along: bool)
        requires { reached_of self.old.nodes.now v ≡ true }
        ensures went { Went self.old self.new }
        ensures followed { Followed (shown self.old.arcs) (load_of self.old.loads.now) self.old.low self.new.nodes.now v along (shown self.old.arcs).places }
    {
        let nodes = &mut *self.nodes;
        for place in ArcsAt::of_node(nodes, self.arcs.marks, v, along) {
            self.step_over(Step { place, along });
        }
    }

    /// Makes all the steps from the node that the queue has as number `done`.
    fn expand(&mut self, done: usize)
        requires { done < self.old.count }
        ensures went { Went self.old self.new }
        ensures finished { Finished (shown self.old.arcs) (load_of self.old.loads.now) self.old.low self.new.nodes.now (queued_at self.old.nodes.now done) }
    {
        let v = self.nodes[done].queued as usize;
        self.follow(v, true);
        self.follow(v, false);
    }

    /// Makes steps until the node `to` is reached or no step leads on, and answers whether it is reached.
    fn run(&mut self, to: usize) -> bool
        requires { to < self.old.arcs.nodes }
        ensures went { Went self.old self.new }
        ensures target { reached_of self.new.nodes.now to ≡ result }
        ensures shut { result ≡ false → Shut (shown self.old.arcs) (load_of self.old.loads.now) self.old.low (reached_of self.new.nodes.now) }
    {
        // counted by hand, since the queue grows as it is worked off
        let mut done = 0;
        while done < self.count {
            let mark = self.nodes[to];
            if mark.reached.is_some() {
                return true;
            }
            self.expand(done);
            done += 1;
        }
        let mark = self.nodes[to];
        mark.reached.is_some()
    }
}

/// What a search answers: whether it found a way, and how many nodes it has in its queue.
#[derive(Clone, Copy)]
pub struct Searched {
    pub found: bool,
    pub queued: usize,
}

/// Searches for a way of free steps from the node `from` to the node `to`, over the places from `low`
/// on, where nothing is reached yet. If there is a way, the marks tell it; if not, the nodes reached are
/// all that can be.
pub fn search_fresh(
    arcs: Arcs,
    nodes: &mut [Mark],
    loads: &[u16],
    low: usize,
    from: usize,
    to: usize,
) -> Searched
    requires nodes { length nodes.old ≡ arcs.nodes }
    requires places { length loads.now ≡ length arcs.marks.now }
    requires linked { Linked arcs.marks.now nodes.old 0 }
    requires fresh { (v : ℕ) → reached_of nodes.old v ≡ false }
    requires from { from < arcs.nodes }
    requires to { to < arcs.nodes }
    ensures sought { Sought (shown arcs.entry) (load_of loads.now) low from to nodes.new result.found }
    ensures queued { Queued (shown arcs.entry) nodes.new result.queued }
    ensures linked { Linked arcs.entry.marks.now nodes.new 0 }
{
    begin_search(nodes, from);
    let mut spread = Spread {
        arcs,
        nodes,
        loads,
        low,
        count: 1,
    };
    let found = spread.run(to);
    Searched {
        found,
        queued: spread.count,
    }
}

/// Searches for a way of free steps from the node `from` to the node `to`, over the places from `low`
/// on, whatever an earlier search left, and answers whether there is one. If so, the marks tell it; if
/// not, the nodes reached are all that can be.
pub fn search(
    arcs: Arcs,
    nodes: &mut [Mark],
    loads: &[u16],
    low: usize,
    from: usize,
    to: usize,
) -> bool
    requires nodes { length nodes.old ≡ arcs.nodes }
    requires places { length loads.now ≡ length arcs.marks.now }
    requires linked { Linked arcs.marks.now nodes.old 0 }
    requires from { from < arcs.nodes }
    requires to { to < arcs.nodes }
    ensures sought { Sought (shown arcs.entry) (load_of loads.now) low from to nodes.new result }
    ensures linked { Linked arcs.entry.marks.now nodes.new 0 }
{
    forget_all(nodes);
    search_fresh(arcs, nodes, loads, low, from, to).found
}
