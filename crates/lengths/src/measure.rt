//! Filling a row with longest lengths, node by node.
ghost use Rattle.std.specs.Prelude.{◌≡◌, ℕ, ◌-◌, ◌<◌, ◌≤◌, length, drop, slice_index_or};
ghost use Rattle.wiring.specs.Net.{Net, Sound};
ghost use Rattle.lengths.specs.Tables.{entry, HoldsTo};
ghost use Rattle.lengths.specs.Steps.{longer_of, LengthAt};

use delay::Delay;
use wiring::Wiring;

/// What tells the length of a node from the lengths of the nodes below it. How it finds the leads into
/// the node is its own matter; `net` is the wiring that it measures, `ready` what it needs for that.
pub trait Measure<D: Delay> {
    ghost net: { Self → Net D };

    ghost ready: { Self → Type 0 };

    fn nodes(&self) -> usize
        ensures { result ≡ (net self.now).nodes };

    fn length_at(&self, table: &[D], v: usize) -> D
        requires ready { ready self.now }
        requires room { (net self.now).nodes ≤ length table.now }
        requires inside { v < (net self.now).nodes }
        requires lower { (u : ℕ) → u < v → LengthAt D.Delay.kind (net self.now) (entry D.Delay.kind table.now) u (entry D.Delay.kind table.now u) }
        ensures { LengthAt D.Delay.kind (net self.now) (entry D.Delay.kind table.now) v result };

    ghost sound: { (m : Self) → ready m → Sound D.Delay.kind (net m) };
}

/// The longer of two delays, the first where they are level.
pub fn longer<D: Delay>(best: Option<D>, d: D) -> D
    ensures { result ≡ longer_of D.Delay.kind best d }
{
    match best {
        Some(b) => if b.below(d) { d } else { b },
        None => d,
    }
}

/// Measures any sound wiring: it looks at all places for the leads into a node.
#[derive(Clone, Copy)]
pub struct Scan<'a, W> {
    pub under: &'a W,
}

impl<D: Delay, W: Wiring<D>> Measure<D> for Scan<'_, W> {
    ghost net = { λ s. W.Wiring.net s.under.now };

    ghost ready = { λ s. Sound D.Delay.kind (W.Wiring.net s.under.now) };

    ghost sound = { λ _ S. S };

    fn nodes(&self) -> usize {
        self.under.nodes()
    }

    fn length_at(&self, table: &[D], v: usize) -> D {
        let mut best: Option<D> = None;
        for place in 0..self.under.places() {
            if let Some(l) = self.under.lead(place) {
                if l.head == v {
                    best = Some(longer(best, table[l.tail].plus(l.delay)));
                }
            }
        }
        best.unwrap_or(D::zero())
    }
}

/// Fills the first entries with To, node by node: leads run upwards, so what a node needs is there.
pub fn fill_row<D: Delay, M: Measure<D>>(measure: &M, table: &mut [D])
    requires ready { M.Measure.ready measure.now }
    requires room { (M.Measure.net measure.now).nodes ≤ length table.old }
    ensures filled { HoldsTo D.Delay.kind (M.Measure.net measure.now) table.new }
    ensures rest { drop (M.Measure.net measure.now).nodes table.new ≡ drop (M.Measure.net measure.now).nodes table.old }
{
    for v in 0..measure.nodes() {
        let d = measure.length_at(table, v);
        table[v] = d;
    }
}

/// Turns the first n entries round.
pub fn mirror_row<D>(table: &mut [D], n: usize)
    requires { n ≤ length table.old }
    ensures turned { (k : ℕ) (d : D) → k < n → slice_index_or table.new k d ≡ slice_index_or table.old (n - 1 - k) d }
    ensures rest { drop n table.new ≡ drop n table.old }
{
    table[..n].reverse();
}
