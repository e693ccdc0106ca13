//! Wirings: a number of nodes, a number of places, and at each place nothing or one lead.
#![tactic(auto)]

ghost use Rattle.std.specs.Prelude.{◌≡◌};
ghost use Rattle.wiring.specs.Net.{Net};
ghost use Rattle.wiring.specs.Views.{table_net, turned_net, Turning};

pub mod refusals;

/// A lead from the node `tail` to the node `head`.
#[derive(Clone, Copy, PartialEq, Eq, Debug)]
pub struct Lead<D> {
    pub tail: usize,
    pub head: usize,
    pub delay: D,
}

/// A wiring with delays D. `net` is its meaning; all answers follow from it, nothing is refused,
/// and asking changes nothing.
pub trait Wiring<D> {
    ghost net: { Self → Net D };

    fn nodes(&self) -> usize
        ensures { result ≡ (net self.now).nodes };

    fn places(&self) -> usize
        ensures { result ≡ (net self.now).places };

    /// The lead at a place, or nothing where the place is vacant or past the last.
    fn lead(&self, place: usize) -> Option<Lead<D>>
        ensures { result ≡ (net self.now).at place };
}

/// The table of lead records: one entry a place.
#[derive(Clone, Copy)]
pub struct Table<'a, D> {
    pub nodes: usize,
    pub leads: &'a [Option<Lead<D>>],
}

impl<D: Copy> Wiring<D> for Table<'_, D> {
    ghost net = { λ t. table_net t.nodes t.leads.now };

    fn nodes(&self) -> usize {
        self.nodes
    }

    fn places(&self) -> usize {
        self.leads.len()
    }

    fn lead(&self, place: usize) -> Option<Lead<D>> {
        *self.leads.get(place)?
    }
}

/// The turned view of a wiring of n nodes: node v becomes n-1-v, tail and head change places, and
/// a lead that is not in order is shown with both ends 0. To of the view is From of the wiring.
#[derive(Clone, Copy)]
pub struct Turned<'a, W> {
    under: &'a W,
}

/// Turns a wiring round. The view means the turned wiring, and what that says of runs, inputs,
/// outputs and lengths holds.
pub fn turn_round<D, W: Wiring<D>>(under: &W) -> Turned<'_, W>
    ensures under { result.under.now ≡ under.now }
    ensures turning { Turning (W.Wiring.net under.now) }
{
    Turned { under }
}

impl<D: Copy, W: Wiring<D>> Wiring<D> for Turned<'_, W> {
    ghost net = { λ t. turned_net (W.Wiring.net t.under.now) };

    fn nodes(&self) -> usize {
        self.under.nodes()
    }

    fn places(&self) -> usize {
        self.under.places()
    }

    fn lead(&self, place: usize) -> Option<Lead<D>> {
        let n = Self::nodes(self);
        let l = self.under.lead(place)?;
        if l.tail < l.head && l.head < n {
            Some(Lead {
                tail: n - 1 - l.head,
                head: n - 1 - l.tail,
                delay: l.delay,
            })
        } else {
            Some(Lead {
                tail: 0,
                head: 0,
                delay: l.delay,
            })
        }
    }
}
