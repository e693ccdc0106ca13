//! What is asked of a wiring once its two length tables are filled: the type of a lead, and the
//! longest path through it and of all.
ghost use Rattle.std.specs.Prelude.{◌≡◌, ◌≤◌, drop, Ok, Err};
ghost use Rattle.delay.specs.Kind.{level as level_of};
ghost use Rattle.lengths.specs.Check.{NotFilled};
ghost use Rattle.lengths.specs.Asked.{of_lead, TypeOf, ThroughOf, LongestOf};
ghost use Rattle.lengths.specs.Pairs.{FilledIn, PairKept, PairRefilled, room_in, type_in, through_in};

use crate::check::check;
use crate::measure::longer;
use crate::pair::LengthPair;
use crate::table::FillError;
use delay::Delay;
use wiring::Wiring;

// Whether neither delay is below the other.
fn level<D: Delay>(x: D, y: D) -> bool
    ensures { result ≡ level_of D.Delay.kind x y }
{
    !x.below(y) && !y.below(x)
}

impl<D: Delay> LengthPair<'_, D> {
    /// The type of a lead as two marks, whether it drains and whether it is fed; nothing for a vacant
    /// place. The tables are only asked.
    pub fn classify<W: Wiring<D>>(&mut self, w: &W, place: usize) -> Option<(bool, bool)>
        ensures marks { result ≡ of_lead (type_in D.Delay.kind self.old) ((W.Wiring.net w.now).at place) }
        ensures types { FilledIn D.Delay.kind (W.Wiring.net w.now) self.old → TypeOf D.Delay.kind (W.Wiring.net w.now) place result }
        ensures kept { PairKept self.old self.new }
    {
        let lead = w.lead(place)?;
        let rest = lead.delay.plus(self.from.at(lead.head));
        let drains = level(rest, self.from.at(lead.tail));
        let run = self.to.at(lead.tail).plus(lead.delay);
        let fed = level(run, self.to.at(lead.head));
        Some((drains, fed))
    }

    /// The delay of a longest path through a lead; nothing for a vacant place.
    pub fn longest_through<W: Wiring<D>>(&mut self, w: &W, place: usize) -> Option<D>
        ensures delay { result ≡ of_lead (through_in D.Delay.kind self.old) ((W.Wiring.net w.now).at place) }
        ensures longest { FilledIn D.Delay.kind (W.Wiring.net w.now) self.old → ThroughOf D.Delay.kind (W.Wiring.net w.now) place result }
        ensures kept { PairKept self.old self.new }
    {
        let lead = w.lead(place)?;
        let rest = lead.delay.plus(self.from.at(lead.head));
        Some(self.to.at(lead.tail).plus(rest))
    }

    /// The delay of a longest path of all, as the longest over all leads; nothing where there is no lead.
    pub fn longest_path<W: Wiring<D>>(&mut self, w: &W) -> Option<D>
        ensures longest { FilledIn D.Delay.kind (W.Wiring.net w.now) self.old → LongestOf D.Delay.kind (W.Wiring.net w.now) result }
        ensures kept { PairKept self.old self.new }
    {
        let mut best: Option<D> = None;
        for place in 0..w.places() {
            if let Some(delay) = self.longest_through(w, place) {
                best = Some(longer(best, delay));
            }
        }
        best
    }

    /// Checks a wiring, fills both length tables, and answers the delay of a longest path, or nothing
    /// where there is no path. A refusal leaves both tables as they were.
    pub fn work_out<W: Wiring<D>>(&mut self, w: &W) -> Result<Option<D>, FillError>
        ensures answer { elim result [
          | Ok longest ↦ LongestOf D.Delay.kind (W.Wiring.net w.now) longest
              × FilledIn D.Delay.kind (W.Wiring.net w.now) self.new
              × ((W.Wiring.net w.now).nodes ≤ room_in self.old)
              × PairRefilled (W.Wiring.net w.now).nodes self.old self.new
          | Err e ↦ NotFilled D.Delay.kind (W.Wiring.net w.now) (room_in self.old) e
              × PairKept self.old self.new
        ] }
    {
        check(w)?;
        let nodes = w.nodes();
        if self.to.len() < nodes || self.from.len() < nodes {
            return Err(FillError::Short);
        }
        self.to.put_to(w);
        self.from.put_from(w);
        Ok(self.longest_path(w))
    }
}
