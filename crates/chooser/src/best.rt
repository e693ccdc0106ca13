//! The best loads of a wiring.
ghost use Rattle.std.specs.Prelude.{◌≡◌, ◌+◌, ◌-◌, ◌≤◌, length};
ghost use Rattle.wiring.specs.Net.{Sound};
ghost use Rattle.lengths.specs.Pairs.{FilledIn, PairRefilled};
ghost use Rattle.flow.specs.Loads.{Best};
ghost use Rattle.flow.specs.Table.{Joined};
ghost use Rattle.marks.specs.Links.{Linked};
ghost use Rattle.marks.specs.Marks.{table as table_of, load_of, ArcsSound, ArcsFit};
ghost use Rattle.marks.specs.Shown.{shown};
ghost use Rattle.filling.specs.Fitted.{Fits, Measured};
ghost use Rattle.chooser.specs.Loaded.{HoldsBest};
ghost use Rattle.chooser.specs.Ready.{Ready};

use crate::tables::Tables;
use delay::Delay;
use filling::fitted::Fitted;
use lengths::check::check;
use lengths::pair::LengthPair;
use lengths::table::FillError;
use listing::count::count_paths;
use loads::{Raising, Settling, clear};
use marks::arcs::Arcs;
use marks::mark::Mark;
use wiring::Wiring;

/// A wiring of fewer nodes has no lead.
pub(crate) const FEWEST_NODES: usize = 2;

/// The arcs that the filled places show: the source is the first node, the sink the last.
pub(crate) fn arcs_of(places: &[Mark], nodes: usize) -> Arcs<'_>
    requires sound { ArcsSound places.now nodes 0 (nodes - 1) }
    requires fits { ArcsFit places.now nodes 0 (nodes - 1) }
    ensures shown { shown result ≡ table_of places.now nodes 0 (nodes - 1) }
    ensures places { result.marks.now ≡ places.now }
    ensures nodes { result.nodes ≡ nodes }
{
    Arcs {
        marks: places,
        nodes,
        source: 0,
        sink: nodes - 1,
    }
}

/// Finds the best loads of the arcs at the places: some loads first, and from them the best ones.
fn balance(nodes: &mut [Mark], places: &mut [Mark], loads: &mut [u16])
    requires sound { ArcsSound places.old (length nodes.old) 0 (length nodes.old - 1) }
    requires fits { ArcsFit places.old (length nodes.old) 0 (length nodes.old - 1) }
    requires loads { length loads.old ≡ length places.old }
    requires linked { Linked places.old nodes.old 0 }
    requires joined { Joined (table_of places.old (length nodes.old) 0 (length nodes.old - 1)) }
    ensures best { Best (table_of places.new (length nodes.new) 0 (length nodes.new - 1)) (load_of loads.new) }
    ensures linked { Linked places.new nodes.new 0 }
    ensures places { places.new ≡ places.old }
{
    let arcs = arcs_of(places, nodes.len());
    let mut raising = Raising { arcs, nodes, loads };
    raising.first_loads();
    let mut settling = Settling {
        arcs,
        nodes,
        loads,
        last: None,
    };
    settling.settle();
}

/// Fills the tables from a wiring of two nodes or more, and finds its best loads.
pub(crate) fn find_loads<D: Delay, W: Wiring<D>>(w: &W, tables: &mut Fitted<D>, loads: &mut [u16])
    requires sound { Sound D.Delay.kind (W.Wiring.net w.now) }
    requires two { 2 ≤ (W.Wiring.net w.now).nodes }
    requires fits { Fits (W.Wiring.net w.now) tables.old }
    requires loads { length loads.old ≡ (W.Wiring.net w.now).places }
    ensures measured { Measured D.Delay.kind (W.Wiring.net w.now) tables.old tables.new }
    ensures ready { Ready D.Delay.kind (W.Wiring.net w.now) tables.new.nodes.now tables.new.places.now loads.new }
{
    tables.prepare(w);
    balance(tables.nodes, tables.places, loads);
}

/// Fills the tables from a wiring and finds its best loads; answers their total.
fn settle_loads<D: Delay, W: Wiring<D>>(
    w: &W,
    lengths: &mut LengthPair<D>,
    marks: &mut [Mark],
    loads: &mut [u16],
) -> usize
    requires sound { Sound D.Delay.kind (W.Wiring.net w.now) }
    requires to_room { (W.Wiring.net w.now).nodes ≤ length lengths.old.to.table.now }
    requires from_room { (W.Wiring.net w.now).nodes ≤ length lengths.old.from.table.now }
    requires marks { (W.Wiring.net w.now).nodes + (W.Wiring.net w.now).places ≤ length marks.old }
    requires loads { length loads.old ≡ (W.Wiring.net w.now).places }
    ensures filled { FilledIn D.Delay.kind (W.Wiring.net w.now) lengths.new }
    ensures best { HoldsBest D.Delay.kind (W.Wiring.net w.now) loads.new result }
    ensures rest { PairRefilled (W.Wiring.net w.now).nodes lengths.old lengths.new }
{
    let (nodes, rest) = marks.split_at_mut(w.nodes());
    let places = &mut rest[..w.places()];
    let mut tables = Fitted {
        lengths,
        nodes,
        places,
    };
    // where there is no lead, there are not even two poles
    if w.nodes() < FEWEST_NODES {
        tables.measure(w);
        clear(loads);
        return 0;
    }
    find_loads(w, &mut tables, loads);
    count_paths(arcs_of(tables.places, w.nodes()), loads)
}

impl<D: Delay> Tables<'_, D> {
    ghost use Rattle.std.specs.Prelude.{◌≡◌, take, drop, Ok, Err};
    ghost use Rattle.lengths.specs.Asked.{Filled};
    ghost use Rattle.lengths.specs.Tables.{Refilled};
    ghost use Rattle.drawing.specs.Room.{RoomFor};
    ghost use Rattle.chooser.specs.Loaded.{HoldsBest, NotLoaded};
    ghost use Rattle.chooser.specs.Sizes.{sizes, SameLent, TablesKept};

    /// Checks a wiring, fills both length tables and the load table, and answers the total of the best
    /// loads. Entries past the nodes and past the places stay; the mark table is scratch. A refusal leaves
    /// all tables as they were: a fault of the wiring is told before a table that is too short.
    pub fn best_loads<W: Wiring<D>>(&mut self, w: &W) -> Result<usize, FillError>
        ensures answer { elim result [
          | Ok total ↦ FilledIn D.Delay.kind (W.Wiring.net w.now) self.new.lengths
              × HoldsBest D.Delay.kind (W.Wiring.net w.now) (take (W.Wiring.net w.now).places self.new.loads.now) total
              × RoomFor (W.Wiring.net w.now) (sizes self.old)
              × PairRefilled (W.Wiring.net w.now).nodes self.old.lengths self.new.lengths
              × (drop (W.Wiring.net w.now).places self.new.loads.now ≡ drop (W.Wiring.net w.now).places self.old.loads.now)
          | Err e ↦ NotLoaded D.Delay.kind (W.Wiring.net w.now) (sizes self.old) e
              × TablesKept self.old self.new
        ] }
        ensures lent { SameLent self.old self.new }
    {
        check(w)?;
        let nodes = w.nodes();
        let places = w.places();
        if self.lengths.to.len() < nodes || self.lengths.from.len() < nodes {
            return Err(FillError::Short);
        }
        if self.loads.len() < places || self.marks.len() < nodes + places {
            return Err(FillError::Short);
        }
        let loads = &mut self.loads[..places];
        Ok(settle_loads(w, &mut self.lengths, self.marks, loads))
    }
}
