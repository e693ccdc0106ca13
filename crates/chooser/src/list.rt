//! The list and the witness of a wiring.
ghost use Rattle.std.specs.Prelude.{◌≡◌, ◌+◌, ◌≤◌, length};
ghost use Rattle.wiring.specs.Net.{Sound};
ghost use Rattle.flow.specs.Loads.{Tight};
ghost use Rattle.lengths.specs.Pairs.{PairRefilled};
ghost use Rattle.marks.specs.Marks.{classes, load_of, reached_of};
ghost use Rattle.cover.specs.Arcs.{arc_table as arcs_in};
ghost use Rattle.filling.specs.Fitted.{Fits, Measured};
ghost use Rattle.chooser.specs.Ready.{Ready};
ghost use Rattle.chooser.specs.Written.{Rows};

use crate::best::{FEWEST_NODES, arcs_of, find_loads};
use crate::tables::Tables;
use delay::Delay;
use drawing::Counts;
use filling::fitted::Fitted;
use lengths::pair::LengthPair;
use listing::count::count_paths;
use listing::linked::LinkedWiring;
use listing::links::Links;
use loads::{Cut, mark_cut};
use marks::mark::Mark;
use std::marker::PhantomData;
use wiring::Wiring;
use wiring::refusals::Refusal;

/// From the best loads and a cut that shows their total to be the least: the size of the list, and then
/// list and witness are written, unless a row is too short.
fn write_rows<'a, D: Delay, W: Wiring<D>>(
    w: &'a W,
    nodes: &'a [Mark],
    places: &'a [Mark],
    loads: &mut [u16],
    words: &mut [u16],
    witness: &mut [u16],
) -> Result<Counts, Refusal>
    requires ready { Ready D.Delay.kind (W.Wiring.net w.now) nodes.now places.now loads.old }
    requires cut { Tight (arcs_in (W.Wiring.net w.now) (classes places.now)) (load_of loads.old) (reached_of nodes.now) }
    ensures { Rows D.Delay.kind (W.Wiring.net w.now) words.old witness.old words.new witness.new result }
{
    let arcs = arcs_of(places, nodes.len());
    let linked = LinkedWiring {
        wiring: w,
        links: Links { arcs, nodes },
        delays: PhantomData,
    };
    if linked.count_words(loads) > words.len() {
        return Err(Refusal::Room);
    }
    if count_paths(arcs, loads) > witness.len() {
        return Err(Refusal::Room);
    }
    let _leads = Cut { arcs, nodes }.write_witness(witness);
    Ok(linked.write_list(loads, words))
}

/// From the best loads: one more search marks the cut that shows their total to be the least, and then
/// list and witness are written, unless a row is too short.
fn write_found<D: Delay, W: Wiring<D>>(
    w: &W,
    nodes: &mut [Mark],
    places: &mut [Mark],
    loads: &mut [u16],
    words: &mut [u16],
    witness: &mut [u16],
) -> Result<Counts, Refusal>
    requires { Ready D.Delay.kind (W.Wiring.net w.now) nodes.old places.old loads.old }
    ensures { Rows D.Delay.kind (W.Wiring.net w.now) words.old witness.old words.new witness.new result }
{
    mark_cut(arcs_of(places, nodes.len()), nodes, loads);
    write_rows(w, nodes, places, loads, words, witness)
}

/// Finds the best loads of a wiring of two nodes or more, and writes its list and a witness.
fn draw_found<D: Delay, W: Wiring<D>>(
    w: &W,
    tables: &mut Fitted<D>,
    loads: &mut [u16],
    words: &mut [u16],
    witness: &mut [u16],
) -> Result<Counts, Refusal>
    requires sound { Sound D.Delay.kind (W.Wiring.net w.now) }
    requires two { 2 ≤ (W.Wiring.net w.now).nodes }
    requires fits { Fits (W.Wiring.net w.now) tables.old }
    requires loads { length loads.old ≡ (W.Wiring.net w.now).places }
    ensures rows { Rows D.Delay.kind (W.Wiring.net w.now) words.old witness.old words.new witness.new result }
    ensures measured { Measured D.Delay.kind (W.Wiring.net w.now) tables.old tables.new }
{
    find_loads(w, tables, loads);
    write_found(w, tables.nodes, tables.places, loads, words, witness)
}

/// The same, with the marks cut into those of the nodes and those of the places.
// cut here and for the loads: a function that hands out the parts of what it is lent is not followed by the checker
fn draw_on<D: Delay, W: Wiring<D>>(
    w: &W,
    lengths: &mut LengthPair<D>,
    marks: &mut [Mark],
    loads: &mut [u16],
    words: &mut [u16],
    witness: &mut [u16],
) -> Result<Counts, Refusal>
    requires sound { Sound D.Delay.kind (W.Wiring.net w.now) }
    requires two { 2 ≤ (W.Wiring.net w.now).nodes }
    requires to_room { (W.Wiring.net w.now).nodes ≤ length lengths.old.to.table.now }
    requires from_room { (W.Wiring.net w.now).nodes ≤ length lengths.old.from.table.now }
    requires marks { (W.Wiring.net w.now).nodes + (W.Wiring.net w.now).places ≤ length marks.old }
    requires loads { length loads.old ≡ (W.Wiring.net w.now).places }
    ensures rows { Rows D.Delay.kind (W.Wiring.net w.now) words.old witness.old words.new witness.new result }
    ensures rest { PairRefilled (W.Wiring.net w.now).nodes lengths.old lengths.new }
{
    let (nodes, rest) = marks.split_at_mut(w.nodes());
    let places = &mut rest[..w.places()];
    let mut tables = Fitted {
        lengths,
        nodes,
        places,
    };
    draw_found(w, &mut tables, loads, words, witness)
}

impl<D: Delay> Tables<'_, D> {
    ghost use Rattle.wiring.specs.Net.{Sound};
    ghost use Rattle.drawing.specs.Room.{RoomFor};
    ghost use Rattle.chooser.specs.Sizes.{sizes, SameLent};
    ghost use Rattle.chooser.specs.Written.{Rows};

    /// Finds the best loads of a wiring and writes its list and a witness, unless a row is too short for
    /// them; the four tables are scratch. The wiring is sound and the tables are long enough.
    pub fn draw_list<W: Wiring<D>>(
        &mut self,
        w: &W,
        words: &mut [u16],
        witness: &mut [u16],
    ) -> Result<Counts, Refusal>
        requires sound { Sound D.Delay.kind (W.Wiring.net w.now) }
        requires room { RoomFor (W.Wiring.net w.now) (sizes self.old) }
        ensures rows { Rows D.Delay.kind (W.Wiring.net w.now) words.old witness.old words.new witness.new result }
        ensures lent { SameLent self.old self.new }
    {
        if w.nodes() < FEWEST_NODES {
            return Ok(Counts { paths: 0, words: 0 });
        }
        let loads = &mut self.loads[..w.places()];
        draw_on(w, &mut self.lengths, self.marks, loads, words, witness)
    }
}
