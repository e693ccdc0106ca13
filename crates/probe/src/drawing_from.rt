//! The list and a witness of a wiring that is given as a row of places, with tables made for it.
ghost use Rattle.std.specs.Prelude.{◌≡◌, map, IfOk};
ghost use Rattle.wiring.specs.Net.{Sound};
ghost use Rattle.probe.specs.Places.{lead_in, net_of};
ghost use Rattle.probe.specs.Drawn.{Drawn};

use crate::{Place, ProbeError};
use chooser::tables::Tables;
use delay::Delay;
use drawing::Counts;
use lengths::check::check;
use lengths::pair::LengthPair;
use lengths::table::Lengths;
use marks::mark::Mark;
use std::alloc::{AllocError, Global};
use wiring::{Lead, Table, Wiring};

// What stands at a place, as the kind reads it. A survey has its like, of a place with other fields: a trait
// over both would say no more than the literal does.
fn lead_of<D: Delay>(place: Place) -> Option<Lead<D>>
    ensures { result ≡ lead_in D.Delay.kind place }
{
    place.stands.then(|| Lead {
        tail: place.tail as usize,
        head: place.head as usize,
        delay: D::read(place.picoseconds, place.contacts),
    })
}

// The leads of all places: a function of its own, so that what the chain gives is known to its caller. Room for
// all is asked for first: where there is not so much, no lead is made.
fn leads_of<D: Delay>(heap: Global, places: &[Place]) -> Result<Vec<Option<Lead<D>>>, AllocError>
    ensures { IfOk result (λ v. v.items ≡ map (lead_in D.Delay.kind) places.now) }
{
    let mut leads = Vec::with_capacity(heap, places.len())?;
    leads.extend(places.iter().map(|place| lead_of::<D>(*place)))?;
    Ok(leads)
}

// Makes the four tables for a sound wiring, and writes its list and a witness.
fn draw_on<D: Delay, W: Wiring<D>>(
    heap: Global,
    w: &W,
    words: &mut [u16],
    witness: &mut [u16],
) -> Result<Counts, ProbeError>
    requires { Sound D.Delay.kind (W.Wiring.net w.now) }
    ensures { Drawn D.Delay.kind (W.Wiring.net w.now) words.old witness.old words.new witness.new result }
{
    let mut to_row = vec![in heap; D::zero(); w.nodes()]?;
    let mut from_row = vec![in heap; D::zero(); w.nodes()]?;
    let mut loads = vec![in heap; 0u16; w.places()]?;
    let mut marks = vec![in heap; Mark::VACANT; w.nodes() + w.places()]?;
    let mut tables = Tables {
        lengths: LengthPair {
            to: Lengths::new(to_row.as_mut_slice()),
            from: Lengths::new(from_row.as_mut_slice()),
        },
        loads: loads.as_mut_slice(),
        marks: marks.as_mut_slice(),
    };
    Ok(tables.draw_list(w, words, witness)?)
}

/// Writes list and witness of the wiring that the places show, unless it breaks a limit, a row is too
/// short or memory is wanting; then both rows stay as they were.
pub fn draw_from<D: Delay>(
    heap: Global,
    nodes: usize,
    places: &[Place],
    words: &mut [u16],
    witness: &mut [u16],
) -> Result<Counts, ProbeError>
    ensures { Drawn D.Delay.kind (net_of D.Delay.kind nodes places.now) words.old witness.old words.new witness.new result }
{
    let leads = leads_of::<D>(heap, places)?;
    let wiring = Table {
        nodes,
        leads: leads.as_slice(),
    };
    // first, since the tables are as long as the node count says
    check::<D, Table<D>>(&wiring)?;
    draw_on::<D, Table<D>>(heap, &wiring, words, witness)
}
