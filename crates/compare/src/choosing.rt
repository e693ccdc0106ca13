//! From the text of a wiring to its best loads and its list.
use chooser::tables::Tables;
use delay::{Contact, Delay, Early, Picoseconds};
use lengths::check::check;
use lengths::pair::LengthPair;
use lengths::table::{FillError, Lengths};
use marks::mark::Mark;
use netlist::{KindName, Netlist, read_netlist};
use std::alloc::Global;
use survey::SurveyError;
use survey::reporting::{ReportError, leads_of};
use wiring::{Table, Wiring};

/// The best load of each place, their total, the words of the list and the number of its paths.
#[derive(Drop)]
pub struct Choice {
    pub loads: Vec<u16>,
    pub total: usize,
    pub words: Vec<u16>,
    pub paths: usize,
}

// Finds the loads, and then the list on rows that are long enough: there are as many paths as the
// total says, and each has fewer leads than there are nodes.
fn choose_in<D: Delay, W: Wiring<D>>(
    heap: Global,
    w: &W,
    tables: &mut Tables<D>,
) -> Result<Choice, SurveyError> {
    let total = tables.best_loads(w)?;
    let loads = tables.loads.to_vec(heap)?;
    let mut words = vec![in heap; 0u16; total.saturating_mul(w.nodes())]?;
    let mut witness = vec![in heap; 0u16; total]?;
    let counts = tables
        .draw_list(w, words.as_mut_slice(), witness.as_mut_slice())
        .map_err(|_| FillError::Short)?;
    words.truncate(counts.words);
    Ok(Choice {
        loads,
        total,
        words,
        paths: counts.paths,
    })
}

// Best loads and list of a wiring.
fn choose_for<D: Delay, W: Wiring<D>>(heap: Global, w: &W) -> Result<Choice, SurveyError> {
    // first, since the tables below are as long as the node count says
    check(w)?;
    let mut to_row = vec![in heap; D::zero(); w.nodes()]?;
    let mut from_row = vec![in heap; D::zero(); w.nodes()]?;
    let mut loads = vec![in heap; 0u16; w.places()]?;
    let mut marks = vec![in heap; Mark::VACANT; w.nodes() + w.places()]?;
    let mut tables = Tables {
        lengths: LengthPair {
            to: Lengths::new(to_row.as_mut_slice()),
            from: Lengths::new(from_row.as_mut_slice()),
        },
        loads: loads.as_mut_slice(),
        marks: marks.as_mut_slice(),
    };
    choose_in(heap, w, &mut tables)
}

// Best loads and list of a netlist under one kind of delay.
fn choose_as<D: Delay>(heap: Global, list: &Netlist) -> Result<Choice, ReportError> {
    let leads = leads_of::<D>(heap, list.places.as_slice())?;
    let wiring = Table {
        nodes: list.nodes as usize,
        leads: leads.as_slice(),
    };
    Ok(choose_for::<D, Table<D>>(heap, &wiring)?)
}

/// Best loads and list of the wiring that a text describes.
pub fn choose(heap: Global, text: &[u8]) -> Result<Choice, ReportError> {
    let list = read_netlist(heap, text)?;
    // a match, as in a report: a trait with a generic method would be longer
    match list.kind {
        KindName::Late => choose_as::<Picoseconds>(heap, &list),
        KindName::Contact => choose_as::<Contact>(heap, &list),
        KindName::Early => choose_as::<Early<Picoseconds>>(heap, &list),
    }
}
