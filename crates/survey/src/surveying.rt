//! Makes the survey of a wiring.
ghost use Rattle.std.specs.Prelude.{◌≡◌, IfOk};
ghost use Rattle.lengths.specs.Pairs.{FilledIn, PairKept};
ghost use Rattle.survey.specs.Surveyed.{NodeTold, PlaceTold, Rows, Surveyed};

use crate::{LeadRow, NodeRow, Survey, SurveyError};
use delay::Delay;
use lengths::check::check;
use lengths::pair::LengthPair;
use lengths::table::Lengths;
use std::alloc::{AllocError, Global};
use wiring::Wiring;

// A row for each node.
fn node_rows<D: Delay, W: Wiring<D>>(
    heap: Global,
    w: &W,
    lengths: &mut LengthPair<D>,
) -> Result<Vec<NodeRow<D>>, AllocError>
    requires { FilledIn D.Delay.kind (W.Wiring.net w.now) lengths.old }
    ensures rows { IfOk result (λ v. Rows (NodeTold D.Delay.kind (W.Wiring.net w.now)) v.items (W.Wiring.net w.now).nodes) }
    ensures kept { PairKept lengths.old lengths.new }
{
    let mut rows = Vec::new(heap);
    for node in 0..w.nodes() {
        rows.push(NodeRow {
            to: lengths.to.at(node),
            from: lengths.from.at(node),
        })?;
    }
    Ok(rows)
}

// The row of a place.
fn place_row<D: Delay, W: Wiring<D>>(
    w: &W,
    lengths: &mut LengthPair<D>,
    place: usize,
) -> Option<LeadRow<D>>
    requires { FilledIn D.Delay.kind (W.Wiring.net w.now) lengths.old }
    ensures row { PlaceTold D.Delay.kind (W.Wiring.net w.now) place result }
    ensures kept { PairKept lengths.old lengths.new }
{
    let lead = w.lead(place)?;
    let (drains, fed) = lengths.classify(w, place)?;
    let longest = lengths.longest_through(w, place)?;
    Some(LeadRow {
        lead,
        drains,
        fed,
        longest,
    })
}

// A row for each place.
fn place_rows<D: Delay, W: Wiring<D>>(
    heap: Global,
    w: &W,
    lengths: &mut LengthPair<D>,
) -> Result<Vec<Option<LeadRow<D>>>, AllocError>
    requires { FilledIn D.Delay.kind (W.Wiring.net w.now) lengths.old }
    ensures { IfOk result (λ v. Rows (PlaceTold D.Delay.kind (W.Wiring.net w.now)) v.items (W.Wiring.net w.now).places) }
{
    let mut rows = Vec::new(heap);
    for place in 0..w.places() {
        rows.push(place_row(w, lengths, place))?;
    }
    Ok(rows)
}

/// Surveys a wiring for a kind of delay.
pub fn survey_of<D: Delay, W: Wiring<D>>(heap: Global, w: &W) -> Result<Survey<D>, SurveyError>
    ensures { Surveyed D.Delay.kind (W.Wiring.net w.now) result }
{
    // first, since the tables below are as long as the node count says
    check(w)?;
    let mut to_row = vec![in heap; D::zero(); w.nodes()]?;
    let mut from_row = vec![in heap; D::zero(); w.nodes()]?;
    let mut lengths = LengthPair {
        to: Lengths::new(to_row.as_mut_slice()),
        from: Lengths::new(from_row.as_mut_slice()),
    };
    let longest = lengths.work_out(w)?;
    let nodes = node_rows(heap, w, &mut lengths)?;
    let places = place_rows(heap, w, &mut lengths)?;
    Ok(Survey {
        nodes,
        places,
        longest,
    })
}
