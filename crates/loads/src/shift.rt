//! Shifting loads along the way that a search found.
ghost use Rattle.std.specs.Prelude.{◌≡◌, ℕ, ◌+◌, ◌<◌, ◌≤◌, true, false, [], ◌∷◌, length};
ghost use Rattle.std.specs.List.{AllByRecursion};
ghost use Rattle.flow.specs.Ways.{Once, Shifted, Slack};
ghost use Rattle.flow.specs.Trails.{slack_of};
ghost use Rattle.marks.specs.Marks.{load_of};
ghost use Rattle.marks.specs.Shown.{shown};
ghost use Rattle.loads.specs.Search.{Sought};
ghost use Rattle.loads.specs.Steps.{over, Spare};
ghost use Rattle.loads.specs.Walk.{way_to};
ghost use Rattle.loads.specs.Way.{way_of};

use super::way::WayBack;
use marks::arcs::Arcs;
use marks::mark::{Mark, Step};

/// The most that can be shifted along a way: at most `most`, and at most what each load that is stepped
/// against can spare, which keeps 1.
fn slack(way: WayBack, loads: &[u16], most: u16) -> u16
    requires places { length loads.now ≡ length way.arcs.marks.now }
    requires spare { AllByRecursion (Spare (load_of loads.now)) (way_of way) }
    ensures { result ≡ slack_of (load_of loads.now) most (way_of way.entry) }
{
    let mut least = most;
    for step in way {
        if !step.along {
            least = least.min(loads[step.place as usize] - 1);
        }
    }
    least
}

/// Changes the load at the place of a step: by so much more along its arc, or less against it.
fn change(loads: &mut [u16], step: Step, by: u16)
    requires place { step.place < length loads.old }
    requires along { step.along ≡ true → load_of loads.old step.place + by < 65536 }
    requires against { step.along ≡ false → by ≤ load_of loads.old step.place }
    ensures { Shifted by (over step.place step.along ∷ []) (load_of loads.old) (load_of loads.new) }
{
    let k = step.place as usize;
    if step.along {
        loads[k] += by;
    } else {
        loads[k] -= by;
    }
}

/// Shifts the loads by `by` along a way.
fn shift(way: WayBack, loads: &mut [u16], by: u16)
    requires places { length loads.old ≡ length way.arcs.marks.now }
    requires once { Once (way_of way) }
    requires room { (k : ℕ) → load_of loads.old k + by < 65536 }
    requires slack { AllByRecursion (Slack by (load_of loads.old)) (way_of way) }
    ensures { Shifted by (way_of way.entry) (load_of loads.old) (load_of loads.new) }
{
    for step in way {
        change(loads, step, by);
    }
}

/// Shifts the loads along the way that a search found to the node `to` by the most that can be, at most
/// `most`. Answers how much.
pub fn shift_most(arcs: Arcs, nodes: &[Mark], to: usize, loads: &mut [u16], most: u16) -> u16
    requires places { length loads.old ≡ length arcs.marks.now }
    requires room { (k : ℕ) → load_of loads.old k + most < 65536 }
    requires sought { (low : ℕ) × (from : ℕ) × Sought (shown arcs) (load_of loads.old) low from to nodes.now true }
    ensures slack { result ≡ slack_of (load_of loads.old) most (way_to (shown arcs.entry) nodes.now to) }
    ensures shifted { Shifted result (way_to (shown arcs.entry) nodes.now to) (load_of loads.old) (load_of loads.new) }
{
    let way = WayBack {
        arcs,
        nodes,
        at: to,
    };
    let by = slack(way, loads, most);
    shift(way, loads, by);
    by
}
