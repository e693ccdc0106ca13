//! Residual steps over the arcs of a table: along an arc, or against it.
ghost use Rattle.std.specs.Prelude.{◌≡◌, ◌<◌, true, length};
ghost use Rattle.flow.specs.Ways.{step_from, step_to};
ghost use Rattle.marks.specs.Marks.{load_of};
ghost use Rattle.marks.specs.Shown.{shown};
ghost use Rattle.loads.specs.Steps.{over, Free};

use marks::arcs::Arcs;
use marks::mark::Step;

/// The nodes that a step leads from and to.
pub fn step_ends(arcs: Arcs, step: Step) -> (usize, usize)
    requires { (shown arcs).arc step.place ≡ true }
    ensures from { result.0 ≡ step_from (shown arcs.entry) (over step.place step.along) }
    ensures to { result.1 ≡ step_to (shown arcs.entry) (over step.place step.along) }
{
    // by reference, so that only the two ends are read; and at every step of a search an answer that is never
    // given costs less than a stop that is never made
    let Some(arc) = &arcs.marks[step.place as usize].arc else {
        return (0, 0);
    };
    if step.along {
        (arc.begin as usize, arc.end as usize)
    } else {
        (arc.end as usize, arc.begin as usize)
    }
}

/// Whether a step is free: along an arc it always is, against it only where the load is more than 1,
/// since every arc keeps at least 1.
pub fn is_free(loads: &[u16], step: Step) -> bool
    requires { step.place < length loads.now }
    ensures only { result ≡ true → Free (load_of loads.now) step.place step.along }
    ensures whenever { Free (load_of loads.now) step.place step.along → result ≡ true }
{
    step.along || loads[step.place as usize] > 1
}
