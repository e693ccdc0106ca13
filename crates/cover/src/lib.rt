//! Covering, best loads and lists of paths: what a list of paths must have that covers every lead,
//! and what shows that no shorter one does. Nothing here computes anything; the contract of each
//! function is a theorem for every kind of delay.
#![tactic(auto)]

ghost use Rattle.cover.specs.Claims.{CoveringIsLocal, LoadsAreArcLoads, LoadWithinTotal};
ghost use Rattle.cover.specs.Claims.{OneBestLoads, NoShorterList, WitnessOfCut, WitnessExists};

use delay::Delay;

/// Whether a path covers a lead is told at the lead, and covering passes between neighbours.
pub fn covering_is_local<D: Delay>()
    ensures { CoveringIsLocal D.Delay.kind }
{}

/// The loads of a wiring are the loads of its table of arcs, and none is above the total.
pub fn loads_are_arc_loads<D: Delay>()
    ensures same { LoadsAreArcLoads D.Delay.kind }
    ensures within { LoadWithinTotal D.Delay.kind }
{}

/// A sound wiring has types and best loads, one of each.
pub fn one_best_loads<D: Delay>()
    ensures { OneBestLoads D.Delay.kind }
{}

/// No list of paths that covers every lead is shorter than the total of the best loads.
pub fn no_shorter_list<D: Delay>()
    ensures { NoShorterList D.Delay.kind }
{}

/// Best loads have a witness: as many leads as the total says, no two of them covered by one path.
pub fn witness_exists<D: Delay>()
    ensures of_cut { WitnessOfCut D.Delay.kind }
    ensures exists { WitnessExists D.Delay.kind }
{}
