//! Circuits under edit: the plain sheet and its calls, the sheet file, and the spread, in which
//! rising and falling edges have nodes and leads of their own. The definitions stand in specs/, and
//! each function here has what is proved of them for its contract.
#![tactic(auto)]

ghost use Rattle.circuit.specs.Claims.{HistoriesKeepLimits, RefusedCallsLeave, EditsChangeOnePlace, WrittenSheetsLoad};
ghost use Rattle.circuit.specs.Claims.{CallsJudgeInOrder, ExamplesStand, SpreadsAreSound, PathsArePairs};

use delay::Delay;

/// What a lead of a circuit costs: picoseconds for an edge that arrives rising and for one that
/// arrives falling, and contacts.
#[derive(Clone, Copy)]
pub struct Times {
    pub rise: u32,
    pub fall: u32,
    pub contacts: u8,
}

/// Of sheets: every history of calls keeps the limits; a refused call leaves the sheet as it was, or
/// empty if it was load and refused at a lead record; an accepted edit changes one place; a sheet
/// written to a file loads again; each call judges its rules in order; and the examples stand.
pub fn sheets_stand()
    ensures limits { HistoriesKeepLimits }
    ensures refusals { RefusedCallsLeave }
    ensures edits { EditsChangeOnePlace }
    ensures files { WrittenSheetsLoad }
    ensures orders { CallsJudgeInOrder }
    ensures examples { ExamplesStand }
{}

/// Of spreads, for every kind of delay: after every history of calls the spread is sound, and its
/// paths and the pairs of a circuit path and a launched edge stand for each other, one to one.
pub fn spreads_stand<D: Delay>()
    ensures sound { SpreadsAreSound D.Delay.kind }
    ensures pairs { PathsArePairs D.Delay.kind }
{}
