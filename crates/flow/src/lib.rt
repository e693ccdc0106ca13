//! Loads on tables of arcs: what cuts show of them, and that a table has just one best loads.
//! Nothing here computes anything; the contract of each function is a theorem.
#![tactic(auto)]

ghost use Rattle.flow.specs.Claims.{CutIdentity, LoadWithinTotal, TightCutShowsLeast};
ghost use Rattle.flow.specs.Claims.{TightCutExists, SettledCutShowsFirst, OneBestOfTable, BestByTest};

/// What leaves a cut balances what enters it, and so no load is above the total.
pub fn cuts_balance()
    ensures identity { CutIdentity }
    ensures within { LoadWithinTotal }
{}

/// A total is least just where a tight cut shows it, and a cut shows that one load more is settled.
pub fn cut_shows_least()
    ensures shown { TightCutShowsLeast }
    ensures exists { TightCutExists }
    ensures first { SettledCutShowsFirst }
{}

/// There are best loads, and one only.
pub fn one_best()
    ensures { OneBestOfTable }
{}

/// Loads are shown to be best by a test that computes.
pub fn best_by_test()
    ensures { BestByTest }
{}
