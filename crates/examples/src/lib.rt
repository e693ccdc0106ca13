//! Examples at the limits, orders of refusals, small wirings and their lists, as tests.
#![tactic(auto)]

#[cfg(test)]
mod kinds;
#[cfg(test)]
mod limits;
#[cfg(test)]
mod lists;
#[cfg(test)]
mod tables;
#[cfg(test)]
mod wirings;
