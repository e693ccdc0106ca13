//! The survey of a wiring: lengths of all nodes, types of all leads and longest paths, as a value
//! that is proved, and as text.
#![tactic(auto)]

ghost use Rattle.std.specs.Prelude.{◌≡◌};
ghost use Rattle.survey.specs.declared.SurveyError.TheVariants.{NoMemory, Refused as RefusedBy};
ghost use Rattle.lengths.specs.declared.table.FillError.TheVariants.{Unsound};

use lengths::check::Fault;
use lengths::table::FillError;
use std::alloc::{AllocError, AllocFailed};
use std::error::Error;
use wiring::Lead;

pub mod reporting;
pub mod surveying;
pub mod text;

/// The lengths of one node.
#[derive(Clone, Copy)]
pub struct NodeRow<D> {
    pub to: D,
    pub from: D,
}

/// A lead with its type and the delay of a longest path through it.
#[derive(Clone, Copy)]
pub struct LeadRow<D> {
    pub lead: Lead<D>,
    // the two marks of its type
    pub drains: bool,
    pub fed: bool,
    pub longest: D,
}

/// What there is to tell of a wiring: a row a node, a row a place, and the delay of a longest path.
#[derive(Drop)]
pub struct Survey<D> {
    pub nodes: Vec<NodeRow<D>>,
    pub places: Vec<Option<LeadRow<D>>>,
    pub longest: Option<D>,
}

/// Why there is no survey.
#[derive(Clone, Copy, PartialEq, Eq, Debug)]
pub enum SurveyError {
    /// the wiring breaks a limit
    Refused(FillError),
    NoMemory,
}

impl Error for SurveyError {}

impl From<FillError> for SurveyError {
    ghost from_gives = { λ e r. r ≡ RefusedBy e };

    fn from(error: FillError) -> Self {
        SurveyError::Refused(error)
    }
}

impl From<Fault> for SurveyError {
    ghost from_gives = { λ f r. r ≡ RefusedBy (Unsound f) };

    fn from(fault: Fault) -> Self {
        SurveyError::Refused(FillError::Unsound(fault))
    }
}

impl From<AllocError> for SurveyError {
    ghost from_gives = { λ _ r. r ≡ NoMemory };

    fn from(_error: AllocError) -> Self {
        SurveyError::NoMemory
    }
}

impl<T: Drop> From<AllocFailed<T>> for SurveyError {
    ghost from_gives = { λ _ r. r ≡ NoMemory };

    fn from(_refused: AllocFailed<T>) -> Self {
        SurveyError::NoMemory
    }
}
