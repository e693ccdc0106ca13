//! The whole way from the text of a wiring to the text of its survey.
ghost use Rattle.std.specs.Prelude.{◌≡◌, map, IfOk, Some};
ghost use Rattle.survey.specs.declared.reporting.ReportError.TheVariants.{Text, Wiring as OfWiring};
ghost use Rattle.survey.specs.declared.SurveyError.TheVariants.{NoMemory};
ghost use Rattle.netlist.specs.Lines.{lines_of};
ghost use Rattle.survey.specs.Reported.{place_of, report_error_text, ReportedAs, Reported};

use crate::SurveyError;
use crate::surveying::survey_of;
use delay::{Contact, Delay, Early, Picoseconds};
use netlist::{KindName, Netlist, ReadError, Wire, read_netlist};
use std::alloc::{AllocError, Global};
use std::error::Error;
use std::fmt;
use wiring::{Lead, Table};

/// Why a text gets no report.
#[derive(Clone, Copy, PartialEq, Eq, Debug)]
pub enum ReportError {
    /// a line is not as it should be
    Text(ReadError),
    /// the wiring that was read is not surveyed
    Wiring(SurveyError),
}

impl Error for ReportError {}

impl From<ReadError> for ReportError {
    ghost from_gives = { λ e r. r ≡ Text e };

    fn from(error: ReadError) -> Self {
        ReportError::Text(error)
    }
}

impl From<SurveyError> for ReportError {
    ghost from_gives = { λ e r. r ≡ OfWiring e };

    fn from(error: SurveyError) -> Self {
        ReportError::Wiring(error)
    }
}

impl From<AllocError> for ReportError {
    ghost from_gives = { λ e r. r ≡ OfWiring NoMemory };

    fn from(_error: AllocError) -> Self {
        ReportError::Wiring(SurveyError::NoMemory)
    }
}

impl fmt::Display for ReportError {
    ghost output = { λ e. Some (report_error_text e) };

    fn fmt<W: fmt::Write>(&self, f: &mut fmt::Formatter<W>) -> fmt::Result {
        match self {
            ReportError::Text(error) => write!(f, "{error}"),
            ReportError::Wiring(error) => write!(f, "{error}"),
        }
    }
}

// What stands at a place, as the kind reads it. The probe has its like, of a place with other fields: a trait
// over both would say no more than the literal does.
fn lead_of<D: Delay>(place: Option<Wire>) -> Option<Lead<D>>
    ensures { result ≡ place_of D.Delay.kind place }
{
    place.map(|wire| Lead {
        tail: wire.tail as usize,
        head: wire.head as usize,
        delay: D::read(wire.picoseconds, wire.contacts),
    })
}

/// The leads of all places, as a kind reads them.
pub fn leads_of<D: Delay>(
    heap: Global,
    places: &[Option<Wire>],
) -> Result<Vec<Option<Lead<D>>>, AllocError>
    ensures { IfOk result (λ v. v.items ≡ map (place_of D.Delay.kind) places.now) }
{
    places
        .iter()
        .map(|place| lead_of::<D>(*place))
        .collect(heap)
}

// The report of a netlist under one kind of delay.
fn report_as<D: Delay + fmt::Display>(heap: Global, list: &Netlist) -> Result<String, ReportError>
    ensures { ReportedAs D.Delay.kind list.now result }
{
    let leads = leads_of::<D>(heap, list.places.as_slice())?;
    let wiring = Table {
        nodes: list.nodes as usize,
        leads: leads.as_slice(),
    };
    let survey = survey_of::<D, Table<D>>(heap, &wiring)?;
    let kind = list.kind;
    Ok(format!(in heap; "kind {kind}\n{survey}")?)
}

/// The report of the wiring that a text describes.
pub fn report(heap: Global, text: &[u8]) -> Result<String, ReportError>
    ensures { Reported (lines_of text.now) result }
{
    let list = read_netlist(heap, text)?;
    // a match, since each kind has a type of its own: a trait with a generic method would be longer
    match list.kind {
        KindName::Late => report_as::<Picoseconds>(heap, &list),
        KindName::Contact => report_as::<Contact>(heap, &list),
        KindName::Early => report_as::<Early<Picoseconds>>(heap, &list),
    }
}
