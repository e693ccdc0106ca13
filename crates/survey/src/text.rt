//! The survey as text.
ghost use Rattle.std.specs.Prelude.{◌≡◌, Some};
ghost use Rattle.survey.specs.Texts.{mark_of, survey_error_text};

use crate::{LeadRow, Survey, SurveyError};
use delay::Delay;
use std::fmt;
use wiring::Lead;
use wiring::refusals::Refusal;

// y for yes, n for no.
fn mark(yes: bool) -> char
    ensures { result ≡ mark_of yes }
{
    if yes { 'y' } else { 'n' }
}

// Ends, delay and type of a lead, and the longest path through it, as `0-2:3 type yy path 3`.
impl<D: Delay + fmt::Display> fmt::Display for LeadRow<D> {
    fn fmt<W: fmt::Write>(&self, f: &mut fmt::Formatter<W>) -> fmt::Result {
        let Lead { tail, head, delay } = self.lead;
        let drains = mark(self.drains);
        let fed = mark(self.fed);
        let path = self.longest;
        write!(f, "{tail}-{head}:{delay} type {drains}{fed} path {path}")
    }
}

// A line for each count, node and place, and a last one for the longest path.
impl<D: Delay + fmt::Display> fmt::Display for Survey<D> {
    fn fmt<W: fmt::Write>(&self, f: &mut fmt::Formatter<W>) -> fmt::Result {
        writeln!(f, "nodes {}", self.nodes.len())?;
        writeln!(f, "places {}", self.places.len())?;
        write_nodes(self, f)?;
        write_places(self, f)?;
        match self.longest {
            Some(delay) => writeln!(f, "longest {delay}"),
            None => writeln!(f, "no path"),
        }
    }
}

fn write_nodes<D: Delay + fmt::Display, W: fmt::Write>(
    survey: &Survey<D>,
    f: &mut fmt::Formatter<W>,
) -> fmt::Result {
    for (node, row) in survey.nodes.iter().enumerate() {
        writeln!(f, "node {node} to {} from {}", row.to, row.from)?;
    }
    Ok(())
}

fn write_places<D: Delay + fmt::Display, W: fmt::Write>(
    survey: &Survey<D>,
    f: &mut fmt::Formatter<W>,
) -> fmt::Result {
    for (place, row) in survey.places.iter().enumerate() {
        match row {
            Some(lead) => writeln!(f, "lead {place} {lead}")?,
            None => writeln!(f, "vacant {place}")?,
        }
    }
    Ok(())
}

// The refusal's number, and why.
impl fmt::Display for SurveyError {
    ghost output = { λ e. Some (survey_error_text e) };

    fn fmt<W: fmt::Write>(&self, f: &mut fmt::Formatter<W>) -> fmt::Result {
        match self {
            SurveyError::Refused(error) => {
                let number = Refusal::from(*error).number();
                write!(f, "refused {number}: {error}")
            }
            SurveyError::NoMemory => f.write_str("out of memory"),
        }
    }
}
