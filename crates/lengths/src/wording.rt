//! Faults in words.
ghost use Rattle.std.specs.Prelude.{Some};
ghost use Rattle.lengths.specs.Wording.{fault_text, fill_error_text};

use crate::check::Fault;
use crate::table::FillError;
use std::fmt;

// The limit that is broken, and the lead that breaks it.
impl fmt::Display for Fault {
    ghost output = { λ f. Some (fault_text f) };

    fn fmt<W: fmt::Write>(&self, f: &mut fmt::Formatter<W>) -> fmt::Result {
        match self {
            Fault::Size => write!(f, "more than 4096 nodes or places"),
            Fault::Ends(place) => write!(
                f,
                "lead {place} does not run from a lower node to a higher one inside the wiring"
            ),
            Fault::Delay(place) => write!(
                f,
                "lead {place} has a delay that its kind does not allow"
            ),
        }
    }
}

impl fmt::Display for FillError {
    ghost output = { λ e. Some (fill_error_text e) };

    fn fmt<W: fmt::Write>(&self, f: &mut fmt::Formatter<W>) -> fmt::Result {
        match self {
            FillError::Unsound(fault) => write!(f, "{fault}"),
            FillError::Short => write!(f, "a length table is too short"),
        }
    }
}
