//! Reads the text of a small wiring, a circuit as a list of leads.
//!
//! The first line names the kind of delay, the second has the number of nodes, and each further
//! line is a place: `-` where it is vacant, or a lead, as `0-2:3`. Under the kind `contact` a lead
//! also has its contacts, as `0-2:3/1`. A number is decimal, with no sign and no leading zero.
#![tactic(auto)]

ghost use Rattle.std.specs.Prelude.{◌≡◌, Some};
ghost use Rattle.netlist.specs.declared.ReadError.TheVariants.{NoMemory};
ghost use Rattle.netlist.specs.Texts.{kind_text};
ghost use Rattle.netlist.specs.Forms.{lead_form, expected_text, error_text};

use std::alloc::AllocFailed;
use std::error::Error;
use std::fmt;

mod fields;
mod lines;
mod reading;

pub use fields::{read_kind, read_number, read_place};
pub use lines::LineReader;
pub use reading::read_netlist;

/// The kind of a wiring's delays. Under `Contact` each lead has a number of contacts beside its delay.
#[derive(Clone, Copy, PartialEq, Eq, Debug)]
pub enum KindName {
    Late,
    Contact,
    Early,
}

impl KindName {
    /// What a line that is no place of this kind should have been.
    pub fn lead(self) -> Expected
        ensures { result ≡ lead_form self }
    {
        match self {
            Self::Contact => Expected::LeadWithContacts,
            Self::Late | Self::Early => Expected::Lead,
        }
    }
}

/// A lead from the node `tail` to the node `head`. Under a kind without contacts it has 0 of them.
#[derive(Clone, Copy, PartialEq, Eq, Debug)]
pub struct Wire {
    pub tail: u32,
    pub head: u32,
    pub picoseconds: u32,
    pub contacts: u8,
}

/// A wiring: the places are numbered from 0, and `None` stands at a vacant one.
#[derive(PartialEq, Eq, Debug, Drop)]
pub struct Netlist {
    pub kind: KindName,
    pub nodes: u32,
    pub places: Vec<Option<Wire>>,
}

/// What a line should have been.
#[derive(Clone, Copy, PartialEq, Eq, Debug)]
pub enum Expected {
    Kind,
    Nodes,
    Lead,
    LeadWithContacts,
}

/// Why a text is not read. Lines are numbered from 1; the first two have to be there.
#[derive(Clone, Copy, PartialEq, Eq, Debug)]
pub enum ReadError {
    Line { number: usize, expected: Expected },
    NoMemory,
}

impl Error for ReadError {}

impl<T: Drop> From<AllocFailed<T>> for ReadError {
    ghost from_gives = { λ _ r. r ≡ NoMemory };

    fn from(_refused: AllocFailed<T>) -> ReadError {
        ReadError::NoMemory
    }
}

impl fmt::Display for KindName {
    ghost output = { λ k. Some (kind_text k) };

    fn fmt<W: fmt::Write>(&self, f: &mut fmt::Formatter<W>) -> fmt::Result {
        f.write_str(match self {
            Self::Late => "late",
            Self::Contact => "contact",
            Self::Early => "early",
        })
    }
}

impl fmt::Display for Expected {
    ghost output = { λ e. Some (expected_text e) };

    fn fmt<W: fmt::Write>(&self, f: &mut fmt::Formatter<W>) -> fmt::Result {
        f.write_str(match self {
            Self::Kind => "late, contact or early",
            Self::Nodes => "the number of nodes",
            Self::Lead => "tail-head:delay or -",
            Self::LeadWithContacts => "tail-head:delay/contacts or -",
        })
    }
}

impl fmt::Display for ReadError {
    ghost output = { λ e. Some (error_text e) };

    fn fmt<W: fmt::Write>(&self, f: &mut fmt::Formatter<W>) -> fmt::Result {
        match self {
            Self::Line { number, expected } => write!(f, "line {number}: expected {expected}"),
            Self::NoMemory => f.write_str("out of memory"),
        }
    }
}
