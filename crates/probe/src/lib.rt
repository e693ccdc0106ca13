//! The chooser behind C functions, one for each kind of delay, so that other programs can call it.
#![tactic(auto)]

ghost use Rattle.std.specs.Prelude.{◌≡◌};
ghost use Rattle.delay.specs.Delivered.{picosecond_kind, contact_kind, early_kind};
ghost use Rattle.probe.specs.declared.ProbeError.TheVariants.{Refused as RefusedBy, NoMemory};
ghost use Rattle.probe.specs.Answers.{answer_in};
ghost use Rattle.probe.specs.Probed.{Probed};

use crate::drawing_from::draw_from;
use delay::{Contact, Early, Picoseconds};
use drawing::Counts;
use lengths::check::Fault;
use std::alloc::{AllocError, AllocFailed, Global};
use wiring::refusals::Refusal;

pub mod drawing_from;

/// What stands at a place of a wiring: a lead with its delay, if one stands there.
// the C interface has no Option, so `stands` says whether the other fields count
#[repr(C)]
#[derive(Clone, Copy)]
pub struct Place {
    pub stands: bool,
    pub contacts: u8,
    pub tail: u16,
    pub head: u16,
    pub picoseconds: u32,
}

/// What a call answers: 0 and the numbers of paths and words, or why nothing was written, which is a
/// refusal's number, or 255 where memory is wanting.
// the C interface has no Result, so a number says which of the two this is
#[repr(C)]
#[derive(Clone, Copy)]
pub struct Answer {
    pub refusal: u8,
    pub paths: usize,
    pub words: usize,
}

// what `refusal` is where memory is wanting
const NO_MEMORY: u8 = 255;

/// Why there is no list.
// its like is the survey's error: one generic error could not come both from any reason and from want of memory
#[derive(Clone, Copy)]
pub enum ProbeError {
    /// the wiring breaks a limit, or a row is too short
    Refused(Refusal),
    NoMemory,
}

impl From<Fault> for ProbeError {
    fn from(fault: Fault) -> Self {
        ProbeError::Refused(fault.into())
    }
}

impl From<Refusal> for ProbeError {
    ghost from_gives = { λ e r. r ≡ RefusedBy e };

    fn from(refusal: Refusal) -> Self {
        ProbeError::Refused(refusal)
    }
}

impl From<AllocError> for ProbeError {
    ghost from_gives = { λ _ r. r ≡ NoMemory };

    fn from(_error: AllocError) -> Self {
        ProbeError::NoMemory
    }
}

impl<T: Drop> From<AllocFailed<T>> for ProbeError {
    ghost from_gives = { λ _ r. r ≡ NoMemory };

    fn from(_refused: AllocFailed<T>) -> Self {
        ProbeError::NoMemory
    }
}

impl From<Result<Counts, ProbeError>> for Answer {
    ghost from_gives = { λ res r. r ≡ answer_in res };

    fn from(res: Result<Counts, ProbeError>) -> Self {
        match res {
            Ok(Counts { paths, words }) => Answer {
                refusal: 0,
                paths,
                words,
            },
            Err(ProbeError::Refused(refusal)) => Answer {
                refusal: refusal.number(),
                paths: 0,
                words: 0,
            },
            Err(ProbeError::NoMemory) => Answer {
                refusal: NO_MEMORY,
                paths: 0,
                words: 0,
            },
        }
    }
}

// The three functions below differ in the kind alone: the C interface has no type parameters.

/// The list and a witness of a wiring under picoseconds alone, written into the rows.
#[unsafe(no_mangle)]
pub extern "C" fn probe_late(
    heap: Global,
    nodes: usize,
    places: &[Place],
    words: &mut [u16],
    witness: &mut [u16],
) -> Answer
    ensures { Probed picosecond_kind nodes places.now words.old witness.old words.new witness.new result }
{
    draw_from::<Picoseconds>(heap, nodes, places, words, witness).into()
}

/// The list and a witness of a wiring under picoseconds and contacts, written into the rows.
#[unsafe(no_mangle)]
pub extern "C" fn probe_contact(
    heap: Global,
    nodes: usize,
    places: &[Place],
    words: &mut [u16],
    witness: &mut [u16],
) -> Answer
    ensures { Probed contact_kind nodes places.now words.old witness.old words.new witness.new result }
{
    draw_from::<Contact>(heap, nodes, places, words, witness).into()
}

/// The list and a witness of a wiring under the early kind over picoseconds, written into the rows.
#[unsafe(no_mangle)]
pub extern "C" fn probe_early(
    heap: Global,
    nodes: usize,
    places: &[Place],
    words: &mut [u16],
    witness: &mut [u16],
) -> Answer
    ensures { Probed (early_kind picosecond_kind) nodes places.now words.old witness.old words.new witness.new result }
{
    draw_from::<Early<Picoseconds>>(heap, nodes, places, words, witness).into()
}
