//! The check of a wiring, lead by lead; the first lead that breaks a limit decides.
ghost use Rattle.std.specs.Prelude.{◌≡◌, Some, None, Ok, Err};
ghost use Rattle.wiring.specs.declared.Lead.{Lead as LeadRecord};
ghost use Rattle.wiring.specs.Net.{Sound};
ghost use Rattle.lengths.specs.declared.check.Fault.{Fault as FaultCase};
ghost use Rattle.lengths.specs.Check.{Keeps, Breaks, Finds, refusal_of};

use delay::Delay;
use wiring::refusals::Refusal;
use wiring::{Lead, Wiring};

/// The most nodes and the most places that a wiring may have.
pub const MOST: usize = 4096;

/// The limit that a wiring breaks.
#[derive(Clone, Copy, PartialEq, Eq, Debug)]
pub enum Fault {
    /// more than 4,096 nodes or places
    Size,
    /// the lead at this place has its tail not below its head, or its head past the last node
    Ends(usize),
    /// the lead at this place has a delay that is not lawful for the kind
    Delay(usize),
}

/// The refusal under which the fault is reported.
impl From<Fault> for Refusal {
    ghost from_gives = { λ f r. r ≡ refusal_of f };

    fn from(fault: Fault) -> Self {
        match fault {
            Fault::Size => Refusal::Size,
            Fault::Ends(_) => Refusal::Ends,
            Fault::Delay(_) => Refusal::Delay,
        }
    }
}

// What is wrong at one place: the ends are judged before the delay.
fn fault_at<D: Delay>(nodes: usize, place: usize, lead: Option<Lead<D>>) -> Option<Fault>
    ensures { elim result [
      | None ↦ ((l : LeadRecord D) → lead ≡ Some l → Keeps D.Delay.kind nodes l)
      | Some f ↦ ((l : LeadRecord D) × (lead ≡ Some l) × Breaks D.Delay.kind nodes place l f)
    ] }
{
    let l = lead?;
    if l.tail >= l.head || l.head >= nodes {
        return Some(Fault::Ends(place));
    }
    if !l.delay.lawful() {
        return Some(Fault::Delay(place));
    }
    None
}

/// Checks a wiring for a kind of delay: the size first, then every lead in ascending place number.
pub fn check<D: Delay, W: Wiring<D>>(w: &W) -> Result<(), Fault>
    ensures found { elim result [
      | Ok _ ↦ Sound D.Delay.kind (W.Wiring.net w.now)
      | Err f ↦ Finds D.Delay.kind (W.Wiring.net w.now) f
    ] }
    ensures fault { (f : FaultCase) → Finds D.Delay.kind (W.Wiring.net w.now) f → result ≡ Err f }
    ensures none { Sound D.Delay.kind (W.Wiring.net w.now) → result ≡ Ok tt }
{
    let nodes = w.nodes();
    if nodes > MOST || w.places() > MOST {
        return Err(Fault::Size);
    }
    for place in 0..w.places() {
        if let Some(fault) = fault_at(nodes, place, w.lead(place)) {
            return Err(fault);
        }
    }
    Ok(())
}
