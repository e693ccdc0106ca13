//! The parts of a line: numbers, the name of a kind, a place. Each reader answers an Option: the number of
//! the line, which a refusal tells, is its caller's.
ghost use Rattle.std.specs.Prelude.{◌≡◌, ◌≢◌, ℕ, List, ◌∷◌, ◌++◌, decimal, MatchOption};
ghost use Rattle.std.specs.Int.{IsOutOfRange};
ghost use Rattle.netlist.specs.Texts.{Reads, Exactly, Lacks, Splits, Below, Any, Timed, InRange, PlaceInRange, kind_text, delay_text, wire_text, place_text};

use crate::{KindName, Wire};

// The parts of a text before and after the first byte that equals `mark`; the library has this of a `&str`,
// and a line need not be one.
pub(crate) fn split_once(text: &[u8], mark: u8) -> Option<(&[u8], &[u8])>
    ensures { MatchOption result (Lacks mark text.now) (λ p. Splits mark text.now p.0.now p.1.now) }
{
    let i = text.iter().position(|byte| *byte == mark)?;
    Some((&text[..i], &text[i + 1..]))
}

/// A number that fits 32 bits, in decimal, with no zero in front of its digits.
pub fn read_number(text: &[u8]) -> Option<u32>
    ensures { Exactly (Below 32) decimal text.now result }
{
    let first = *text.first()?;
    // the library would take a sign, and zeros in front
    if first == b'+' {
        return None;
    }
    if first == b'0' && text.len() > 1 {
        return None;
    }
    let text = str::from_utf8(text).ok()?;
    u32::from_str_radix(text, 10).ok()
}

// The number in front of the first `mark`, which is no digit, and what stands behind it.
fn read_before(text: &[u8], mark: u8) -> Option<(u32, &[u8])>
    requires { IsOutOfRange 48 57 mark }
    ensures { MatchOption result ((n : ℕ) (back : List ℕ) → Below 32 n → text.now ≢ decimal n ++ (mark ∷ back)) (λ p. Below 32 p.0 × (text.now ≡ decimal p.0 ++ (mark ∷ p.1.now))) }
{
    let (number, back) = split_once(text, mark)?;
    Some((read_number(number)?, back))
}

// A count of contacts, in decimal.
fn read_contacts(text: &[u8]) -> Option<u8>
    ensures { Reads (Below 8) decimal text.now result }
{
    let n = read_number(text)?;
    u8::try_from(n).ok()
}

/// The kind that a line names.
pub fn read_kind(line: &[u8]) -> Option<KindName>
    ensures { Exactly Any kind_text line.now result }
{
    match line {
        b"late" => Some(KindName::Late),
        b"contact" => Some(KindName::Contact),
        b"early" => Some(KindName::Early),
        _ => None,
    }
}

// The delay and the contacts that stand after the colon of a lead.
#[tactic(auto, using(crate::proofs::Splitting::number_tail))]
fn read_delay(kind: KindName, text: &[u8]) -> Option<(u32, u8)>
    ensures { Reads (Timed kind) (delay_text kind) text.now result }
{
    match kind {
        KindName::Contact => {
            let (delay, contacts) = read_before(text, b'/')?;
            Some((delay, read_contacts(contacts)?))
        }
        KindName::Late | KindName::Early => Some((read_number(text)?, 0)),
    }
}

// A lead, as `tail-head:delay`.
#[tactic(auto, using(crate::proofs::Splitting::number_tail))]
fn read_wire(kind: KindName, line: &[u8]) -> Option<Wire>
    ensures { Reads (InRange kind) (wire_text kind) line.now result }
{
    let (tail, rest) = read_before(line, b'-')?;
    let (head, rest) = read_before(rest, b':')?;
    let (picoseconds, contacts) = read_delay(kind, rest)?;
    Some(Wire {
        tail,
        head,
        picoseconds,
        contacts,
    })
}

/// A line of a place: a lead, or a dash where it is vacant.
pub fn read_place(kind: KindName, line: &[u8]) -> Option<Option<Wire>>
    ensures { Exactly (PlaceInRange kind) (place_text kind) line.now result }
{
    match line {
        b"-" => Some(None),
        _ => Some(Some(read_wire(kind, line)?)),
    }
}
