//! Kinds of delay. A kind says what a lead's delay is, how delays add up and which of two is
//! below the other; everything above this crate works for every kind.
#![tactic(auto)]

ghost use Rattle.std.specs.Prelude.{◌≡◌, ◌+◌, Some};
ghost use Rattle.delay.specs.Kind.{Kind, Laws, Together};
ghost use Rattle.delay.specs.Delivered.{picosecond_kind, contact_kind, early_kind};
ghost use Rattle.delay.specs.Shown.{picoseconds_text, contact_text};
ghost use Rattle.delay.specs.DeliveredLaws.{picosecond_laws, contact_laws, early_laws};

use std::fmt;

/// The most picoseconds that a lead may have under the picosecond and the contact kind.
pub const MOST_PICOSECONDS: u32 = 1_000_000;

/// The most contacts that a lead may have under the contact kind.
pub const MOST_CONTACTS: u32 = 255;

/// A kind of delay. `kind` is its meaning, `laws` what every kind must show; no method refuses.
pub trait Delay: Copy {
    ghost kind: { Kind Self };

    /// The delay of a run with no lead.
    fn zero() -> Self
        ensures { result ≡ kind.zero };

    /// The delay of two runs, one after the other.
    fn plus(self, other: Self) -> Self
        ensures { result ≡ kind.plus self other };

    /// Whether this delay comes before the other one; the longest delay is the one below none.
    fn below(self, other: Self) -> bool
        ensures { result ≡ kind.below self other };

    /// Whether a single lead may have this delay.
    fn lawful(self) -> bool
        ensures { result ≡ kind.lawful self };

    /// The delay of a lead with these picoseconds and contacts.
    fn read(picoseconds: u32, contacts: u8) -> Self
        ensures { result ≡ kind.reading picoseconds contacts };

    ghost laws: { Laws kind };
}

/// The picosecond kind: picoseconds alone.
#[derive(Clone, Copy, PartialEq, Eq, Debug)]
pub struct Picoseconds(pub u32);

impl Delay for Picoseconds {
    ghost kind = { picosecond_kind };

    ghost laws = { picosecond_laws };

    fn zero() -> Self {
        Picoseconds(0)
    }

    // Saturates, so that no sum wraps; below the limit nothing saturates.
    fn plus(self, other: Self) -> Self
        ensures meant { result ≡ picosecond_kind.plus self other }
        ensures exact { Together picosecond_kind self other → result.0 ≡ self.0 + other.0 }
    {
        Picoseconds(self.0.saturating_add(other.0))
    }

    fn below(self, other: Self) -> bool {
        self.0 < other.0
    }

    fn lawful(self) -> bool {
        self.0 <= MOST_PICOSECONDS
    }

    fn read(picoseconds: u32, _contacts: u8) -> Self {
        Picoseconds(picoseconds)
    }
}

/// The contact kind: picoseconds, and among equal picoseconds the number of contacts. Delays compare
/// by their fields in this order.
#[derive(Clone, Copy, PartialEq, Eq, PartialOrd, Ord, Debug)]
pub struct Contact {
    pub picoseconds: u32,
    pub contacts: u32,
}

impl Delay for Contact {
    ghost kind = { contact_kind };

    ghost laws = { contact_laws };

    fn zero() -> Self {
        Contact {
            picoseconds: 0,
            contacts: 0,
        }
    }

    fn plus(self, other: Self) -> Self
        ensures meant { result ≡ contact_kind.plus self other }
        ensures exact { Together contact_kind self other → (result.picoseconds ≡ self.picoseconds + other.picoseconds) × (result.contacts ≡ self.contacts + other.contacts) }
    {
        Contact {
            picoseconds: self.picoseconds.saturating_add(other.picoseconds),
            contacts: self.contacts.saturating_add(other.contacts),
        }
    }

    fn below(self, other: Self) -> bool {
        self < other
    }

    fn lawful(self) -> bool {
        self.picoseconds <= MOST_PICOSECONDS && self.contacts <= MOST_CONTACTS
    }

    fn read(picoseconds: u32, contacts: u8) -> Self {
        Contact {
            picoseconds,
            contacts: contacts as u32,
        }
    }
}

/// The early kind over any kind: the order turned round, so that the longest path is the earliest one.
#[derive(Clone, Copy, PartialEq, Eq, Debug)]
pub struct Early<K>(pub K);

impl<K: Delay> Delay for Early<K> {
    ghost kind = { early_kind K.Delay.kind };

    ghost laws = { early_laws K.Delay.laws };

    fn zero() -> Self {
        Early(K::zero())
    }

    fn plus(self, other: Self) -> Self {
        Early(self.0.plus(other.0))
    }

    fn below(self, other: Self) -> bool {
        other.0.below(self.0)
    }

    fn lawful(self) -> bool {
        self.0.lawful()
    }

    fn read(picoseconds: u32, contacts: u8) -> Self {
        Early(K::read(picoseconds, contacts))
    }
}

/// The picoseconds in decimal, as `1200`.
impl fmt::Display for Picoseconds {
    ghost output = { λ d. Some (picoseconds_text d) };

    fn fmt<W: fmt::Write>(&self, f: &mut fmt::Formatter<W>) -> fmt::Result {
        write!(f, "{}", self.0)
    }
}

/// The picoseconds, a slash and the contacts, as `1200/3`.
impl fmt::Display for Contact {
    ghost output = { λ d. Some (contact_text d) };

    fn fmt<W: fmt::Write>(&self, f: &mut fmt::Formatter<W>) -> fmt::Result {
        write!(f, "{}/{}", self.picoseconds, self.contacts)
    }
}

/// As the kind below shows it.
impl<K: fmt::Display> fmt::Display for Early<K> {
    ghost output = { λ d. K.Display.output d.0 };

    fn fmt<W: fmt::Write>(&self, f: &mut fmt::Formatter<W>) -> fmt::Result {
        self.0.fmt(f)
    }
}
