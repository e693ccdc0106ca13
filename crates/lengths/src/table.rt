//! Tables of longest lengths, one entry a node, for every kind of delay.
ghost use Rattle.std.specs.Prelude.{◌≡◌, ℕ, ◌-◌, ◌<◌, ◌≤◌, length, drop, Ok, Err, slice_index_or};
ghost use Rattle.lengths.specs.declared.table.FillError.TheVariants.{Unsound};
ghost use Rattle.wiring.specs.Net.{Sound};
ghost use Rattle.lengths.specs.Check.{NotFilled, refusal_for};
ghost use Rattle.lengths.specs.Tables.{entry, HoldsTo, HoldsFrom, Refilled, Untouched};
ghost use Rattle.wiring.specs.Views.{turned_net};

use crate::check::{Fault, check};
use crate::measure::{Measure, Scan, fill_row, mirror_row};
use delay::Delay;
use wiring::refusals::Refusal;
use wiring::{Wiring, turn_round};

/// Why a length table is not filled.
#[derive(Clone, Copy, PartialEq, Eq, Debug)]
pub enum FillError {
    /// the wiring breaks a limit
    Unsound(Fault),
    /// the table has fewer entries than the wiring has nodes
    Short,
}

/// The refusal under which the error is reported.
impl From<FillError> for Refusal {
    ghost from_gives = { λ e r. r ≡ refusal_for e };

    fn from(error: FillError) -> Self {
        match error {
            FillError::Unsound(fault) => fault.into(),
            FillError::Short => Refusal::Room,
        }
    }
}

impl From<Fault> for FillError {
    ghost from_gives = { λ f r. r ≡ Unsound f };

    fn from(fault: Fault) -> Self {
        FillError::Unsound(fault)
    }
}

// The length at v, zero past the end; the table stays as it was.
fn entry_of<D: Delay>(table: &mut [D], v: usize) -> D
    ensures read { result ≡ entry D.Delay.kind table.old v }
    ensures kept { table.new ≡ table.old }
{
    table.get(v).copied().unwrap_or(D::zero())
}

/// A table of lengths over a lent slice, asked by node number.
#[derive(Drop)]
pub struct Lengths<'a, D> {
    pub table: &'a mut [D],
}

impl<'a, D: Delay> Lengths<'a, D> {
    /// Works on the lent slice.
    pub fn new(table: &'a mut [D]) -> Self
        ensures holds { result.table.now ≡ table.old }
        ensures lender { result.table.ghost_name ≡ table.entry.ghost_name }
    {
        Lengths { table }
    }

    /// The length at a node, zero past the end; the table stays as it was.
    pub fn at(&mut self, node: usize) -> D
        ensures read { result ≡ entry D.Delay.kind self.old.table.now node }
        ensures kept { Untouched self.old self.new }
    {
        entry_of(self.table, node)
    }

    /// How many entries the table has.
    pub fn len(&self) -> usize
        ensures { result ≡ length self.now.table.now }
    {
        self.table.len()
    }

    /// Fills the table with To of every node of the wiring that is measured.
    pub fn fill<M: Measure<D>>(&mut self, measure: &M)
        requires ready { M.Measure.ready measure.now }
        requires room { (M.Measure.net measure.now).nodes ≤ length self.old.table.now }
        ensures filled { HoldsTo D.Delay.kind (M.Measure.net measure.now) self.new.table.now }
        ensures rest { Refilled (M.Measure.net measure.now).nodes self.old self.new }
    {
        fill_row(measure, self.table);
    }

    /// Reads the table backwards: it held To of the turned wiring, and then holds From.
    pub fn turn_back<W: Wiring<D>>(&mut self, w: &W)
        requires sound { Sound D.Delay.kind (W.Wiring.net w.now) }
        requires room { (W.Wiring.net w.now).nodes ≤ length self.old.table.now }
        requires turned { HoldsTo D.Delay.kind (turned_net (W.Wiring.net w.now)) self.old.table.now }
        ensures filled { HoldsFrom D.Delay.kind (W.Wiring.net w.now) self.new.table.now }
        ensures rest { Refilled (W.Wiring.net w.now).nodes self.old self.new }
    {
        mirror_row(self.table, w.nodes());
    }

    // Fills the table with To, where the wiring is sound and the table long enough.
    pub(crate) fn put_to<W: Wiring<D>>(&mut self, w: &W)
        requires sound { Sound D.Delay.kind (W.Wiring.net w.now) }
        requires room { (W.Wiring.net w.now).nodes ≤ length self.old.table.now }
        ensures filled { HoldsTo D.Delay.kind (W.Wiring.net w.now) self.new.table.now }
        ensures rest { Refilled (W.Wiring.net w.now).nodes self.old self.new }
    {
        self.fill(&Scan { under: w });
    }

    // The same with From: To of the turned view, read backwards.
    pub(crate) fn put_from<W: Wiring<D>>(&mut self, w: &W)
        requires sound { Sound D.Delay.kind (W.Wiring.net w.now) }
        requires room { (W.Wiring.net w.now).nodes ≤ length self.old.table.now }
        ensures filled { HoldsFrom D.Delay.kind (W.Wiring.net w.now) self.new.table.now }
        ensures rest { Refilled (W.Wiring.net w.now).nodes self.old self.new }
    {
        let turned = turn_round(w);
        self.fill(&Scan { under: &turned });
        self.turn_back(w);
    }

    /// Fills the table with To of every node of the wiring. Entries past the nodes stay; a wiring
    /// that breaks a limit, or a table that is too short, is refused and the table stays whole.
    pub fn fill_to<W: Wiring<D>>(&mut self, w: &W) -> Result<(), FillError>
        ensures answer { elim result [
          | Ok _ ↦ Sound D.Delay.kind (W.Wiring.net w.now)
              × ((W.Wiring.net w.now).nodes ≤ length self.old.table.now)
              × HoldsTo D.Delay.kind (W.Wiring.net w.now) self.new.table.now
              × (drop (W.Wiring.net w.now).nodes self.new.table.now ≡ drop (W.Wiring.net w.now).nodes self.old.table.now)
          | Err e ↦ NotFilled D.Delay.kind (W.Wiring.net w.now) (length self.old.table.now) e
              × (self.new.table.now ≡ self.old.table.now)
        ] }
        ensures lender { self.new.table.ghost_name ≡ self.old.table.ghost_name }
    {
        check(w)?;
        if self.len() < w.nodes() {
            return Err(FillError::Short);
        }
        self.put_to(w);
        Ok(())
    }

    /// Fills the table with From of every node of the wiring, by the same search on the turned
    /// view. What stays and what is refused is as in `fill_to`.
    pub fn fill_from<W: Wiring<D>>(&mut self, w: &W) -> Result<(), FillError>
        ensures answer { elim result [
          | Ok _ ↦ Sound D.Delay.kind (W.Wiring.net w.now)
              × ((W.Wiring.net w.now).nodes ≤ length self.old.table.now)
              × HoldsFrom D.Delay.kind (W.Wiring.net w.now) self.new.table.now
              × (drop (W.Wiring.net w.now).nodes self.new.table.now ≡ drop (W.Wiring.net w.now).nodes self.old.table.now)
          | Err e ↦ NotFilled D.Delay.kind (W.Wiring.net w.now) (length self.old.table.now) e
              × (self.new.table.now ≡ self.old.table.now)
        ] }
        ensures lender { self.new.table.ghost_name ≡ self.old.table.ghost_name }
    {
        check(w)?;
        if self.len() < w.nodes() {
            return Err(FillError::Short);
        }
        self.put_from(w);
        Ok(())
    }
}
