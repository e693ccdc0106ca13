//! A wiring with its links.
ghost use Rattle.listing.specs.Shows.{Shows};

use crate::links::Links;
use delay::Delay;
use std::marker::PhantomData;
use wiring::Wiring;

/// A wiring and the links that show its arcs.
#[derive(Drop)]
pub struct LinkedWiring<'a, D: Delay, W: Wiring<D>> {
    pub wiring: &'a W,
    pub links: Links<'a>,
    /// Which delays its leads have.
    pub delays: PhantomData<D>,
    pub ghost shows: { ∥ Shows D.Delay.kind (W.Wiring.net wiring.now) links ∥₁ },
}
